//! What no contract says about the command line: which lines are read, and the parser's texts.

mod texts;

use std::process::Abort;
use std::test::Fail;
use texts::text_of;

/// Lines that are read: with each option, in any order, and numbers at the ends of their bounds.
static READ: [&str; 71] = [
    "run mul.bin",
    "run a --base 4294967292 --size 4 --limit 1",
    "cut a 1 1",
    "cut a --base 4294967292 4294967296 --size=4 262079",
    "cut --size 8 -- -a 2 3",
    "cut --symbols a 2 3",
    "parts a 1",
    "parts a --base 4294967292 --size=4 262079",
    "times study 0 a",
    "times study 16383 -- -a",
    "times study alu=2,mul=1 a",
    "times study = a",
    "times study +7 a",
    "stalls study 0 a",
    "stalls study 0 a --by-pc",
    "stalls --by-pc study 16383 -- -a",
    "stalls study 0 a --by-function",
    "stalls --by-function study --by-pc 16383 -- -a",
    "path study 0 a",
    "path study 0 a --links",
    "path --by-function study 16383 --by-pc -- -a",
    "loops study 0 a",
    "loops study alu=2 -- -a",
    "pipeline study 0 a",
    "pipeline study 0 a --konata",
    "pipeline study 0 a --from 262144 --steps 1",
    "pipeline --konata --steps=262144 study 16383 -- -a",
    "pipeline --konata --from 2 --steps 3 -- study 16383 -a",
    "tables study 0 a 0",
    "tables study 16383 -- -a 17563648",
    "animate study 0 a",
    "animate study 0 a --cycles 256 --from 17563648",
    "animate --from=2 --cycles=1 study 16383 -- -a",
    "animate study 0 --blank a",
    "run --limit=262144 --size=1048576 a",
    "run --size 4 -- -x",
    "all study.toml",
    "explore study.toml",
    "explore --workers 32 a",
    "find a",
    "find a alu=2 -- -b",
    "front a",
    "front a --workers 2",
    "front --hull a --workers 2",
    "plot a",
    "plot --workers=32 a",
    "plot --rows a",
    "plot a --workers 3 --rows",
    "rows a",
    "rows a --workers 32",
    "worth a 0",
    "worth --workers=32 a 16383",
    "worth a row=3 --csv",
    "choices a",
    "choices --workers 2 --csv a",
    "prices a",
    "prices --csv --workers 2 a",
    "weights a",
    "weights --workers 2 a --csv",
    "compare a b c",
    "compare --workers 2 --csv a c b",
    "functions a 16383 b c",
    "functions a x=y b c",
    "page a",
    "page a --workers 32",
    "page --choices a --workers 2",
    "explain",
    "explain image: segment",
    "explain tomex: fault: illegal at 00000098",
    "explain a -- --b",
    "explain a b c d e f g h i j k l",
];

/// Lines that ask for help, and one without a command, with the beginnings and ends of their texts.
static TOLD: [(&str, &str, &str); 44] = [
    ("parts --help", "help Prints which parts stand", ""),
    ("parts -h", "help Prints which parts of a long run", ""),
    ("cut --help", "help Writes an image, an ELF file", ""),
    ("cut -h", "help Writes a part of a program's run", ""),
    (
        "times --help",
        "help Prints, for each instruction",
        "\n  total,-,-,-,-,-,-,8,-\n",
    ),
    ("stalls --help", "help Prints, for each part", ""),
    ("stalls -h", "help Prints how long", ""),
    ("path --help", "help Prints why a program", ""),
    ("loops --help", "help Prints the loops of a program", ""),
    ("loops -h", "help Prints a run's loops", ""),
    ("path -h", "help Prints a run's", ""),
    ("pipeline --help", "help Draws the instructions", ""),
    ("pipeline -h", "help Draws what instructions", ""),
    (
        "tables --help",
        "help Prints the tables",
        "\n  x3 Qi=mul0\n",
    ),
    ("animate --help", "help Prints a web page", ""),
    ("animate -h", "help Shows a run", ""),
    ("tables -h", "help Prints the stations", ""),
    (
        "all --help",
        "help Runs every program",
        ",matrix,6625,22408,ebreak,..\n",
    ),
    (
        "explore --help",
        "help Runs the programs",
        ",matrix,6625,22408,ebreak,..\n",
    ),
    (
        "front --help",
        "help Explores a study as `explore` does, and prints the front as a table",
        "\n    4    85       8  0.12    2            3      1\n",
    ),
    (
        "plot --help",
        "help Explores a study as `explore` does, and prints the front as a picture",
        " width=\"720\" height=\"440\" ..\n",
    ),
    (
        "rows --help",
        "help Prints the cost and the exact cycles",
        "",
    ),
    (
        "rows -h",
        "help Prints the cycles of every configuration",
        "",
    ),
    ("worth --help", "help Prints what each change", ""),
    ("worth -h", "help Prints what one more", ""),
    (
        "choices --help",
        "help Prints, for each list of a study",
        "",
    ),
    ("choices -h", "help Prints which choices of each list", ""),
    ("weights --help", "help Prints between which values", ""),
    ("compare --help", "help Prints how many cycles", ""),
    ("compare -h", "help Prints on which configurations", ""),
    ("functions --help", "help Prints, for one of the study", ""),
    ("functions -h", "help Prints what each function takes", ""),
    ("page --help", "help Prints a report of a study", ""),
    ("page -h", "help Prints a study's report", ""),
    (
        "prices --help",
        "help Prints, for each configuration on the front",
        "",
    ),
    ("explain --help", "help Prints what a refusal means", ""),
    ("explain -h", "help Explains a refusal", ""),
    (
        "--help",
        "help Runs RV32IM programs",
        "hexadecimal too, as in 0x10000.\n",
    ),
    ("-h", "help Runs RV32IM programs", ""),
    (
        "run --help",
        "help Runs an image",
        "\n  ebreak at 0000000c after 4\n",
    ),
    (
        "run -h",
        "help Runs an image",
        "Print help (see more with '--help')\n",
    ),
    ("help run", "help Runs an image", ""),
    ("--version", "help tomex 0.1.0\n", ""),
    ("walk", "usage error: unrecognized subcommand 'walk'", ""),
];

/// Lines that are refused.
static REFUSED: [&str; 59] = [
    "run a --base 4294967293",
    "run a --base -4",
    "run a --base 0x10",
    "run a --size 3",
    "run a --size 1048577",
    "run a --size 8 --size 8",
    "run a --limit 0",
    "run a --limit 262145",
    "run a b",
    "run",
    "parts a 0",
    "parts a 262080",
    "parts a",
    "parts a 1 1",
    "cut a 0 1",
    "cut a 4294967297 1",
    "cut a 18446744073709551616 1",
    "cut a 1 0",
    "cut a 1 262080",
    "cut a 1",
    "cut a 1 1 --limit 5",
    "cut a 1 1 --symbols=1",
    "times study 0",
    "choices",
    "weights",
    "prices study --csv --csv",
    "compare study a b --csv=1",
    "page study --choices --choices",
    "page study --choices=1",
    "compare study a",
    "compare study a b c",
    "functions study 0 a",
    "stalls study 0",
    "stalls study 0 a --by-pc 1",
    "stalls study 0 a --by-pc --by-pc",
    "stalls study 0 a --by-function=1",
    "stalls study 0 a --by-function --by-function",
    "path study 0 a --links --links",
    "loops study 0",
    "loops study 0 a --by-pc",
    "pipeline study 0",
    "pipeline study 0 a --from 0",
    "pipeline study 0 a --from 262145",
    "pipeline study 0 a --steps 0",
    "pipeline study 0 a --steps 262145",
    "pipeline study 0 a --konata 1",
    "pipeline study 0 a --konata --konata",
    "animate study 0 a --from 0",
    "animate study 0 a --from 17563649",
    "animate study 0 a --cycles 0",
    "animate study 0 a --cycles 257",
    "animate study 0 a --blank 1",
    "animate study 0 a --blank --blank",
    "animate study 0",
    "tables study 0 a 17563649",
    "tables study 0 a -1",
    "tables study 0 a 0x1",
    "tables study 0 a",
    "explain --b",
];

/// Lines whose CONFIG is neither a number within bounds nor choices.
static NO_CONFIG: [&str; 11] = [
    "times study 16384 a",
    "times study 0x1 a",
    "functions study 16384 a b",
    "stalls study 16384 a",
    "path study 16384 a",
    "pipeline study 16384 a",
    "animate study 16384 a",
    "tables study 16384 a 0",
    "worth study 16384",
    "worth study alu",
    "path study alu,mul a",
];

/// The end of the text of a mistake.
const SEE_HELP: &str = "\n\nFor more information, try '--help'.\n";

/// Stops if the result of a line doesn't begin and end with these.
fn is_within<R: Abort + AllocGlobal>(
    rt: &R,
    line: &str,
    start: &str,
    end: &str,
) -> Result<(), Fail> {
    let text = text_of(rt.alloc(), line)?;
    assert!(rt;
        text.starts_with(start) && text.ends_with(end),
        "{line}: {text}"
    );
    Ok(())
}

#[test]
fn lines_are_read_or_refused(rt: HostRuntime) -> Result<(), Fail> {
    for (lines, start, end) in [
        (READ.as_slice(), "read", ""),
        (REFUSED.as_slice(), "usage error: ", SEE_HELP),
        (
            NO_CONFIG.as_slice(),
            "usage error: CONFIG missing",
            " or out of range\n",
        ),
    ] {
        for line in lines {
            is_within(&rt, *line, start, end)?;
        }
    }
    Ok(())
}

#[test]
fn help_is_given(rt: HostRuntime) -> Result<(), Fail> {
    for (line, start, end) in &TOLD {
        is_within(&rt, line, start, end)?;
    }
    Ok(())
}
