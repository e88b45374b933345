//! Refusals by commands themselves.

ghost use Rattle.std.specs.Prelude.{◌≡◌};
ghost use Rattle.tomex_refusals.specs.Commands.{advice_of, form_of, words_of};

/// A refusal by a command itself.
#[derive(Clone, Copy)]
pub enum CommandRefusal {
    /// A file can't be read.
    CannotRead,
    /// No configuration of the study has that choice.
    NoSuchChoice,
    /// Base and size don't make a window.
    BadWindow,
    /// A run has more instructions than it may have.
    TooLong,
    /// The study has no configuration of that number, or with all of the choices.
    NoSuchRow,
    /// The study has several configurations with these choices.
    SeveralRows,
    /// The study has no program of that name.
    NoSuchProgram,
    /// The program's file has no symbols.
    NoSymbols,
    /// The run has fewer instructions.
    NoSuchStep,
    /// A part of a run has no end.
    NoEnd,
    /// A part's code was overwritten before it.
    CodeOverwritten,
    /// A part leaves no room for the instructions before it.
    NoRoom,
    /// The picture would have too many signs.
    PictureTooLarge,
    /// The table would have too many intervals.
    TableTooLarge,
    /// The run ends before that cycle.
    CyclePastEnd,
    /// The output failed before the end of the text.
    CannotWrite,
    /// An image would be written to a terminal.
    OnTerminal,
    /// The system can't start another thread.
    ThreadRefused,
    /// The system has no more memory.
    OutOfMemory,
    /// The words don't name a refusal.
    NoSuchRefusal,
}

const CANNOT_READ: &str =
    "The file NAME can't be read: there is none, it is a folder, it may not be read,
or it has more than 256 MiB. Names, those in a study too, are taken from the
folder in which tomex is started, and not from the study's: `cd` to the folder
of the study, or write the names as they are seen from where you are.
";

const NO_SUCH_CHOICE: &str =
    "No configuration of the study has CHOICE. A choice is NAME=NUMBER, as alu=4: a
name of a column of `tomex find STUDY` or `tomex explore STUDY`, and a number
that some configuration has there, as it is printed. For `tomex find` each
choice is a word of its own; in CONFIG commas join them, without spaces. A
unit's option is two choices: mul_units=1 and mul_latency=3.
";

const BAD_WINDOW: &str = "The address of memory, `--base`, or its number of bytes, `--size`, is no
multiple of 4, or memory would end after address 2^32.
";

const TOO_LONG: &str =
    "The program didn't end within its limit of instructions: `--limit`, or `limit`
in a study, 262144 if nothing else is said, and no more than that. It has to end
by ECALL or EBREAK. Give it less to do, or explore parts of its run: `tomex
parts` says which stand for it, and `tomex cut` makes a program of each. If it
waits for something, it waits for ever.
";

const NO_SUCH_ROW: &str =
    "CONFIG is no configuration of the study. They are numbered from 0: `tomex find
STUDY` lists them all, and `tomex front STUDY` those on the front. If CONFIG
has choices, or `tomex find` says so, no configuration has all of them at once.
";

const SEVERAL_ROWS: &str =
    "The choices that CONFIG names fit N configurations of the study. `tomex find
STUDY` lists them, with the same choices as words of their own: add one in
which they differ, as alu=4,buses=1, or write a configuration's number.
";

const NO_SUCH_PROGRAM: &str =
    "PROGRAM is the `name` of one of the study's programs, as written there, and not
the name of its file. `tomex compare` and `tomex functions` take two, and the
study may lack either of them.
";

const NO_SYMBOLS: &str =
    "`--by-function` takes the names of functions from the program's file, which has
none: it is a flat file, or an ELF file whose symbols were stripped. Link without
`-s`, don't `strip` it, and name the ELF file in the study. `readelf -s FILE`
lists the symbols (FUNC). `tomex functions` needs those of both its programs.
";

const NO_SUCH_STEP: &str =
    "The program ends before the instruction that `--from`, or FROM of `tomex cut`,
names, or has fewer than STEPS of `tomex parts`. `tomex times STUDY CONFIG
PROGRAM` numbers them, from 1.
";

const NO_END: &str = "A part of a run, from its step STEPS on, ends if the run ends, or before an
instruction in a word of memory that none of its steps has used. After 262,079
steps there was none: the program goes on in a loop. Cut it at another step, or
with fewer steps. `tomex parts` found none for any part: try fewer steps.
";

const CODE_OVERWRITTEN: &str =
    "The program wrote instructions of the part before the part begins. An image runs
what its file has, so this part can't be cut: cut it at an earlier step, or a
part that doesn't run that code.
";

const NO_ROOM: &str = "The 64 instructions before a part need 61 words of memory in a row, and three
near its first instruction, that the part doesn't use. Give the program more
memory, by `--size`; or cut fewer steps, or at another step.
";

const PICTURE_TOO_LARGE: &str =
    "The instructions shown, times the cycles from the first one's issue to the last
one's end, are more than 16777216. Take fewer, by `--from` and `--steps`, or use
`--konata`, which has no limit.
";

const TABLE_TOO_LARGE: &str =
    "The rows of the front times the prices that have a column in `tomex prices` are
more than 262144. Take a study with fewer configurations, or with fewer options
of a kind of unit.
";

const CYCLE_PAST_END: &str =
    "CYCLE, of `tomex tables` or of `tomex animate --from`, is greater than the run's
total, which is in the last line of `tomex times STUDY CONFIG PROGRAM`.
";

const CANNOT_WRITE: &str =
    "The standard output didn't take the whole text: it is closed, its device is
full, or the program that reads it ended, as `head` does.
";

const ON_TERMINAL: &str =
    "An image isn't text, and a terminal shows nothing of it. Write it to a file:
`tomex cut IMAGE FROM STEPS > part.elf`.
";

const THREAD_REFUSED: &str =
    "The system didn't start a thread. Use fewer: `--workers N`. `ulimit -u` and
`ulimit -v` say what is allowed.
";

const OUT_OF_MEMORY: &str =
    "The system gave no more memory. `ulimit -v` says what is allowed. A study takes
less with fewer configurations or programs, or with fewer `--workers`.
";

const NO_SUCH_REFUSAL: &str =
    "What `tomex explain` was given has the words of no refusal, and no line of the
list has one of them. Without words it lists all refusals. A command line that
is refused (status 2) says itself why.
";

impl CommandRefusal {
    /// The words that all such refusals have.
    pub fn words(self) -> &'static str
        ensures { result.now ≡ words_of self }
    {
        match self {
            CommandRefusal::CannotRead => "cannot read",
            CommandRefusal::NoSuchChoice => "no such choice",
            CommandRefusal::BadWindow => "bad window",
            CommandRefusal::TooLong => "too long",
            CommandRefusal::NoSuchRow => "no such row",
            CommandRefusal::SeveralRows => "several rows",
            CommandRefusal::NoSuchProgram => "no such program",
            CommandRefusal::NoSymbols => "no symbols",
            CommandRefusal::NoSuchStep => "no such step",
            CommandRefusal::NoEnd => "no end",
            CommandRefusal::CodeOverwritten => "code overwritten",
            CommandRefusal::NoRoom => "no room",
            CommandRefusal::PictureTooLarge => "picture too large",
            CommandRefusal::TableTooLarge => "table too large",
            CommandRefusal::CyclePastEnd => "cycle past the end",
            CommandRefusal::CannotWrite => "cannot write",
            CommandRefusal::OnTerminal => "output is a terminal",
            CommandRefusal::ThreadRefused => "thread refused",
            CommandRefusal::OutOfMemory => "out of memory",
            CommandRefusal::NoSuchRefusal => "no such refusal",
        }
    }

    /// Its form, with names in place of the parts that vary.
    pub fn form(self) -> &'static str
        ensures { result.now ≡ form_of self }
    {
        match self {
            CommandRefusal::CannotRead => "cannot read NAME",
            CommandRefusal::NoSuchChoice => "no such choice: CHOICE",
            CommandRefusal::SeveralRows => "several rows: N",
            other => other.words(),
        }
    }

    /// The advice on it: its meaning, the usual causes, and what to do.
    pub fn advice(self) -> &'static str
        ensures { result.now ≡ advice_of self }
    {
        match self {
            CommandRefusal::CannotRead => CANNOT_READ,
            CommandRefusal::NoSuchChoice => NO_SUCH_CHOICE,
            CommandRefusal::BadWindow => BAD_WINDOW,
            CommandRefusal::TooLong => TOO_LONG,
            CommandRefusal::NoSuchRow => NO_SUCH_ROW,
            CommandRefusal::SeveralRows => SEVERAL_ROWS,
            CommandRefusal::NoSuchProgram => NO_SUCH_PROGRAM,
            CommandRefusal::NoSymbols => NO_SYMBOLS,
            CommandRefusal::NoSuchStep => NO_SUCH_STEP,
            CommandRefusal::NoEnd => NO_END,
            CommandRefusal::CodeOverwritten => CODE_OVERWRITTEN,
            CommandRefusal::NoRoom => NO_ROOM,
            CommandRefusal::PictureTooLarge => PICTURE_TOO_LARGE,
            CommandRefusal::TableTooLarge => TABLE_TOO_LARGE,
            CommandRefusal::CyclePastEnd => CYCLE_PAST_END,
            CommandRefusal::CannotWrite => CANNOT_WRITE,
            CommandRefusal::OnTerminal => ON_TERMINAL,
            CommandRefusal::ThreadRefused => THREAD_REFUSED,
            CommandRefusal::OutOfMemory => OUT_OF_MEMORY,
            CommandRefusal::NoSuchRefusal => NO_SUCH_REFUSAL,
        }
    }
}
