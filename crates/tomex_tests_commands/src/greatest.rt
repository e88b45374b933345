//! Each command once, on input that is long or large but quickly done: eight programs that watch eight ranges each,
//! runs of 262,144 steps, fronts of 1,024 and 2,304 configurations, and 16,384 configurations, the most of a study.
//! Nothing is refused.

use crate::files::files;
use crate::{Outcome, outcome_of, words_of};
use std::alloc::AllocError;
use std::process::Abort;
use std::sync::Wait;
use std::test::Fail;
use std::thread::Threads;
use tomex_streams::NoMeter;

/// The outcome of a line.
fn ran<R: AllocGlobal + Threads + Wait + Sync>(rt: &R, line: &str) -> Result<Outcome, AllocError> {
    let words = words_of(rt.alloc(), line)?;
    outcome_of(
        rt,
        rt.alloc(),
        &files(),
        words.as_slice(),
        &NoMeter,
        100_000_000,
    )
}

/// A line, with the beginning and the end of its output.
type Done = (&'static str, &'static str, &'static str);

static REPORTS: [Done; 19] = [
    (
        "tomex run long.bin",
        "x0=00000000\n",
        "ebreak at 00000014 after 262144\n",
    ),
    ("tomex times one 0 long", "step,", "\n"),
    // As many stretches as a run may have, and the longest part in the largest memory.
    ("tomex parts long.bin 16", "from,steps,", ",-\n"),
    (
        "tomex cut long.bin 66 262079 --size 1048576",
        "\u{7f}ELF",
        "\0",
    ),
    ("tomex path one 0 long", "part,", "\n"),
    ("tomex path one 0 long --by-pc", "pc,", "\n"),
    ("tomex path one 0 long --links", "step,", "\n"),
    // Its loop is entered once, and goes 131,070 times round.
    (
        "tomex loops one 0 long",
        "pc,first,last,function,in,entered,iterations,steps,",
        "\n",
    ),
    ("tomex stalls one 0 long", "part,", "\n"),
    ("tomex stalls one 0 long --by-pc", "pc,", "\n"),
    ("tomex tables one 0 long 262144", "cycle 262144\n", "\n"),
    ("tomex all one", "row,cost,", ",ebreak,x2=00010000,-\n"),
    (
        "tomex explore one --workers 2",
        "row,cost,",
        ",ebreak,x2=00010000,-\n",
    ),
    ("tomex front one", "row  cost  ", "\n"),
    ("tomex plot one", "<svg ", "</svg>\n"),
    ("tomex rows one", "row,cost,", ",1\n"),
    ("tomex weights one", "row  cost  ", "\n"),
    ("tomex page one", "<!DOCTYPE html>\n", "</html>\n"),
    // Each entry of each list is asked for again, up to the greatest.
    ("tomex choices one", " ", "\n"),
];

static PICTURES: [Done; 11] = [
    (
        "tomex pipeline one 0 long --from 262144 --steps 1",
        "cycles ",
        "\n",
    ),
    (
        "tomex pipeline one 0 long --from 262144 --steps 1 --konata",
        "Kanata\t0004\n",
        "\n",
    ),
    (
        "tomex animate one 0 long --from 262144 --cycles 256",
        "<!DOCTYPE html>\n",
        "</html>\n",
    ),
    (
        "tomex animate one 0 long --from 262144 --cycles 256 --blank",
        "<!DOCTYPE html>\n",
        "</html>\n",
    ),
    ("tomex plot alike", "<svg ", "</svg>\n"),
    ("tomex plot alike --rows", "<svg ", "</svg>\n"),
    ("tomex page alike", "<!DOCTYPE html>\n", "</html>\n"),
    (
        "tomex page longer --choices",
        "<!DOCTYPE html>\n",
        "</html>\n",
    ),
    ("tomex plot most", "<svg ", "</svg>\n"),
    ("tomex plot most --rows", "<svg ", "</svg>\n"),
    ("tomex page most", "<!DOCTYPE html>\n", "</html>\n"),
];

/// Fails unless each of these lines succeeds, and its output begins and ends so.
fn are_done<R: Abort + AllocGlobal + Threads + Wait + Sync>(
    rt: &R,
    lines: &[Done],
) -> Result<(), Fail> {
    for (line, start, end) in lines {
        let outcome = ran(rt, *line)?;
        assert!(rt; outcome.status == 0 && outcome.err.is_empty(), "{line}");
        let is_whole = outcome.out.starts_with(start.as_bytes())
            && outcome.out.ends_with(end.as_bytes());
        assert!(rt; is_whole, "{line}");
    }
    Ok(())
}

#[test]
fn the_longest_runs_have_reports(rt: HostRuntime) -> Result<(), Fail> {
    are_done(&rt, &REPORTS)
}

#[test]
fn the_longest_runs_and_fronts_are_drawn(rt: HostRuntime) -> Result<(), Fail> {
    are_done(&rt, &PICTURES)
}

/// Lines, with the number of lines in their output: of eight programs, or of 1,024 configurations.
static ON_A_LONG_FRONT: [(&str, usize); 9] = [
    ("tomex all eight", 9),
    ("tomex explore eight --workers 2", 9),
    ("tomex all alike", 1025),
    ("tomex explore alike --workers 2", 1025),
    ("tomex front alike", 1025),
    // All rows: the names; with `worth` the machine, and 15, 3 and 15 changes; with `prices` the stated ones.
    ("tomex rows alike", 1025),
    ("tomex worth alike 0 --workers 2", 35),
    ("tomex worth alike 0 --csv", 34),
    ("tomex prices alike", 1026),
];

/// The same on 2,304 configurations: `find` and `front --hull` print the names and each row, `weights` the stated ones
/// too; `compare` two tables, `choices` a line a list.
static ON_A_LONGER_FRONT: [(&str, usize); 7] = [
    ("tomex find longer", 2305),
    ("tomex front longer --hull", 2305),
    ("tomex weights longer", 2306),
    ("tomex compare longer loop loop", 51),
    ("tomex choices longer", 15),
    ("tomex choices longer --csv", 14),
    ("tomex compare longer loop loop --csv", 46),
];

/// The same on the most configurations of a study.
static ON_THE_MOST: [(&str, usize); 14] = [
    ("tomex weights most", 3),
    ("tomex weights most --csv", 1),
    ("tomex compare most mul mul", 62),
    ("tomex compare most mul mul --csv", 57),
    ("tomex prices most --csv", 5),
    ("tomex find most", 16_385),
    ("tomex front most", 2),
    ("tomex prices most", 3),
    ("tomex rows most --workers 2", 16_385),
    // Half of them: what is asked of each pair takes its time.
    ("tomex choices half", 15),
    ("tomex weights slower", 3),
    ("tomex find free", 16_385),
    ("tomex front free", 16_385),
    ("tomex front free --hull", 16_385),
];

/// Fails unless each of these lines succeeds, with this number of lines in its output.
fn are_counted<R: Abort + AllocGlobal + Threads + Wait + Sync>(
    rt: &R,
    lines: &[(&str, usize)],
) -> Result<(), Fail> {
    for (line, count) in lines {
        let outcome = ran(rt, *line)?;
        assert!(rt; outcome.status == 0 && outcome.err.is_empty(), "{line}");
        let found = outcome.out.iter().filter(|byte| **byte == b'\n').count();
        assert!(rt; found == *count, "{line}");
    }
    Ok(())
}

#[test]
fn long_fronts_are_printed(rt: HostRuntime) -> Result<(), Fail> {
    are_counted(&rt, &ON_A_LONG_FRONT)
}

#[test]
fn longer_fronts_are_printed(rt: HostRuntime) -> Result<(), Fail> {
    are_counted(&rt, &ON_A_LONGER_FRONT)
}

#[test]
fn most_configurations_are_printed(rt: HostRuntime) -> Result<(), Fail> {
    are_counted(&rt, &ON_THE_MOST)
}
