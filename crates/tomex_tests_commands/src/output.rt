//! Output that no golden case can hold: names with control characters, a device that is full on the way, a terminal,
//! explanations, and steps that a long run has taken.
use crate::files::files;
use crate::outcome::{outcome_of, outcome_on};
use crate::watched::LastShown;
use crate::words_of;
use std::process::Abort;
use std::sync::Wait;
use std::sync::atomic::Ordering;
use std::test::Fail;
use std::thread::Threads;
use tomex_streams::{Counted, NoMeter, Progress};
use tomex_tests_fixtures::OVERLAP;
use tomex_tests_fixtures::in_memory::Narrow;

/// Words, the bytes that the output takes, and what comes: the status, the output, and the error.
type Run = (
    &'static [&'static str],
    usize,
    (u8, &'static str, &'static str),
);

/// The words after `explain` come to this.
const NONE: (u8, &str, &str) = (1, "", "tomex: no such refusal\n");

static RUNS: [Run; 12] = [
    (
        &["run", "a b\\\"é"],
        100,
        (3, "", "tomex: cannot read a b\\\"é\n"),
    ),
    (
        &["run", "a\n\r\t\0b"],
        100,
        (3, "", "tomex: cannot read a\\n\\r\\t\\0b\n"),
    ),
    (
        &["run", "\x1b[2J\x7f"],
        100,
        (3, "", "tomex: cannot read \\u{1b}[2J\\u{7f}\n"),
    ),
    (
        &["run", "\u{85}\u{9f}\u{a0}"],
        100,
        (3, "", "tomex: cannot read \\u{85}\\u{9f}\u{a0}\n"),
    ),
    (
        &["run", "mul.bin"],
        10,
        (3, "x0=0000000", "tomex: cannot write\n"),
    ),
    (&["all", "dropped"], 3, (3, "row", "tomex: cannot write\n")),
    (
        &["explore", "dropped"],
        3,
        (3, "row", "tomex: cannot write\n"),
    ),
    (&["explain", "image:", "overlap"], 10_000, (0, OVERLAP, "")),
    (
        &["explain", "tomex: program a: image: overlap"],
        10_000,
        (0, OVERLAP, ""),
    ),
    (&["explain", "overlaps"], 10_000, NONE),
    (&["explain", "image:overlap"], 10_000, NONE),
    (
        &["explain", "image: overlap"],
        9,
        (3, "image: ov", "tomex: cannot write\n"),
    ),
];

/// Fails unless the words come to this.
fn comes_to<R: Abort + AllocGlobal + Threads + Wait + Sync>(rt: &R, run: &Run) -> Result<(), Fail> {
    let (asked, room, (status, out, err)) = *run;
    let mut words = vec![in rt.alloc(); "tomex"]?;
    words.extend_from_slice(asked)?;
    let outcome = outcome_of(rt, rt.alloc(), &files(), words.as_slice(), &NoMeter, room)?;
    assert!(rt; outcome.out.as_slice() == out.as_bytes(), "{out}");
    assert!(rt; outcome.err.as_slice() == err.as_bytes(), "{err}");
    assert!(rt; outcome.status == status, "{err}");
    Ok(())
}

#[test]
fn words_come_to_these(rt: HostRuntime) -> Result<(), Fail> {
    for run in &RUNS {
        comes_to(&rt, run)?;
    }
    Ok(())
}

/// Lines, and what they come to on a terminal, with nothing on standard output: a status, and the error.
static ON_TERMINAL: [(&str, u8, &str); 4] = [
    (
        "tomex cut image 2 1 --size 512",
        3,
        "tomex: output is a terminal\n",
    ),
    // Before anything else is looked at.
    (
        "tomex cut none 2 1 --size 6",
        3,
        "tomex: output is a terminal\n",
    ),
    ("tomex run mul.bin --limit 3", 1, "tomex: too long\n"),
    ("tomex explain xyz", 1, "tomex: no such refusal\n"),
];

#[test]
fn an_image_is_not_for_a_terminal(rt: HostRuntime) -> Result<(), Fail> {
    for (line, status, said) in &ON_TERMINAL {
        let mut out = Narrow::new(rt.alloc(), 10_000, 1000);
        out.is_terminal = true;
        let words = words_of(rt.alloc(), line)?;
        let outcome = outcome_on(&rt, rt.alloc(), &files(), words.as_slice(), &NoMeter, out)?;
        assert!(rt;
            outcome.status == *status && outcome.out.is_empty(),
            "{line}"
        );
        assert!(rt; outcome.err.as_slice() == said.as_bytes(), "{line}");
    }
    Ok(())
}

/// Lines on a long run, and what is shown at its start: the steps before a part, or the most that a run in stretches
/// may have, 16,384 of them.
static STEPS: [(&str, Progress); 2] = [
    (
        "tomex cut loop 999 1 --size 512",
        Progress {
            done: 0,
            of: 998,
            counted: Counted::Steps,
        },
    ),
    (
        "tomex parts loop 3 --size 512",
        Progress {
            done: 0,
            of: 49_152,
            counted: Counted::AtMostSteps,
        },
    ),
];

#[test]
fn steps_are_shown_and_cleared(rt: HostRuntime) -> Result<(), Fail> {
    for (line, shown) in &STEPS {
        let meter = LastShown::new();
        let words = words_of(rt.alloc(), *line)?;
        let outcome = outcome_of(&rt, rt.alloc(), &files(), words.as_slice(), &meter, 10_000)?;
        assert!(rt; outcome.status == 0 && !outcome.out.is_empty(), "{line}");
        assert!(rt; meter.shows.load(Ordering::SeqCst) == 1, "{line}");
        assert!(rt; meter.is_over(*shown), "{line}");
    }
    Ok(())
}
