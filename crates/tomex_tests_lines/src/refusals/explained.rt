//! Each refusal is explained by its own entry: the first line of the explanation of its text has its form.

use std::process::Abort;
use std::test::Fail;
use tomex_refusals::{ExplainError, explain};

/// Fails unless the first line of the explanation of a text is this one, and there are at most
/// twelve lines.
fn is_explained<R: Abort + AllocGlobal>(rt: &R, text: &str, form: &str) -> Result<(), Fail> {
    let Ok(explained) = explain(rt.alloc(), rt.alloc(), text) else {
        return Err("no text".into());
    };
    let lines = explained.iter().filter(|byte| **byte == b'\n').count();
    assert!(rt; 2 <= lines && lines <= 12, "{text}");
    let rest = explained.strip_prefix(form.as_bytes()).unwrap_or(b"");
    assert!(rt; rest.starts_with(b"\n"), "{text}");
    Ok(())
}

/// Refusals as the program writes them, then other texts, and the first lines of their explanations.
static TEXTS: [(&str, &str); 55] = [
    ("tomex: no such choice: alu=3", "no such choice: CHOICE"),
    ("no such choice", "no such choice: CHOICE"),
    ("no such choice: too long", "no such choice: CHOICE"),
    ("tomex: bad window", "bad window"),
    ("too long", "too long"),
    ("tomex: program a: too long", "too long"),
    ("tomex: no such row", "no such row"),
    ("tomex: several rows: 2", "several rows: N"),
    ("tomex: no such program", "no such program"),
    ("tomex: no symbols", "no symbols"),
    ("tomex: no such step", "no such step"),
    ("tomex: no end", "no end"),
    ("tomex: code overwritten", "code overwritten"),
    ("tomex: no room", "no room"),
    ("tomex: picture too large", "picture too large"),
    ("tomex: table too large", "table too large"),
    ("tomex: cycle past the end", "cycle past the end"),
    ("tomex: cannot read mul.bin", "cannot read NAME"),
    ("cannot read", "cannot read NAME"),
    ("tomex: cannot read image: segment", "cannot read NAME"),
    ("tomex: cannot write", "cannot write"),
    ("tomex: output is a terminal", "output is a terminal"),
    ("tomex: thread refused", "thread refused"),
    ("tomex: out of memory", "out of memory"),
    ("tomex: no such refusal", "no such refusal"),
    ("IMAGE: SEGMENT", "image: segment"),
    ("tomex: Study: Not Toml", "study: not TOML"),
    ("ILLEGAL AT pc", "fault: illegal at PC"),
    ("1", "exit status 1"),
    ("2", "exit status 2"),
    ("status 3", "exit status 3"),
    ("exit status 2", "exit status 2"),
    ("image: empty", "image: empty"),
    ("image: too large", "image: too large"),
    ("image: truncated", "image: truncated"),
    ("image: not RISC-V", "image: not RISC-V"),
    ("image: not executable", "image: not executable"),
    ("image: header size", "image: header size"),
    ("image: dynamic", "image: dynamic"),
    ("image: segment", "image: segment"),
    ("image: overlap", "image: overlap"),
    ("image: too many segments", "image: too many segments"),
    ("image: entry", "image: entry"),
    ("tomex: program a: image: overlap", "image: overlap"),
    ("tomex: fault: fetch at 0000000c", "fault: fetch at PC"),
    ("tomex: fault: illegal at 0000000c", "fault: illegal at PC"),
    (
        "tomex: fault: misaligned target at 0000000c",
        "fault: misaligned target at PC",
    ),
    ("tomex: fault: access at 0000000c", "fault: access at PC"),
    ("tomex: study: not TOML", "study: not TOML"),
    (
        "tomex: study: top: unknown key",
        "study: PLACE: unknown key",
    ),
    (
        "tomex: study: program 1: file missing",
        "study: PLACE: KEY missing",
    ),
    (
        "tomex: study: axes: alu of wrong kind",
        "study: PLACE: KEY of wrong kind",
    ),
    (
        "tomex: study: unit: mul out of range",
        "study: PLACE: KEY out of range",
    ),
    (
        "tomex: study: too many configurations",
        "study: too many configurations",
    ),
    (
        "tomex: study: wrong number of files",
        "study: wrong number of files",
    ),
];

#[test]
fn texts(rt: HostRuntime) -> Result<(), Fail> {
    for (text, form) in &TEXTS {
        is_explained(&rt, text, form)?;
    }
    Ok(())
}

/// Parts of lines of the list, what is printed of the first lines that have them, and how many lines there are.
static PARTS: [(&str, &str, usize); 13] = [
    ("", "cannot read NAME\nno such choice: CHOICE\n", 45),
    ("segment", "image: too many segments\nimage: segment\n", 2),
    ("fault", "fault: fetch at PC\nfault: illegal at PC\n", 4),
    (" at PC", "fault: fetch at PC\nfault: illegal at PC\n", 4),
    ("image", "image: empty\nimage: too large\n", 11),
    (
        "KEY",
        "study: PLACE: unknown key\nstudy: PLACE: KEY missing\n",
        4,
    ),
    // A single one is explained.
    (
        "not TOML",
        "study: not TOML\nThe file can't be read as TOML",
        7,
    ),
    ("mbol", "no symbols\n`--by-function` takes", 5),
    // Words of which no line has all: the longest that a line has counts, the first of several equally long ones.
    ("illegal instruction", "fault: illegal at PC\nThe word", 9),
    (
        "why exit with 3",
        "exit status 1\nexit status 2\nexit status 3\n",
        3,
    ),
    (
        "image:  segment",
        "image: too many segments\nimage: segment\n",
        2,
    ),
    ("entry write", "image: entry\n", 5),
    ("write \t entry\n", "cannot write\n", 3),
];

#[test]
fn parts_of_lines(rt: HostRuntime) -> Result<(), Fail> {
    for (part, begins, lines) in &PARTS {
        let Ok(text) = explain(rt.alloc(), rt.alloc(), *part) else {
            return Err("no text".into());
        };
        assert!(rt; text.starts_with(begins.as_bytes()), "{part}");
        let count = text.iter().filter(|byte| **byte == b'\n').count();
        assert!(rt; count == *lines, "{part}: {count}");
    }
    Ok(())
}

static NONE: [&str; 4] = ["tomex", "image:segment", "overlaps", "xyz  of-no\tline"];

#[test]
fn what_is_no_refusal(rt: HostRuntime) -> Result<(), Fail> {
    for text in &NONE {
        let refused = explain(rt.alloc(), rt.alloc(), *text);
        assert!(rt;
            matches!(&refused, Err(ExplainError::NoSuchRefusal)),
            "{text}"
        );
    }
    Ok(())
}
