//! Cases run through the whole program, and counted.
use anyhow::{Context, Result};
use std::alloc::{AllocError, Global};
use std::rt::Files;
use std::str::from_utf8;
use std::sync::Wait;
use std::thread::Threads;
use tomex_archives::{
    COMMANDS, Case, archive_of, case_difference, cases_of, check_commands, check_names, is_asked,
    is_read,
};
use tomex_streams::NoMeter;
use tomex_tests_commands::{Outcome, outcome_of};

/// The most bytes of standard output.
const ROOM: usize = 1 << 24;

/// How many cases passed and failed.
#[derive(Clone, Copy)]
pub struct Tally {
    pub passed: u32,
    pub failed: u32,
}

/// The words of a case's command line, the program's name first.
fn words_of(alloc: Global, case: &Case) -> Result<Vec<&str>> {
    let mut words = vec![in alloc; "tomex"]?;
    for word in from_utf8(case.required("cmd")?)?.split_terminator('\n') {
        words.push(word)?;
    }
    Ok(words)
}

/// The names and the bytes of a case's files.
fn files_of(alloc: Global, case: &Case) -> Result<Vec<(&str, &[u8])>, AllocError> {
    let mut files = Vec::new(alloc);
    for file in &case.files {
        files.push((file.name.as_str(), file.bytes.as_slice()))?;
    }
    Ok(files)
}

/// Runs a case, on a standard output that takes nothing if the case says so.
pub fn outcome_in<R: AllocGlobal + Threads + Wait + Sync>(rt: &R, case: &Case) -> Result<Outcome> {
    let alloc = rt.alloc();
    let words = words_of(alloc, case)?;
    let files = files_of(alloc, case)?;
    let is_full = case.names("full", "stdout")?;
    let room = if is_full { 0 } else { ROOM };
    let (files, words) = (files.as_slice(), words.as_slice());
    Ok(outcome_of(rt, alloc, files, words, &NoMeter, room)?)
}

/// Runs a case, prints how it differs if it does, and counts it.
fn run_case<R: AllocGlobal + Threads + Wait + Sync + Print>(
    rt: &R,
    case: &Case,
    tally: &mut Tally,
) -> Result<()> {
    let name = case.name.as_str();
    let outcome = outcome_in(rt, case).context(format_args!("{name}"))?;
    let (out, err) = (outcome.out.as_slice(), outcome.err.as_slice());
    let difference = case_difference(rt.alloc(), case, outcome.status, out, err);
    match difference.context(format_args!("{name}"))? {
        None => tally.passed = tally.passed.saturating_add(1),
        Some(text) => {
            println!(rt; "{name}: {text}")?;
            tally.failed = tally.failed.saturating_add(1);
        }
    }
    Ok(())
}

/// Runs the cases of a command that are asked for.
fn run_archive<R: AllocGlobal + Threads + Wait + Sync + Print + Files>(
    rt: &R,
    command: &str,
    words: &[String],
    tally: &mut Tally,
) -> Result<()> {
    let archive = archive_of(rt, command)?;
    let cases = cases_of(rt.alloc(), archive.text.as_slice()).context(format_args!(
        "the archive of {command}"
    ))?;
    check_names(command, cases.as_slice(), words)?;
    for case in &cases {
        if is_asked(words, case.name.as_str()) {
            run_case(rt, case, tally)?;
        }
    }
    Ok(())
}

/// Runs the cases that the words name, or all.
pub fn run_cases<R: AllocGlobal + Threads + Wait + Sync + Print + Files>(
    rt: &R,
    words: &[String],
) -> Result<Tally> {
    check_commands(words)?;
    let mut tally = Tally {
        passed: 0,
        failed: 0,
    };
    for command in &COMMANDS {
        if is_read(words, command) {
            run_archive(rt, command, words, &mut tally)?;
        }
    }
    Ok(tally)
}
