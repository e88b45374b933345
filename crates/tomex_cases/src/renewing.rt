//! Cases, renewed in their archives.
use crate::running::outcome_in;
use anyhow::{Context, Result, ensure};
use std::fs;
use std::rt::Files;
use std::sync::Wait;
use std::thread::Threads;
use tomex_archives::{
    COMMANDS, Case, Renewal, archive_of, cases_of, check_commands, check_names, is_asked, is_read,
    is_small, is_word, renewed_text,
};

/// How many cases have other outputs now, and how many have those that they had.
#[derive(Clone, Copy)]
pub struct Renewed {
    pub changed: u32,
    pub same: u32,
}

/// What a run of the case prints.
fn renewal_of<R: AllocGlobal + Threads + Wait + Sync>(rt: &R, case: &Case) -> Result<Renewal> {
    let outcome = outcome_in(rt, case)?;
    Renewal::new(rt.alloc(), case, outcome.status, outcome.out, outcome.err)
}

/// True if a case is to be renewed. A small one isn't, and must not be named by itself.
fn is_renewed(case: &str, words: &[String]) -> Result<bool> {
    ensure!(
        !is_small(case) || !is_word(words, case),
        "{case} is renewed by hand: it is small enough"
    );
    Ok(!is_small(case) && is_asked(words, case))
}

/// Adds what a case prints now, and prints the case's name, if it is something else than it wants.
fn renew_case<R: AllocGlobal + Threads + Wait + Sync + Print>(
    rt: &R,
    case: &Case,
    renewals: &mut Vec<Renewal>,
) -> Result<()> {
    let name = case.name.as_str();
    let renewal = renewal_of(rt, case).context(format_args!("{name}"))?;
    if renewal.changes(case) {
        println!(rt; "{name}")?;
        renewals.push(renewal)?;
    }
    Ok(())
}

/// What the cases of a command that are named print now, of those that want something else, and how many are named.
fn renewals_of<R: AllocGlobal + Threads + Wait + Sync + Print>(
    rt: &R,
    cases: &[Case],
    words: &[String],
) -> Result<(Vec<Renewal>, u32)> {
    let mut renewals = Vec::new(rt.alloc());
    let mut named = 0u32;
    for case in cases {
        if is_renewed(case.name.as_str(), words)? {
            renew_case(rt, case, &mut renewals)?;
            named = named.saturating_add(1);
        }
    }
    Ok((renewals, named))
}

/// Renews the cases of a command that are named.
fn renew_archive<R: AllocGlobal + Threads + Wait + Sync + Print + Files>(
    rt: &R,
    command: &str,
    words: &[String],
    renewed: &mut Renewed,
) -> Result<()> {
    let archive = archive_of(rt, command)?;
    let text = archive.text.as_slice();
    let cases = cases_of(rt.alloc(), text).context(format_args!("the archive of {command}"))?;
    check_names(command, cases.as_slice(), words)?;
    let (renewals, named) = renewals_of(rt, cases.as_slice(), words)?;
    let changed = u32::try_from(renewals.len()).unwrap_or(u32::MAX);
    renewed.changed = renewed.changed.saturating_add(changed);
    renewed.same = renewed.same.saturating_add(named.saturating_sub(changed));
    if renewals.is_empty() {
        return Ok(());
    }
    let text = renewed_text(rt.alloc(), text, renewals.as_slice())?;
    let file = archive.file.as_str();
    fs::write(rt, file, text).context(format_args!("{file}"))?;
    Ok(())
}

/// Writes into the archives what the program prints now in the cases and commands that the words name, and prints the
/// names of the cases with other outputs. Cases that are small enough to be worked out by hand stay as they are.
pub fn renew_cases<R: AllocGlobal + Threads + Wait + Sync + Print + Files>(
    rt: &R,
    words: &[String],
) -> Result<Renewed> {
    ensure!(!words.is_empty(), "name the cases or the commands to renew");
    check_commands(words)?;
    let mut renewed = Renewed {
        changed: 0,
        same: 0,
    };
    for command in &COMMANDS {
        if is_read(words, command) {
            renew_archive(rt, command, words, &mut renewed)?;
        }
    }
    Ok(renewed)
}
