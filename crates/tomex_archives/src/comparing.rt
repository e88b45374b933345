//! The difference between what a run gave and what its case wants.
use crate::archive::first_line;
use crate::case::Case;
use anyhow::Result;
use std::alloc::{AllocError, Global};
use std::str::from_utf8;

/// A line of a stream that is another one than wanted: its number from 1, and both lines.
#[derive(Clone, Copy)]
struct Difference<'a> {
    line: u32,
    wanted: &'a [u8],
    got: &'a [u8],
}

/// The first lines that differ, of texts that do.
fn first_difference<'a>(wanted: &'a [u8], got: &'a [u8]) -> Difference<'a> {
    let (mut wanted_rest, mut got_rest) = (wanted, got);
    for line in 1..u32::MAX {
        let (wanted, wanted_after) = first_line(wanted_rest);
        let (got, got_after) = first_line(got_rest);
        if wanted != got {
            return Difference { line, wanted, got };
        }
        (wanted_rest, got_rest) = (wanted_after, got_after);
    }
    Difference {
        line: u32::MAX,
        wanted: wanted_rest,
        got: got_rest,
    }
}

/// A line as it is shown: at most its first 200 bytes.
fn shown(alloc: Global, line: &[u8]) -> Result<String, AllocError> {
    let text = String::from_utf8_lossy(alloc, &line[..line.len().min(200)])?;
    let text = text.as_str();
    format!(in alloc; "{text:?}")
}

/// How a stream of a case's run differs from what it wants, if it does.
fn stream_difference(
    alloc: Global,
    case: &Case,
    stream: &str,
    got: &[u8],
) -> Result<Option<String>> {
    let wanted = case.required(stream)?;
    let is_loose = case.names("loose", stream)?;
    if is_loose && got.is_empty() {
        return Ok(Some(format!(in alloc; "{stream} is empty")?));
    }
    if is_loose || wanted == got {
        return Ok(None);
    }
    let difference = first_difference(wanted, got);
    let line = difference.line;
    let wanted = shown(alloc, difference.wanted)?;
    let got = shown(alloc, difference.got)?;
    Ok(Some(format!(in alloc; "{stream}, line {line}\n  wanted {wanted}\n  got    {got}")?))
}

/// How the status of a case's run differs from what it wants, if it does.
fn status_difference(alloc: Global, case: &Case, got: u8) -> Result<Option<String>> {
    let wanted = from_utf8(case.required("status")?)?
        .trim_end()
        .parse::<u8>()?;
    if wanted == got {
        return Ok(None);
    }
    Ok(Some(format!(in alloc; "status\n  wanted {wanted}\n  got    {got}")?))
}

/// How a case's run differs from what it wants, if it does: by what it printed, or by its status.
pub fn case_difference(
    alloc: Global,
    case: &Case,
    status: u8,
    out: &[u8],
    err: &[u8],
) -> Result<Option<String>> {
    if let Some(text) = stream_difference(alloc, case, "stdout", out)? {
        return Ok(Some(text));
    }
    if let Some(text) = stream_difference(alloc, case, "stderr", err)? {
        return Ok(Some(text));
    }
    status_difference(alloc, case, status)
}
