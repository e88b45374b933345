//! Archives in which cases have what the program prints now.
use crate::archive::{Part, before_header, parts_of, push_part};
use crate::case::{Case, file_of};
use anyhow::Result;
use std::alloc::{AllocError, Global};
use std::str::from_utf8;

/// What a case has to print now.
#[derive(Drop)]
pub struct Renewal {
    case: String,
    out: Vec<u8>,
    err: Vec<u8>,
    status: String,
    /// The streams with the command line parser's own text stay as they are.
    is_out_loose: bool,
    is_err_loose: bool,
}

/// True for a case that is small enough to be worked out by hand.
pub fn is_small(case: &str) -> bool {
    match case.split_once('-') {
        Some((_, rest)) => rest.starts_with("small-"),
        None => false,
    }
}

impl Renewal {
    /// What a run of the case printed, and its status.
    pub fn new(
        alloc: Global,
        case: &Case,
        status: u8,
        out: Vec<u8>,
        err: Vec<u8>,
    ) -> Result<Renewal> {
        Ok(Renewal {
            case: case.name.clone()?,
            out,
            err,
            status: format!(in alloc; "{status}\n")?,
            is_out_loose: case.names("loose", "stdout")?,
            is_err_loose: case.names("loose", "stderr")?,
        })
    }

    /// The new bytes of a file of the case, if it is one that is renewed.
    fn bytes(&self, file: &str) -> Option<&[u8]> {
        match file {
            "stdout" if !self.is_out_loose => Some(self.out.as_slice()),
            "stderr" if !self.is_err_loose => Some(self.err.as_slice()),
            "status" => Some(self.status.as_str().as_bytes()),
            _ => None,
        }
    }

    /// True if the case has other outputs than these.
    pub fn changes(&self, case: &Case) -> bool {
        case.files.iter().any(|file| match self.bytes(file.name.as_str()) {
            Some(bytes) => bytes != file.bytes.as_slice(),
            None => false,
        })
    }
}

/// True if an archive can hold the bytes as lines: UTF-8 without control characters, that ends with a line feed if it
/// isn't empty, and of which no line is a header.
fn are_lines(bytes: &[u8]) -> bool {
    let Ok(text) = from_utf8(bytes) else {
        return false;
    };
    let is_plain = text.chars().all(|c| c == '\n' || !c.is_control());
    let is_ended = text.is_empty() || text.ends_with('\n');
    let (_, headers) = before_header(bytes);
    is_plain && is_ended && headers.is_empty()
}

/// The bytes in hexadecimal digits, 32 a line.
fn digits_of(alloc: Global, bytes: &[u8]) -> Result<Vec<u8>, AllocError> {
    let mut text = String::new(alloc);
    for line in bytes.chunks(32) {
        for byte in line {
            write!(text, "{byte:02x}")?;
        }
        text.push('\n')?;
    }
    Ok(text.into_bytes())
}

/// Adds the part of a file with these bytes, as lines or in hexadecimal digits.
fn push_file(alloc: Global, text: &mut Vec<u8>, name: &str, bytes: &[u8]) -> Result<()> {
    if are_lines(bytes) {
        let name = name.as_bytes();
        return push_part(text, &Part { name, lines: bytes });
    }
    let name = format!(in alloc; "{name}.hex")?;
    let digits = digits_of(alloc, bytes)?;
    push_part(
        text,
        &Part {
            name: name.as_str().as_bytes(),
            lines: digits.as_slice(),
        },
    )
}

/// Adds a part, or what it has to be now. A part that has its bytes already stays to the byte.
fn push_renewed(
    alloc: Global,
    text: &mut Vec<u8>,
    part: &Part<'_>,
    renewals: &[Renewal],
) -> Result<()> {
    let name = from_utf8(part.name)?;
    let Some((case, rest)) = name.split_once('/') else {
        return push_part(text, part);
    };
    let file = file_of(alloc, rest, part.lines)?;
    let renewal = renewals
        .iter()
        .find(|renewal| renewal.case.as_str() == case);
    let bytes = renewal.and_then(|renewal| renewal.bytes(file.name.as_str()));
    match bytes {
        Some(bytes) if bytes != file.bytes.as_slice() => {
            let name = name.strip_suffix(".hex").unwrap_or(name);
            push_file(alloc, text, name, bytes)
        }
        _ => push_part(text, part),
    }
}

/// The text of an archive with what its cases have to print now.
pub fn renewed_text(alloc: Global, text: &[u8], renewals: &[Renewal]) -> Result<Vec<u8>> {
    let (comment, _) = before_header(text);
    let mut renewed = comment.to_vec(alloc)?;
    for part in &parts_of(alloc, text)? {
        push_renewed(alloc, &mut renewed, part, renewals)?;
    }
    Ok(renewed)
}
