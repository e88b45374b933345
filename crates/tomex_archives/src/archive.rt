//! Text archives: a comment, and then parts, each of a header line `-- NAME --` and the lines up to
//! the next header.
ghost use Rattle.std.specs.Prelude.{◌≡◌, ◌+◌, ◌<◌, ◌++◌, length, IfSome, IfOk};
ghost use Rattle.tomex_archives.specs.Archive.{IsArchive, header, part_text};

use anyhow::{Result, bail};
use std::alloc::Global;

/// A part of an archive: its name, and its lines.
#[derive(Clone, Copy)]
pub struct Part<'a> {
    pub name: &'a [u8],
    pub lines: &'a [u8],
}

/// The first line, with its line feed if it has one, and what follows it.
pub fn first_line(text: &[u8]) -> (&[u8], &[u8])
    ensures whole { text.now ≡ result.0.now ++ result.1.now }
    ensures lengths { length result.0.now + length result.1.now ≡ length text.now }
    ensures some { 0 < length text.now → 0 < length result.0.now }
{
    match text.iter().position(|byte| *byte == b'\n') {
        Some(at) => text.split_at(at + 1),
        None => text.split_at(text.len()),
    }
}

/// The name in a line that is a header.
pub fn header_name(line: &[u8]) -> Option<&[u8]>
    ensures { IfSome result (λ name. line.now ≡ header name.now) }
{
    let rest = line.strip_prefix(b"-- ")?;
    let name = rest.strip_suffix(b" --\n")?;
    if name.is_empty() { None } else { Some(name) }
}

/// The lines before the first header, and what follows them.
pub fn before_header(text: &[u8]) -> (&[u8], &[u8])
    ensures whole { text.now ≡ result.0.now ++ result.1.now }
    ensures lengths { length result.0.now + length result.1.now ≡ length text.now }
{
    let mut end = 0;
    while end < text.len() {
        let (line, _) = first_line(&text[end..]);
        if header_name(line).is_some() {
            break;
        }
        end += line.len();
    }
    text.split_at(end)
}

/// The part whose header is the first line, and what follows it.
fn first_part(text: &[u8]) -> Option<(Part<'_>, &[u8])>
    ensures whole { IfSome result (λ found. text.now ≡ part_text found.0 ++ found.1.now) }
    ensures shorter { IfSome result (λ found. 0 < length text.now → length found.1.now < length text.now) }
{
    let (line, after) = first_line(text);
    let name = header_name(line)?;
    let (lines, rest) = before_header(after);
    Some((Part { name, lines }, rest))
}

/// The parts of an archive, in order; none of its lines is lost.
pub fn parts_of(alloc: Global, text: &[u8]) -> Result<Vec<Part<'_>>>
    ensures { IfOk result (λ parts. IsArchive text.now parts.items) }
{
    let mut parts = Vec::new(alloc);
    let (_comment, mut rest) = before_header(text);
    while !rest.is_empty() {
        let Some((part, after)) = first_part(rest) else {
            bail!("a line that is no header");
        };
        parts.push(part)?;
        rest = after;
    }
    Ok(parts)
}

/// Adds a part: its header, and its lines.
pub fn push_part(text: &mut Vec<u8>, part: &Part<'_>) -> Result<()>
    ensures { IfOk result (λ _. text.new.items ≡ text.old.items ++ part_text part.now) }
{
    text.extend_from_slice(b"-- ")?;
    text.extend_from_slice(part.name)?;
    text.extend_from_slice(b" --\n")?;
    text.extend_from_slice(part.lines)?;
    Ok(())
}
