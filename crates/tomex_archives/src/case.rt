//! Cases: a case is what would lie in a folder of its own, the files of its run and what must come
//! out. A part `CASE/NAME` of an archive is such a file, and `CASE/NAME.hex` one in hexadecimal.
use crate::archive::{Part, parts_of};
use anyhow::{Context, Result, bail, ensure};
use std::alloc::Global;
use std::str::from_utf8;

/// A file of a case.
#[derive(Drop)]
pub struct File {
    pub name: String,
    pub bytes: Vec<u8>,
}

/// A case: its name, and its files.
#[derive(Drop)]
pub struct Case {
    pub name: String,
    pub files: Vec<File>,
}

impl Case {
    /// The bytes of the file with a name.
    pub fn file(&self, name: &str) -> Option<&[u8]> {
        for file in &self.files {
            if file.name.as_str() == name {
                return Some(file.bytes.as_slice());
            }
        }
        None
    }

    /// The bytes of a file that each case must have.
    pub fn required(&self, name: &str) -> Result<&[u8]> {
        let case = self.name.as_str();
        match self.file(name) {
            Some(bytes) => Ok(bytes),
            None => bail!("{case} has no {name}"),
        }
    }

    /// True if the case has a file of words, and a word is one of them.
    pub fn names(&self, file: &str, word: &str) -> Result<bool> {
        match self.file(file) {
            Some(bytes) => Ok(
                from_utf8(bytes)?
                    .split_whitespace()
                    .any(|found| found == word),
            ),
            None => Ok(false),
        }
    }
}

/// The byte of two hexadecimal digits.
fn byte_of(digits: &[u8]) -> Option<u8> {
    match digits {
        [high, low] => {
            let high = char::from(*high).to_digit(16)?;
            let low = char::from(*low).to_digit(16)?;
            u8::try_from(high << 4 | low).ok()
        }
        _ => None,
    }
}

/// Adds the bytes of a line of hexadecimal digits.
fn push_digits(bytes: &mut Vec<u8>, line: &[u8]) -> Result<()> {
    for digits in line.chunks(2) {
        let byte = byte_of(digits).context("a line is not of pairs of hexadecimal digits")?;
        bytes.push(byte)?;
    }
    Ok(())
}

/// The bytes of lines of hexadecimal digits.
fn decoded(alloc: Global, lines: &[u8]) -> Result<Vec<u8>> {
    let mut bytes = Vec::new(alloc);
    for line in lines.split(|byte| *byte == b'\n') {
        push_digits(&mut bytes, line)?;
    }
    Ok(bytes)
}

/// The file of a part, by its name in the case.
pub fn file_of(alloc: Global, name: &str, lines: &[u8]) -> Result<File> {
    let (name, bytes) = match name.strip_suffix(".hex") {
        Some(bare) => (bare, decoded(alloc, lines)?),
        None => (name, lines.to_vec(alloc)?),
    };
    Ok(File {
        name: String::from_str(alloc, name)?,
        bytes,
    })
}

/// Adds a file to its case, which is the last one or a new one.
fn add_file(alloc: Global, cases: &mut Vec<Case>, name: &str, file: File) -> Result<()> {
    for case in cases.iter() {
        if case.name.as_str() == name {
            let file = file.name.as_str();
            ensure!(case.file(file).is_none(), "two parts {name}/{file}");
        }
    }
    match cases.last_mut() {
        Some(case) if case.name.as_str() == name => case.files.push(file)?,
        _ => {
            let mut files = Vec::new(alloc);
            files.push(file)?;
            cases.push(Case {
                name: String::from_str(alloc, name)?,
                files,
            })?;
        }
    }
    Ok(())
}

/// Adds the file of a part to its case.
fn add_part(alloc: Global, cases: &mut Vec<Case>, part: Part<'_>) -> Result<()> {
    let name = from_utf8(part.name)?;
    match name.split_once('/') {
        Some((case, file)) => {
            let file = file_of(alloc, file, part.lines).context(format_args!("{name}"))?;
            add_file(alloc, cases, case, file)
        }
        None => bail!("the part {name} is of no case"),
    }
}

/// The cases of an archive, whose last part is `end`, so that none is cut off.
pub fn cases_of(alloc: Global, text: &[u8]) -> Result<Vec<Case>> {
    let parts = parts_of(alloc, text)?;
    let mut cases = Vec::new(alloc);
    match parts.as_slice() {
        [parts @ .., end] if end.name == b"end".as_slice() && end.lines.is_empty() => {
            for part in parts {
                add_part(alloc, &mut cases, *part)?;
            }
            Ok(cases)
        }
        _ => bail!("the last line is not `-- end --`"),
    }
}
