//! The results of command lines as texts, so that tests can list them.

use std::alloc::{AllocError, Global};
use tomex_arguments::LineFault;
use tomex_command_line::read_line;

/// The words of a line, split at each space.
fn words(alloc: Global, line: &str) -> Result<Vec<String>, AllocError> {
    let mut words = Vec::new(alloc);
    for word in line.split(' ') {
        words.push(String::from_str(alloc, word)?)?;
    }
    Ok(words)
}

/// The kind of a fault, and its text.
fn fault_text(alloc: Global, fault: &LineFault) -> Result<String, AllocError> {
    match fault {
        LineFault::Help(text) => format!(in alloc; "help {text}"),
        LineFault::Usage(text) => format!(in alloc; "usage {text}"),
        LineFault::Memory => String::from_str(alloc, "memory"),
    }
}

/// The result of the words after the program's name: `read`, or the kind of the fault and its text.
pub fn text_of(alloc: Global, line: &str) -> Result<String, AllocError> {
    let line = format!(in alloc; "tomex {line}")?;
    let words = words(alloc, line.as_str())?;
    match read_line(alloc, words.as_slice()) {
        Ok(_) => String::from_str(alloc, "read"),
        Err(fault) => fault_text(alloc, &fault),
    }
}
