//! A command line that asks for no command, and the reason.
ghost use Rattle.std.specs.Prelude.{◌≡◌, IfOk, OnErr};
ghost use Rattle.tomex_arguments.specs.Faults.{IsRefusal, StandsFor, fault_by_kind, status_of};
ghost use Rattle.tomex_arguments.specs.declared.fault.LineFault.TheVariants.{Memory, Usage};

use clap::error::ErrorKind;
use std::alloc::{AllocError, Global};

/// A command line that asks for no command.
#[derive(Drop)]
pub enum LineFault {
    /// It asks for help or the version: the text, for the standard output.
    Help(String),
    /// It is refused: the message, for the standard error.
    Usage(String),
    /// Out of memory while reading it.
    Memory,
}

impl LineFault {
    /// The exit status: 0 for help, 2 for a refused line, 3 if it ran out of memory.
    pub fn status(&self) -> u8
        ensures { result ≡ status_of self.now }
    {
        match self {
            LineFault::Help(_) => 0,
            LineFault::Usage(_) => 2,
            LineFault::Memory => 3,
        }
    }
}

impl From<AllocError> for LineFault {
    ghost from_gives = { λ _ fault. fault ≡ Memory };

    fn from(_error: AllocError) -> LineFault {
        LineFault::Memory
    }
}

/// A refused line, with its message. Out of memory only if there was none for the message.
pub(crate) fn mistake(text: Result<String, AllocError>) -> LineFault
    ensures said { IfOk text (λ said. result ≡ Usage said) }
    ensures unsaid { OnErr text (result ≡ Memory) }
{
    match text {
        Ok(said) => LineFault::Usage(said),
        Err(_) => LineFault::Memory,
    }
}

/// The refusal of a line because of this part of it.
pub fn refusal_of(alloc: Global, name: &str) -> LineFault
    ensures { IsRefusal result }
{
    mistake(format!(in alloc; "error: {name} missing or out of range\n"))
}

/// The fault that reports an error of this kind, with its text. Out of memory only if that is its
/// kind, or if there was no memory for the text.
fn fault_by_kind(kind: ErrorKind, text: Result<String, AllocError>) -> LineFault
    ensures said { IfOk text (λ said. result ≡ fault_by_kind kind said) }
    ensures unsaid { OnErr text (result ≡ Memory) }
{
    let Ok(said) = text else {
        return LineFault::Memory;
    };
    match kind {
        ErrorKind::OutOfMemory => LineFault::Memory,
        ErrorKind::DisplayHelp | ErrorKind::DisplayVersion => LineFault::Help(said),
        _ => LineFault::Usage(said),
    }
}

/// The fault that reports an error of the parser: help or the version, a refused line, or out of
/// memory.
pub fn fault_of(alloc: Global, error: &clap::Error) -> LineFault
    ensures { StandsFor error.now result }
{
    fault_by_kind(error.kind(), format!(in alloc; "{error}"))
}
