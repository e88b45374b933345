//! Why a text is refused, and where.

ghost use Rattle.std.specs.Prelude.{◌≡◌};
ghost use Rattle.tomex_asm_tokens.specs.declared.cause.ReadError.TheVariants.{Memory, Refused};

use std::alloc::{AllocError, AllocFailed};

/// What a line lacks.
#[derive(Clone, Copy)]
pub enum Thing {
    EndOfLine,
    Name,
    Instruction,
    Register,
    Value,
    Open,
    Close,
    Comma,
    FenceSet,
    Type,
    Text,
    Constant,
    Address,
}

/// Why a text is refused. If the cause is about a name, the name is at the place of the refusal.
#[derive(Clone, Copy)]
pub enum Cause {
    /// A `/*` without a `*/`.
    UnclosedComment,
    UnclosedString,
    BadNumber,
    /// A byte with which no token begins, or between single quotes something that isn't one character.
    BadCharacter,
    BadEscape,
    Expected(Thing),
    /// A register where a name is defined.
    RegisterName,
    NoSection,
    NoInstruction,
    NoDirective,
    DefinedTwice,
    /// `_start` isn't in the text, or isn't at a multiple of 4.
    BadEntry,
    InstructionInData,
    InstructionMisaligned,
    NotDefinedAbove,
    Undefined,
    BadSum,
    /// A number isn't from the first of these two to the second.
    OutOfRange(i64, i64),
    OddOffset,
    BadAlignment,
    TooLarge,
    NoCode,
}

/// A refusal in a line.
#[derive(Clone, Copy)]
pub struct Fault {
    /// The place in the line, in bytes from its beginning.
    pub at: usize,
    pub cause: Cause,
}

/// Why a line wasn't read.
#[derive(Drop)]
pub enum ReadError {
    Memory,
    Refused(Fault),
}

impl From<Fault> for ReadError {
    ghost from_gives = { λ fault e. e ≡ Refused fault };

    fn from(fault: Fault) -> ReadError {
        ReadError::Refused(fault)
    }
}

impl From<AllocError> for ReadError {
    ghost from_gives = { λ _ e. e ≡ Memory };

    fn from(_error: AllocError) -> ReadError {
        ReadError::Memory
    }
}

impl<T: Drop> From<AllocFailed<T>> for ReadError {
    ghost from_gives = { λ _ e. e ≡ Memory };

    fn from(_error: AllocFailed<T>) -> ReadError {
        ReadError::Memory
    }
}
