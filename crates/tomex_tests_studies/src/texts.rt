//! The texts of errors. Those of studies are in tables of refused ones, except that of memory.

use std::alloc::{AllocError, Global};
use std::test::Fail;
use tomex_config::GridError;
use tomex_document::StudyError;
use tomex_rvexec::{Fault, FaultKind};
use tomex_study::ProgramError;

/// Why no rows are made of axes.
static OF_GRIDS: [(GridError, &str); 4] = [
    (GridError::EmptyAxis, "an axis is empty"),
    (GridError::OutOfRange, "a value is out of range"),
    (GridError::TooMany, "too many configurations"),
    (GridError::Memory, "out of memory"),
];

/// True if a refusal of axes has this text.
fn is_of_grid(alloc: Global, error: GridError, text: &str) -> Result<bool, AllocError> {
    let shown = format!(in alloc; "{error}")?;
    Ok(shown.as_str() == text)
}

#[test]
fn texts_of_grids(rt: HostRuntime) -> Result<(), Fail> {
    for (error, text) in &OF_GRIDS {
        assert!(rt; is_of_grid(rt.alloc(), *error, text)?);
    }
    Ok(())
}

/// A word that isn't an instruction.
const ILLEGAL: Fault = Fault {
    kind: FaultKind::Illegal,
    pc: 4,
};

/// Why no program is made of an image.
static OF_PROGRAMS: [(ProgramError, &str); 3] = [
    (ProgramError::Fault(ILLEGAL), "fault: illegal at 00000004"),
    (ProgramError::TooLong, "too long"),
    (ProgramError::Memory, "out of memory"),
];

/// True if a refusal of a program has this text.
fn is_of_program(alloc: Global, error: ProgramError, text: &str) -> Result<bool, AllocError> {
    let shown = format!(in alloc; "{error}")?;
    Ok(shown.as_str() == text)
}

#[test]
fn texts_of_programs(rt: HostRuntime) -> Result<(), Fail> {
    for (error, text) in &OF_PROGRAMS {
        assert!(rt; is_of_program(rt.alloc(), *error, text)?);
    }
    Ok(())
}

/// True if this refusal of a study has this text.
fn is_of_study(alloc: Global, error: StudyError, text: &str) -> Result<bool, AllocError> {
    let shown = format!(in alloc; "{error}")?;
    Ok(shown.as_str() == text)
}

#[test]
fn texts_of_studies(rt: HostRuntime) -> Result<(), Fail> {
    assert!(rt; is_of_study(rt.alloc(), StudyError::Memory, "out of memory")?);
    Ok(())
}
