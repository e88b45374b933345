//! What no clause says: a study is read if there is memory, and the texts of the refusals.

use std::process::Abort;
use std::test::Fail;
use tomex_document::{StudyError, file_names};

mod reading;
mod studies;
mod values;

use studies::{AT_TOP, IN_PROGRAMS, LAWFUL, ORDERED, STUDY_L, STUDY_M, WIDE};
use values::{AXES, OPTIONS, PRICES, UNITS, WATCHED};

/// The text of a study's refusal, empty for a study that is read.
fn refusal<R: AllocGlobal>(rt: &R, study: &[u8]) -> Result<String, Fail> {
    match file_names(rt.alloc(), rt.alloc(), study) {
        Ok(_) => Ok(String::new(rt.alloc())),
        Err(error) => Ok(format!(in rt.alloc(); "{error}")?),
    }
}

/// Fails unless the study is refused with this text, or read if the text is empty.
fn is_said<R: Abort + AllocGlobal>(rt: &R, study: &str, wanted: &str) -> Result<(), Fail> {
    let text = refusal(rt, study.as_bytes())?;
    assert!(rt; text.as_str() == wanted, "{text}: {study}");
    Ok(())
}

/// Fails unless each of these studies is refused with its text.
fn are_said<R: Abort + AllocGlobal>(rt: &R, studies: &[(&str, &str)]) -> Result<(), Fail> {
    for (study, wanted) in studies {
        is_said(rt, study, wanted)?;
    }
    Ok(())
}

/// A study of two programs.
const STUDY_OF_TWO: &str = "[[program]]\nname = \"a\"\nfile = \"z.bin\"\n\
    [[program]]\nname = \"b\"\nfile = \"y.bin\"\n";

/// Studies, and the place and the name of their last file.
static NAMES: [(&str, usize, &str); 3] = [
    (STUDY_M, 0, "mul.bin"),
    (STUDY_L, 0, "loop.bin"),
    (STUDY_OF_TWO, 1, "y.bin"),
];

/// True if the last name is this one, at this place.
fn is_last(names: &[String], place: usize, wanted: &str) -> bool {
    match names.get(place) {
        Some(name) => names.len() == place.saturating_add(1) && name.as_str() == wanted,
        None => false,
    }
}

/// True if that is so of a study's files.
fn is_named<R: AllocGlobal>(rt: &R, study: &str, place: usize, name: &str) -> Result<bool, Fail> {
    let names = file_names(rt.alloc(), rt.alloc(), study.as_bytes())?;
    Ok(is_last(names.as_slice(), place, name))
}

#[test]
fn names_of_files(rt: HostRuntime) -> Result<(), Fail> {
    for (study, place, name) in &NAMES {
        assert!(rt; is_named(&rt, study, *place, name)?);
    }
    Ok(())
}

#[test]
fn lawful_studies(rt: HostRuntime) -> Result<(), Fail> {
    for study in &LAWFUL {
        is_said(&rt, study, "")?;
    }
    Ok(())
}

#[test]
fn refused_studies(rt: HostRuntime) -> Result<(), Fail> {
    are_said(&rt, AT_TOP.as_slice())?;
    are_said(&rt, IN_PROGRAMS.as_slice())?;
    are_said(&rt, WIDE.as_slice())?;
    are_said(&rt, ORDERED.as_slice())
}

#[test]
fn refused_values(rt: HostRuntime) -> Result<(), Fail> {
    are_said(&rt, PRICES.as_slice())?;
    are_said(&rt, AXES.as_slice())?;
    are_said(&rt, UNITS.as_slice())?;
    are_said(&rt, OPTIONS.as_slice())?;
    are_said(&rt, WATCHED.as_slice())
}

#[test]
fn bytes_that_are_no_text(rt: HostRuntime) -> Result<(), Fail> {
    let refused = file_names(rt.alloc(), rt.alloc(), &[0xff]);
    assert!(rt; matches!(&refused, Err(StudyError::Syntax)));
    Ok(())
}
