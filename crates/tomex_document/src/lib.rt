//! Studies, read from their bytes and those of the files that they name, or the first test that they fail: the document
//! in TOML, whose places and keys are tested one after another, and then its programs.
//! Tests: tomex_tests_studies.
#![tactic(auto)]

mod document;
mod error;
mod names;
mod study;

pub use document::{Entry, Outline, document_of, documents_have_a_grid};
pub use error::StudyError;
pub use names::file_names;
pub use study::{read_study, study_in};
