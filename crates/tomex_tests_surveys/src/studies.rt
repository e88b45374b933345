//! Studies, read from their documents in memory that never runs out, and what tests ask of them. One function has a
//! study, and one its survey, and they lend it to what gives the answer.

use crate::choices::{blocks_of_finding, blocks_of_keeping, blocks_of_writing};
use crate::surveys::{evaluations, length_of_prices, number_of_rows};
use crate::weights::fewest_blocks;
use std::alloc::{AllocError, Global};
use std::thread::Threads;
use tomex_document::read_study;
use tomex_study::{OpenGate, Study, Surveyed};
use tomex_survey::survey;
use tomex_tests_fixtures::programs::PRODUCT;
use tomex_tests_fixtures::{Heap, Try, ample};

/// The file of a study of the product.
pub static OF_PRODUCT: [&[u8]; 1] = [PRODUCT];

/// The bytes of files.
fn copies(other: Global, files: &[&[u8]]) -> Result<Vec<Vec<u8, Heap>>, AllocError> {
    let mut copies = Vec::new(other);
    for file in files {
        copies.push(file.to_vec(ample(other)?)?)?;
    }
    Ok(copies)
}

/// The study of a document and its programs' files.
fn study_in(other: Global, document: &str, files: &[&[u8]]) -> Result<Study<Heap>, AllocError> {
    let files = copies(other, files)?;
    read_study(ample(other)?, other, document.as_bytes(), files.as_slice()).map_err(|_| AllocError)
}

/// What a test asks of a study. Each is a number; there is none if something is wrong.
#[derive(Clone, Copy)]
pub enum Asked {
    /// The number of blocks in which this number of workers finds the new machines.
    Finding(usize),
    /// That of the text of the table of the lists.
    Writing,
    /// That in which a floor is kept.
    Keeping,
    /// The number of evaluations of a survey.
    Evaluations,
    /// The number of rows of a survey by this number of workers, if they are those of the worked study.
    Rows(usize),
    /// The length of the table of prices, unless it is too large.
    Prices,
    /// The fewest blocks that a part of the weights takes.
    Weights,
}

/// The answer of a survey by this number of workers, from 1 to 32.
fn answer_of_survey<R: Threads + Sync>(
    rt: &R,
    other: Global,
    study: &Study<Heap>,
    workers: usize,
    asked: Asked,
) -> Result<Option<u64>, AllocError> {
    let surveyed = survey(rt, ample(other)?, study, workers.max(1).min(32), &OpenGate)?;
    asked.of(other, &surveyed)
}

impl Asked {
    fn of(self, other: Global, surveyed: &Surveyed<'_, Heap>) -> Result<Option<u64>, AllocError> {
        match self {
            Asked::Prices => length_of_prices(other, surveyed),
            Asked::Weights => fewest_blocks(other, surveyed),
            _ => number_of_rows(other, surveyed),
        }
    }

    fn on<R: Threads + Sync>(
        self,
        rt: &R,
        other: Global,
        study: &Study<Heap>,
    ) -> Result<Option<u64>, AllocError> {
        match self {
            Asked::Finding(workers) => blocks_of_finding(rt, other, study, workers),
            Asked::Writing => blocks_of_writing(rt, other, study),
            Asked::Keeping => blocks_of_keeping(other, study),
            Asked::Evaluations => evaluations(rt, other, study),
            Asked::Rows(workers) => answer_of_survey(rt, other, study, workers, self),
            _ => answer_of_survey(rt, other, study, 2, self),
        }
    }
}

/// The answer of the study of a document and its programs' files.
pub fn ask<R: Threads + Sync>(
    rt: &R,
    other: Global,
    asked: Asked,
    document: &str,
    files: &[&[u8]],
) -> Result<Option<u64>, AllocError> {
    let study = study_in(other, document, files)?;
    asked.on(rt, other, &study)
}

/// The outcome of a call that makes this text.
pub fn outcome_of(text: Result<Vec<u8, Heap>, AllocError>, wanted: &str) -> Try {
    match text {
        Ok(text) => Try::right_if(text.as_slice() == wanted.as_bytes()),
        Err(AllocError) => Try::Refused,
    }
}
