//! Studies, with their grids and programs, and times.

use crate::answers::{granted, study_in};
use std::alloc::{AllocError, Global};
use std::test::Fail;
use tomex_document::file_names;
use tomex_tests_fixtures::programs::PRODUCT;
use tomex_tests_fixtures::studies::PRODUCT_STUDY;
use tomex_tests_fixtures::{Heap, ample, refusals_of};
use tomex_texts::times_report;

/// The file of the product.
static PRODUCT_ALONE: [&[u8]; 1] = [PRODUCT];

/// True if there is memory for the names of a study's files, and for the study: its rows, the programs and their runs,
/// and the costs.
fn is_read(heap: Heap, other: Global) -> Result<bool, AllocError> {
    let is_named = file_names(heap.clone()?, other, PRODUCT_STUDY.as_bytes()).is_ok();
    Ok(is_named && study_in(heap, other, PRODUCT_STUDY, &PRODUCT_ALONE).is_ok())
}

/// The number of blocks that they take.
fn blocks_of_reading(other: Global) -> Result<Option<u64>, AllocError> {
    Ok(refusals_of!(other, heap => granted(is_read(heap, other)?)))
}

/// True if there is memory for the times of the product and for their report.
fn is_timed(heap: Heap, other: Global) -> Result<bool, AllocError> {
    let study = study_in(ample(other)?, other, PRODUCT_STUDY, &PRODUCT_ALONE)?;
    let (Some(config), Some(program)) = (study.config(1), study.program("mul")) else {
        return Err(AllocError);
    };
    Ok(times_report(heap, other, program, config).is_ok())
}

/// The number of blocks that they take.
fn blocks_of_times(other: Global) -> Result<Option<u64>, AllocError> {
    Ok(refusals_of!(other, heap => granted(is_timed(heap, other)?)))
}

#[test]
fn of_studies_and_times(rt: HostRuntime) -> Result<(), Fail> {
    assert!(rt; blocks_of_reading(rt.alloc())? > Some(10));
    assert!(rt; blocks_of_times(rt.alloc())? > Some(2));
    Ok(())
}
