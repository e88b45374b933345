//! Studies that have too many intervals for a table of prices.

use crate::{Asked, OF_PRODUCT, ask};
use std::alloc::{AllocError, Global};
use std::test::Fail;
use tomex_prices::{PricesError, prices_table};
use tomex_study::Surveyed;
use tomex_tests_fixtures::studies::PRODUCT_STUDY;
use tomex_tests_fixtures::{Heap, ample};

/// The product, which doesn't divide, load or store, on 16,384 machines that differ only in stations and units for
/// that. All of these cost nothing, so each row is on the front, and there are 18 prices: too many by 32,768 intervals.
const LARGE: &str = "[[program]]\nname = \"mul\"\nfile = \"mul.bin\"\n[axes]\n\
load = [1, 2, 3, 4, 5, 6, 7, 8, 9, 10, 11, 12, 13, 14, 15, 16]\n\
store = [1, 2, 3, 4, 5, 6, 7, 8, 9, 10, 11, 12, 13, 14, 15, 16]\n[unit]\n\
div = [{}, {units = 2}, {units = 3}, {units = 4}, {units = 5}, {units = 6}, {units = 7}, {units = 8}]\n\
mem = [{}, {units = 2}, {units = 3}, {units = 4}, {units = 5}, {units = 6}, {units = 7}, {units = 8}]\n";

/// The length of the table of a survey, unless it is too large.
pub fn length_of_prices(
    other: Global,
    surveyed: &Surveyed<'_, Heap>,
) -> Result<Option<u64>, AllocError> {
    match prices_table(ample(other)?, other, surveyed) {
        Ok(text) => Ok(Some(text.len() as u64)),
        Err(PricesError::TooLarge) => Ok(None),
        Err(PricesError::Memory) => Err(AllocError),
    }
}

#[test]
fn too_many_intervals_are_refused(rt: HostRuntime) -> Result<(), Fail> {
    assert!(rt; ask(&rt, rt.alloc(), Asked::Prices, PRODUCT_STUDY, &OF_PRODUCT)? > Some(0));
    assert!(rt; ask(&rt, rt.alloc(), Asked::Prices, LARGE, &OF_PRODUCT)? == None);
    Ok(())
}
