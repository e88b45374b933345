//! Each growth of a call refused in turn: the call reports it, and with memory it gives the right
//! answer.

use std::alloc::AllocError;
use std::test::Fail;
use tomex_symbols::{functions_at, symbols};
use tomex_tests_fixtures::programs::CALLS;
use tomex_tests_fixtures::{Attempt, Heap, Try, refusals};

/// The numbers of the functions of these addresses in a file, `None` if the addresses don't rise.
fn numbers_at(
    alloc: Heap,
    bytes: &[u8],
    addresses: &[u32],
) -> Result<Vec<Option<u32>, Heap>, AllocError> {
    let mut numbers = Vec::new(alloc.clone()?);
    let table = symbols(alloc.clone()?, bytes)?;
    if addresses.is_sorted() {
        for function in &functions_at(alloc, table, addresses)? {
            numbers.push(match function {
                Some(symbol) => Some(symbol.number),
                None => None,
            })?;
        }
    }
    Ok(numbers)
}

/// Reads the symbols.
struct Reading;

impl Attempt for Reading {
    fn attempt(&self, heap: Heap) -> Result<Try, AllocError> {
        match symbols(heap, CALLS.as_slice()) {
            Ok(found) => Ok(Try::right_if(found.len() == 3)),
            Err(_) => Ok(Try::Refused),
        }
    }
}

/// Finds the functions of addresses.
struct Finding;

impl Attempt for Finding {
    fn attempt(&self, heap: Heap) -> Result<Try, AllocError> {
        match numbers_at(heap, CALLS.as_slice(), &[0x1004, 0x1014]) {
            Ok(found) => Ok(Try::right_if(found.as_slice() == [Some(1), Some(2)].as_slice())),
            Err(_) => Ok(Try::Refused),
        }
    }
}

#[test]
fn refused(rt: HostRuntime) -> Result<(), Fail> {
    assert!(rt; refusals(rt.alloc(), &Reading)?.unwrap_or(0) > 0);
    assert!(rt; refusals(rt.alloc(), &Finding)?.unwrap_or(0) > 3);
    Ok(())
}
