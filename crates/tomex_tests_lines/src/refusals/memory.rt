//! Explanations and the list, with memory, and with each growth refused in turn.

use std::alloc::AllocError;
use std::test::Fail;
use tomex_refusals::{ExplainError, explain, list_refusals};
use tomex_tests_fixtures::{ALL_REFUSALS, Attempt, Heap, OVERLAP, Try, refusals};

/// The outcome of a try whose text must be this one.
fn tried(explained: Result<Vec<u8, Heap>, ExplainError>, wanted: &str) -> Result<Try, AllocError> {
    match explained {
        Ok(text) => Ok(Try::right_if(text.as_slice() == wanted.as_bytes())),
        Err(ExplainError::Memory) => Ok(Try::Refused),
        Err(ExplainError::NoSuchRefusal) => Ok(Try::Wrong),
    }
}

#[derive(Drop)]
struct Explaining;

impl Attempt for Explaining {
    fn attempt(&self, heap: Heap) -> Result<Try, AllocError> {
        tried(
            explain(heap.clone()?, heap, "tomex: image: overlap"),
            OVERLAP,
        )
    }
}

/// Explains the refusal whose line has a word.
#[derive(Drop)]
struct ExplainingPart;

impl Attempt for ExplainingPart {
    fn attempt(&self, heap: Heap) -> Result<Try, AllocError> {
        tried(explain(heap.clone()?, heap, "overlap"), OVERLAP)
    }
}

/// Lists the refusals whose lines have a word.
#[derive(Drop)]
struct ListingPart;

impl Attempt for ListingPart {
    fn attempt(&self, heap: Heap) -> Result<Try, AllocError> {
        let lines = "image: too many segments\nimage: segment\n";
        tried(explain(heap.clone()?, heap, "segment"), lines)
    }
}

/// The list's last lines.
const STATUSES: &str = "exit status 1\nexit status 2\nexit status 3\n";

/// True if a text is the list of all refusals and exit statuses.
fn is_list(text: &[u8]) -> bool {
    text.strip_prefix(ALL_REFUSALS.as_bytes()) == Some(STATUSES.as_bytes())
}

#[derive(Drop)]
struct Listing;

impl Attempt for Listing {
    fn attempt(&self, heap: Heap) -> Result<Try, AllocError> {
        match list_refusals(heap) {
            Ok(text) => Ok(Try::right_if(is_list(text.as_slice()))),
            Err(_) => Ok(Try::Refused),
        }
    }
}

#[test]
fn each_growth_refused(rt: HostRuntime) -> Result<(), Fail> {
    assert!(rt; refusals(rt.alloc(), &Explaining)? > Some(0));
    assert!(rt; refusals(rt.alloc(), &ExplainingPart)? > Some(1));
    assert!(rt; refusals(rt.alloc(), &ListingPart)? > Some(1));
    assert!(rt; refusals(rt.alloc(), &Listing)? > Some(0));
    Ok(())
}
