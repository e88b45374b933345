//! What a study's lists lack: what is known isn't asked again, and each allocation refused in turn, of what finds the
//! new machines, of the table's text, and of what keeps floors.

use crate::{Asked, OF_PRODUCT, ask, outcome_of};
use std::alloc::{AllocError, Global};
use std::test::Fail;
use std::thread::Threads;
use tomex_choices::{WeighedChoices, weigh_choices};
use tomex_choices_table::choices_table;
use tomex_config::Config;
use tomex_floor::Floored;
use tomex_study::{OpenGate, Program, Study};
use tomex_survey::{all_floored, floors_of};
use tomex_tests_fixtures::studies::PRODUCT_STUDY;
use tomex_tests_fixtures::{Heap, Try, ample, refusals_of};

/// The table of the product on two rows, of two alu stations and of one.
const TABLE: &str = "    list  front  unused  add  %  cost  enough
     alu      2       1    -  0     -       2
     mul      1       -    -  0     -       1
     div      1       -    -  0     -       1
    load      1       -    -  0     -       1
   store      1       -    -  0     -       1
     bru      1       -    -  0     -       1
unit.alu    1@1       -    -  0     -       1
unit.mul    1@3       -    -  0     -       1
unit.div    1@1       -    -  0     -       1
unit.mem    1@1       -    -  0     -       1
unit.bru    1@1       -    -  0     -       -
   buses      1       -    -  0     -       1
   width      1       -    -  0     -       1
fastest 8, floor 8 (0%), at any width 7 (-12.5%)
";

/// The table of what was found, in this memory.
fn table_in(
    heap: Heap,
    other: Global,
    weighed: &WeighedChoices<'_, Heap>,
) -> Result<Vec<u8, Heap>, AllocError> {
    let (lists, surveyed) = (weighed.reports(other)?, weighed.surveyed());
    let mut floored = all_floored(heap.clone()?, surveyed.study())?;
    let floors = floors_of(&heap, surveyed, &mut floored)?;
    choices_table(heap, other, lists.as_slice(), floors)
}

/// The number of blocks that the text takes.
fn blocks_of_text(
    other: Global,
    weighed: &WeighedChoices<'_, Heap>,
) -> Result<Option<u64>, AllocError> {
    Ok(refusals_of!(other, heap => outcome_of(table_in(heap, other, weighed), TABLE)))
}

/// Finds the new machines in this memory, by this number of workers, from 1 to 32. Then the number of blocks that the
/// table's text takes.
fn found<R: Threads + Sync>(
    rt: &R,
    heap: Heap,
    other: Global,
    study: &Study<Heap>,
    workers: usize,
) -> Result<Option<u64>, AllocError> {
    let weighed = weigh_choices(rt, heap, study, workers.max(1).min(32), &OpenGate)?;
    blocks_of_text(other, &weighed)
}

/// The number of blocks that the text of the table of a study takes.
pub fn blocks_of_writing<R: Threads + Sync>(
    rt: &R,
    other: Global,
    study: &Study<Heap>,
) -> Result<Option<u64>, AllocError> {
    found(rt, ample(other)?, other, study, 1)
}

/// Whether the new machines are found.
fn try_to_find<R: Threads + Sync>(
    rt: &R,
    heap: Heap,
    other: Global,
    study: &Study<Heap>,
    workers: usize,
) -> Try {
    match found(rt, heap, other, study, workers) {
        Ok(_) => Try::Answered,
        Err(AllocError) => Try::Refused,
    }
}

/// The number of blocks that it takes.
pub fn blocks_of_finding<R: Threads + Sync>(
    rt: &R,
    other: Global,
    study: &Study<Heap>,
    workers: usize,
) -> Result<Option<u64>, AllocError> {
    Ok(refusals_of!(other, heap => try_to_find(rt, heap, other, study, workers)))
}

/// The product, which doesn't divide, on a machine.
const ONE: &str = "[[program]]\nname = \"mul\"\nfile = \"mul.bin\"\n[axes]\ndiv = [1]\n";

/// And on machines that only differ in stations for divisions.
const FOUR: &str = "[[program]]\nname = \"mul\"\nfile = \"mul.bin\"\n[axes]\ndiv = [1, 2, 3, 4]\n";

/// The number of blocks that it takes on such machines.
fn blocks_on<R: Threads + Sync>(rt: &R, other: Global, document: &str) -> Result<u64, Fail> {
    let blocks = ask(rt, other, Asked::Finding(1), document, &OF_PRODUCT)?;
    Ok(blocks.ok_or("another answer")?)
}

/// Memory shows it: it grows with the rows only as lists of what is found do.
#[test]
fn rows_that_cannot_differ_are_asked_once(rt: HostRuntime) -> Result<(), Fail> {
    let one = blocks_on(&rt, rt.alloc(), ONE)?;
    let four = blocks_on(&rt, rt.alloc(), FOUR)?;
    // Lists that grow with the rows take a block each time that their number doubles, which it does twice. They are
    // eleven: that of the programs' cycles, and those of new machines, except divide stations, of which four rows have
    // no more than one. Nothing else grows: no program is evaluated again.
    assert!(rt; four <= one.saturating_add(2 * 11));
    Ok(())
}

/// The program's floor on a row.
fn floor_in(heap: &Heap, program: &Program<Heap>, row: &Config) -> Result<u64, AllocError> {
    let mut floored = Floored::new(heap.clone()?, program.run());
    floored.own_floor(heap, row)
}

/// Whether it is found in this memory. It is that of the table.
fn try_to_keep(heap: Heap, program: &Program<Heap>, row: &Config) -> Try {
    match floor_in(&heap, program, row) {
        Ok(floor) => Try::right_if(floor == 8),
        Err(AllocError) => Try::Refused,
    }
}

/// The number of blocks that the floor of the first program on the first row takes.
pub fn blocks_of_keeping(other: Global, study: &Study<Heap>) -> Result<Option<u64>, AllocError> {
    match (study.programs().get(0), study.config(0)) {
        (Some(program), Some(row)) => {
            Ok(refusals_of!(other, heap => try_to_keep(heap, program, row)))
        }
        _ => Ok(None),
    }
}

/// What takes more blocks than these.
static LEAST: [(Asked, u64); 4] = [
    (Asked::Finding(1), 13),
    (Asked::Finding(2), 26),
    (Asked::Writing, 0),
    (Asked::Keeping, 0),
];

#[test]
fn each_refusal_is_reported(rt: HostRuntime) -> Result<(), Fail> {
    for (asked, least) in &LEAST {
        let blocks = ask(&rt, rt.alloc(), *asked, PRODUCT_STUDY, &OF_PRODUCT)?;
        assert!(rt; blocks > Some(*least));
    }
    Ok(())
}
