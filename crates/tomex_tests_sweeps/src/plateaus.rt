//! More plateaus than a worker keeps for a program, and as many rows as a study may have.

ghost use Rattle.std.specs.Prelude.{◌≡◌, length, IfOk};

use crate::answers::{image_in, marks_in};
use crate::sweeps::shared::Counting;
use std::alloc::{AllocError, Global};
use std::sync::Wait;
use std::test::Fail;
use std::thread::Threads;
use tomex_config::{Config, Prices};
use tomex_sweep::{Gate, OpenGate, Program, Study, SweepError, UsualStacks};
use tomex_tests_fixtures::machines::{config_of, unit};
use tomex_tests_fixtures::{Heap, ample};

/// `addi x1,x0,2; addi x1,x1,-1; bne x1,x0,-4; ebreak`: five steps, which use the alu and the branch unit.
const TWICE: &[u8; 16] = b"\x93\x00\x20\x00\x93\x80\xf0\xff\xe3\x9e\x00\xfe\x73\x00\x10\x00";

/// How many instructions issue in a cycle, and how many stations the alu has: three machines on which the program waits
/// for different parts, whatever the latencies are.
static WIDTHS_AND_STATIONS: [(u8, u8); 3] = [(1, 1), (1, 2), (2, 2)];

/// The row of a number below 12,288. It has an alu and a branch unit, whose latencies differ from row to row.
fn row_of(number: u32) -> Result<Config, Fail> {
    let (alu, bru) = ((number % 64) as u8 + 1, (number / 64 % 64) as u8 + 1);
    let units = [unit(alu), unit(1), unit(1), unit(1), unit(bru)];
    let (width, stations) = WIDTHS_AND_STATIONS[(number / 4096 % 3) as usize];
    config_of([stations, 1, 1, 1, 1, 1], units, 1, width)
}

/// Rows on which the program takes different cycles, each from another plateau, but again from the first one on after
/// every `different` rows; and one row more.
fn rows_of(
    other: Global,
    count: u32,
    different: u32,
    last: u32,
) -> Result<Vec<Config, Heap>, Fail> {
    let mut rows = Vec::new(ample(other)?);
    for number in 0..count {
        rows.push(row_of(number % different.max(1))?)?;
    }
    rows.push(row_of(last)?)?;
    Ok(rows)
}

/// The program of the short loop.
fn twice(other: Global) -> Result<Program<Heap>, AllocError> {
    let (heap, names, watches) = (ample(other)?, ample(other)?, ample(other)?);
    let image = image_in(other, TWICE.as_slice(), 64)?;
    let (name, watch) = (String::new(names), Vec::new(watches));
    let program = Program::new(heap, name, image, 100, watch, 1);
    program.ok().ok_or(AllocError)
}

/// A list of it.
fn programs(other: Global) -> Result<Vec<Program<Heap>, Heap>, AllocError>
    ensures { IfOk result (λ v. length v.items ≡ 1) }
{
    let heap = ample(other)?;
    let programs = vec![in heap; twice(other)?]?;
    Ok(programs)
}

/// Its study on rows.
fn study_on(other: Global, rows: Vec<Config, Heap>) -> Result<Study<Heap>, AllocError> {
    if rows.is_empty() || rows.len() > 16_384 {
        return Err(AllocError);
    }
    let heap = ample(other)?;
    Study::new(
        heap,
        programs(other)?,
        rows,
        Prices::new([0; 6], 0, 0),
        false,
    )
}

/// The number of rows that are marked on these rows by this number of workers.
fn marked<R: AllocGlobal + Threads + Wait + Sync, G: Gate + Sync>(
    rt: &R,
    rows: Vec<Config, Heap>,
    workers: usize,
    gate: &G,
) -> Result<usize, SweepError> {
    let study = study_on(rt.alloc(), rows)?;
    let heap = ample(rt.alloc())?;
    Ok(marks_in(rt, heap, &study, workers, gate, &UsualStacks)?.len())
}

/// The number of rows that one worker takes, and of the programs that are new to it on them, if this row comes again
/// after 8,198 others.
fn counted<R: AllocGlobal + Threads + Wait + Sync>(rt: &R, again: u32) -> Result<[u64; 2], Fail> {
    let gate = Counting::new();
    let rows = rows_of(rt.alloc(), 8198, 8198, again)?;
    marked(rt, rows, 1, &gate)?;
    Ok(gate.counts())
}

/// Rows again, after 8,198 others, and the evaluations that they need: the plateaus of the first six were replaced,
/// that of the seventh was not.
static AGAIN: [(u32, u64); 2] = [(5, 8199), (6, 8198)];

/// The oldest plateau is replaced if there are more than 8,192; it is learnt again if its row comes
/// again.
#[test]
fn the_oldest_plateau_goes_first(rt: HostRuntime) -> Result<(), Fail> {
    for (again, runs) in &AGAIN {
        assert!(rt; counted(&rt, *again)? == [8199, *runs]);
    }
    Ok(())
}

/// A study may have 16,384 rows.
#[test]
fn a_study_has_as_many_rows_as_it_may(rt: HostRuntime) -> Result<(), Fail> {
    let rows = rows_of(rt.alloc(), 16_383, 128, 127)?;
    assert!(rt; marked(&rt, rows, 3, &OpenGate)? == 16_384);
    Ok(())
}
