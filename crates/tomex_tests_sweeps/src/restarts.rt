//! Machines that are restarted in the memory that they have.

use crate::answers::image_in;
use std::alloc::Global;
use std::test::Fail;
use tomex_cycle::Machine;
use tomex_image::Image;
use tomex_tests_fixtures::machines::one_unit_each;
use tomex_tests_fixtures::programs::LOOP;
use tomex_tests_fixtures::{Heap, heap_of};

/// Whether a machine that has made three cycles, in memory of one block, is restarted on another image, and in which
/// cycle it is then.
fn restarted_on<'a>(
    other: Global,
    first: &'a Image<Heap>,
    second: &'a Image<Heap>,
) -> Result<(bool, u64), Fail> {
    let config = one_unit_each([1; 6], [1; 5], 1)?;
    let mut machine = Machine::new(heap_of(other, 1)?, first, &config)?;
    machine.advance(3);
    Ok(match machine.restart(second, &config) {
        Ok(machine) => (true, machine.cycle()),
        Err(machine) => (false, machine.cycle()),
    })
}

/// The same, on an image of a window of this size, for a machine that has a window of 8,192 bytes.
fn restarted(other: Global, size: u32) -> Result<(bool, u64), Fail> {
    let first = image_in(other, LOOP.as_slice(), 8192)?;
    let second = image_in(other, LOOP.as_slice(), size)?;
    restarted_on(other, &first, &second)
}

/// A larger window needs more memory than the machine has, and nothing changes; an equal or smaller one doesn't.
static SIZES: [(u32, (bool, u64)); 3] = [(4096, (true, 0)), (8192, (true, 0)), (8196, (false, 3))];

#[test]
fn a_refused_restart_changes_nothing(rt: HostRuntime) -> Result<(), Fail> {
    for (size, wanted) in &SIZES {
        assert!(rt; restarted(rt.alloc(), *size)? == *wanted);
    }
    Ok(())
}
