//! The reservation table, with memory, and with each growth refused.

use std::alloc::AllocError;
use std::test::Fail;
use tomex_reservations::{BUSES, ReservationTable};
use tomex_tests_fixtures::{Attempt, Heap, Try, refusals};

/// The only bus is taken in cycle 5 and reserved from then on, and the table is copied.
#[derive(Drop)]
struct Reserving;

/// The cycle of that reservation.
fn reserved(heap: &Heap) -> Result<u64, AllocError> {
    let mut table = ReservationTable::new(heap.clone()?);
    table.take(BUSES, 5)?;
    let room = table.reserve(BUSES, 1, 5, 5)?;
    let mut copy = ReservationTable::new(heap.clone()?);
    copy.copy_from(&table, 6)?;
    Ok(room.cycle)
}

impl Attempt for Reserving {
    fn attempt(&self, heap: Heap) -> Result<Try, AllocError> {
        match reserved(&heap) {
            Ok(cycle) => Ok(Try::right_if(cycle == 6)),
            Err(AllocError) => Ok(Try::Refused),
        }
    }
}

/// It is left in the cycle after.
#[test]
fn a_taken_bus_is_left_a_cycle_later(rt: HostRuntime) -> Result<(), Fail> {
    assert!(rt; refusals(rt.alloc(), &Reserving)? > Some(1));
    Ok(())
}
