//! Cycles of a path by reason, the most first.

ghost use Rattle.std.specs.Prelude.{◌≡◌, ◌++◌, ◌∷◌, ◌≤◌, drop, length, take, OnOk};
ghost use Rattle.tomex_path.specs.declared.reason.Reason.{Reason};
ghost use Rattle.tomex_loop_views.specs.Charges.{inserted, with_reason};

use std::alloc::{AllocError, Allocator};
use tomex_path::Reason;

/// The cycles of a path for a reason.
#[derive(Clone, Copy)]
pub struct Charge {
    pub reason: Reason,
    pub cycles: u64,
}

/// The place of a charge: before the first that has fewer cycles.
fn place_of(charges: &[Charge], charge: Charge) -> usize
    ensures place { inserted charge charges.now ≡ take result charges.now ++ charge ∷ drop result charges.now }
    ensures within { result ≤ length charges.now }
{
    for place in 0..charges.len() {
        if charges[place].cycles < charge.cycles {
            return place;
        }
    }
    charges.len()
}

/// Adds the cycles of a reason, if there are any, after those that are no fewer.
pub(crate) fn add_reason<A: Allocator>(
    charges: &mut Vec<Charge, A>,
    reason: Reason,
    cycles: u64,
) -> Result<(), AllocError>
    ensures { OnOk result (charges.new.items ≡ with_reason reason cycles charges.old.items) }
{
    if cycles == 0 {
        return Ok(());
    }
    let charge = Charge { reason, cycles };
    charges.insert(place_of(charges, charge), charge)?;
    Ok(())
}
