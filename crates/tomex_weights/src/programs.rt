//! The programs on whose weights the front of a study may depend.

ghost use Rattle.std.specs.Prelude.{◌≡◌, ◌<◌, length, All, IfOk};
ghost use Rattle.tomex_weights.specs.Programs.{is_relevant, relevant_programs_of};
ghost use Rattle.tomex_weights.specs.Reweighted.{own_cycles};

use std::alloc::{AllocError, Allocator};
use tomex_study::Surveyed;

/// The cycles of the program at a place on a row.
pub(crate) fn own_cycles<A: Allocator>(surveyed: &Surveyed<'_, A>, place: usize, row: usize) -> u64
    requires place { place < length surveyed.now.programs }
    requires row { row < length surveyed.now.rows }
    ensures { result ≡ own_cycles surveyed.now place row }
{
    surveyed.keeps_limits();
    surveyed.totals(row)[place]
}

/// True if the program at a place takes differently many cycles on two rows.
#[tactic(auto, unfolding(crate::specs::Programs::is_relevant))]
pub(crate) fn is_relevant<A: Allocator>(surveyed: &Surveyed<'_, A>, place: usize) -> bool
    requires { place < length surveyed.now.programs }
    ensures { result ≡ is_relevant surveyed.now place }
{
    surveyed.keeps_limits();
    let first = own_cycles(surveyed, place, 0);
    for row in surveyed.rows() {
        if own_cycles(surveyed, place, row.row) != first {
            return true;
        }
    }
    false
}

/// The places of the programs that take differently many cycles on two rows. No other program's weight affects the
/// front.
#[tactic(auto, unfolding(crate::specs::Programs::relevant_programs_of))]
pub fn relevant_programs<A: Allocator, B: Allocator>(
    alloc: B,
    surveyed: &Surveyed<'_, A>,
) -> Result<Vec<usize, B>, AllocError>
    ensures places { IfOk result (λ v. v.items ≡ relevant_programs_of surveyed.now) }
    ensures within { IfOk result (λ v. All (λ place. place < length surveyed.now.programs) v.items) }
{
    let mut relevant = Vec::new(alloc);
    for place in 0..surveyed.study().programs().len() {
        if is_relevant(surveyed, place) {
            relevant.push(place)?;
        }
    }
    Ok(relevant)
}
