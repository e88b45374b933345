//! Publishing a finished row in its price band, and finding one that judges another.

ghost use Rattle.std.specs.Prelude.{◌≡◌, ◌≢◌, ℕ, ◌+◌, ◌<◌, ◌≤◌, length, min, slice_index, IfSome, IfNone};
ghost use Rattle.tomex_board.specs.Words.{band_word};
ghost use Rattle.tomex_board.specs.Bands.{floors_of, IsBandOf};
ghost use Rattle.tomex_board.specs.Looking.{IsBound, IsLeastBound, IsLeastSoFar, AreEmpty, Sees, SeesEach};
ghost use Rattle.tomex_board.specs.Views.{Has, Grows, after_seeing, best};
ghost use Rattle.tomex_board.specs.declared.view.View.{View};
ghost use Rattle.tomex_board.specs.declared.mark.Mark.TheVariants.{Finished};

use super::{Board, Seat};
use crate::bound::Bound;
use crate::plan::Plan;
use crate::rule::{Look, Publish};
use crate::words::{NOTHING_YET, band_word, bound_of};
use std::alloc::Allocator;

impl<J: Plan, A: Allocator> Board<J, A> {
    /// Publishes a finished row in its band: the second step of `finish`.
    pub(super) fn publish(&self, seat: &mut Seat<J>, i: usize, cycles: u64, k: usize)
        requires board { seat.old.board ≡ self.now }
        requires row { i < length J.costs }
        requires cycles { cycles ≡ slice_index J.cycles i }
        requires band { IsBandOf (floors_of J.costs) (slice_index J.costs i) k }
        requires noted { Has seat.old.view.marks (i, Finished cycles) }
        ensures board { seat.new.board ≡ seat.old.board }
        ensures view { (found : ℕ)
            × (seat.new.view ≡ after_seeing k (min found (band_word cycles i)) seat.old.view) }
        ensures hand { seat.new.view.hand ≡ seat.old.view.hand }
        ensures notes { (seat.new.view.seen ≡ seat.old.view.seen)
            × (seat.new.view.marks ≡ seat.old.view.marks) }
        ensures share { seat.new.view.share ≡ seat.old.view.share }
        ensures grown { Grows seat.old.view seat.new.view }
        ensures best { best k seat.new.view ≤ band_word cycles i }
        ensures others { (j : ℕ) → j ≢ k → best j seat.new.view ≡ best j seat.old.view }
    {
        let words = &self.table.shared;
        let word = band_word(cycles, i);
        words.fetch_min::<Publish<J>>(&mut seat.inner, self.rows + k, word);
    }

    /// Reads one band: its word.
    fn look_at(&self, seat: &mut Seat<J>, k: usize) -> u64
        requires board { seat.old.board ≡ self.now }
        requires band { k < length (floors_of J.costs) }
        ensures board { seat.new.board ≡ seat.old.board }
        ensures seen { Sees J.costs J.cycles (floors_of J.costs) k result
            seat.old.view seat.new.view }
    {
        let words = &self.table.shared;
        words.load::<Look<J>>(&mut seat.inner, self.rows + k)
    }

    /// The least word so far, after reading the band `k`, which may judge the row.
    fn least_with(&self, seat: &mut Seat<J>, i: usize, k: usize, least: u64) -> u64
        requires board { seat.old.board ≡ self.now }
        requires row { i < length J.costs }
        requires band { k < length (floors_of J.costs) }
        requires judges { slice_index (floors_of J.costs) k ≤ slice_index J.costs i }
        requires so_far { IsLeastSoFar J.costs J.cycles (floors_of J.costs) (slice_index J.costs i) k
            seat.old.view least }
        ensures board { seat.new.board ≡ seat.old.board }
        ensures hand { seat.new.view.hand ≡ seat.old.view.hand }
        ensures share { seat.new.view.share ≡ seat.old.view.share }
        ensures grown { Grows seat.old.view seat.new.view }
        ensures seen { (v : View)
            → SeesEach (floors_of J.costs) (slice_index J.costs i) k v seat.old.view
            → SeesEach (floors_of J.costs) (slice_index J.costs i) (k + 1) v seat.new.view }
        ensures so_far { IsLeastSoFar J.costs J.cycles (floors_of J.costs) (slice_index J.costs i) (k + 1)
            seat.new.view result }
    {
        let found = self.look_at(seat, k);
        if found < least { found } else { least }
    }

    /// The least bound in the bands that may judge the row: those whose floor is at most its cost.
    /// Each of them is loaded once, in ascending order; since floors rise, they are the first ones.
    /// `None` if nothing was published in any of them.
    pub fn look(&self, seat: &mut Seat<J>, i: usize) -> Option<Bound>
        requires board { seat.old.board ≡ self.now }
        requires row { i < length J.costs }
        ensures board { seat.new.board ≡ seat.old.board }
        ensures hand { seat.new.view.hand ≡ seat.old.view.hand }
        ensures share { seat.new.view.share ≡ seat.old.view.share }
        ensures grown { Grows seat.old.view seat.new.view }
        ensures seen { SeesEach (floors_of J.costs) (slice_index J.costs i) (length (floors_of J.costs))
            seat.old.view seat.new.view }
        ensures none { IfNone result (AreEmpty (floors_of J.costs) (slice_index J.costs i)
            seat.new.view) }
        ensures least { IfSome result (IsLeastBound (floors_of J.costs) (slice_index J.costs i)
            seat.new.view) }
        ensures bound { IfSome result (IsBound J.costs J.cycles (slice_index J.costs i)
            seat.new.view) }
    {
        let mut least = NOTHING_YET;
        let cost = self.costs[i];
        for k in 0..self.floors.len() {
            if self.floors[k] > cost {
                break;
            }
            least = self.least_with(seat, i, k, least);
        }
        if least == NOTHING_YET {
            None
        } else {
            Some(bound_of(least))
        }
    }
}
