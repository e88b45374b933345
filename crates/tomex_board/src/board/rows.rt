//! Claiming a row, and closing it.

ghost use Rattle.std.specs.Prelude.{◌≡◌, ◌≢◌, ℕ, ◌<◌, ◌≤◌, length, slice_index, MatchBool};
ghost use Rattle.tomex_board.specs.Words.{band_word};
ghost use Rattle.tomex_board.specs.Bands.{floors_of, IsBandOf};
ghost use Rattle.tomex_board.specs.Looking.{IsBound};
ghost use Rattle.tomex_board.specs.Finishing.{IsFinishing};
ghost use Rattle.tomex_board.specs.Views.{Has, KnowsNotOpen, after_claim, after_failed_claim};
ghost use Rattle.tomex_board.specs.Views.{after_closing, without, Grows, best};
ghost use Rattle.tomex_board.specs.declared.mark.Mark.{Mark};
ghost use Rattle.tomex_board.specs.declared.mark.Mark.TheVariants.{Open, Finished, Dropped};

use super::{Board, Seat};
use crate::bound::Bound;
use crate::floors::band_of;
use crate::mark::Mark;
use crate::plan::Plan;
use crate::rule::{Claim, Finish, GiveUp};
use crate::words::{OPEN, TAKEN, mark_word};
use std::alloc::Allocator;

impl<J: Plan, A: Allocator> Board<J, A> {
    /// Claims the row if it is open. If not, returns false, and the seat notes that it isn't open (and
    /// its mark, if it is closed).
    pub fn claim(&self, seat: &mut Seat<J>, i: usize) -> bool
        requires board { seat.old.board ≡ self.now }
        requires row { i < length J.costs }
        ensures board { seat.new.board ≡ seat.old.board }
        ensures taken { MatchBool result
            ((seat.new.view ≡ after_claim i seat.old.view) × ¬ KnowsNotOpen seat.old.view i)
            ((m : Mark) × (m ≢ Open) × (seat.new.view ≡ after_failed_claim i m seat.old.view)) }
        ensures noted { KnowsNotOpen seat.new.view i }
        ensures grown { Grows seat.old.view seat.new.view }
    {
        let words = &self.table.shared;
        words.compare_exchange::<Claim<J>>(&mut seat.inner, i, OPEN, TAKEN) == OPEN
    }

    /// Closes a row of the seat's hand as finished, with its cycles, and then publishes it in its
    /// band, if it has one.
    pub fn finish(&self, seat: &mut Seat<J>, i: usize, cycles: u64)
        requires board { seat.old.board ≡ self.now }
        requires row { i < length J.costs }
        requires hand { Has seat.old.view.hand i }
        requires cycles { cycles ≡ slice_index J.cycles i }
        ensures board { seat.new.board ≡ seat.old.board }
        ensures steps { IsFinishing (floors_of J.costs) (slice_index J.costs i) i cycles
            seat.old.view seat.new.view }
        ensures hand { seat.new.view.hand ≡ without i seat.old.view.hand }
        ensures share { seat.new.view.share ≡ seat.old.view.share }
        ensures noted { Has seat.new.view.marks (i, Finished cycles) }
        ensures grown { Grows seat.old.view seat.new.view }
        ensures published { (k : ℕ) → IsBandOf (floors_of J.costs) (slice_index J.costs i) k
            → best k seat.new.view ≤ band_word cycles i }
        ensures others { (k : ℕ) → ¬ IsBandOf (floors_of J.costs) (slice_index J.costs i) k
            → best k seat.new.view ≡ best k seat.old.view }
    {
        self.mark_finished(seat, i, cycles);
        if let Some(k) = band_of(&self.floors, self.costs[i]) {
            self.publish(seat, i, cycles, k);
        }
    }

    /// Marks a row of the hand as finished: the first step of `finish`.
    fn mark_finished(&self, seat: &mut Seat<J>, i: usize, cycles: u64)
        requires board { seat.old.board ≡ self.now }
        requires row { i < length J.costs }
        requires hand { Has seat.old.view.hand i }
        requires cycles { cycles ≡ slice_index J.cycles i }
        ensures board { seat.new.board ≡ seat.old.board }
        ensures view { seat.new.view ≡ after_closing i (Finished cycles) seat.old.view }
        ensures grown { Grows seat.old.view seat.new.view }
    {
        let words = &self.table.shared;
        let finished = mark_word(Mark::Finished(cycles));
        words.compare_exchange::<Finish<J>>(&mut seat.inner, i, TAKEN, finished);
    }

    /// Closes a row of the seat's hand as dropped, for the bound's row, which is no dearer and
    /// strictly faster: the row's run has reached more cycles than the bound's.
    pub fn give_up(&self, seat: &mut Seat<J>, i: usize, bound: Bound, reached: u64)
        requires board { seat.old.board ≡ self.now }
        requires row { i < length J.costs }
        requires hand { Has seat.old.view.hand i }
        requires bound { IsBound J.costs J.cycles (slice_index J.costs i) seat.old.view bound }
        requires slower { bound.cycles < reached }
        requires reached { reached ≤ slice_index J.cycles i }
        ensures board { seat.new.board ≡ seat.old.board }
        ensures view { seat.new.view ≡ after_closing i (Dropped bound.row) seat.old.view }
        ensures grown { Grows seat.old.view seat.new.view }
    {
        let words = &self.table.shared;
        let dropped = mark_word(Mark::Dropped(bound.row));
        words.compare_exchange::<GiveUp<J>>(&mut seat.inner, i, TAKEN, dropped);
    }
}
