//! A worker's steps on a row: it claims it, finds its cycles, and closes it.

ghost use Rattle.std.specs.Prelude.{◌≡◌, ◌<◌, ◌≤◌, ◌∷◌, [], length, count_by, take, is_some, not, IfSome, OnOk, All};
ghost use Rattle.std.specs.Prelude.{slice_get, slice_index, Some};
ghost use Rattle.tomex_board.specs.Views.{KnowsNotOpen};
ghost use Rattle.tomex_config.specs.Configuration.{Configuration};
ghost use Rattle.tomex_study.specs.Cycles.{cycles_of};
ghost use Rattle.tomex_plateaus.specs.Knowledge.{AreLearntOn, AreTotalsOn};
ghost use Rattle.tomex_plateaus.specs.Looks.{IsKnownRow};
ghost use Rattle.tomex_workers.specs.Plans.{IsPlanOf};
ghost use Rattle.tomex_workers.specs.Seats.{Continues};

use std::alloc::{AllocError, Allocator};
use tomex_board::{Board, Plan, Seat};
use tomex_lanes::Lane;
use tomex_plateaus::{Knowledge, KnownRow, the_last_look_sees_most};
use tomex_study::{Gate, Study};

/// The things that a worker uses: the study, the board that it shares with the others, the gate to
/// which it reports its rows, and its number.
#[derive(Drop)]
pub(crate) struct Desk<'s, J: Plan, A: Allocator, G: Gate> {
    pub study: &'s Study<A>,
    pub board: &'s Board<J, A>,
    pub gate: &'s G,
    pub worker: usize,
}

/// The number of programs whose total isn't known.
fn count_unknown(programs: usize, totals: &[Option<u64>; 8]) -> usize
    ensures { result ≡ count_by (λ t. not (is_some t)) (take programs totals.now) }
{
    totals
        .iter()
        .take(programs)
        .filter(|total| total.is_none())
        .count()
}

impl<'s, J: Plan, A: Allocator + Clone, G: Gate> Desk<'s, J, A, G> {
    /// Closes a row that the seat has in hand, given the programs' totals on it. It is given up if a finished row costs
    /// no more and took fewer cycles than this one has made at its last look, else it is finished.
    fn close_row(&self, seat: &mut Seat<J>, row: usize, totals: &[u64; 8])
        requires plan { IsPlanOf self.now.study.now J.costs J.cycles }
        requires board { seat.old.board ≡ self.now.board.now }
        requires row { row < length J.costs }
        requires hand { seat.old.view.hand ≡ row ∷ [] }
        requires totals { AreTotalsOn self.now.study.now row totals.now }
        ensures seat { Continues seat.old seat.new }
        ensures hand { seat.new.view.hand ≡ [] }
    {
        self.study.keeps_limits();
        let known = self.known_row(row, totals);
        if let Some(made) = known.at_last_look {
            if let Some(bound) = self.board.look(seat, row) {
                if bound.cycles < made {
                    self.board.give_up(seat, row, bound, made);
                    return;
                }
            }
        }
        self.board.finish(seat, row, known.cycles);
    }

    /// A row's cycles, and those that it has made at its last look.
    fn known_row(&self, row: usize, totals: &[u64; 8]) -> KnownRow
        requires row { row < length self.now.study.now.rows }
        requires totals { AreTotalsOn self.now.study.now row totals.now }
        ensures known { (config : Configuration) → slice_get self.now.study.now.rows row ≡ Some config
            → IsKnownRow self.now.study.now.programs config result }
        ensures cycles { result.cycles ≡ slice_index (cycles_of self.now.study.now) row }
        ensures made { IfSome result.at_last_look (λ n. n ≤ slice_index (cycles_of self.now.study.now) row) }
    {
        self.study.keeps_limits();
        the_last_look_sees_most();
        let config = &self.study.rows()[row];
        config.keeps_limits();
        let programs = self.study.programs();
        KnownRow::of(programs, &totals[..programs.len()])
    }

    /// Closes a row that the seat has in hand. The programs' totals on it are looked up first, or
    /// learnt. If out of memory, the row may stay in hand.
    fn run_row(
        &self,
        knowledge: &mut Knowledge<'s, A>,
        seat: &mut Seat<J>,
        row: usize,
    ) -> Result<(), AllocError>
        requires programs { knowledge.old.programs ≡ self.now.study.now.programs }
        requires plan { IsPlanOf self.now.study.now J.costs J.cycles }
        requires board { seat.old.board ≡ self.now.board.now }
        requires row { row < length J.costs }
        requires hand { seat.old.view.hand ≡ row ∷ [] }
        ensures programs { knowledge.new.programs ≡ knowledge.old.programs }
        ensures seat { Continues seat.old seat.new }
        ensures hand { OnOk result (seat.new.view.hand ≡ []) }
        ensures learnt { OnOk result
            (AreLearntOn self.now.study.now row knowledge.old.lists knowledge.new.lists) }
    {
        self.study.keeps_limits();
        let config = &self.study.rows()[row];
        let known = knowledge.known_totals(config);
        let unknown = count_unknown(self.study.programs().len(), &known);
        self.gate.runs(self.worker, row, unknown);
        let totals = knowledge.learn(config, known)?;
        self.close_row(seat, row, &totals);
        Ok(())
    }

    /// Tries a row: claims it, and if that succeeds runs and closes it. On `Ok` the seat has
    /// nothing in hand, and knows that the row isn't open; the contract doesn't say if this worker
    /// closed it or another has it. The board's rule says that its mark is lawful. If out of
    /// memory, the row may stay in hand.
    fn try_row(
        &self,
        knowledge: &mut Knowledge<'s, A>,
        seat: &mut Seat<J>,
        row: usize,
    ) -> Result<(), AllocError>
        requires programs { knowledge.old.programs ≡ self.now.study.now.programs }
        requires plan { IsPlanOf self.now.study.now J.costs J.cycles }
        requires board { seat.old.board ≡ self.now.board.now }
        requires row { row < length J.costs }
        requires hand { seat.old.view.hand ≡ [] }
        ensures programs { knowledge.new.programs ≡ knowledge.old.programs }
        ensures seat { Continues seat.old seat.new }
        ensures hand { OnOk result (seat.new.view.hand ≡ []) }
        ensures not_open { OnOk result (KnowsNotOpen seat.new.view row) }
    {
        if !self.board.claim(seat, row) {
            return Ok(());
        }
        self.gate.before(self.worker, row);
        self.run_row(knowledge, seat, row)
    }

    /// Tries rows until none is left to take, then each of the lane's list again. None of that list
    /// is open then.
    pub(crate) fn try_all(
        &self,
        alloc: A,
        seat: &mut Seat<J>,
        lane: &mut Lane<A>,
    ) -> Result<(), AllocError>
        requires plan { IsPlanOf self.now.study.now J.costs J.cycles }
        requires board { seat.old.board ≡ self.now.board.now }
        requires rows { lane.old.count ≡ length J.costs }
        requires hand { seat.old.view.hand ≡ [] }
        ensures lane { lane.new ≡ lane.old }
        ensures seat { Continues seat.old seat.new }
        ensures hand { OnOk result (seat.new.view.hand ≡ []) }
        ensures not_open { OnOk result (All (KnowsNotOpen seat.new.view) lane.new.rows) }
    {
        self.study.keeps_limits();
        let mut knowledge = Knowledge::new(alloc, self.study.programs())?;
        self.try_taken(&mut knowledge, seat, lane)?;
        self.try_listed(&mut knowledge, seat, lane)
    }

    /// Takes rows while there are any, but at most as many as the study has, and tries each.
    fn try_taken(
        &self,
        knowledge: &mut Knowledge<'s, A>,
        seat: &mut Seat<J>,
        lane: &mut Lane<A>,
    ) -> Result<(), AllocError>
        requires programs { knowledge.old.programs ≡ self.now.study.now.programs }
        requires plan { IsPlanOf self.now.study.now J.costs J.cycles }
        requires board { seat.old.board ≡ self.now.board.now }
        requires rows { lane.old.count ≡ length J.costs }
        requires hand { seat.old.view.hand ≡ [] }
        ensures programs { knowledge.new.programs ≡ knowledge.old.programs }
        ensures lane { lane.new ≡ lane.old }
        ensures seat { Continues seat.old seat.new }
        ensures hand { OnOk result (seat.new.view.hand ≡ []) }
    {
        for _ in 0..lane.count() {
            let Some(row) = lane.take() else {
                return Ok(());
            };
            self.try_row(knowledge, seat, row)?;
        }
        Ok(())
    }

    /// Tries each row of the lane's list once, in increasing order. None of them is open then.
    fn try_listed(
        &self,
        knowledge: &mut Knowledge<'s, A>,
        seat: &mut Seat<J>,
        lane: &Lane<A>,
    ) -> Result<(), AllocError>
        requires programs { knowledge.old.programs ≡ self.now.study.now.programs }
        requires plan { IsPlanOf self.now.study.now J.costs J.cycles }
        requires board { seat.old.board ≡ self.now.board.now }
        requires rows { lane.now.count ≡ length J.costs }
        requires hand { seat.old.view.hand ≡ [] }
        ensures programs { knowledge.new.programs ≡ knowledge.old.programs }
        ensures seat { Continues seat.old seat.new }
        ensures hand { OnOk result (seat.new.view.hand ≡ []) }
        ensures not_open { OnOk result (All (KnowsNotOpen seat.new.view) lane.now.rows) }
    {
        for row in lane.rows() {
            self.try_row(knowledge, seat, *row)?;
        }
        Ok(())
    }
}
