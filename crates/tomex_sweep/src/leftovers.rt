//! Rows that no worker closed.

ghost use Rattle.std.specs.Prelude.{◌≡◌, ◌↔◌, length, true, IfOk, OnOk, IsTrue, All};
ghost use Rattle.tomex_board.specs.Marks.{AreLawful};
ghost use Rattle.tomex_lanes.specs.Parts.{is_closed};
ghost use Rattle.tomex_study.specs.Cycles.{cycles_of};
ghost use Rattle.tomex_sweep.specs.Marks.{AreJudged, StayClosed, rows_left};

use crate::runs::Runs;
use std::alloc::{AllocError, Allocator};
use tomex_board::Mark;
use tomex_study::Study;

/// True if the row of this mark is finished or dropped.
fn is_closed(mark: Mark) -> bool
    ensures { result ≡ is_closed mark }
{
    match mark {
        Mark::Open | Mark::Taken => false,
        Mark::Finished(_) | Mark::Dropped(_) => true,
    }
}

/// True if all rows are closed.
fn are_closed(marks: &[Mark]) -> bool
    ensures { IsTrue result ↔ All (λ m. is_closed m ≡ true) marks.now }
{
    marks.iter().all(|mark| is_closed(*mark))
}

/// Runs to its end each row that is still open or taken, and returns the number of these. The
/// others are unchanged.
fn gather<A: Allocator + Clone>(
    alloc: A,
    study: &Study<A>,
    marks: &mut Vec<Mark, A>,
) -> Result<usize, AllocError>
    requires count { length marks.old.items ≡ length study.now.costs }
    requires lawful { AreLawful study.now.costs (cycles_of study.now) marks.old.items }
    ensures judged { OnOk result (AreJudged study.now.costs (cycles_of study.now) marks.new.items) }
    ensures counted { IfOk result (λ n. n ≡ rows_left marks.old.items) }
    ensures closed { OnOk result (StayClosed marks.old.items marks.new.items) }
{
    study.keeps_limits();
    let mut runs = Runs::new(alloc);
    let mut gathered = 0;
    for row in 0..marks.len() {
        if is_closed(marks[row]) {
            continue;
        }
        let cycles = runs.cycles(study.programs(), &study.rows()[row])?;
        marks[row] = Mark::Finished(cycles);
        gathered += 1;
    }
    Ok(gathered)
}

/// Closes the rows that no worker closed, if there are any, as `gather` does.
pub(crate) fn close_rest<A: Allocator + Clone>(
    alloc: A,
    study: &Study<A>,
    marks: &mut Vec<Mark, A>,
) -> Result<usize, AllocError>
    requires count { length marks.old.items ≡ length study.now.costs }
    requires lawful { AreLawful study.now.costs (cycles_of study.now) marks.old.items }
    ensures judged { OnOk result (AreJudged study.now.costs (cycles_of study.now) marks.new.items) }
    ensures counted { IfOk result (λ n. n ≡ rows_left marks.old.items) }
    ensures closed { OnOk result (StayClosed marks.old.items marks.new.items) }
{
    if are_closed(marks.as_slice()) {
        return Ok(0);
    }
    gather(alloc, study, marks)
}
