//! The front of the rows that marks show as finished.

ghost use Rattle.std.specs.Prelude.{◌≡◌, ◌++◌, length, IfOk, OnOk};
ghost use Rattle.tomex_pareto.specs.Front.{front_of};
ghost use Rattle.tomex_sweep.specs.Finished.{finished_from, finished_one};

use std::alloc::{AllocError, Allocator};
use tomex_board::Mark;
use tomex_pareto::{FrontRow, front};

/// Adds a row if it is finished.
fn note<A: Allocator>(
    rows: &mut Vec<FrontRow, A>,
    row: usize,
    cost: u64,
    mark: Mark,
) -> Result<(), AllocError>
    ensures { OnOk result (rows.new.items ≡ rows.old.items ++ finished_one row cost mark) }
{
    if let Mark::Finished(cycles) = mark {
        rows.push(FrontRow { row, cost, cycles })?;
    }
    Ok(())
}

/// The finished rows, in the order of their numbers.
fn finished_rows<A: Allocator>(
    alloc: A,
    costs: &[u64],
    marks: &[Mark],
) -> Result<Vec<FrontRow, A>, AllocError>
    requires { length marks.now ≡ length costs.now }
    ensures { IfOk result (λ v. v.items ≡ finished_from 0 costs.now marks.now) }
{
    let mut rows = Vec::new(alloc);
    for (row, mark) in marks.iter().enumerate() {
        note(&mut rows, row, costs[row], *mark)?;
    }
    Ok(rows)
}

/// The front of the finished rows.
#[tactic(auto, using(crate::proofs::FinishedRows::finished_numbered))]
pub(crate) fn front_of_finished<A: Allocator + Clone>(
    alloc: A,
    costs: &[u64],
    marks: &[Mark],
) -> Result<Vec<FrontRow, A>, AllocError>
    requires { length marks.now ≡ length costs.now }
    ensures { IfOk result (λ v. v.items ≡ front_of (finished_from 0 costs.now marks.now)) }
{
    let rows = finished_rows(alloc.clone()?, costs, marks)?;
    front(alloc, rows)
}
