//! Laws of reports. These functions do nothing: their contracts are the laws.

ghost use Rattle.std.specs.Prelude.{◌≡◌, length};
ghost use Rattle.tomex_rvexec.specs.History.{state_after};
ghost use Rattle.tomex_rvexec.specs.Run.{start_of};
ghost use Rattle.tomex_rvexec.specs.Trace.{steps_from};
ghost use Rattle.tomex_study.specs.Program.{IsProgram, Workload};
ghost use Rattle.tomex_texts.specs.Ends.{count_of, last_state};
ghost use Rattle.tomex_texts.specs.RowsLaws.{FlaggedRowsAreTheHull, HullIsOnTheFront};

/// The end of a program in a report is that of its run within its own limit, although the report is
/// defined by the most steps that any program may make.
#[tactic(auto, using(crate::proofs::Ended::count_within, crate::proofs::Ended::state_within))]
pub fn limit_changes_no_end()
    ensures steps { (p : Workload) → IsProgram p
        → count_of p.image ≡ length (steps_from p.limit (start_of p.image)) }
    ensures state { (p : Workload) → IsProgram p
        → last_state p.image ≡ state_after p.image p.limit }
{}

/// In the report of all rows, those with the flag `hull` are the rows that `front --hull` prints, and each of them has
/// the flag `front`.
pub fn flagged_rows_are_the_hull()
    ensures hull { FlaggedRowsAreTheHull }
    ensures front { HullIsOnTheFront }
{}
