//! All rows of a study, given the totals of its programs on each.

ghost use Rattle.std.specs.Prelude.{◌≡◌, ◌≤◌, length, All, IfOk};
ghost use Rattle.tomex_config.specs.Configuration.{Configuration, IsWithinLimits};
ghost use Rattle.tomex_study.specs.Cycles.{cycles_on, totals_on};
ghost use Rattle.tomex_study.specs.Program.{IsProgram};
ghost use Rattle.tomex_study.specs.Surveyed.{AreTotalsOf};
ghost use Rattle.tomex_study.specs.StudyFront.{all_rows};

use std::alloc::{AllocError, Allocator};
use tomex_pareto::FrontRow;
use tomex_study::{Program, Study};

/// The cycles of a configuration on which the programs have these totals: each times its weight.
pub fn cycles_by_weight<A: Allocator>(programs: &[Program<A>], totals: &[u64]) -> u64
    requires few { length programs.now ≤ 8 }
    requires ends { All IsProgram programs.now }
    requires totals { (config : Configuration) × IsWithinLimits config × (totals.now ≡ totals_on programs.now config) }
    ensures { (config : Configuration) → totals.now ≡ totals_on programs.now config
        → result ≡ cycles_on programs.now config }
{
    let mut cycles = 0;
    for (place, program) in programs.iter().enumerate() {
        cycles += u64::from(program.weight()) * totals[place];
    }
    cycles
}

/// All rows with their costs and cycles.
pub(crate) fn all_rows<A: Allocator>(
    alloc: A,
    study: &Study<A>,
    totals: &[[u64; 8]],
) -> Result<Vec<FrontRow, A>, AllocError>
    requires { AreTotalsOf study.now totals.now }
    ensures { IfOk result (λ v. v.items ≡ all_rows study.now) }
{
    study.keeps_limits();
    let programs = study.programs();
    let mut rows = Vec::with_capacity(alloc, totals.len())?;
    for (row, own) in totals.iter().enumerate() {
        rows.push(FrontRow {
            row,
            cost: study.costs()[row],
            cycles: cycles_by_weight(programs, &own[..programs.len()]),
        })?;
    }
    Ok(rows)
}
