//! Laws of the definitions of cycles and of looks. These functions do nothing: their contracts are the laws.

ghost use Rattle.std.specs.Prelude.{◌≡◌};
ghost use Rattle.tomex_rvexec.specs.Run.{start_of};
ghost use Rattle.tomex_rvexec.specs.Trace.{steps_from};
ghost use Rattle.tomex_config.specs.Configuration.{Configuration};
ghost use Rattle.tomex_timing.specs.Search.{times_in, total_of};
ghost use Rattle.tomex_timing.specs.Run.{total};
ghost use Rattle.tomex_plateaus.specs.Looks.{LastLookSeesMost};
ghost use Rattle.tomex_study.specs.Program.{Workload, IsProgram};

/// The cycles of a program are those of its run within its own limit, as a times report shows it: a
/// configuration's cycles are defined by the most steps that any program may make.
#[tactic(auto, using(crate::proofs::Totals::total_within))]
pub fn limit_changes_no_total()
    ensures { (p : Workload) (config : Configuration) → IsProgram p
        → total config p.image
        ≡ total_of (times_in config (steps_from p.limit (start_of p.image))) }
{}

/// At each look a configuration has made no more cycles than at its last one. So if no cycle is
/// made between looks, as when the totals are known, the last look decides for all of them.
#[tactic(auto, using(crate::proofs::Totals::last_look_sees_most))]
pub fn the_last_look_sees_most()
    ensures { LastLookSeesMost }
{}
