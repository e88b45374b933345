//! The floors of a study, and the fewest cycles of a row.

ghost use Rattle.std.specs.Prelude.{◌≡◌, ◌≤◌, ◌*◌, length, map, option_map, IfOk};
ghost use Rattle.tomex_timing.specs.Run.{most_cycles};
ghost use Rattle.tomex_survey.specs.Floors.{any_width, fastest, floor_at, floors_of, study_floor, weighted_floor};
ghost use Rattle.tomex_study.specs.Program.{steps_of};
ghost use Rattle.tomex_survey.specs.Extremes.{lesser};

use crate::least::lesser;
use std::alloc::{AllocError, Allocator};
use tomex_config::Config;
use tomex_floor::Floored;
use tomex_study::{Floors, Program, Study, Surveyed};

/// Floors of a configuration, or the least of several, in cycles times the programs' weights.
#[derive(Clone, Copy, Drop)]
pub(crate) struct WeightedFloors {
    /// At its own width.
    pub own: u64,
    /// At the greatest width.
    pub any_width: u64,
}

/// A program's floors at a configuration's own width and at the greatest one, times its weight.
fn weighted_floors<A: Allocator + Clone>(
    alloc: &A,
    program: &Program<A>,
    floored: &mut Floored<'_, A>,
    config: &Config,
) -> Result<WeightedFloors, AllocError>
    requires run { floored.old ≡ steps_of program.now }
    ensures run { floored.new ≡ floored.old }
    ensures own { IfOk result (λ f. f.own ≡ weighted_floor config.now.width config.now program.now) }
    ensures any_width { IfOk result (λ f. f.any_width ≡ weighted_floor 4 config.now program.now) }
    ensures range { IfOk result (λ f. (f.own ≤ 1000 * most_cycles) × (f.any_width ≤ 1000 * most_cycles)) }
{
    config.keeps_limits();
    program.keeps_limits();
    let weight = u64::from(program.weight());
    let floors = floored.floors_for(alloc, config)?;
    Ok(WeightedFloors {
        own: weight * floors[usize::from(config.width()) - 1],
        any_width: weight * floors[3],
    })
}

/// The weighted floors of all programs for a configuration's latencies.
fn floors_on<A: Allocator + Clone>(
    alloc: &A,
    programs: &[Program<A>],
    floored: &mut Vec<Floored<'_, A>, A>,
    config: &Config,
) -> Result<WeightedFloors, AllocError>
    requires few { length programs.now ≤ 8 }
    requires runs { floored.old.items ≡ map steps_of programs.now }
    ensures runs { floored.new.items ≡ floored.old.items }
    ensures own { IfOk result (λ f. f.own ≡ floor_at programs.now config.now.width config.now) }
    ensures any_width { IfOk result (λ f. f.any_width ≡ floor_at programs.now 4 config.now) }
{
    let (mut own, mut any_width) = (0, 0);
    for (place, program) in programs.iter().enumerate() {
        let floors = weighted_floors(alloc, program, &mut floored[place], config)?;
        own += floors.own;
        any_width += floors.any_width;
    }
    Ok(WeightedFloors { own, any_width })
}

/// The runs of a study's programs, of whose floors nothing is known.
pub fn all_floored<'s, A: Allocator + Clone>(
    alloc: A,
    study: &'s Study<A>,
) -> Result<Vec<Floored<'s, A>, A>, AllocError>
    ensures { IfOk result (λ v. v.items ≡ map steps_of study.now.programs) }
{
    let mut all = Vec::with_capacity(alloc.clone()?, study.programs().len())?;
    for program in study.programs() {
        all.push(Floored::new(alloc.clone()?, program.run()))?;
    }
    Ok(all)
}

/// The lesser floors of each kind.
fn lesser_floors(floors: WeightedFloors, least: Option<WeightedFloors>) -> WeightedFloors
    ensures own { result.own ≡ lesser floors.own (option_map (λ f. f.own) least) }
    ensures any_width { result.any_width ≡ lesser floors.any_width (option_map (λ f. f.any_width) least) }
{
    match least {
        None => floors,
        Some(least) => WeightedFloors {
            own: floors.own.min(least.own),
            any_width: floors.any_width.min(least.any_width),
        },
    }
}

/// The least floors of a study's rows.
fn least_floors<A: Allocator + Clone>(
    alloc: &A,
    study: &Study<A>,
    floored: &mut Vec<Floored<'_, A>, A>,
) -> Result<WeightedFloors, AllocError>
    requires runs { floored.old.items ≡ map steps_of study.now.programs }
    ensures runs { floored.new.items ≡ floored.old.items }
    ensures own { IfOk result (λ f. f.own ≡ study_floor study.now) }
    ensures any_width { IfOk result (λ f. f.any_width ≡ any_width study.now) }
{
    study.keeps_limits();
    let mut least = None;
    for config in study.rows() {
        let floors = floors_on(alloc, study.programs(), floored, config)?;
        least = Some(lesser_floors(floors, least));
    }
    Ok(least.unwrap_or(WeightedFloors {
        own: 0,
        any_width: 0,
    }))
}

/// The fewest cycles of a row, times the programs' weights.
#[tactic(auto, unfolding(crate::specs::Floors::fastest))]
fn fastest<A: Allocator>(surveyed: &Surveyed<'_, A>) -> u64
    ensures { result ≡ fastest surveyed.now }
{
    let mut least = None;
    for row in surveyed.rows() {
        least = Some(lesser(row.cycles, least));
    }
    least.unwrap_or(0)
}

/// The fewest cycles of a study's rows, and the least floors of its rows: what no machine with the latencies of one of
/// them goes below. `floored` keeps what it learns of the programs' runs.
#[tactic(auto, unfolding(crate::specs::Floors::floors_of))]
pub fn floors_of<A: Allocator + Clone>(
    alloc: &A,
    surveyed: &Surveyed<'_, A>,
    floored: &mut Vec<Floored<'_, A>, A>,
) -> Result<Floors, AllocError>
    requires runs { floored.old.items ≡ map steps_of surveyed.now.programs }
    ensures runs { floored.new.items ≡ floored.old.items }
    ensures floors { IfOk result (λ f. f ≡ floors_of surveyed.now) }
{
    let least = least_floors(alloc, surveyed.study(), floored)?;
    Ok(Floors {
        fastest: fastest(surveyed),
        own: least.own,
        any_width: least.any_width,
    })
}
