//! A program's run on a configuration: its stalls, and its chart.

ghost use Rattle.std.specs.Prelude.{◌≡◌, ◌*◌, ◌≤◌, length, map, IfOk, OnOk};
ghost use Rattle.std.specs.List.{flat_map};
ghost use Rattle.tomex_layout.specs.Growth.{Appends};
ghost use Rattle.tomex_page.specs.Page.{run_block, run_stalls};
ghost use Rattle.tomex_page.specs.Runs.{floor_on, needs_on, path_on};
ghost use Rattle.tomex_study.specs.Program.{steps_of};
ghost use Rattle.tomex_path_views.specs.Shares.{AreShort};
ghost use Rattle.tomex_timing.specs.Search.{times_in, total_of};

use crate::charts::push_chart;
use crate::stalls::push_stalls_table;
use std::alloc::{AllocError, Allocator, Global};
use std::fmt::Write;
use tomex_config::Config;
use tomex_floor::Floored;
use tomex_path::{Link, RunPath, path};
use tomex_study::Program;
use tomex_timing::Needs;
use tomex_timing::evaluate::needs;

/// The needs of a program on a configuration.
fn needs_on<A: Allocator>(
    alloc: A,
    program: &Program<A>,
    config: &Config,
) -> Result<Needs, AllocError>
    ensures { IfOk result (λ n. n ≡ needs_on config.now program.now) }
{
    needs(alloc, program.steps(), config)
}

/// The path of a program's run on a configuration, and the times of its steps.
fn path_on<A: Allocator + Clone>(
    alloc: A,
    program: &Program<A>,
    config: &Config,
) -> Result<RunPath<A>, AllocError>
    ensures path { IfOk result (λ p. p.links.items ≡ path_on config.now program.now) }
    ensures short { IfOk result (λ p. AreShort p.links.items) }
    ensures times { IfOk result (λ p. p.times.items ≡ times_in config.now (steps_of program.now)) }
    ensures pairs { IfOk result (λ p. length p.times.items ≡ length (steps_of program.now)) }
    ensures bound { IfOk result (λ p. total_of p.times.items ≤ 67 * length (steps_of program.now)) }
{
    program.keeps_limits();
    path(alloc, program.run(), config)
}

/// The floor of a program for a configuration's latencies and its width.
#[tactic(auto, unfolding(crate::specs::Runs::floor_on))]
fn floor_on<A: Allocator + Clone>(
    alloc: &A,
    program: &Program<A>,
    floored: &mut Floored<'_, A>,
    config: &Config,
) -> Result<u64, AllocError>
    requires run { floored.old ≡ steps_of program.now }
    ensures run { floored.new ≡ floored.old }
    ensures floor { IfOk result (λ n. n ≡ floor_on config.now program.now) }
{
    floored.own_floor(alloc, config)
}

/// Adds the stalls of a program's run on a configuration, given its path.
#[tactic(auto, unfolding(crate::specs::Page::run_stalls))]
fn push_run_stalls<A: Allocator, B: Allocator + Clone>(
    text: &mut String<A>,
    alloc: &B,
    heap: Global,
    config: &Config,
    program: &Program<B>,
    floored: &mut Floored<'_, B>,
    path: &[Link],
) -> Result<(), AllocError>
    requires run { floored.old ≡ steps_of program.now }
    requires path { path.now ≡ path_on config.now program.now }
    requires short { AreShort path.now }
    ensures run { floored.new ≡ floored.old }
    ensures text { OnOk result (Appends (run_stalls config.now program.now) text.old text.new) }
{
    let floor = floor_on(alloc, program, floored, config)?;
    let needs = needs_on(alloc.clone()?, program, config)?;
    push_stalls_table(text, heap, config, &needs, path, floor, program.name())
}

/// Adds a program's run on a configuration.
#[tactic(auto, unfolding(crate::specs::Page::run_block))]
fn push_run<A: Allocator, B: Allocator + Clone>(
    text: &mut String<A>,
    alloc: &B,
    heap: Global,
    config: &Config,
    program: &Program<B>,
    floored: &mut Floored<'_, B>,
) -> Result<(), AllocError>
    requires run { floored.old ≡ steps_of program.now }
    ensures run { floored.new ≡ floored.old }
    ensures text { OnOk result (Appends (run_block config.now program.now) text.old text.new) }
{
    text.push_str("<div>\n")?;
    let RunPath { times, links } = path_on(alloc.clone()?, program, config)?;
    push_run_stalls(
        text,
        alloc,
        heap,
        config,
        program,
        floored,
        links.as_slice(),
    )?;
    push_chart(text, heap, program, times)?;
    write!(text, "</div>\n")
}

/// Adds the runs of some programs on a configuration. `floored` are their runs: a floor is computed once for each set
/// of latencies.
pub fn push_runs<A: Allocator, B: Allocator + Clone>(
    text: &mut String<A>,
    alloc: &B,
    heap: Global,
    config: &Config,
    programs: &[Program<B>],
    floored: &mut Vec<Floored<'_, B>, B>,
) -> Result<(), AllocError>
    requires runs { floored.old.items ≡ map steps_of programs.now }
    ensures runs { floored.new.items ≡ floored.old.items }
    ensures text { OnOk result (Appends (flat_map (run_block config.now) programs.now) text.old text.new) }
{
    for (place, program) in programs.iter().enumerate() {
        push_run(text, alloc, heap, config, program, &mut floored[place])?;
    }
    Ok(())
}
