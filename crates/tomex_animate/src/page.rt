//! The page of some cycles of a run.

ghost use Rattle.std.specs.Prelude.{◌≡◌, ◌+◌, ◌-◌, ◌<◌, ◌≤◌, ◌^◌, length, min};
ghost use Rattle.std.specs.Prelude.{All, IfErr, IfOk, OnOk, string_bytes};
ghost use Rattle.tomex_rvexec.specs.Run.{most_steps, start_of};
ghost use Rattle.tomex_rvexec.specs.Trace.{steps_from};
ghost use Rattle.tomex_timing.specs.Search.{times_in};
ghost use Rattle.tomex_layout.specs.Growth.{Appends};
ghost use Rattle.tomex_snapshots.specs.Entries.{entries_of};
ghost use Rattle.tomex_frames.specs.OnPath.{IsOfRun};
ghost use Rattle.tomex_animate.specs.declared.animation_error.AnimationError.TheVariants.{Memory, PastEnd};
ghost use Rattle.tomex_animate.specs.Page.{IsAnimation, IsUnanimated, LeavesRegisters, animate_page, page_foot};
ghost use Rattle.tomex_animate.specs.Page.{page_head, page_of, run_named, title_of};

use crate::animation_error::AnimationError;
use crate::cells::{Cells, help_of, style_of};
use crate::machine::{push_index, push_machine_table};
use crate::stretch::stretch;
use crate::view::{Views, push_views};
use std::alloc::{AllocError, Allocator, Global};
use std::fmt::Write;
use tomex_config::Config;
use tomex_html::{push_name, push_page_end, push_page_start};
use tomex_path::path;
use tomex_rvexec::{Step, run};
use tomex_snapshots::{Entry, Span, entries_of};
use tomex_study::Program;
use tomex_timing::Times;
use tomex_timing::evaluate::{total, waits};

/// Adds the run that a page shows, without the study's name.
#[tactic(auto, unfolding(crate::specs::Page::run_named))]
fn push_run_name<A: Allocator>(
    text: &mut String<A>,
    program: &str,
    number: usize,
) -> Result<(), AllocError>
    ensures { OnOk result (Appends (run_named program.now number) text.old text.new) }
{
    write!(text, "{program} on configuration {number} of ")
}

/// A page's title.
#[tactic(auto, unfolding(crate::specs::Page::title_of))]
fn title_of(
    heap: Global,
    study: &str,
    program: &str,
    number: usize,
    page: Span,
) -> Result<String, AllocError>
    ensures { IfOk result
        (λ title. string_bytes title ≡ title_of study.now program.now number page) }
{
    let Span { from, to } = page;
    let mut title = String::new(heap);
    push_run_name(&mut title, program, number)?;
    push_name(&mut title, study)?;
    write!(&mut title, ", cycles {from} to {to}")?;
    Ok(title)
}

/// Adds the part of a page before its views.
#[tactic(auto, unfolding(crate::specs::Page::page_head))]
fn push_page_head<A: Allocator>(
    text: &mut String<A>,
    heap: Global,
    cells: Cells,
    study: &str,
    program: &str,
    number: usize,
    page: Span,
) -> Result<(), AllocError>
    ensures { OnOk result (Appends (page_head cells study.now program.now number page) text.old text.new) }
{
    let title = title_of(heap, study, program, number, page)?;
    let style = style_of(heap, cells)?;
    push_page_start(text, title.as_str(), style.as_str())?;
    text.push_str("<header><h1>")?;
    push_run_name(text, program, number)?;
    text.push_str("<bdi>")?;
    push_name(text, study)?;
    write!(text, "</bdi></h1></header>\n<main class=\"v\">\n")
}

/// Adds the part of a page after its views.
#[tactic(auto, unfolding(crate::specs::Page::page_foot))]
fn push_page_foot<A: Allocator>(
    text: &mut String<A>,
    cells: Cells,
    config: &Config,
    page: Span,
) -> Result<(), AllocError>
    requires { page.to < 2 ^ 63 }
    ensures { OnOk result (Appends (page_foot cells config.now page) text.old text.new) }
{
    text.push_str("</main>\n<footer>\n")?;
    push_machine_table(text, config)?;
    push_index(text, page)?;
    text.push_str(help_of(cells))?;
    text.push_str("</footer>\n")?;
    push_page_end(text)
}

/// The page of some steps.
fn page_text<A: Allocator>(
    alloc: A,
    heap: Global,
    study: &str,
    program: &str,
    number: usize,
    views: &Views<'_>,
) -> Result<Vec<u8, A>, AllocError>
    requires page { views.now.page.to < 2 ^ 63 }
    requires steps { All (IsOfRun (length views.now.steps.now)) views.now.path.now }
    ensures { IfOk result (λ text. text.items ≡ animate_page views.now.cells study.now program.now number
        views.now.config.now views.now.page views.now.total views.now.steps.now views.now.last.now
        views.now.path.now views.now.entries.now) }
{
    let mut text = String::new(alloc);
    push_page_head(
        &mut text,
        heap,
        views.cells,
        study,
        program,
        number,
        views.page,
    )?;
    push_views(&mut text, heap, views)?;
    push_page_foot(&mut text, views.cells, views.config, views.page)?;
    Ok(text.into_bytes())
}

/// The steps of a run with these times on a configuration.
fn entries_in<A: Allocator + Clone>(
    alloc: A,
    steps: &[Step],
    times: &[Times],
    config: &Config,
) -> Result<Vec<Entry, A>, AllocError>
    requires few { length steps.now ≤ most_steps }
    requires times { times.now ≡ times_in config.now steps.now }
    requires pairs { length times.now ≡ length steps.now }
    ensures { IfOk result (λ v. v.items ≡ entries_of config.now steps.now) }
{
    let waits = waits(alloc.clone()?, steps, config)?;
    entries_of(alloc, steps, times, waits.as_slice())
}

/// The registers after a program's run.
fn registers_of<A: Allocator>(alloc: A, program: &Program<A>) -> Result<[u32; 32], AnimationError>
    ensures last { IfOk result (λ last. LeavesRegisters program.now.image program.now.limit last) }
    ensures memory { IfErr result (λ error. error ≡ Memory) }
{
    // A program of a study ends, so only memory may be missing.
    match run(alloc, program.image(), program.limit()) {
        Ok(end) => Ok(end.regs),
        Err(_) => Err(AnimationError::Memory),
    }
}

/// The cycles of a page: at most `count` from `first` on.
fn page_in(first: u32, count: u32, total: u64) -> Result<Span, AnimationError>
    requires first { 0 < first }
    ensures page { IfOk result (λ page. (first ≤ total) × (page ≡ page_of first count total)) }
    ensures past { IfErr result (λ error. (total < first) × (error ≡ PastEnd)) }
{
    let first = u64::from(first);
    if total < first {
        return Err(AnimationError::PastEnd);
    }
    Ok(Span {
        from: first,
        to: (first + u64::from(count) - 1).min(total),
    })
}

/// The page of at most `count` cycles of a program's run on a configuration, from cycle `first` on: for each cycle what
/// happens in it, the step that has it on the run's critical path, the instruction status, the reservation stations and
/// the register status, with what has changed; or these with empty `cells`, without what would give them away. The
/// study's name may be any text; `number` is the configuration's number in the study.
///
/// A page has 4 to 6.5 KB a cycle on usual machines. Small temporary data is allocated from `heap`.
pub fn animation<A: Allocator + Clone>(
    alloc: A,
    heap: Global,
    cells: Cells,
    study: &str,
    program: &Program<A>,
    number: usize,
    config: &Config,
    first: u32,
    count: u32,
) -> Result<Vec<u8, A>, AnimationError>
    requires first { 0 < first }
    requires count { 0 < count }
    ensures text { IfOk result
        (λ text. IsAnimation cells study.now program.now number config.now first count text.items) }
    ensures refused { IfErr result (λ error. IsUnanimated config.now
        (steps_from program.now.limit (start_of program.now.image)) first error) }
{
    let steps = program.steps();
    let last = registers_of(alloc.clone()?, program)?;
    let run = path(alloc.clone()?, program.run(), config)?;
    let total = total(run.times.as_slice());
    let page = page_in(first, count, total)?;
    let entries = entries_in(alloc.clone()?, steps, run.times.as_slice(), config)?;
    let views = Views {
        cells,
        config,
        page,
        total,
        steps,
        last: &last,
        path: run.links.as_slice(),
        entries: stretch(entries.as_slice(), page),
    };
    Ok(page_text(alloc, heap, study, program.name(), number, &views)?)
}
