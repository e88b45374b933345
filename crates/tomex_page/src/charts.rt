//! The chart of a run's first instructions.

ghost use Rattle.std.specs.Prelude.{OnOk};
ghost use Rattle.tomex_layout.specs.Growth.{Appends};
ghost use Rattle.tomex_page.specs.Charts.{chart_of, chart_start, first_steps, picture_text, chart_block, too_wide};
ghost use Rattle.tomex_study.specs.Program.{steps_of};
ghost use Rattle.tomex_run_views.specs.Excerpt.{AreTimesOf};

use std::alloc::{AllocError, Allocator, Global};
use std::fmt::Write;
use tomex_run_views::{Excerpt, push_picture, signs_of};
use tomex_study::Program;
use tomex_timing::Times;

/// The most instructions of a chart.
const CHART_STEPS: u32 = 32;

/// The most signs of a chart that is drawn.
const CHART_SIGNS: u64 = 16_384;

/// Adds the picture of an excerpt.
#[tactic(auto, unfolding(crate::specs::Charts::chart_block))]
fn push_preformatted<A: Allocator, B: Allocator>(
    text: &mut String<A>,
    heap: Global,
    excerpt: &Excerpt<B>,
) -> Result<(), AllocError>
    ensures { OnOk result (Appends (chart_block excerpt.now) text.old text.new) }
{
    text.push_str("<pre>")?;
    push_picture(text, heap, excerpt)?;
    text.push_str("</pre>")
}

/// Adds that the picture is too wide.
#[tactic(auto, unfolding(crate::specs::Charts::too_wide))]
fn push_too_wide<A: Allocator>(text: &mut String<A>) -> Result<(), AllocError>
    ensures { OnOk result (Appends too_wide text.old text.new) }
{
    text.push_str("<p>Too wide: <code>tomex pipeline</code> draws it.</p>\n")
}

/// Adds the picture of an excerpt, or why there is none.
#[tactic(auto, unfolding(crate::specs::Charts::picture_text))]
fn push_picture_text<A: Allocator, B: Allocator>(
    text: &mut String<A>,
    heap: Global,
    excerpt: &Excerpt<B>,
) -> Result<(), AllocError>
    ensures { OnOk result (Appends (picture_text excerpt.now) text.old text.new) }
{
    if signs_of(excerpt) <= CHART_SIGNS {
        push_preformatted(text, heap, excerpt)
    } else {
        push_too_wide(text)
    }
}

/// Adds the start of a chart.
#[tactic(auto, unfolding(crate::specs::Charts::chart_start))]
fn push_chart_start<A: Allocator>(text: &mut String<A>, name: &str) -> Result<(), AllocError>
    ensures { OnOk result (Appends (chart_start name.now) text.old text.new) }
{
    write!(
        text,
        "<details><summary>{name}: its first instructions, cycle by cycle</summary>\n"
    )
}

/// Adds the chart of an excerpt of a program's run.
#[tactic(auto, unfolding(crate::specs::Charts::chart_of))]
fn push_chart_of<A: Allocator, B: Allocator>(
    text: &mut String<A>,
    heap: Global,
    name: &str,
    excerpt: &Excerpt<B>,
) -> Result<(), AllocError>
    ensures { OnOk result (Appends (chart_of name.now excerpt.now) text.old text.new) }
{
    push_chart_start(text, name)?;
    push_picture_text(text, heap, excerpt)?;
    write!(text, "</details>\n")
}

/// Adds the chart of the first instructions of a program's run, given the times of all its steps.
pub fn push_chart<A: Allocator, B: Allocator>(
    text: &mut String<A>,
    heap: Global,
    program: &Program<B>,
    times: Vec<Times, B>,
) -> Result<(), AllocError>
    requires { AreTimesOf (steps_of program.now) times.items }
    ensures { OnOk result (
        Appends (chart_of program.now.name (first_steps (steps_of program.now) times.items)) text.old text.new) }
{
    let excerpt = Excerpt::of_first(program.run(), times, CHART_STEPS);
    push_chart_of(text, heap, program.name(), &excerpt)
}
