//! The picture of some steps of a run on one configuration.

ghost use Rattle.std.specs.Prelude.{◌≡◌, ◌+◌, ◌<◌, ◌≤◌, ◌^◌, drop, length, nat_lt, take};
ghost use Rattle.std.specs.Prelude.{IfErr, IfOk, IsErrOf, OnOk};
ghost use Rattle.tomex_rvexec.specs.Run.{most_steps};
ghost use Rattle.tomex_timing.specs.Search.{total_of};
ghost use Rattle.tomex_layout.specs.Growth.{Appends};
ghost use Rattle.tomex_run_views.specs.Chart.{IsPictureOf, IsUnpictured, first_issue, frame_of};
ghost use Rattle.tomex_run_views.specs.Chart.{longest_instruction, most_signs, picture_of, signs_of};

use crate::excerpt::Excerpt;
use crate::lines::{Frame, push_lines};
use crate::picture_error::PictureError;
use std::alloc::{AllocError, Allocator, Global};
use std::fmt::Write;
use tomex_config::Config;
use tomex_rvexec::Step;
use tomex_timing::evaluate::total;
use tomex_timing::{Run, Times};

/// The most signs of one picture.
const MOST_SIGNS: u64 = 16_777_216;

/// The issue of the first step; 0 if there are no steps.
pub fn first_issue(times: &[Times]) -> u64
    ensures { result ≡ first_issue times.now }
{
    match times {
        [first, ..] => first.issue,
        [] => 0,
    }
}

/// The number of signs in the picture of an excerpt: its lines times its columns.
pub fn signs_of<A: Allocator>(excerpt: &Excerpt<A>) -> u64
    ensures { result ≡ signs_of excerpt.now.times }
{
    excerpt.keeps_limits();
    let times = excerpt.times();
    let columns = (total(times) + 1).saturating_sub(first_issue(times));
    times.len() as u64 * columns
}

/// The length of the longest instruction of some steps.
fn longest_instruction(heap: Global, steps: &[Step]) -> Result<usize, AllocError>
    ensures { IfOk result (λ letters. letters ≡ longest_instruction steps.now) }
{
    let mut text = String::new(heap);
    let mut letters = 0;
    for step in steps {
        let instr = step.instr;
        text.clear();
        write!(&mut text, "{instr}")?;
        letters = letters.max(text.as_bytes().len());
    }
    Ok(letters)
}

/// The columns of an excerpt.
fn frame_of<A: Allocator>(heap: Global, excerpt: &Excerpt<A>) -> Result<Frame, AllocError>
    ensures { IfOk result
        (λ frame. frame ≡ frame_of excerpt.now.number excerpt.now.steps excerpt.now.times) }
{
    excerpt.keeps_limits();
    let steps = excerpt.steps();
    let greatest = excerpt.number() + steps.len() as u64 - 1;
    let text = format!(in heap; "{greatest}")?;
    Ok(Frame {
        digits: text.as_bytes().len(),
        letters: longest_instruction(heap, steps)?,
        first: first_issue(excerpt.times()),
    })
}

/// Adds the picture of an excerpt, whatever its size. Small temporary data is allocated from
/// `heap`.
pub fn push_picture<A: Allocator, B: Allocator>(
    text: &mut String<A>,
    heap: Global,
    excerpt: &Excerpt<B>,
) -> Result<(), AllocError>
    ensures { OnOk result (
        Appends (picture_of excerpt.now.number excerpt.now.steps excerpt.now.times) text.old text.new) }
{
    excerpt.keeps_limits();
    let frame = frame_of(heap, excerpt)?;
    let times = excerpt.times();
    let (first, last) = (first_issue(times), total(times));
    write!(text, "cycles {first} to {last}\n")?;
    push_lines(text, heap, &frame, excerpt.number(), excerpt.steps(), times)
}

/// The picture of an excerpt, whatever its size. Small temporary data is allocated from `heap`.
pub fn picture_of<A: Allocator, B: Allocator>(
    alloc: A,
    heap: Global,
    excerpt: &Excerpt<B>,
) -> Result<Vec<u8, A>, AllocError>
    ensures { IfOk result
        (λ text. text.items ≡ picture_of excerpt.now.number excerpt.now.steps excerpt.now.times) }
{
    let mut text = String::new(alloc);
    push_picture(&mut text, heap, excerpt)?;
    Ok(text.into_bytes())
}

/// The picture of some steps of a run on a configuration, at most `count` of them from step `number` on; the
/// first step is number 1. It has a line with the cycles, from the first step's issue to the greatest end, and then a
/// line for each step: its number, its address, its instruction, and a sign for each cycle up to its end.
///
/// A picture of more than 2^24 signs isn't made. Small temporary data is allocated from `heap`.
pub fn pipeline_text<A: Allocator + Clone>(
    alloc: A,
    heap: Global,
    run: &Run<A>,
    config: &Config,
    number: u32,
    count: u32,
) -> Result<Vec<u8, A>, PictureError>
    requires few { length run.now ≤ most_steps }
    requires number { 0 < number }
    ensures text { IfOk result (λ text. IsPictureOf config.now run.now number count text.items) }
    ensures refused { IfErr result (λ error. IsUnpictured config.now run.now number count error) }
    ensures no_step { length run.now < number → IsErrOf result PictureError.NoSuchStep }
{
    let excerpt = Excerpt::new(&alloc, run, config, number, count)?;
    if MOST_SIGNS < signs_of(&excerpt) {
        return Err(PictureError::TooLarge);
    }
    Ok(picture_of(alloc, heap, &excerpt)?)
}
