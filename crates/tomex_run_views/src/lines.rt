//! The lines of a picture.

ghost use Rattle.std.specs.Prelude.{◌≡◌, ◌+◌, ◌<◌, ◌^◌, ◌++◌, codes, length, OnOk};
ghost use Rattle.tomex_rvdec.specs.Text.{hex8, instr_text};
ghost use Rattle.tomex_layout.specs.Aligned.{left_aligned};
ghost use Rattle.tomex_layout.specs.Growth.{Appends};
ghost use Rattle.tomex_run_views.specs.Chart.{chart, line_of, lines_of};

use crate::stage::sign_in;
use std::alloc::{AllocError, Allocator, Global};
use std::fmt::Write;
use tomex_layout::{push_aligned_number, push_left_aligned};
use tomex_rvexec::Step;
use tomex_timing::Times;

/// The layout that all lines share.
#[derive(Clone, Copy)]
pub struct Frame {
    /// The width of the numbers.
    pub digits: usize,
    /// The width of the instructions.
    pub letters: usize,
    /// The cycle of the first column of signs.
    pub first: u64,
}

/// Adds a step's chart: its signs from a cycle on, up to its end.
fn push_chart<A: Allocator>(text: &mut String<A>, at: &Times, from: u64) -> Result<(), AllocError>
    ensures { OnOk result (Appends (chart at.now from) text.old text.new) }
{
    for cycle in from..=at.end {
        text.push_str(sign_in(at, cycle))?;
    }
    Ok(())
}

/// Adds a step's address and its instruction, which is as wide as the widest.
fn push_what<A: Allocator>(
    text: &mut String<A>,
    scratch: &mut String,
    letters: usize,
    step: &Step,
) -> Result<(), AllocError>
    ensures { OnOk result (Appends
        (hex8 step.now.pc ++ (codes " " ++ left_aligned letters (instr_text step.now.instr))) text.old text.new) }
{
    let (pc, instr) = (step.pc, step.instr);
    write!(text, "{pc:08x} ")?;
    scratch.clear();
    write!(scratch, "{instr}")?;
    push_left_aligned(text, letters, scratch.as_str())
}

/// Adds a step's line.
#[tactic(auto, unfolding(crate::specs::Chart::line_of))]
fn push_line<A: Allocator>(
    text: &mut String<A>,
    scratch: &mut String,
    frame: &Frame,
    number: u64,
    step: &Step,
    at: &Times,
) -> Result<(), AllocError>
    ensures { OnOk result (Appends (line_of frame.now number step.now at.now) text.old text.new) }
{
    push_aligned_number(text, scratch, frame.digits, number)?;
    text.push_str(" ")?;
    push_what(text, scratch, frame.letters, step)?;
    text.push_str(" ")?;
    push_chart(text, at, frame.first)?;
    text.push_str("\n")
}

/// Adds the lines of the steps from a number on.
pub fn push_lines<A: Allocator>(
    text: &mut String<A>,
    heap: Global,
    frame: &Frame,
    number: u64,
    steps: &[Step],
    times: &[Times],
) -> Result<(), AllocError>
    requires pairs { length times.now ≡ length steps.now }
    requires few { number + length steps.now < 2 ^ 63 }
    ensures { OnOk result (Appends (lines_of frame.now number steps.now times.now) text.old text.new) }
{
    let mut scratch = String::new(heap);
    for (index, step) in steps.iter().enumerate() {
        let number = number + index as u64;
        push_line(text, &mut scratch, frame, number, step, &times[index])?;
    }
    Ok(())
}
