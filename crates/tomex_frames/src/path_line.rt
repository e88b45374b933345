//! The line of the critical path in a view.

ghost use Rattle.std.specs.Prelude.{◌≡◌, IfSome, OnOk, length};
ghost use Rattle.tomex_layout.specs.Growth.{Appends};
ghost use Rattle.tomex_frames.specs.OnPath.{IsOfRun, cause_of, held_after, line_start, path_line, path_words};
ghost use Rattle.tomex_frames.specs.OnPath.{place_line};

use crate::doing::Cause;
use crate::on_path::OnPath;
use std::alloc::{AllocError, Allocator};
use std::fmt::{self, Write};
use tomex_config::Part;
use tomex_path::{Link, Reason};
use tomex_rvexec::Step;

/// The cause that a row shows while its step waits for a reason; none for one that is in its turn.
fn cause_of(reason: Reason) -> Option<Cause>
    ensures { result ≡ cause_of reason }
{
    match reason {
        Reason::For(Part::Stations(_)) => Some(Cause::Station),
        Reason::For(Part::Units(_)) => Some(Cause::Unit),
        Reason::For(Part::Buses) => Some(Cause::Bus),
        Reason::For(Part::Width) => Some(Cause::Width),
        Reason::Branch => Some(Cause::Branch),
        Reason::Operand => Some(Cause::Operand),
        Reason::Address => Some(Cause::Address),
        Reason::Memory => Some(Cause::Memory),
        Reason::Order => None,
    }
}

/// The word for a cause; for none, that the step is in its turn.
#[derive(Clone, Copy)]
struct ReasonWord(Option<Cause>);

impl fmt::Display for ReasonWord {
    ghost use Rattle.std.specs.Prelude.{Some};
    ghost use Rattle.tomex_frames.specs.OnPath.{cause_or_turn};

    ghost output = { λ word. Some (cause_or_turn word.0) };

    fn fmt<W: fmt::Write>(&self, f: &mut fmt::Formatter<W>) -> fmt::Result {
        match self.0 {
            Some(cause) => write!(f, "{cause}"),
            None => write!(f, "order"),
        }
    }
}

/// The cycles of a link.
#[derive(Clone, Copy)]
struct LinkCycles(Link);

impl fmt::Display for LinkCycles {
    ghost use Rattle.std.specs.Prelude.{Some};
    ghost use Rattle.tomex_frames.specs.OnPath.{span_text};

    ghost output = { λ cycles. Some (span_text cycles.0) };

    fn fmt<W: fmt::Write>(&self, f: &mut fmt::Formatter<W>) -> fmt::Result {
        let (from, to) = (self.0.from, self.0.to);
        if from == to {
            write!(f, "cycle {from}")
        } else {
            write!(f, "cycles {from}&#8211;{to}")
        }
    }
}

/// Adds the step after which a link begins, and what the link's own step had waited for.
fn push_held<A: Allocator>(
    text: &mut String<A>,
    steps: &[Step],
    reason: Reason,
    before: Option<Link>,
) -> Result<(), AllocError>
    requires { IfSome before (IsOfRun (length steps.now)) }
    ensures { OnOk result (Appends (held_after steps.now reason before) text.old text.new) }
{
    match before {
        None => text.push_str("the first"),
        Some(before) => {
            let number = before.step;
            let instr = steps[number as usize - 1].instr;
            let word = ReasonWord(cause_of(reason));
            write!(text, "after {number} {instr} ({word})")
        }
    }
}

/// Adds a link: its step, its cycles, and what it begins after.
#[tactic(auto, unfolding(crate::specs::OnPath::path_words))]
fn push_words<A: Allocator>(
    text: &mut String<A>,
    steps: &[Step],
    place: &OnPath,
) -> Result<(), AllocError>
    requires { IfSome place.now.before (IsOfRun (length steps.now)) }
    ensures { OnOk result (Appends (path_words steps.now place.now) text.old text.new) }
{
    let (number, cycles) = (place.link.step, LinkCycles(place.link));
    write!(text, "On the path: {number} in {cycles}, ")?;
    push_held(text, steps, place.link.reason, place.before)
}

/// The start of the line, which is marked if the link is new.
fn line_start(new: bool) -> &'static str
    ensures { result.now ≡ line_start new }
{
    if new {
        "<p><span class=\"n\">"
    } else {
        "<p><span>"
    }
}

/// Adds the line of a link in the view of a cycle.
#[tactic(auto, unfolding(crate::specs::OnPath::place_line))]
fn push_place<A: Allocator>(
    text: &mut String<A>,
    steps: &[Step],
    cycle: u64,
    place: &OnPath,
) -> Result<(), AllocError>
    requires { IfSome place.now.before (IsOfRun (length steps.now)) }
    ensures { OnOk result (Appends (place_line steps.now cycle place.now) text.old text.new) }
{
    text.push_str(line_start(place.link.from == cycle))?;
    push_words(text, steps, place)?;
    text.push_str("</span></p>\n")
}

/// Adds the path's line in the view of a cycle: the step with the cycle, all cycles that are its own, and after which
/// step it could go on; nothing after the run's last cycle.
pub fn push_path_line<A: Allocator>(
    text: &mut String<A>,
    steps: &[Step],
    cycle: u64,
    place: Option<OnPath>,
) -> Result<(), AllocError>
    requires { IfSome place (λ place. IfSome place.before (IsOfRun (length steps.now))) }
    ensures { OnOk result (Appends (path_line steps.now cycle place) text.old text.new) }
{
    match place {
        None => Ok(()),
        Some(place) => push_place(text, steps, cycle, &place),
    }
}
