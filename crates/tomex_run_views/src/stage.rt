//! The activity of a step in a cycle.

ghost use Rattle.std.specs.Prelude.{◌≡◌, nat_le, ◌&&◌};
ghost use Rattle.tomex_rvexec.specs.Steps.{is_number};
ghost use Rattle.tomex_run_views.specs.Chart.{sign_in, sign_of, stage_in};

use tomex_timing::Times;

/// The activity of a step in a cycle, from its issue to its end.
#[derive(Clone, Copy, PartialEq, Eq)]
pub enum Stage {
    Issue,
    /// A load or store computes its address.
    Address,
    /// The step is in its unit.
    Execute,
    /// The result is on a common data bus.
    Write,
    /// The result waits for a bus.
    BusWait,
    /// The step waits in its station for something else.
    Wait,
}

impl Stage {
    /// The stage's sign in a chart.
    pub fn sign(self) -> &'static str
        ensures { result.now ≡ sign_of self }
    {
        match self {
            Stage::Issue => "I",
            Stage::Address => "A",
            Stage::Execute => "E",
            Stage::Write => "W",
            Stage::BusWait => "-",
            Stage::Wait => "=",
        }
    }
}

/// True if there is a cycle, and it is `this`.
fn is_cycle(cycle: Option<u64>, this: u64) -> bool
    ensures { result ≡ is_number cycle this }
{
    match cycle {
        Some(cycle) => cycle == this,
        None => false,
    }
}

/// True if a cycle is neither before `from` nor after `to`.
fn is_within(from: u64, to: u64, cycle: u64) -> bool
    ensures { result ≡ (nat_le from cycle && nat_le cycle to) }
{
    from <= cycle && cycle <= to
}

/// The activity of a step in a cycle, if any.
pub fn stage_in(at: &Times, cycle: u64) -> Option<Stage>
    ensures { result ≡ stage_in at.now cycle }
{
    if cycle < at.issue {
        return None;
    }
    if at.end < cycle {
        return None;
    }
    if cycle == at.issue {
        return Some(Stage::Issue);
    }
    if is_cycle(at.address, cycle) {
        return Some(Stage::Address);
    }
    if is_within(at.start, at.finish, cycle) {
        return Some(Stage::Execute);
    }
    if cycle == at.end {
        return Some(Stage::Write);
    }
    if at.finish < cycle {
        return Some(Stage::BusWait);
    }
    Some(Stage::Wait)
}

/// A step's sign in a cycle; a space if it does nothing.
#[tactic(auto, unfolding(crate::specs::Chart::sign_in))]
pub fn sign_in(at: &Times, cycle: u64) -> &'static str
    ensures { result.now ≡ sign_in at.now cycle }
{
    match stage_in(at, cycle) {
        Some(stage) => stage.sign(),
        None => " ",
    }
}
