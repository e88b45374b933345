//! Laws of the table of instructions, and of the path in views. These functions do nothing: their contracts are the
//! laws.

ghost use Rattle.tomex_frames.specs.Laws.{BlankRowsAreOfSteps, NextIsListed, NothingIsLost, RowsAreOfSteps};
ghost use Rattle.tomex_frames.specs.Laws.{StepsShowTheirWaits, ViewsShowStalls, WaitsComeBeforeIssues};
ghost use Rattle.tomex_frames.specs.Values.{ValuesAreResults};
ghost use Rattle.tomex_frames.specs.PathLaws.{EachViewHasOneFrame, FramesAddUp, FramesAreCycles};
ghost use Rattle.tomex_frames.specs.PathLaws.{LineIsMarkedWhereItChanges, LineIsTheWaitBefore};

/// Each step is listed in each view from its issue to its end, and before it while it is the next to issue.
pub fn no_step_is_lost()
    ensures rows { RowsAreOfSteps }
    ensures blank { BlankRowsAreOfSteps }
    ensures listed { NothingIsLost }
    ensures order { WaitsComeBeforeIssues }
    ensures next { NextIsListed }
{}

/// The value that a view shows of a result is what its step wrote.
pub fn values_are_results()
    ensures { ValuesAreResults }
{}

/// A step's row shows each cause for as many cycles as the step waits for it. The address cycle of a load or store
/// counts as a wait for an operand or its address.
pub fn steps_show_their_waits()
    ensures { StepsShowTheirWaits }
{}

/// All views of a run say together as often that a step waits as its stalls are.
pub fn views_show_stalls()
    ensures { ViewsShowStalls }
{}

/// Each view of a run has a frame round one row, that of the step of the path's link with the cycle, which works in it.
/// Over a whole run a step has as many frames as its link has cycles, and all frames are the run's cycles.
pub fn frames_are_cycles()
    ensures one { EachViewHasOneFrame }
    ensures steps { FramesAreCycles }
    ensures all { FramesAddUp }
{}

/// What the path's line says that its step had waited for, the step's row says in the view before the link's first
/// cycle, and the line is marked exactly where it changes.
pub fn line_is_the_wait_before()
    ensures wait { LineIsTheWaitBefore }
    ensures marked { LineIsMarkedWhereItChanges }
{}
