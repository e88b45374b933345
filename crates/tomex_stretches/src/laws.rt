//! Laws of a stretch's floor. Each function does nothing: its contract is the law.

ghost use Rattle.tomex_stretches.specs.Laws.{FloorFrom, FloorsAddUp, LastStretchIsBound, StretchIsBound, SumIsBound};
ghost use Rattle.tomex_stretches.specs.Laws.{CyclesAddUp, FloorCyclesAddUp, FloorsAreBounds, StretchesAddUp};
ghost use Rattle.tomex_stretches.specs.Laws.{KeysAddUp, OrderDoesntMatter};
ghost use Rattle.tomex_stretches.specs.Accounts.{RunsAddUp, StretchesTakeTheirFloors};

/// On a configuration with the given latencies, or longer ones, and at most the given issue width, no step of a
/// stretch does anything earlier, from the stretch's first issue on, than on the stretch's own floor. So from its
/// first issue to that of the step after it the stretch takes at least its floor, and the last stretch up to the
/// run's end. The floors of all stretches add up to no more than the run takes, and to no more than its floor.
pub fn stretches_take_their_floors()
    ensures steps { FloorFrom }
    ensures issues { StretchIsBound }
    ensures total { LastStretchIsBound }
    ensures sum { SumIsBound }
    ensures floors { FloorsAddUp }
{}

/// Each step has cycles of the run and of its stretch's floor: the first add up to the run's, the second to each
/// stretch's floor, and all together to no more than the run's floor. On a machine as above, the steps of any keys take
/// at least their floor cycles.
pub fn steps_take_their_floors()
    ensures cycles { CyclesAddUp }
    ensures stretches { StretchesAddUp }
    ensures bound { FloorsAreBounds }
    ensures floors { FloorCyclesAddUp }
{}

/// Sums by key add up to the sum over all steps, in whichever order the steps are taken.
pub fn sums_by_key_add_up()
    ensures all { KeysAddUp }
    ensures order { OrderDoesntMatter }
{}

/// In program order: the cycles of a run's steps add up to the run's, and some stretches of a run take at least their
/// floors on each machine that is no wider than the one whose floors they are, and has no shorter latency.
pub fn runs_take_their_floors()
    ensures cycles { RunsAddUp }
    ensures floors { StretchesTakeTheirFloors }
{}
