//! Laws of the stalls reports. These functions do nothing: their contracts are the laws.

ghost use Rattle.tomex_run_views.specs.Laws.{CyclesAddUp, CyclesAreWaits, StepsAddUp, SumsAddUp};

/// The records of the addresses, or of any other key of steps, add up to that of all steps. With the law of
/// tomex_timing that waits add up to stalls, the sums of the report by place are those of the report by part.
pub fn places_add_up()
    ensures steps { StepsAddUp }
    ensures sums { SumsAddUp }
{}

/// The cycles of a record are those in which its steps wait to issue, and the run's first. The cycles of all records,
/// that of the drain with them, are the run's total.
pub fn cycles_are_accounted_for()
    ensures waits { CyclesAreWaits }
    ensures total { CyclesAddUp }
{}
