//! Laws of the stalls reports by function. These functions do nothing: their contracts are the laws.

ghost use Rattle.tomex_functions.specs.Laws.{CallsAddUp, PlacesOfFunctionsAddUp, RowsAddUp};

/// The rows of the functions add up to what the run has, also their calls, and what a function has is the sum over its
/// places. With
/// [`cycles_are_accounted_for`](tomex_run_views::cycles_are_accounted_for), whose key may be the function of a step, a
/// function's cycles are those in which its steps wait to issue.
pub fn functions_add_up()
    ensures rows { RowsAddUp }
    ensures calls { CallsAddUp }
    ensures places { PlacesOfFunctionsAddUp }
{}
