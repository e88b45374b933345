//! Laws of the report of two builds by function. These functions do nothing: their contracts are the laws.

ghost use Rattle.tomex_functions.specs.ChangeLaws.{ColumnsAddUp, DifferencesAddUp, NamesHaveTheirSteps};
ghost use Rattle.tomex_functions.specs.ChangeLaws.{NamesStandOnce, TotalsAreCycles};

/// Each column adds up to the record of the sums, and so do the differences; the sums have the cycles of both runs.
pub fn changes_add_up()
    ensures columns { ColumnsAddUp }
    ensures differences { DifferencesAddUp }
    ensures totals { TotalsAreCycles }
{}

/// What a name has of a run is what the steps take whose functions are shown under it, and what steps without a
/// function have is what these take. Each name of a function of either run stands once.
pub fn names_have_their_steps()
    ensures steps { NamesHaveTheirSteps }
    ensures once { NamesStandOnce }
{}
