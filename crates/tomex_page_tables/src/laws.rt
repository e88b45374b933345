//! Laws of the tables. These functions do nothing: their contracts are the laws.

ghost use Rattle.tomex_page_tables.specs.Laws.{DifferencesAddUp, DifferencesSayOneThing, PartsAddUp};

/// The costs in the table of a row's parts are together the row's cost, which is below them.
pub fn costs_of_parts_add_up()
    ensures { PartsAddUp }
{}

/// In the table of the front a row's cost and cycles are those of the row above and what the row has more.
pub fn differences_add_up()
    ensures sums { DifferencesAddUp }
    ensures texts { DifferencesSayOneThing }
{}
