//! Laws of the prices at which a row stays. These functions do nothing: their contracts are the laws.

ghost use Rattle.tomex_prices.specs.PricesCsv.{HasTheSameEnds};
ghost use Rattle.tomex_prices.specs.AllPrices.{IsStatedAtHundred, LeavesBeyondPercent, StaysIfHundred};
ghost use Rattle.tomex_prices.specs.AllPrices.{StaysWithinPercent};
ghost use Rattle.tomex_prices.specs.Laws.{IsOnFrontExactlyWithin, StaysExactlyWithin};
ghost use Rattle.tomex_prices.specs.PriceLaws.{HoldsAllIfIrrelevant, HoldsStated};
ghost use Rattle.tomex_prices.specs.Repriced.{CostsSplit, IsOnRepricedExactlyWithin, StatedCostsStay};
ghost use Rattle.tomex_prices.specs.Studies.{IsOnStudyExactlyWithin};
ghost use Rattle.tomex_prices.specs.Together.{IsStatedAtStated, StaysByShares};

/// A row that no other dominates at the stated price stays so at exactly the prices of its
/// interval.
pub fn stays_exactly_within()
    ensures { StaysExactlyWithin }
{}

/// A row of the front is on the front at exactly the prices of its interval.
pub fn on_front_exactly_within()
    ensures { IsOnFrontExactlyWithin }
{}

/// A configuration's cost is its cost with one price replaced by 0, plus that price as often as it
/// is paid. Replacing a price by its stated value changes no cost.
pub fn costs_split()
    ensures split { CostsSplit }
    ensures stated { StatedCostsStay }
{}

/// With one price replaced, a row of the front stays on it at exactly the prices of its interval.
pub fn on_repriced_front_exactly_within()
    ensures { IsOnRepricedExactlyWithin }
{}

/// A row of a study's front is on the front of the study with one price replaced exactly if the new price lies in the
/// row's interval.
pub fn on_front_of_study_exactly_within()
    ensures { IsOnStudyExactlyWithin }
{}

/// The interval of a row of the front holds the stated price.
pub fn stated_prices_are_within()
    ensures { HoldsStated }
{}

/// The interval of a price that isn't relevant holds all prices.
pub fn irrelevant_prices_are_any()
    ensures { HoldsAllIfIrrelevant }
{}

/// If all prices are wrong at once, each by a factor of its own, a row of the front stays on it
/// while none is wrong by more than the row's percentage, and at any prices if that is 100. If it
/// is less, one percent more can be too much. Factors are in hundredths: if all are 100, costs are
/// the stated ones.
pub fn all_prices_may_be_wrong_by_the_percentage()
    ensures stays { StaysWithinPercent }
    ensures whatever { StaysIfHundred }
    ensures leaves { LeavesBeyondPercent }
    ensures stated { IsStatedAtHundred }
{}

/// If several prices move at once, each by a share of the way to an end of its interval, and the
/// shares add up to at most the whole, a row of the front stays on it. If all prices are as stated,
/// so are costs.
pub fn prices_may_move_by_shares()
    ensures stays { StaysByShares }
    ensures stated { IsStatedAtStated }
{}

/// The ends of an interval in CSV are those of its text in the table, which has `..` between them, or is `any` if
/// nothing bounds it.
pub fn csv_has_the_same_ends()
    ensures { HasTheSameEnds }
{}
