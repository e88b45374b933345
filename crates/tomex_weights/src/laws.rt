//! Laws of the weights for which a row is on the front. These functions do nothing: their contracts are the laws.

ghost use Rattle.tomex_weights.specs.AllWeights.{IsStatedAtHundred, LeavesBeyondPercent, StaysAtAnyMix};
ghost use Rattle.tomex_weights.specs.AllWeights.{StaysIfHundred, StaysWithinPercent};
ghost use Rattle.tomex_weights.specs.Laws.{HoldsAllIfIrrelevant, HoldsStated, HoldsWhole, IsOnExactlyWithin};
ghost use Rattle.tomex_weights.specs.Laws.{ListsAllThatCome, ListsNoOthers};
ghost use Rattle.tomex_weights.specs.Together.{IsStatedAtStated, StaysByShares};

/// A row is on the front of the study with one weight replaced exactly if the new weight is in the row's span.
pub fn on_front_exactly_within()
    ensures { IsOnExactlyWithin }
{}

/// A whole weight is in a row's span exactly if the row is on the front of the study with that weight in its file.
pub fn whole_weights_are_within()
    ensures { HoldsWhole }
{}

/// The stated weight is in a row's span exactly if the row is on the study's front.
pub fn stated_weights_are_within()
    ensures { HoldsStated }
{}

/// If a program takes equally many cycles on all rows, a row of the front is on it at any weight of that program.
pub fn irrelevant_weights_are_any()
    ensures { HoldsAllIfIrrelevant }
{}

/// The rows that are listed are those that are on the front as stated or with some program's weight replaced.
pub fn all_rows_that_come_are_listed()
    ensures all { ListsAllThatCome }
    ensures only { ListsNoOthers }
{}

/// If all weights are wrong at once, each by a factor of its own, a row of the front stays on it while none is wrong by
/// more than the row's percentage, and at any weights if that is 100. If it is less, one percent more can be too much.
/// Factors are in hundredths: if all are 100, cycles are a hundred times the stated ones.
pub fn all_weights_may_be_wrong_by_the_percentage()
    ensures stays { StaysWithinPercent }
    ensures whatever { StaysIfHundred }
    ensures leaves { LeavesBeyondPercent }
    ensures stated { IsStatedAtHundred }
{}

/// A row is on the front whatever the weights, none of which is 0, if each row that costs less takes more cycles for
/// each program, and each that costs as much no fewer.
pub fn best_rows_stay_at_any_mix()
    ensures { StaysAtAnyMix }
{}

/// If several weights move at once, each by a share of the way to an end of its span, and the shares add up to no more
/// than the whole way, a row of the front stays on it. Weights are in hundredths.
pub fn weights_may_move_by_shares()
    ensures stays { StaysByShares }
    ensures stated { IsStatedAtStated }
{}
