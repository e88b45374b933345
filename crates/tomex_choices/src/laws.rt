//! Laws of what a study's lists lack, and of what may go. These functions do nothing: their contracts are the laws.

ghost use Rattle.tomex_choices.specs.Laws.{AdditionsAreAllThatIsNeeded, AdditionsSaveAsMuch};
ghost use Rattle.tomex_choices.specs.Laws.{CompleteFrontsStand, CompleteListsAreComplete, CompleteListsBuyTheFewest};
ghost use Rattle.tomex_choices.specs.Laws.{CoveredIsNothingToAdd, CoveredMachinesAddNoPoints};
ghost use Rattle.tomex_choices.specs.Laws.{FloorBoundsAllSizes, FloorBoundsAllWidths};
ghost use Rattle.tomex_choices.specs.Laws.{LongerListsAtOnce, LongerListsAtOnceAddNoPoints};
ghost use Rattle.tomex_choices.specs.Laws.{MoreOfTheUnneededChangesNothing, MoreThanEnoughChangesNothing};
ghost use Rattle.tomex_choices.specs.Laws.{NothingToAddIsCovered, NothingToAddSavesNothing};
ghost use Rattle.tomex_choices.specs.Laws.{UnusedChoicesMayGo};

/// However a list is made longer or finer, with options at no lower price than the cheapest one with the most units
/// of their latency: for each machine that the study has then there is a new machine of the list that costs no more and
/// takes as many cycles. So at each cost the new machines buy as few cycles as those machines, or fewer, and none of
/// those dominates a machine of the front.
pub fn complete_lists_are_complete()
    ensures machines { CompleteListsAreComplete }
    ensures bought { CompleteListsBuyTheFewest }
    ensures stands { CompleteFrontsStand }
{}

/// The choices that are worth adding to a list are all that it needs: with them the front has the points, as cost and
/// cycles, that it has with all choices that the list lacks, and each cost buys as few cycles. Its machines stay on it
/// with the others too.
pub fn additions_are_all_that_is_needed()
    ensures points { AdditionsAreAllThatIsNeeded }
    ensures bought { AdditionsSaveAsMuch }
{}

/// No choice is worth adding to a list exactly if, however the list is made longer or finer, for each machine that the
/// study has then some row costs no more and takes no more cycles. Then all choices that it lacks save nothing.
pub fn nothing_to_add_is_covered()
    ensures covered { NothingToAddIsCovered }
    ensures nothing { CoveredIsNothingToAdd }
    ensures saved { NothingToAddSavesNothing }
{}

/// Machines for each of which some row costs no more and takes no more cycles bring the front no point, and all its
/// machines stay.
pub fn covered_machines_add_no_points()
    ensures { CoveredMachinesAddNoPoints }
{}

/// Some or all of the choices, of any of the lists, that no row of the front has may be taken away: the same machines
/// are on the front, in the same order, with other numbers.
pub fn unused_choices_may_go()
    ensures { UnusedChoicesMayGo }
{}

/// From the number of a part that is enough on, no greater number changes the cycles of a row, whatever the weights of
/// the programs are.
pub fn more_than_enough_changes_nothing()
    ensures { MoreThanEnoughChangesNothing }
{}

/// More of several parts at once, for none of which a program waits on a row, changes no cycles of that row, whatever
/// the weights of the programs are.
pub fn more_of_the_unneeded_changes_nothing()
    ensures { MoreOfTheUnneededChangesNothing }
{}

/// Several lists made longer at once, if on no row at the end of one of them a program waits for its part: for each
/// machine that the study has then some row takes as many cycles and costs no more, whatever the prices and the weights
/// of the programs are. So they bring the front no point, and all its machines stay.
pub fn longer_lists_at_once_add_nothing()
    ensures covered { LongerListsAtOnce }
    ensures points { LongerListsAtOnceAddNoPoints }
{}

/// No machine takes fewer cycles than the study's floor, whatever its numbers of stations, units and buses are, if it
/// has the latencies of a row, or greater ones, and is no wider; and none of any width takes fewer than the floor at
/// any width.
pub fn floor_bounds_machines_of_all_sizes()
    ensures own_width { FloorBoundsAllSizes }
    ensures any_width { FloorBoundsAllWidths }
{}
