//! Laws of two builds on all rows of a study. These functions do nothing: their contracts are the laws.

ghost use Rattle.tomex_compare.specs.BestAndWorst.{AreBetween, AreRows};
ghost use Rattle.tomex_compare.specs.Laws.{BestIsMet, BoundRatios, CostsMatterOnFrontsOnly, CountsAddUp};
ghost use Rattle.tomex_compare.specs.Laws.{EachIsCountedOnce, ItselfIsTheSame, OnlyTheTwoMatter};
ghost use Rattle.tomex_compare.specs.Laws.{OnlyTheTwoMatterInCsv, TurnedCountsChangePlaces, TurnedMediansAreInverse};
ghost use Rattle.tomex_compare.specs.Laws.{TurnedRatiosAreInverse, WorstIsMet};

/// The groups of a list share all rows: each row is in one of them, so their numbers of rows add up to that of all
/// rows, and so do their numbers of rows on which the new build takes fewer cycles, as many, and more. The best ratio
/// of all rows is that of one of these groups, and so is the worst.
pub fn groups_of_a_list_share_all_rows()
    ensures once { EachIsCountedOnce }
    ensures counts { CountsAddUp }
    ensures best { BestIsMet }
    ensures worst { WorstIsMet }
{}

/// On no row of a group does the new build gain more, in proportion, than on its best row, or lose more than on its
/// worst; on at least half of them it gains no less than on the median, and on at least half no more.
pub fn best_and_worst_bound_a_group()
    ensures { BoundRatios }
{}

/// Compared the other way round, the new build takes fewer cycles where it took more before, and its best ratio is the
/// inverse of the worst before; so is the median, if the number of rows is odd. A program that is compared with itself
/// takes as many cycles on each row.
pub fn turned_around_gains_are_losses()
    ensures counts { TurnedCountsChangePlaces }
    ensures ratios { TurnedRatiosAreInverse }
    ensures medians { TurnedMediansAreInverse }
    ensures same { ItselfIsTheSame }
{}

/// Weights and other programs make no difference to what is printed of two builds, and costs make none to the groups of
/// the lists.
pub fn only_the_two_builds_matter()
    ensures all { OnlyTheTwoMatter }
    ensures csv { OnlyTheTwoMatterInCsv }
    ensures costs { CostsMatterOnFrontsOnly }
{}

/// The best row of a program is one of the study's, on which it takes the fewest cycles, and the first of those. The
/// worst one is the last of those on which it takes the most.
pub fn best_and_worst_rows_bound_all()
    ensures between { AreBetween }
    ensures rows { AreRows }
{}
