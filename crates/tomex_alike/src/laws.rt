//! Laws on histories that look alike. These functions do nothing: their contracts are the laws.

ghost use Rattle.tomex_alike.specs.Laws.{BlocksRepeat, LooksLikeBothWays, LooksLikeFurther, LooksLikeItself};
ghost use Rattle.tomex_alike.specs.Laws.{RunsAskForNothingNew, RunsRepeat, StepsRepeat};

/// A history looks like itself, if no later access can meet one that isn't compared. If it looks like another, that one
/// looks like it, and it looks like each that the other one looks like.
pub fn to_look_alike_is_an_equivalence()
    ensures itself { LooksLikeItself }
    ensures both { LooksLikeBothWays }
    ensures further { LooksLikeFurther }
{}

/// After histories that look alike, steps that are the same to the recurrence get times that are as far after the
/// first cycles in which they may issue. They take as much of each part and wait for it as long, and with them the
/// histories look alike again.
pub fn steps_repeat_themselves()
    ensures { StepsRepeat }
{}

/// After histories that look alike, blocks of the same steps leave histories that look alike. The first cycles in which
/// the next step may issue, and the totals, are as far after the first cycles in which the blocks might issue. As many
/// stalls of each part are added. If no more of a part is taken up to the end of one block than before the other, the
/// other takes no more of it.
pub fn blocks_repeat_themselves()
    ensures { BlocksRepeat }
{}

/// A run that comes back to a state, relative to the first cycle in which the next step may issue, with the same
/// instructions and conflicts ahead, repeats itself cycle for cycle. It takes no more of any part than it has taken,
/// and waits for no part that it hadn't waited for.
pub fn runs_that_come_back_repeat_themselves()
    ensures cycles { RunsRepeat }
    ensures parts { RunsAskForNothingNew }
{}
