//! Laws of loops. The functions do nothing: their contracts are the laws.

ghost use Rattle.tomex_loops.specs.Nest.{InnermostBeganLast, LoopsAreANest, VisitsAreANest};
ghost use Rattle.tomex_loops.specs.Sound.{LoopsAreSound};

/// Of the loops of each run, as they are defined: heads, visits and rounds have numbers within the run; a visit that is
/// around another one begins before it; visits come in the order of their first steps, and end no earlier; a round
/// goes from a step to a later one; and there are no more visits and rounds together than steps.
pub fn loops_are_sound()
    ensures { LoopsAreSound }
{}

/// Of two loops of a run, named by their heads, all places of one are places of the other, or no place is in both.
pub fn loops_are_a_nest()
    ensures { LoopsAreANest }
{}

/// Of two visits of a run one begins after the other, and only when that one is over, or else ends no later than it. So
/// does a visit with another one around it, and if both are of one call, its loop lies in that one's. A loop whose
/// visits all have one of another loop around them takes no more steps than that one.
pub fn visits_are_a_nest()
    ensures { VisitsAreANest }
{}

/// The innermost visit of each step of a run is the one that began last of those that it is in; it has none if it is in
/// none.
pub fn innermost_visits_began_last()
    ensures { InnermostBeganLast }
{}
