//! Laws of the path. Each function does nothing: its contract is the law.

ghost use Rattle.tomex_path.specs.Bound.{BoundPathIsLeast, FreePathIsWiderFloor, LinksAreShort, PathIsBound};
ghost use Rattle.tomex_path.specs.Bound.{UnusedUnitsSaveNothing};
ghost use Rattle.tomex_path.specs.Laws.{EventsAreHeld, FreePathIsFloor, FreePathIsLeast, NamedPartsStall, PathAddsUp};
ghost use Rattle.tomex_path.specs.Laws.{PathIsWithinStalls, PathRises, ReasonsAddUp};

/// What holds an event of a step comes in the cycle before the link that ends with it, and in each cycle of the link
/// the step issues, computes its address, is in its unit, or has a bus.
pub fn events_are_held()
    ensures { EventsAreHeld }
{}

/// The links of a run's path have each of its cycles once, in order, and their steps are in program order. Each has a
/// cycle, and at most three besides those of its operation. Sums by reason add up to those over the links.
pub fn path_adds_up()
    ensures cycles { PathAddsUp }
    ensures steps { PathRises }
    ensures lengths { LinksAreShort }
    ensures reasons { ReasonsAddUp }
{}

/// The waits for a part along a path are among the part's stalls, and are some if a link is a wait for it.
pub fn path_waits_are_stalls()
    ensures sums { PathIsWithinStalls }
    ensures named { NamedPartsStall }
{}

/// If no link of a run's path waits for a station, a unit or a bus, no machine of at most its width and at least its
/// latencies takes fewer cycles, so the run takes its floor. If none waits for the width either, it takes the floor of
/// each greater width too.
pub fn free_path_takes_the_floor()
    ensures least { FreePathIsLeast }
    ensures floor { FreePathIsFloor }
    ensures wider { FreePathIsWiderFloor }
{}

/// If no link of a run's path waits for a unit, for a bus, or for a station of a pool of which another machine has
/// several, that machine saves no more cycles than its latencies do for the operations on the path, and one for each
/// link that waits for the width, if its width is greater. So it saves nothing if it is no wider and no faster in these
/// operations. Nor do other units of a kind that has no operation on the path, if that binds its own machine.
pub fn path_bounds_what_a_machine_saves()
    ensures bound { PathIsBound }
    ensures least { BoundPathIsLeast }
    ensures unused { UnusedUnitsSaveNothing }
{}
