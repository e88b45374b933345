//! Laws of the recurrence. These functions do nothing: their contracts are the laws.

ghost use Rattle.std.specs.Prelude.{◌≡◌};
ghost use Rattle.tomex_config.specs.Parts.{all_parts};
ghost use Rattle.tomex_timing.specs.Laws.{TimesExist, TimesAreUnique, SearchIsTimed, TimedIsSearch, TotalIsBounded};
ghost use Rattle.tomex_timing.specs.Laws.{TotalIsGreatestEnd, YoungerChangeNothing, IssuesAlone, IssuesRise};
ghost use Rattle.tomex_timing.specs.Laws.{IssuesStandInOrder, IssuesFitTheWidth, TimesAreInReach, StartsComeLater};
ghost use Rattle.tomex_timing.specs.Laws.{ResultsComeLater, AddressesRise, NumbersAreLow, StationsAreApart};
ghost use Rattle.tomex_timing.specs.Laws.{StationsAreThere, AccessesConflict, ConflictsAreFinished, PeakIsWithin};
ghost use Rattle.tomex_timing.specs.Laws.{StalledPartsAreFull, NeedsTell, ServedTimesAreSame, ServedRunsAreSame};
ghost use Rattle.tomex_timing.specs.Laws.{IssueCyclesAddUp, StationCyclesAddUp, WaitsAddUp, StationWaitsAreStalls};
ghost use Rattle.tomex_timing.specs.Laws.{UnitWaitsAreStalls, BusWaitsAreStalls, WidthWaitsAreStalls};

use tomex_config::Part;

/// Each step of a run has times, and only one set of them.
pub fn each_step_has_one_set_of_times()
    ensures exist { TimesExist }
    ensures unique { TimesAreUnique }
{}

/// The recurrence as a relation and as a function that searches agree.
pub fn search_is_the_recurrence()
    ensures function { SearchIsTimed }
    ensures relation { TimedIsSearch }
{}

/// A run of n steps takes at most 67 * n cycles, whatever the issue width.
pub fn total_is_bounded()
    ensures { TotalIsBounded }
{}

/// The total of a run's times is the greatest end of its history.
pub fn total_is_the_greatest_end()
    ensures { TotalIsGreatestEnd }
{}

/// Later steps of a run change no times of older ones.
pub fn younger_steps_change_nothing()
    ensures { YoungerChangeNothing }
{}

/// At an issue width of one an instruction issues later than the one before it, and the width
/// requires nothing else.
pub fn issues_alone_at_width_one()
    ensures test { IssuesAlone }
    ensures rise { IssuesRise }
{}

/// Instructions issue in program order, and in each cycle at most as many as the issue width.
pub fn issues_fit_the_width()
    ensures order { IssuesStandInOrder }
    ensures few { IssuesFitTheWidth }
{}

/// An operation with a unit issues before it starts, starts no later than it finishes, and finishes no later than it
/// ends. Addresses are computed in program order.
pub fn times_stand_in_order()
    ensures reach { TimesAreInReach }
    ensures start { StartsComeLater }
    ensures result { ResultsComeLater }
    ensures address { AddressesRise }
{}

/// A step that ends later than it issues has a station, whose number is below its pool's count; no two
/// steps under way have one station.
pub fn stations_hold_one_step()
    ensures there { StationsAreThere }
    ensures number { NumbersAreLow }
    ensures apart { StationsAreApart }
{}

/// An access starts after each older one has finished that shares a byte with it, unless both are loads.
pub fn accesses_of_one_byte_wait()
    ensures conflict { AccessesConflict }
    ensures wait { ConflictsAreFinished }
{}

/// A run takes all of each part that it waits for, and a second configuration gives it the same times if it has as many
/// of that part, at least as many of each other part as the run takes of it at once, and the same latency of each kind
/// of unit that the run uses.
pub fn parts_without_stalls_may_differ()
    ensures peak { PeakIsWithin }
    ensures full { StalledPartsAreFull }
    ensures times { ServedTimesAreSame }
    ensures runs { ServedRunsAreSame }
    ensures needs { NeedsTell }
{}

/// The total of a run is one cycle, the waits to issue and the drain; the cycles in which its stations
/// are held are waits, latencies and cycles on a bus.
pub fn cycles_are_accounted_for()
    ensures issue { IssueCyclesAddUp }
    ensures station { StationCyclesAddUp }
{}

/// The waits of a run's steps, added up by cause, are its stalls: those for a station are the stalls of
/// the six pools, those for a unit of the five kinds.
pub fn waits_add_up_to_stalls()
    ensures steps { WaitsAddUp }
    ensures stations { StationWaitsAreStalls }
    ensures units { UnitWaitsAreStalls }
    ensures buses { BusWaitsAreStalls }
    ensures width { WidthWaitsAreStalls }
{}

/// `Part::ALL` has all parts, in the order of reports.
pub fn all_parts_stand_in_order()
    ensures { Part.ALL ≡ all_parts }
{}
