//! Laws of the table of a run's loops. Each function does nothing: its contract is the law.

ghost use Rattle.tomex_loop_views.specs.Laws.{FloorsAreWithinTheRuns, FreeRunsAreLeast, LoopsAddUp};
ghost use Rattle.tomex_loop_views.specs.Laws.{LoopsAreThePrograms, NoMachineSavesMore};

/// On each machine of at most this width and at least these latencies, a loop takes at least its floor, whatever parts
/// the machine has. So if its own cycles are its floor, no parts make it faster.
pub fn no_machine_saves_more_of_a_loop()
    ensures { NoMachineSavesMore }
{}

/// The floors of all loops, and of the steps outside of them, add up to no more than the run's floor.
pub fn floors_are_within_the_runs()
    ensures { FloorsAreWithinTheRuns }
{}

/// Where a loop is and how often it goes round is the same on all machines, so tables of two machines can be joined.
pub fn loops_are_the_programs()
    ensures { LoopsAreThePrograms }
{}

/// The columns `own` and `floor` add up to the total.
pub fn loops_add_up()
    ensures { LoopsAddUp }
{}

/// If no link of a run's path waits for a station, a unit or a bus, no machine of at most its width and at least its
/// latencies takes fewer cycles, so the sum of the column `own` is no smaller on any of them. Of one loop that says
/// nothing.
pub fn free_runs_are_least()
    ensures { FreeRunsAreLeast }
{}
