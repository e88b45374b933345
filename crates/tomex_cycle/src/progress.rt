//! The status of a machine, and the outcome of a cycle.

ghost use Rattle.std.specs.Prelude.{◌≡◌, true, false, if◌then◌else◌};
ghost use Rattle.tomex_cycle.specs.CycleOutcome.{progress_of};

use tomex_rvexec::Fault;

/// The status of a machine after its last cycle.
#[derive(Clone, Copy)]
pub enum Progress {
    Running,
    /// The program has ended, and so has each of its instructions.
    Ended,
    Faulted(Fault),
}

/// The outcome of a cycle.
#[derive(Clone, Copy)]
pub(crate) enum CycleOutcome {
    /// The program continues, and something has happened: the next cycle has to be made.
    Active,
    /// The program continues, and the cycle is settled: after it nothing happens before the next finish.
    Settled,
    /// The program has ended, and so has each of its instructions.
    Ended,
    Faulted(Fault),
}

impl CycleOutcome {
    /// The outcome of a cycle without fault.
    #[inline(always)]
    pub(crate) fn after(ended: bool, settled: bool) -> CycleOutcome
        ensures progress { progress_of result
            ≡ (if ended then Progress.Ended else Progress.Running) }
        ensures active { result ≡ CycleOutcome.Active → settled ≡ false }
        ensures settled { result ≡ CycleOutcome.Settled → settled ≡ true }
    {
        if ended {
            CycleOutcome::Ended
        } else if settled {
            CycleOutcome::Settled
        } else {
            CycleOutcome::Active
        }
    }

    /// The status of the machine after the cycle.
    #[inline(always)]
    pub(crate) fn progress(self) -> Progress
        ensures { result ≡ progress_of self }
    {
        match self {
            CycleOutcome::Active | CycleOutcome::Settled => Progress::Running,
            CycleOutcome::Ended => Progress::Ended,
            CycleOutcome::Faulted(fault) => Progress::Faulted(fault),
        }
    }
}
