//! What functions take of the runs of two builds.

ghost use Rattle.std.specs.Prelude.{◌≡◌};
ghost use Rattle.tomex_functions.specs.Shares.{Fits, distance, no_change, no_share, plus};
ghost use Rattle.tomex_functions.specs.ChangesKept.{BothFit, with_share};

/// Calls, steps and cycles.
#[derive(Clone, Copy, Drop)]
pub struct Share {
    pub calls: u64,
    pub steps: u64,
    pub cycles: u64,
}

/// What some functions take of the old build's run and of the new one's.
#[derive(Clone, Copy, Drop)]
pub struct Change {
    pub old: Share,
    pub new: Share,
}

/// One of the two builds.
#[derive(Clone, Copy, Drop)]
pub enum Side {
    Old,
    New,
}

impl Share {
    /// Of these numbers, which fit as all of 64 bits do.
    pub fn new(calls: u64, steps: u64, cycles: u64) -> Share
        ensures value { result ≡ record { calls = calls; steps = steps; cycles = cycles } }
        ensures fits { Fits result }
    {
        Share {
            calls,
            steps,
            cycles,
        }
    }

    /// Of no function.
    pub fn none() -> Share
        ensures { result ≡ no_share }
    {
        Share::new(0, 0, 0)
    }

    /// With that of one function more.
    fn plus(&self, more: &Share) -> Share
        requires { Fits (plus self.now more.now) }
        ensures { result ≡ plus self.now more.now }
    {
        Share::new(
            self.calls + more.calls,
            self.steps + more.steps,
            self.cycles + more.cycles,
        )
    }
}

impl Change {
    /// Of no function.
    pub fn none() -> Change
        ensures { result ≡ no_change }
    {
        Change {
            old: Share::none(),
            new: Share::none(),
        }
    }

    /// With what one function more takes in a build's run.
    pub fn with(&self, side: Side, more: &Share) -> Change
        requires { BothFit (with_share side more.now self.now) }
        ensures { result ≡ with_share side more.now self.now }
    {
        match side {
            Side::Old => Change {
                old: self.old.plus(more),
                new: self.new,
            },
            Side::New => Change {
                old: self.old,
                new: self.new.plus(more),
            },
        }
    }

    /// By how many cycles the runs differ.
    pub fn distance(&self) -> u64
        ensures { result ≡ distance self.now }
    {
        self.old.cycles.abs_diff(self.new.cycles)
    }
}
