//! Intervals of counts and of latencies.

ghost use Rattle.std.specs.Prelude.{◌≡◌};
ghost use Rattle.tomex_plateaus.specs.Plateaus.{counts_for, latencies_for};

use tomex_timing::Demand;

/// The numbers from `least` to `most`.
#[derive(Clone, Copy, PartialEq, Eq)]
pub struct Interval {
    pub least: u8,
    pub most: u8,
}

impl Interval {
    /// The counts of a part that give a run the same cycles as the configuration's own count.
    pub(crate) fn of_counts(demand: Demand, count: u8) -> Interval
        ensures { result ≡ counts_for demand count }
    {
        if demand.waits {
            Interval {
                least: count,
                most: count,
            }
        } else {
            Interval {
                least: demand.peak.min(255) as u8,
                most: u8::MAX,
            }
        }
    }

    /// The latencies of a kind of unit that give a run the same cycles as the configuration's own
    /// latency.
    pub(crate) fn of_latencies(demand: Demand, latency: u8) -> Interval
        ensures { result ≡ latencies_for demand latency }
    {
        if demand.peak == 0 {
            Interval {
                least: 0,
                most: u8::MAX,
            }
        } else {
            Interval {
                least: latency,
                most: latency,
            }
        }
    }
}
