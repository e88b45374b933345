//! The settings of a configuration: the counts of its parts, and the latencies of its units.

ghost use Rattle.std.specs.Prelude.{◌≡◌, ◌==◌, not};
ghost use Rattle.std.specs.List.{list_any};
ghost use Rattle.tomex_config.specs.Settings.{differs, setting_of};

use crate::config::Config;
use crate::part::Part;
use tomex_rvdec::{PoolId, UnitId};

/// A setting of a configuration.
#[derive(Clone, Copy)]
pub enum Setting {
    Count(Part),
    /// In cycles.
    Latency(UnitId),
}

impl Setting {
    /// All settings, in the order of the front report's columns.
    pub const ALL: [Setting; 18] = [
        Setting::Count(Part::Stations(PoolId::Alu)),
        Setting::Count(Part::Stations(PoolId::Mul)),
        Setting::Count(Part::Stations(PoolId::Div)),
        Setting::Count(Part::Stations(PoolId::Load)),
        Setting::Count(Part::Stations(PoolId::Store)),
        Setting::Count(Part::Stations(PoolId::Bru)),
        Setting::Count(Part::Units(UnitId::Alu)),
        Setting::Latency(UnitId::Alu),
        Setting::Count(Part::Units(UnitId::Mul)),
        Setting::Latency(UnitId::Mul),
        Setting::Count(Part::Units(UnitId::Div)),
        Setting::Latency(UnitId::Div),
        Setting::Count(Part::Units(UnitId::Mem)),
        Setting::Latency(UnitId::Mem),
        Setting::Count(Part::Units(UnitId::Bru)),
        Setting::Latency(UnitId::Bru),
        Setting::Count(Part::Buses),
        Setting::Count(Part::Width),
    ];

    /// Its value for a configuration.
    pub fn of(self, config: &Config) -> u64
        ensures { result ≡ setting_of config.now self }
    {
        match self {
            Setting::Count(part) => part.count(config),
            Setting::Latency(unit) => u64::from(config.latency(unit)),
        }
    }

    /// True if one of the configurations has another value than `usual`.
    fn is_other(self, usual: u64, rows: &[Config]) -> bool
        ensures { result ≡ list_any (λ config. not (setting_of config self == usual)) rows.now }
    {
        for config in rows {
            if self.of(config) != usual {
                return true;
            }
        }
        false
    }

    /// True if two of the configurations differ in it.
    #[tactic(auto, unfolding(crate::specs::Settings::differs))]
    pub fn differs(self, rows: &[Config]) -> bool
        ensures { result ≡ differs rows.now self }
    {
        let [first, rest @ ..] = rows else {
            return false;
        };
        self.is_other(self.of(first), rest)
    }
}
