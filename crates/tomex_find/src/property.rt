//! What a configuration may be chosen by.

ghost use Rattle.std.specs.Prelude.{◌≡◌, ◌<◌, length, OnOk};
ghost use Rattle.tomex_layout.specs.Growth.{Appends};
ghost use Rattle.tomex_find.specs.Find.{name_of, value_of};

use std::alloc::{AllocError, Allocator};
use tomex_config::Setting;
use tomex_layout::push_name_of_setting;
use tomex_study::Study;

/// What a configuration may be chosen by.
#[derive(Clone, Copy)]
pub enum Property {
    /// Its number.
    Row,
    Cost,
    Setting(Setting),
}

impl Property {
    /// Adds its name, which is that of its column in the front report.
    pub fn push_name<A: Allocator>(self, text: &mut String<A>) -> Result<(), AllocError>
        ensures { OnOk result (Appends (name_of self) text.old text.new) }
    {
        match self {
            Property::Row => text.push_str("row"),
            Property::Cost => text.push_str("cost"),
            Property::Setting(setting) => push_name_of_setting(text, setting),
        }
    }

    /// Its value for a row of a study.
    pub fn value<A: Allocator>(self, study: &Study<A>, row: usize) -> u64
        requires { row < length study.now.rows }
        ensures { result ≡ value_of study.now row self }
    {
        study.keeps_limits();
        match self {
            Property::Row => row as u64,
            Property::Cost => study.costs()[row],
            Property::Setting(setting) => setting.of(&study.rows()[row]),
        }
    }
}
