//! The headings of the front's table.

ghost use Rattle.std.specs.Prelude.{◌≡◌, IfOk, string_bytes};
ghost use Rattle.tomex_front_views.specs.FrontTable.{name_of_heading};

use std::alloc::{AllocError, Global};
use tomex_config::Setting;
use tomex_layout::name_of_setting;

/// A column's heading: what it shows for a configuration.
#[derive(Clone, Copy)]
pub enum Heading {
    Row,
    Cost,
    Cycles,
    Setting(Setting),
}

impl Heading {
    /// Its name.
    pub fn name(self, heap: Global) -> Result<String, AllocError>
        ensures { IfOk result (λ name. string_bytes name ≡ name_of_heading self) }
    {
        match self {
            Heading::Row => format!(in heap; "row"),
            Heading::Cost => format!(in heap; "cost"),
            Heading::Cycles => format!(in heap; "cycles"),
            Heading::Setting(setting) => name_of_setting(heap, setting),
        }
    }
}
