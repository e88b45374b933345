//! Names of lists and of settings, and entries, as texts.

ghost use Rattle.std.specs.Prelude.{◌≡◌, IfOk, OnOk, string_bytes};
ghost use Rattle.tomex_layout.specs.Growth.{Appends};
ghost use Rattle.tomex_layout.specs.Lists.{entry_text, name_of_list, name_of_setting};

use std::alloc::{AllocError, Allocator, Global};
use std::fmt::Write;
use tomex_config::{Config, Part, Setting};

/// Adds a list's name, as studies write it.
pub fn push_name_of_list<A: Allocator>(text: &mut String<A>, part: Part) -> Result<(), AllocError>
    ensures { OnOk result (Appends (name_of_list part) text.old text.new) }
{
    match part {
        Part::Stations(pool) => write!(text, "{pool}"),
        Part::Units(unit) => write!(text, "unit.{unit}"),
        Part::Buses => text.push_str("buses"),
        Part::Width => text.push_str("width"),
    }
}

/// A list's name, as studies write it.
pub fn name_of_list(heap: Global, part: Part) -> Result<String, AllocError>
    ensures { IfOk result (λ name. string_bytes name ≡ name_of_list part) }
{
    let mut name = String::new(heap);
    push_name_of_list(&mut name, part)?;
    Ok(name)
}

/// Adds a configuration's entry in a part's list: a number, or units and latency, as in `1@8`.
pub fn push_entry<A: Allocator>(
    text: &mut String<A>,
    config: &Config,
    part: Part,
) -> Result<(), AllocError>
    ensures { OnOk result (Appends (entry_text config.now part) text.old text.new) }
{
    match part {
        Part::Units(unit) => {
            let option = config.option(unit);
            let (units, latency) = (option.units, option.latency);
            write!(text, "{units}@{latency}")
        }
        part => {
            let count = part.count(config);
            write!(text, "{count}")
        }
    }
}

/// A configuration's entry in a part's list.
pub fn entry_text(heap: Global, config: &Config, part: Part) -> Result<String, AllocError>
    ensures { IfOk result (λ text. string_bytes text ≡ entry_text config.now part) }
{
    let mut text = String::new(heap);
    push_entry(&mut text, config, part)?;
    Ok(text)
}

/// Adds a setting's name, which is that of its column in the front report.
pub fn push_name_of_setting<A: Allocator>(
    text: &mut String<A>,
    setting: Setting,
) -> Result<(), AllocError>
    ensures { OnOk result (Appends (name_of_setting setting) text.old text.new) }
{
    match setting {
        Setting::Count(Part::Stations(pool)) => write!(text, "{pool}"),
        Setting::Count(Part::Units(unit)) => write!(text, "{unit}_units"),
        Setting::Count(Part::Buses) => text.push_str("buses"),
        Setting::Count(Part::Width) => text.push_str("width"),
        Setting::Latency(unit) => write!(text, "{unit}_latency"),
    }
}

/// A setting's name.
pub fn name_of_setting(heap: Global, setting: Setting) -> Result<String, AllocError>
    ensures { IfOk result (λ name. string_bytes name ≡ name_of_setting setting) }
{
    let mut name = String::new(heap);
    push_name_of_setting(&mut name, setting)?;
    Ok(name)
}
