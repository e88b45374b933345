//! What the front's table shows of each row besides its cost and cycles: the settings in which rows of the study
//! differ, and each program's own cycles if there are several.

ghost use Rattle.std.specs.Prelude.{◌≡◌, ◌<◌, length, map, IfOk, OnOk};
ghost use Rattle.std.specs.List.{flat_map};
ghost use Rattle.tomex_layout.specs.Growth.{Appends};
ghost use Rattle.tomex_config.specs.Settings.{all_settings};
ghost use Rattle.tomex_layout.specs.Lists.{name_of_setting};
ghost use Rattle.tomex_page_tables.specs.Front.{column_heads, own_programs, setting_cell, settings_of, sets_anew};
ghost use Rattle.tomex_html.specs.Tables.{column_head};
ghost use Rattle.tomex_study.specs.Cycles.{total_at};

use crate::shown::ShownRow;
use std::alloc::{AllocError, Allocator, Global};
use std::fmt::Write;
use tomex_config::Setting;
use tomex_html::{cell_start, push_column_head, push_column_heads};
use tomex_layout::push_name_of_setting;
use tomex_study::{Program, Study, Surveyed};

fn all_settings() -> &'static [Setting]
    ensures { result.now ≡ all_settings }
{
    &Setting::ALL
}

/// The settings in which rows of the study differ.
#[tactic(auto, unfolding(crate::specs::Front::settings_of))]
pub fn settings_of<A: Allocator>(heap: Global, study: &Study<A>) -> Result<Vec<Setting>, AllocError>
    ensures { IfOk result (λ v. v.items ≡ settings_of study.now) }
{
    let mut settings = Vec::new(heap);
    for setting in all_settings() {
        if setting.differs(study.rows()) {
            settings.push(*setting)?;
        }
    }
    Ok(settings)
}

/// True if the row before has another value.
fn sets_anew(before: &Option<ShownRow>, row: &ShownRow, setting: Setting) -> bool
    ensures { result ≡ sets_anew before.now row.now setting }
{
    match before {
        Some(before) => setting.of(&before.config) != setting.of(&row.config),
        None => false,
    }
}

/// Adds a row's value of a setting, which is marked if the row before has another one.
#[tactic(auto, unfolding(crate::specs::Front::setting_cell))]
fn push_setting_cell<A: Allocator>(
    text: &mut String<A>,
    before: &Option<ShownRow>,
    row: &ShownRow,
    setting: Setting,
) -> Result<(), AllocError>
    ensures { OnOk result (Appends (setting_cell before.now row.now setting) text.old text.new) }
{
    let start = cell_start(sets_anew(before, row, setting));
    let value = setting.of(&row.config);
    write!(text, "{start}{value}</td>")
}

/// Adds a row's values of some settings.
pub fn push_setting_cells<A: Allocator>(
    text: &mut String<A>,
    before: &Option<ShownRow>,
    row: &ShownRow,
    settings: &[Setting],
) -> Result<(), AllocError>
    ensures { OnOk result (Appends (flat_map (setting_cell before.now row.now) settings.now) text.old text.new) }
{
    for setting in settings {
        push_setting_cell(text, before, row, *setting)?;
    }
    Ok(())
}

/// The programs whose own cycles are shown: all, if there are several.
#[tactic(auto, unfolding(crate::specs::Front::own_programs))]
fn own_programs<A: Allocator>(study: &Study<A>) -> &[Program<A>]
    ensures { result.now ≡ own_programs study.now }
{
    if study.programs().len() > 1 {
        study.programs()
    } else {
        &[]
    }
}

/// The own cycles on a row of the programs whose own cycles are shown.
pub fn own_totals<'s, A: Allocator>(surveyed: &'s Surveyed<'_, A>, row: usize) -> &'s [u64]
    requires { row < length surveyed.now.rows }
    ensures { result.now ≡ map (λ p. total_at surveyed.now p row) (own_programs surveyed.now) }
{
    if surveyed.study().programs().len() > 1 {
        surveyed.totals(row)
    } else {
        &[]
    }
}

/// Adds the name of a setting's column.
#[tactic(auto, unfolding(tomex_html::specs::Tables::column_head))]
fn push_setting_head<A: Allocator>(text: &mut String<A>, setting: Setting) -> Result<(), AllocError>
    ensures { OnOk result (Appends (column_head (name_of_setting setting)) text.old text.new) }
{
    text.push_str("<th scope=\"col\">")?;
    push_name_of_setting(text, setting)?;
    write!(text, "</th>")
}

/// Adds the names of some settings' columns.
fn push_setting_heads<A: Allocator>(
    text: &mut String<A>,
    settings: &[Setting],
) -> Result<(), AllocError>
    ensures { OnOk result (
        Appends (flat_map (λ setting. column_head (name_of_setting setting)) settings.now) text.old text.new) }
{
    for setting in settings {
        push_setting_head(text, *setting)?;
    }
    Ok(())
}

/// Adds the names of some programs' columns.
fn push_program_heads<A: Allocator, B: Allocator>(
    text: &mut String<A>,
    programs: &[Program<B>],
) -> Result<(), AllocError>
    ensures { OnOk result (Appends (flat_map (λ p. column_head p.name) programs.now) text.old text.new) }
{
    for program in programs {
        push_column_head(text, program.name())?;
    }
    Ok(())
}

/// Adds the names of the front's columns.
#[tactic(auto, unfolding(crate::specs::Front::column_heads))]
pub fn push_front_heads<A: Allocator, B: Allocator>(
    text: &mut String<A>,
    study: &Study<B>,
    settings: &[Setting],
) -> Result<(), AllocError>
    requires { settings.now ≡ settings_of study.now }
    ensures { OnOk result (Appends (column_heads study.now) text.old text.new) }
{
    let names = ["row", "cost", "more", "cycles", "more", "%", "rate"];
    push_column_heads(text, &names)?;
    push_setting_heads(text, settings)?;
    push_program_heads(text, own_programs(study))
}
