//! Rows of a study as a table.

ghost use Rattle.std.specs.Prelude.{◌≡◌, ◌<◌, ◌++◌, length, map, slice_get, All, IfOk, OnOk, Some};
ghost use Rattle.std.specs.List.{flat_map};
ghost use Rattle.tomex_config.specs.Settings.{all_settings};
ghost use Rattle.tomex_front_views.specs.FrontTable.{front_table_of, heading_column, hull_table_of, number_under};
ghost use Rattle.tomex_front_views.specs.FrontTable.{own_columns, program_column, program_columns, rows_table_of};
ghost use Rattle.tomex_front_views.specs.FrontTable.{setting_columns};

use super::heading::Heading;
use super::rate::rate_column;
use std::alloc::{AllocError, Allocator, Global};
use tomex_config::Setting;
use tomex_layout::{Column, table_of};
use tomex_pareto::{FrontRow, hull};
use tomex_study::{Program, Surveyed};

/// The number under a heading for a row.
#[tactic(auto, unfolding(crate::specs::FrontTable::number_under))]
fn number_under<A: Allocator>(surveyed: &Surveyed<'_, A>, heading: Heading, row: FrontRow) -> u64
    requires { row.row < length surveyed.now.rows }
    ensures { result ≡ number_under surveyed.now heading row }
{
    match heading {
        Heading::Row => row.row as u64,
        Heading::Cost => row.cost,
        Heading::Cycles => row.cycles,
        Heading::Setting(setting) => setting.of(surveyed.config(row.row)),
    }
}

#[tactic(auto, unfolding(crate::specs::FrontTable::heading_column))]
fn heading_column<A: Allocator>(
    heap: Global,
    surveyed: &Surveyed<'_, A>,
    rows: &[FrontRow],
    heading: Heading,
) -> Result<Column, AllocError>
    requires { All (λ r. r.row < length surveyed.now.rows) rows.now }
    ensures { IfOk result (λ c. c ≡ heading_column surveyed.now rows.now heading) }
{
    let mut column = Column::new(heap, heading.name(heap)?);
    for row in rows {
        let number = number_under(surveyed, heading, *row);
        column.push(format!(in heap; "{number}")?)?;
    }
    Ok(column)
}

/// Adds the columns that are the rows' own.
fn push_own<A: Allocator>(
    columns: &mut Vec<Column>,
    heap: Global,
    surveyed: &Surveyed<'_, A>,
    rows: &[FrontRow],
) -> Result<(), AllocError>
    requires { All (λ r. r.row < length surveyed.now.rows) rows.now }
    ensures { OnOk result (columns.new.items ≡ columns.old.items ++ own_columns surveyed.now rows.now) }
{
    columns.push(heading_column(heap, surveyed, rows, Heading::Row)?)?;
    columns.push(heading_column(heap, surveyed, rows, Heading::Cost)?)?;
    columns.push(heading_column(heap, surveyed, rows, Heading::Cycles)?)?;
    columns.push(rate_column(heap, rows)?)?;
    push_settings(columns, heap, surveyed, rows)
}

/// Adds the column of a setting, if rows of the study differ in it.
#[tactic(auto, unfolding(crate::specs::FrontTable::setting_columns))]
fn push_setting<A: Allocator>(
    columns: &mut Vec<Column>,
    heap: Global,
    surveyed: &Surveyed<'_, A>,
    rows: &[FrontRow],
    setting: Setting,
) -> Result<(), AllocError>
    requires { All (λ r. r.row < length surveyed.now.rows) rows.now }
    ensures { OnOk result (columns.new.items ≡ columns.old.items ++ setting_columns surveyed.now rows.now setting) }
{
    if setting.differs(surveyed.study().rows()) {
        columns.push(heading_column(heap, surveyed, rows, Heading::Setting(setting))?)?;
    }
    Ok(())
}

/// Adds the columns of the settings in which rows of the study differ.
fn push_settings<A: Allocator>(
    columns: &mut Vec<Column>,
    heap: Global,
    surveyed: &Surveyed<'_, A>,
    rows: &[FrontRow],
) -> Result<(), AllocError>
    requires { All (λ r. r.row < length surveyed.now.rows) rows.now }
    ensures { OnOk result (columns.new.items ≡ columns.old.items
        ++ flat_map (setting_columns surveyed.now rows.now) all_settings) }
{
    for setting in Setting::ALL {
        push_setting(columns, heap, surveyed, rows, setting)?;
    }
    Ok(())
}

/// The column of a program, the study's at this place.
#[tactic(auto, unfolding(crate::specs::FrontTable::program_column))]
fn program_column<A: Allocator>(
    heap: Global,
    surveyed: &Surveyed<'_, A>,
    rows: &[FrontRow],
    place: usize,
    program: &Program<A>,
) -> Result<Column, AllocError>
    requires rows { All (λ r. r.row < length surveyed.now.rows) rows.now }
    requires program { slice_get surveyed.now.programs place ≡ Some program.now }
    ensures { IfOk result (λ c. c ≡ program_column surveyed.now rows.now program.now) }
{
    let name = program.name();
    let mut column = Column::new(heap, format!(in heap; "{name}")?);
    for row in rows {
        let total = surveyed.total(row.row, place);
        column.push(format!(in heap; "{total}")?)?;
    }
    Ok(column)
}

/// Adds a column for each program.
fn push_each_program<A: Allocator>(
    columns: &mut Vec<Column>,
    heap: Global,
    surveyed: &Surveyed<'_, A>,
    rows: &[FrontRow],
) -> Result<(), AllocError>
    requires { All (λ r. r.row < length surveyed.now.rows) rows.now }
    ensures { OnOk result (columns.new.items
        ≡ columns.old.items ++ map (program_column surveyed.now rows.now) surveyed.now.programs) }
{
    for (place, program) in surveyed.study().programs().iter().enumerate() {
        columns.push(program_column(heap, surveyed, rows, place, program)?)?;
    }
    Ok(())
}

/// Adds a column for each program, if there are several.
fn push_programs<A: Allocator>(
    columns: &mut Vec<Column>,
    heap: Global,
    surveyed: &Surveyed<'_, A>,
    rows: &[FrontRow],
) -> Result<(), AllocError>
    requires { All (λ r. r.row < length surveyed.now.rows) rows.now }
    ensures { OnOk result (columns.new.items ≡ columns.old.items ++ program_columns surveyed.now rows.now) }
{
    if surveyed.study().programs().len() > 1 {
        push_each_program(columns, heap, surveyed, rows)?;
    }
    Ok(())
}

/// Rows of a study as a table: a line of names, and then a line for each row, with its number, cost and cycles, the
/// cycles that it saves over the row before for 1 of cost, the settings in which rows of the study differ, and, if
/// there are several programs, the cycles of each.
fn rows_table<A: Allocator>(
    alloc: A,
    heap: Global,
    surveyed: &Surveyed<'_, A>,
    rows: &[FrontRow],
) -> Result<Vec<u8, A>, AllocError>
    requires { All (λ r. r.row < length surveyed.now.rows) rows.now }
    ensures { IfOk result (λ text. text.items ≡ rows_table_of surveyed.now rows.now) }
{
    let mut columns = Vec::new(heap);
    push_own(&mut columns, heap, surveyed, rows)?;
    push_programs(&mut columns, heap, surveyed, rows)?;
    table_of(alloc, rows.len(), columns.as_slice())
}

/// The front of a study as a table: a line of names, and then a line for each row of the front, by cost, with its
/// number, cost and cycles, the cycles that it saves over the row before for 1 of cost, the settings in which rows of
/// the study differ, and, if there are several programs, the cycles of each.
///
/// Small values are allocated in `heap`.
pub fn front_table<A: Allocator>(
    alloc: A,
    heap: Global,
    surveyed: &Surveyed<'_, A>,
) -> Result<Vec<u8, A>, AllocError>
    ensures { IfOk result (λ text. text.items ≡ front_table_of surveyed.now) }
{
    rows_table(alloc, heap, surveyed, surveyed.front())
}

/// The same table, of those rows of the front that are on its lower convex hull.
pub fn hull_table<A: Allocator + Clone>(
    alloc: A,
    heap: Global,
    surveyed: &Surveyed<'_, A>,
) -> Result<Vec<u8, A>, AllocError>
    ensures { IfOk result (λ text. text.items ≡ hull_table_of surveyed.now) }
{
    surveyed.keeps_limits();
    let rows = hull(alloc.clone()?, surveyed.front())?;
    rows_table(alloc, heap, surveyed, rows.as_slice())
}
