//! The table of rows of a study.

ghost use Rattle.std.specs.Prelude.{◌≡◌, ◌<◌, ◌++◌, length, All, IfOk, OnOk};
ghost use Rattle.std.specs.List.{flat_map};
ghost use Rattle.tomex_config.specs.Settings.{all_settings};
ghost use Rattle.tomex_find.specs.Find.{column_of, columns_of, rows_table_of, setting_columns};

use crate::property::Property;
use std::alloc::{AllocError, Allocator, Global};
use tomex_config::Setting;
use tomex_layout::{Column, table_of};
use tomex_study::Study;

/// The column of a property.
#[tactic(auto, unfolding(crate::specs::Find::column_of))]
fn column_of<A: Allocator>(
    heap: Global,
    study: &Study<A>,
    rows: &[usize],
    property: Property,
) -> Result<Column, AllocError>
    requires { All (λ k. k < length study.now.rows) rows.now }
    ensures { IfOk result (λ c. c ≡ column_of study.now rows.now property) }
{
    let mut name = String::new(heap);
    property.push_name(&mut name)?;
    let mut column = Column::new(heap, name);
    for row in rows {
        let value = property.value(study, *row);
        column.push(format!(in heap; "{value}")?)?;
    }
    Ok(column)
}

/// Adds the column of a setting, if rows of the study differ in it.
#[tactic(auto, unfolding(crate::specs::Find::setting_columns))]
fn push_setting<A: Allocator>(
    columns: &mut Vec<Column>,
    heap: Global,
    study: &Study<A>,
    rows: &[usize],
    setting: Setting,
) -> Result<(), AllocError>
    requires { All (λ k. k < length study.now.rows) rows.now }
    ensures { OnOk result (columns.new.items
        ≡ columns.old.items ++ setting_columns study.now rows.now setting) }
{
    if setting.differs(study.rows()) {
        columns.push(column_of(heap, study, rows, Property::Setting(setting))?)?;
    }
    Ok(())
}

/// Adds the columns of the settings in which rows of the study differ.
fn push_settings<A: Allocator>(
    columns: &mut Vec<Column>,
    heap: Global,
    study: &Study<A>,
    rows: &[usize],
) -> Result<(), AllocError>
    requires { All (λ k. k < length study.now.rows) rows.now }
    ensures { OnOk result (columns.new.items
        ≡ columns.old.items ++ flat_map (setting_columns study.now rows.now) all_settings) }
{
    for setting in Setting::ALL {
        push_setting(columns, heap, study, rows, setting)?;
    }
    Ok(())
}

/// The columns of a table of rows.
fn columns_of<A: Allocator>(
    heap: Global,
    study: &Study<A>,
    rows: &[usize],
) -> Result<Vec<Column>, AllocError>
    requires { All (λ k. k < length study.now.rows) rows.now }
    ensures { IfOk result (λ columns. columns.items ≡ columns_of study.now rows.now) }
{
    let mut columns = Vec::new(heap);
    columns.push(column_of(heap, study, rows, Property::Row)?)?;
    columns.push(column_of(heap, study, rows, Property::Cost)?)?;
    push_settings(&mut columns, heap, study, rows)?;
    Ok(columns)
}

/// Rows of a study as a table: their numbers, costs, and the settings in which rows of the study differ.
pub fn rows_table<A: Allocator>(
    alloc: A,
    heap: Global,
    study: &Study<A>,
    rows: &[usize],
) -> Result<Vec<u8, A>, AllocError>
    requires { All (λ k. k < length study.now.rows) rows.now }
    ensures { IfOk result (λ text. text.items ≡ rows_table_of study.now rows.now) }
{
    let columns = columns_of(heap, study, rows)?;
    table_of(alloc, rows.len(), columns.as_slice())
}
