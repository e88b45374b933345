//! The columns of rows' own properties.

ghost use Rattle.std.specs.Prelude.{◌≡◌, ◌++◌, IfOk, OnOk};
ghost use Rattle.tomex_layout.specs.RowColumns.{heading_column, name_of_heading, now_under, number_under};
ghost use Rattle.tomex_layout.specs.RowColumns.{row_columns};

use crate::column::Column;
use std::alloc::{AllocError, Global};
use tomex_pareto::FrontRow;

/// A property of a row.
#[derive(Clone, Copy)]
enum Heading {
    Row,
    Cost,
    Cycles,
}

impl Heading {
    fn name(self) -> &'static str
        ensures { result.now ≡ name_of_heading self }
    {
        match self {
            Heading::Row => "row",
            Heading::Cost => "cost",
            Heading::Cycles => "cycles",
        }
    }

    /// Its text in the line `now`.
    fn now(self) -> &'static str
        ensures { result.now ≡ now_under self }
    {
        match self {
            Heading::Row => "now",
            Heading::Cost | Heading::Cycles => "-",
        }
    }

    /// Its value for a row.
    fn of(self, row: FrontRow) -> u64
        ensures { result ≡ number_under self row }
    {
        match self {
            Heading::Row => row.row as u64,
            Heading::Cost => row.cost,
            Heading::Cycles => row.cycles,
        }
    }
}

#[tactic(auto, unfolding(crate::specs::RowColumns::heading_column))]
fn heading_column(heap: Global, rows: &[FrontRow], heading: Heading) -> Result<Column, AllocError>
    ensures { IfOk result (λ c. c ≡ heading_column rows.now heading) }
{
    let (name, now) = (heading.name(), heading.now());
    let mut column = Column::new(heap, format!(in heap; "{name}")?);
    column.push(format!(in heap; "{now}")?)?;
    for row in rows {
        let number = heading.of(*row);
        column.push(format!(in heap; "{number}")?)?;
    }
    Ok(column)
}

/// Adds the columns of the rows' numbers, costs and cycles. Each has an entry more than there are rows: the first is
/// that of the line `now`.
pub fn push_row_columns(
    columns: &mut Vec<Column>,
    heap: Global,
    rows: &[FrontRow],
) -> Result<(), AllocError>
    ensures { OnOk result (columns.new.items ≡ columns.old.items ++ row_columns rows.now) }
{
    columns.push(heading_column(heap, rows, Heading::Row)?)?;
    columns.push(heading_column(heap, rows, Heading::Cost)?)?;
    columns.push(heading_column(heap, rows, Heading::Cycles)?)?;
    Ok(())
}
