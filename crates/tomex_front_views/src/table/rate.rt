//! The savings of rows of the front over the rows before them.

ghost use Rattle.std.specs.Prelude.{◌≡◌, IfOk, string_bytes};
ghost use Rattle.tomex_front_views.specs.FrontTable.{rate_after, rate_column};

use std::alloc::{AllocError, Global};
use tomex_layout::{Column, push_hundredths};
use tomex_pareto::FrontRow;

/// The cycles that a row saves over the row before, for 1 of extra cost: with two decimals, or `-` if there is no row
/// before or it costs as much.
pub fn rate_after(
    heap: Global,
    before: Option<FrontRow>,
    row: FrontRow,
) -> Result<String, AllocError>
    ensures { IfOk result (λ text. string_bytes text ≡ rate_after before row) }
{
    let Some(before) = before else {
        return format!(in heap; "-");
    };
    if row.cost <= before.cost {
        return format!(in heap; "-");
    }
    let saved = u128::from(before.cycles.saturating_sub(row.cycles));
    let mut text = String::new(heap);
    push_hundredths(&mut text, saved * 100 / u128::from(row.cost - before.cost))?;
    Ok(text)
}

/// The column of the rates.
#[tactic(auto, unfolding(crate::specs::FrontTable::rate_column))]
pub fn rate_column(heap: Global, front: &[FrontRow]) -> Result<Column, AllocError>
    ensures { IfOk result (λ c. c ≡ rate_column front.now) }
{
    let mut column = Column::new(heap, format!(in heap; "rate")?);
    let mut before = None;
    for row in front {
        column.push(rate_after(heap, before, *row)?)?;
        before = Some(*row);
    }
    Ok(column)
}
