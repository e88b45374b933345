//! The rows of the front that a page shows.

ghost use Rattle.std.specs.Prelude.{◌≡◌, ◌<◌, ◌≤◌, length, map, IfOk};
ghost use Rattle.std.specs.List.{range_with_len};
ghost use Rattle.tomex_page_tables.specs.Shown.{chosen_row, row_of, shown_rows};

use std::alloc::{AllocError, Allocator, Global};
use tomex_config::Config;
use tomex_pareto::FrontRow;
use tomex_study::Study;

/// The most rows that are shown.
pub const MOST_ROWS: usize = 64;

/// A row of a study, with its configuration.
#[derive(Clone, Copy)]
pub struct ShownRow {
    pub row: FrontRow,
    pub config: Config,
}

/// A row of a study, with its configuration.
pub fn row_of<A: Allocator>(study: &Study<A>, row: FrontRow) -> ShownRow
    requires { row.row < length study.now.rows }
    ensures { result ≡ row_of study.now row }
{
    ShownRow {
        row,
        config: study.rows()[row.row],
    }
}

/// The k-th row that is shown of a `front` with more rows than that.
fn chosen_row(front: &[FrontRow], k: usize) -> FrontRow
    requires many { 64 ≤ length front.now }
    requires k { k < 64 }
    ensures { result ≡ chosen_row front.now k }
{
    let place = k as u128 * (front.len() as u128 - 1) / 63;
    front[place as usize]
}

/// All rows of a front.
fn all_of(heap: Global, front: &[FrontRow]) -> Result<Vec<FrontRow>, AllocError>
    ensures { IfOk result (λ v. v.items ≡ front.now) }
{
    let mut rows = Vec::with_capacity(heap, front.len())?;
    for row in front {
        rows.push(*row)?;
    }
    Ok(rows)
}

/// 64 rows of a longer front.
fn spread(heap: Global, front: &[FrontRow]) -> Result<Vec<FrontRow>, AllocError>
    requires { 64 ≤ length front.now }
    ensures { IfOk result (λ v. v.items ≡ map (chosen_row front.now) (range_with_len 0 64)) }
{
    let mut rows = Vec::with_capacity(heap, MOST_ROWS)?;
    for k in 0..MOST_ROWS {
        rows.push(chosen_row(front, k))?;
    }
    Ok(rows)
}

/// The rows of a front that are shown: all of them, or 64 of more, the first and the last among them.
#[tactic(auto, unfolding(crate::specs::Shown::shown_rows))]
pub fn shown_rows(heap: Global, front: &[FrontRow]) -> Result<Vec<FrontRow>, AllocError>
    ensures { IfOk result (λ v. v.items ≡ shown_rows front.now) }
{
    if front.len() <= MOST_ROWS {
        return all_of(heap, front);
    }
    spread(heap, front)
}
