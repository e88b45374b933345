//! The numbers of a row's record.

ghost use Rattle.std.specs.Prelude.{◌≡◌, OnOk};
ghost use Rattle.tomex_texts.specs.RowsReport.{flag, numbers_of_row};

use crate::row_numbers::push_row_numbers;
use std::alloc::AllocError;
use tomex_config::Config;
use tomex_pareto::FrontRow;

/// 1 if a row is on it, else 0.
fn flag(is_on: bool) -> u64
    ensures { result ≡ flag is_on }
{
    if is_on { 1 } else { 0 }
}

/// Fills a list with the numbers of a row on which the programs have these totals.
pub(crate) fn fill_numbers(
    numbers: &mut Vec<u64>,
    wide: bool,
    row: FrontRow,
    config: &Config,
    totals: &[u64],
    on_front: bool,
    on_hull: bool,
) -> Result<(), AllocError>
    ensures { OnOk result
        (numbers.new.items ≡ numbers_of_row wide row config.now totals.now on_front on_hull) }
{
    numbers.clear();
    push_row_numbers(numbers, wide, row, config)?;
    numbers.extend_from_slice(totals)?;
    numbers.push(flag(on_front))?;
    numbers.push(flag(on_hull))?;
    Ok(())
}
