//! The percentage by which all amounts that make up a row's cost may be wrong at once.

ghost use Rattle.std.specs.Prelude.{◌≡◌};
ghost use Rattle.tomex_pareto.specs.Percent.{percent_by};

use crate::front_row::FrontRow;

/// The percentage by which the amounts may be wrong if there is only one rival: how much more it costs, in percent
/// of `apart`, what the parts that the two don't have in common cost. 100 if it sets no bound.
pub fn percent_by(apart: u128, row: FrontRow, rival: FrontRow) -> u128
    ensures { result ≡ percent_by apart row rival }
{
    if rival.cycles > row.cycles || apart == 0 {
        return 100;
    }
    let premium = if rival.cycles < row.cycles { 1 } else { 0 };
    let more = 100 * u128::from(rival.cost.saturating_sub(row.cost));
    more.saturating_sub(premium) / apart
}
