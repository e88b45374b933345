//! The weights for which a row is on the front.

ghost use Rattle.std.specs.Prelude.{◌≡◌, ℕ, ◌<◌, ◌≤◌, length, All};
ghost use Rattle.std.specs.List.{Contains};
ghost use Rattle.tomex_pareto.specs.Front.{is_on};
ghost use Rattle.tomex_pareto.specs.Spans.{HasRoom, holds};
ghost use Rattle.tomex_study.specs.StudyFront.{all_rows, front_of_study};
ghost use Rattle.tomex_weights.specs.Reweighted.{reweighted};
ghost use Rattle.tomex_weights.specs.Spans.{greatest_weight, rows_by_weight, span_of};

use crate::line_rows::by_weight;
use std::alloc::Allocator;
use tomex_pareto::{FrontRow, LineRow, ValueSpan, settled_span};
use tomex_study::Surveyed;

/// The greatest weight that is tried, in hundredths: the greatest one that a study may state.
pub const GREATEST_WEIGHT: u64 = 100_000;

/// The weights of the program at a place, in hundredths, and no others, for which a row is on the front, all other
/// weights as stated; both ends are 0 if there are none. It may be on the front as stated or not. `rows` are all rows
/// of the study by that weight.
pub fn span_of<A: Allocator>(
    surveyed: &Surveyed<'_, A>,
    place: usize,
    rows: &[LineRow],
    row: FrontRow,
) -> ValueSpan
    requires place { place < length surveyed.now.programs }
    requires room { All HasRoom rows.now }
    requires rows { rows.now ≡ rows_by_weight surveyed.now place }
    requires row { Contains (all_rows surveyed.now) row }
    ensures span { result ≡ span_of surveyed.now place row }
    ensures exact { (q : ℕ) → 1 ≤ q → q ≤ greatest_weight
        → is_on (front_of_study (reweighted surveyed.now place q)) row.row ≡ holds result q }
{
    surveyed.keeps_limits();
    settled_span(1, GREATEST_WEIGHT, by_weight(surveyed, place, row), rows)
}
