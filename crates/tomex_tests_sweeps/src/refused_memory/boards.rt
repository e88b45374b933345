//! Boards that run out of memory.

ghost use Rattle.std.specs.Prelude.{◌≡◌};
ghost use Rattle.tomex_board.specs.Plans.{IsPlan};

use crate::answers::granted;
use std::alloc::{AllocError, Global};
use std::marker::Brand;
use std::test::Fail;
use tomex_board::{Board, Plan};
use tomex_tests_fixtures::{Heap, refusals_of};

/// The number of blocks that a board of rows with these costs takes.
fn blocks_of_board<J: Plan>(other: Global, costs: &[u64]) -> Result<Option<u64>, AllocError>
    requires costs { costs.now ≡ J.costs }
    requires plan { IsPlan J.costs J.cycles }
{
    Ok(refusals_of!(other, heap => granted(Board::<J, Heap>::new(heap, costs).is_ok())))
}

/// The same for 1 to 16,384 rows, each of one cycle.
fn blocks_of(other: Global, costs: &[u64]) -> Result<Option<u64>, AllocError> {
    if costs.is_empty() || costs.len() > 16_384 {
        return Ok(None);
    }
    blocks_of_board::<Brand>(other, costs)
}

/// More costs than there are bands.
static COSTS: [u64; 70] = [
    0, 1, 2, 3, 4, 5, 6, 7, 8, 9, 10, 11, 12, 13, 14, 15, 16, 17, 18, 19, 20, 21, 22, 23, 24, 25,
    26, 27, 28, 29, 30, 31, 32, 33, 34, 35, 36, 37, 38, 39, 40, 41, 42, 43, 44, 45, 46, 47, 48, 49,
    50, 51, 52, 53, 54, 55, 56, 57, 58, 59, 60, 61, 62, 63, 64, 65, 66, 67, 68, 69,
];

/// Blocks for the marks, the set of costs and its list, the words and those of bands, the costs, the table, and for the
/// floors that are spread among the costs.
#[test]
fn of_boards(rt: HostRuntime) -> Result<(), Fail> {
    assert!(rt; blocks_of(rt.alloc(), &COSTS)? > Some(8));
    Ok(())
}
