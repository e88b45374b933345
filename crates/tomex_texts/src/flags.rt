//! Which rows of a study are on the front, or on its hull.

ghost use Rattle.std.specs.Prelude.{◌≡◌, ◌<◌, length, map, All, IfOk};
ghost use Rattle.std.specs.List.{range_with_len};
ghost use Rattle.tomex_pareto.specs.Front.{is_on};

use std::alloc::{AllocError, Allocator};
use tomex_pareto::FrontRow;

/// A flag for each of a study's rows: true if it is one of these rows of the front.
pub(crate) fn flags<A: Allocator>(
    alloc: A,
    rows: usize,
    front: &[FrontRow],
) -> Result<Vec<bool, A>, AllocError>
    requires { All (λ r. r.row < rows) front.now }
    ensures { IfOk result (λ v. v.items ≡ map (is_on front.now) (range_with_len 0 rows)) }
{
    let mut flags = vec![in alloc; false; rows]?;
    for row in front {
        flags[row.row] = true;
    }
    Ok(flags)
}
