//! Texts of percentages.

ghost use Rattle.std.specs.Prelude.{◌≡◌, string_bytes, IfOk};
ghost use Rattle.tomex_layout.specs.RowColumns.{percent_text};

use std::alloc::{AllocError, Global};

/// The percentage by which amounts may be wrong, as `45%`, or `any` from 100 on.
pub fn percent_text(heap: Global, percent: u64) -> Result<String, AllocError>
    ensures { IfOk result (λ text. string_bytes text ≡ percent_text percent) }
{
    if percent < 100 {
        format!(in heap; "{percent}%")
    } else {
        format!(in heap; "any")
    }
}
