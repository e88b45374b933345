//! Whether a page's cells are full.

ghost use Rattle.std.specs.Prelude.{◌≡◌, IfOk, string_bytes};
ghost use Rattle.tomex_animate.specs.Page.{help_of, style_of};

use crate::constants::{animate_css, animate_help, blank_css, blank_help};
use std::alloc::{AllocError, Global};

/// Whether the cells of a page's views are full.
#[derive(Clone, Copy, PartialEq, Eq)]
pub enum Cells {
    /// They have what the machine shows after the cycle.
    Filled,
    /// They are empty, to be filled in by hand.
    Blank,
}

/// The style of a page.
pub(crate) fn style_of(heap: Global, cells: Cells) -> Result<String, AllocError>
    ensures { IfOk result (λ style. string_bytes style ≡ style_of cells) }
{
    let mut style = String::new(heap);
    style.push_str(animate_css())?;
    match cells {
        Cells::Filled => {}
        Cells::Blank => style.push_str(blank_css())?,
    }
    Ok(style)
}

/// The explanation of a page.
pub(crate) fn help_of(cells: Cells) -> &'static str
    ensures { result.now ≡ help_of cells }
{
    match cells {
        Cells::Filled => animate_help(),
        Cells::Blank => blank_help(),
    }
}
