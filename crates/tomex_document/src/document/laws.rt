//! A law of the definitions, for readers.

ghost use Rattle.std.specs.Prelude.{◌≡◌, ℕ, List, Ok};
ghost use Rattle.tomex_document.specs.Document.{Document, document_of};
ghost use Rattle.tomex_document.specs.Grid.{HasGrid};

/// A law: the axes of every document span a grid, so building the grid can fail only by running out
/// of memory. The function does nothing: its contract is the law.
pub fn documents_have_a_grid()
    ensures { (bytes : List ℕ) (document : Document) → document_of bytes ≡ Ok document
        → HasGrid document.axes }
{}
