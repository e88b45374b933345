//! Laws of the pieces that pages have in common. These functions do nothing: their contracts are the laws.

ghost use Rattle.tomex_html.specs.Laws.{ChangedIsMarked, IdsAreApart, LinksAreApart, NamesAreText};
ghost use Rattle.tomex_html.specs.Laws.{UnchangedIsUnmarked};

/// A cell is marked if it shows something else than before, and only then; an empty one isn't marked.
pub fn marks_are_differences()
    ensures unchanged { UnchangedIsUnmarked }
    ensures changed { ChangedIsMarked }
{}

/// Nothing in a name is read as markup: each of its characters is shown as a reference, or without a sign of markup.
pub fn names_are_text()
    ensures { NamesAreText }
{}

/// Views with different numbers have different ids, and so do their links.
pub fn ids_are_apart()
    ensures views { IdsAreApart }
    ensures links { LinksAreApart }
{}
