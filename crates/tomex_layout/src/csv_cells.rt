//! What is in a table's cells, as fields.

ghost use Rattle.std.specs.Prelude.{◌≡◌};
ghost use Rattle.tomex_layout.specs.CsvFields.{number_field, without_plus};

/// A number without its plus sign.
fn without_plus(cell: &str) -> &str
    ensures { result.now ≡ without_plus cell.now }
{
    match cell.strip_prefix('+') {
        Some(digits) => digits,
        None => cell,
    }
}

/// A number of a table's cell, or nothing if the cell has none.
pub(crate) fn number_in(cell: &str) -> &str
    ensures { result.now ≡ number_field cell.now }
{
    if cell == "-" { "" } else { without_plus(cell) }
}
