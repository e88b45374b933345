//! Laws on the choices by which configurations are found and named, and on the CSV of prices.
//!
//! These functions do nothing: their contracts are the laws.

ghost use Rattle.std.specs.Prelude.{◌≡◌, ◌<◌, ℕ, List, All, Contains, length, slice_index, true};
ghost use Rattle.tomex_study.specs.Study.{DesignSpace, IsStudy};
ghost use Rattle.tomex_find.specs.Find.{found_in, has_all};
ghost use Rattle.tomex_views.specs.FindLaws.{Name, choices_of_line, number_choice};
ghost use Rattle.tomex_views.specs.PricesLaws.{CsvIsTheTables};

/// Any choices that a configuration has, that of its number among them, name it: joined by commas, they are a name of
/// that row and of no other.
pub fn choices_with_the_number_name_the_row()
    ensures { (s : DesignSpace) (words : List (List ℕ)) (k : ℕ) → IsStudy s → k < length s.rows
        → has_all s words k ≡ true → Contains words (number_choice k) → Name s words k }
{}

/// Each line of `tomex find` names its row: what the line shows, each number after its column's name and `=`, is a name
/// of that row and of no other if joined by commas.
pub fn each_line_names_its_row()
    ensures { (s : DesignSpace) (words : List (List ℕ)) (i : ℕ) → IsStudy s → i < length (found_in s words)
        → Name s (choices_of_line s (found_in s words) i) (slice_index (found_in s words) i) }
{}

/// Neither the order of choices nor their repetition matters: the same rows have them all.
pub fn order_and_repetition_do_not_matter()
    ensures { (s : DesignSpace) (words others : List (List ℕ)) → All (Contains others) words
        → All (Contains words) others → found_in s words ≡ found_in s others }
{}

/// The CSV of a study's prices holds its table: each field is a cell, a column's name, or the number that a cell begins
/// or ends with.
pub fn csv_of_prices_is_the_tables()
    ensures { CsvIsTheTables }
{}
