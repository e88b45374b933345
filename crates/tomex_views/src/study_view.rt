//! The views of a study.

use tomex_find::RowName;

/// How a table is printed.
#[derive(Clone, Copy)]
pub enum Form {
    /// In aligned columns.
    Table,
    /// As CSV.
    Csv,
}

/// A view of a study's front or of all its rows.
#[derive(Clone, Copy)]
pub enum SurveyView<'a> {
    /// The front, as a table.
    Table,
    /// The front's lower convex hull, as a table.
    Hull,
    /// The front, as a picture in SVG.
    Picture,
    /// The front with all rows, as a picture in SVG.
    RowsPicture,
    /// Each row, in CSV.
    Rows,
    /// The gain from each change of one list on the configuration of this name.
    Worth(RowName<'a>, Form),
    /// The prices with which each row of the front stays on it.
    Prices(Form),
    /// The weights of the programs with which each row is on the front.
    Weights(Form),
    /// The programs of these two names on every row, the old build first: two tables, or the second as CSV.
    Compare(&'a str, &'a str, Form),
    /// A report of the study of this name, as a page in HTML.
    Page(&'a str),
}

/// A view of a study with what its lists lack, for which new machines are evaluated.
#[derive(Clone, Copy)]
pub enum ChoicesView<'a> {
    /// The choices of each list.
    Lists(Form),
    /// A report of the study of this name, as a page in HTML.
    Page(&'a str),
}

/// A view of a study.
#[derive(Clone, Copy)]
pub enum StudyView<'a> {
    Survey(SurveyView<'a>),
    Choices(ChoicesView<'a>),
}
