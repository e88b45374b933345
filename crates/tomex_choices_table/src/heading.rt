//! The headings of the table's columns.

ghost use Rattle.std.specs.Prelude.{◌≡◌};
ghost use Rattle.tomex_choices_table.specs.ChoicesTable.{name_under};

/// A column's heading: which property of a list it shows.
#[derive(Clone, Copy, PartialEq, Eq)]
pub(crate) enum Heading {
    List,
    /// The choices on the front, and the others.
    Front,
    Unused,
    /// The choices worth adding, what the complete list saves, and at which cost.
    Add,
    Percent,
    Cost,
    Enough,
}

impl Heading {
    /// All headings, in the table's order.
    pub(crate) const ALL: [Heading; 7] = [
        Heading::List,
        Heading::Front,
        Heading::Unused,
        Heading::Add,
        Heading::Percent,
        Heading::Cost,
        Heading::Enough,
    ];

    /// Its name.
    pub(crate) fn name(self) -> &'static str
        ensures { result.now ≡ name_under self }
    {
        match self {
            Heading::List => "list",
            Heading::Front => "front",
            Heading::Unused => "unused",
            Heading::Add => "add",
            Heading::Percent => "%",
            Heading::Cost => "cost",
            Heading::Enough => "enough",
        }
    }
}
