//! The headings of the table's columns.

ghost use Rattle.std.specs.Prelude.{◌≡◌};
ghost use Rattle.tomex_worth.specs.Worth.{name_under};

/// A column's heading: which property of a change it shows.
#[derive(Clone, Copy)]
pub enum Heading {
    /// The list in which the rows differ.
    Part,
    /// The machine's entry in it, and the other row's.
    From,
    To,
    Row,
    Cost,
    Cycles,
    Percent,
    Rate,
    Front,
}

impl Heading {
    /// All headings, in the table's order.
    pub const ALL: [Heading; 9] = [
        Heading::Part,
        Heading::From,
        Heading::To,
        Heading::Row,
        Heading::Cost,
        Heading::Cycles,
        Heading::Percent,
        Heading::Rate,
        Heading::Front,
    ];

    /// Its name.
    pub fn name(self) -> &'static str
        ensures { result.now ≡ name_under self }
    {
        match self {
            Heading::Part => "part",
            Heading::From => "from",
            Heading::To => "to",
            Heading::Row => "row",
            Heading::Cost => "cost",
            Heading::Cycles => "cycles",
            Heading::Percent => "%",
            Heading::Rate => "rate",
            Heading::Front => "front",
        }
    }
}
