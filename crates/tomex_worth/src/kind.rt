//! What another row is to a machine.

ghost use Rattle.std.specs.Prelude.{◌≡◌};
ghost use Rattle.tomex_worth.specs.WorthCsv.{kind_of, name_of_kind};

use tomex_pareto::FrontRow;

/// What another row is to a machine.
#[derive(Clone, Copy, PartialEq, Eq)]
pub enum Kind {
    /// One of the two costs more and takes fewer cycles.
    Trade,
    /// It costs no more and takes no more cycles, and is better in one of the two.
    Better,
    /// The same holds the other way round.
    Worse,
    /// Neither differs.
    Same,
}

impl Kind {
    /// What `other` is to `own`.
    pub(crate) fn of(own: FrontRow, other: FrontRow) -> Kind
        ensures { result ≡ kind_of own other }
    {
        if other.cost == own.cost && other.cycles == own.cycles {
            Kind::Same
        } else if other.cost <= own.cost && other.cycles <= own.cycles {
            Kind::Better
        } else if own.cost <= other.cost && own.cycles <= other.cycles {
            Kind::Worse
        } else {
            Kind::Trade
        }
    }

    /// Its name.
    pub(crate) fn name(self) -> &'static str
        ensures { result.now ≡ name_of_kind self }
    {
        match self {
            Kind::Trade => "trade",
            Kind::Better => "better",
            Kind::Worse => "worse",
            Kind::Same => "same",
        }
    }
}
