//! Why a link of a path begins no earlier.

ghost use Rattle.std.specs.Prelude.{◌≡◌};
ghost use Rattle.tomex_path.specs.Seen.{noted_wait};

use crate::note::Seen;
use tomex_config::Part;

/// What a step waited for last, before the first cycle of its link; `Order` if for nothing, except its turn.
#[derive(Clone, Copy, PartialEq, Eq)]
pub enum Reason {
    For(Part),
    Branch,
    Operand,
    Address,
    Memory,
    Order,
}

impl Reason {
    /// The cycles that a step has waited for it, if it holds one of the step's events.
    pub(crate) fn waited(self, seen: &Seen) -> u64
        ensures { result ≡ noted_wait seen.now self }
    {
        let note = &seen.note;
        match self {
            Reason::For(Part::Stations(_)) => u64::from(note.issue_cycles),
            Reason::For(Part::Units(_)) => u64::from(note.start_cycles),
            Reason::For(Part::Buses) => seen.bus_wait(),
            Reason::For(Part::Width) => u64::from(note.issue_cycles),
            Reason::Branch => u64::from(note.issue_cycles),
            Reason::Operand => note.operand_wait(),
            Reason::Address => u64::from(note.address_cycles),
            Reason::Memory => u64::from(note.start_cycles),
            Reason::Order => 0,
        }
    }
}
