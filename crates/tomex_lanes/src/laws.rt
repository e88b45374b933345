//! Laws of how rows are dealt. The function does nothing: its contract is the law.

ghost use Rattle.tomex_lanes.specs.Lanes.{EachRowIsDealt};

/// Each row is on the list of one of the workers, for any number of workers.
#[tactic(auto, using(crate::proofs::Dealing::each_is_dealt))]
pub fn each_row_is_dealt()
    ensures { EachRowIsDealt }
{}
