//! The costs and cycles that a board is made for.

use std::marker::Brand;

/// The cost of each row and its cycles to its end, for contracts. A board has its plan in its type,
/// so that all contracts about it mean the same cycles; no code needs to know them.
pub trait Plan {
    ghost use Rattle.std.specs.Prelude.{List, ℕ};

    ghost costs: { List ℕ };

    ghost cycles: { List ℕ };
}

/// The type for a caller that chooses costs and cycles in its proof.
impl Plan for Brand {
    ghost use Rattle.std.specs.Prelude.{[]};

    ghost costs = { [] };

    ghost cycles = { [] };
}
