//! The rule of a deque of rows, and the kinds of step that change it.

use crate::known::Known;
use crossbeam_deque::protocol::{Outcome, Protocol, Split};

/// The deque holds neighbouring places of the list that it was filled with.
pub struct OfList;

impl Protocol<usize, Known> for OfList {
    ghost use Rattle.std.specs.Prelude.{true, false, []};
    ghost use Rattle.tomex_lanes.specs.Rule.{known_list, HoldsNeighbours};

    ghost holds = { HoldsNeighbours };

    ghost first = { known_list true [] };

    ghost guest = { known_list false [] };
}

/// Rows are added at the end of the list.
pub struct Added;

impl Outcome<usize, Known> for Added {
    ghost use Rattle.std.specs.Prelude.{◌≡◌, ◌++◌};
    ghost use Rattle.tomex_lanes.specs.Rule.{known_list};

    ghost then = { λ v xs w. w ≡ known_list v.filling (v.rows ++ xs) };
}

/// Rows of the list are taken out, and the list stays.
pub struct Taken;

impl Outcome<usize, Known> for Taken {
    ghost use Rattle.std.specs.Prelude.{◌≡◌, Contains, All};

    ghost then = { λ v xs w. (w ≡ v) × All (λ x. Contains v.rows x) xs };
}

/// A second pass is made, which knows the list. From then on no pass may add to it.
pub struct Shared;

impl Split<Known> for Shared {
    ghost use Rattle.std.specs.Prelude.{false};
    ghost use Rattle.tomex_lanes.specs.Rule.{known_list};

    ghost left = { λ v. known_list false v.rows };

    ghost right = { λ v. known_list false v.rows };
}
