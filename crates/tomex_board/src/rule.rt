//! The rule of a board's words, and the kinds of step that change them.

use crate::plan::Plan;
use crate::view::View;
use atomic_table::{Join, Play, Split, TableRule};
use std::marker::PhantomData;

/// The rule: what holds for a board's words and for what its seats know, before and after every
/// step.
pub struct Lawful<J: Plan> {
    of: PhantomData<J>,
}

impl<J: Plan> TableRule<u64, View, ()> for Lawful<J> {
    ghost use Rattle.tomex_board.specs.Rule.{IsLawful};
    ghost use Rattle.tomex_board.specs.Views.{first_view};

    ghost holds = { λ _. IsLawful J.costs J.cycles };

    ghost first = { λ _. first_view };
}

/// A row is claimed.
pub struct Claim<J: Plan> {
    of: PhantomData<J>,
}

impl<J: Plan> Play<u64, View> for Claim<J> {
    ghost use Rattle.tomex_board.specs.Steps.{IsClaim};

    ghost then = { IsClaim J.costs };
}

/// A row in hand is marked finished.
pub struct Finish<J: Plan> {
    of: PhantomData<J>,
}

impl<J: Plan> Play<u64, View> for Finish<J> {
    ghost use Rattle.tomex_board.specs.Steps.{IsFinish};

    ghost then = { IsFinish J.costs J.cycles };
}

/// A finished row is published in its band.
pub struct Publish<J: Plan> {
    of: PhantomData<J>,
}

impl<J: Plan> Play<u64, View> for Publish<J> {
    ghost use Rattle.tomex_board.specs.Steps.{IsPublish};

    ghost then = { IsPublish J.costs J.cycles };
}

/// A band is read.
pub struct Look<J: Plan> {
    of: PhantomData<J>,
}

impl<J: Plan> Play<u64, View> for Look<J> {
    ghost use Rattle.tomex_board.specs.Steps.{IsLook};

    ghost then = { IsLook J.costs J.cycles };
}

/// A row in hand is given up for a finished one.
pub struct GiveUp<J: Plan> {
    of: PhantomData<J>,
}

impl<J: Plan> Play<u64, View> for GiveUp<J> {
    ghost use Rattle.tomex_board.specs.Steps.{IsGiveUp};

    ghost then = { IsGiveUp J.costs J.cycles };
}

/// A seat is split in two.
pub struct SplitSeat;

impl Split<View> for SplitSeat {
    ghost use Rattle.tomex_board.specs.Views.{given_view, kept_view};

    ghost left = { kept_view };

    ghost right = { given_view };
}

/// Two seats become one.
pub struct JoinSeats;

impl Join<View> for JoinSeats {
    ghost use Rattle.tomex_board.specs.Views.{joined_view, spent_view};

    ghost both = { joined_view };

    ghost spent = { spent_view };
}
