//! Laws of plateaus. These functions do nothing: their contracts are the laws.

ghost use Rattle.tomex_plateaus.specs.Laws.{OtherNumberLiesOnToo, OwnConfigurationLiesOn, TotalIsThatOfThePlateau};

/// The demands of a run give a plateau of its program: the run's configuration lies on it, and on
/// every configuration of it the program takes the run's cycles.
pub fn demands_give_a_plateau()
    ensures own { OwnConfigurationLiesOn }
    ensures total { TotalIsThatOfThePlateau }
{}

/// A configuration with another number of a part in the plateau's interval lies on it too.
#[tactic(auto, using(crate::proofs::Reaching::lies_too))]
pub fn another_number_lies_on_the_plateau()
    ensures { OtherNumberLiesOnToo }
{}
