//! Tests of surveys, of what lists lack, and of prices and weights: what is evaluated and asked, and how often; worked
//! examples; and each allocation refused in turn.
#![tactic(auto)]

#[cfg(test)]
mod choices;
#[cfg(test)]
mod studies;
#[cfg(test)]
mod surveys;
#[cfg(test)]
mod weights;

#[cfg(test)]
use studies::{Asked, OF_PRODUCT, ask, outcome_of};
