//! The cycles that a complete list saves.

ghost use Rattle.std.specs.Prelude.{◌≡◌, map};
ghost use Rattle.tomex_survey.specs.Extremes.{least};
ghost use Rattle.tomex_choices.specs.Passing.{cheapest_saving};
ghost use Rattle.tomex_choices.specs.Savings.{complete, fewest, is_greater, more, saving_among, saving_at, saving_if};
ghost use Rattle.tomex_choices.specs.Savings.{thousandths};

use crate::new_machine::NewMachine;
use tomex_pareto::FrontRow;
use tomex_study::Saving;
use tomex_survey::lesser;

/// The fewest cycles of the rows that a cost buys.
fn fewest_now(rows: &[FrontRow], cost: u64) -> Option<u64>
    ensures { result ≡ fewest rows.now cost }
{
    let mut least = None;
    for row in rows {
        if row.cost <= cost {
            least = Some(lesser(row.cycles, least));
        }
    }
    least
}

/// The fewest cycles that a cost buys of the rows and the new machines.
fn fewest_complete(rows: &[FrontRow], machines: &[NewMachine], cost: u64) -> Option<u64>
    ensures { result ≡ fewest (complete rows.now machines.now) cost }
{
    let mut least = fewest_now(rows, cost);
    for x in machines {
        if x.cost <= cost {
            least = Some(lesser(x.cycles, least));
        }
    }
    least
}

/// The saving at a cost that buys `now`, and that would buy `new`, if there is one.
fn saving_if(cost: u64, now: Option<u64>, new: Option<u64>) -> Option<Saving>
    ensures { result ≡ saving_if cost now new }
{
    match (now, new) {
        (Some(now), Some(new)) => {
            if new < now {
                Some(Saving { cost, now, new })
            } else {
                None
            }
        }
        _ => None,
    }
}

/// The saving at a cost, if there is one.
fn saving_at(rows: &[FrontRow], machines: &[NewMachine], cost: u64) -> Option<Saving>
    ensures { result ≡ saving_at rows.now machines.now cost }
{
    let now = fewest_now(rows, cost);
    saving_if(cost, now, fewest_complete(rows, machines, cost))
}

/// A saving in thousandths of what the cost buys now, rounded down.
fn thousandths(saving: Saving) -> u128
    ensures { result ≡ thousandths saving }
{
    let saved = u128::from(saving.now.saturating_sub(saving.new));
    (saved * 1000)
        .checked_div(u128::from(saving.now))
        .unwrap_or(0)
}

/// True if `a` is the greater saving, or as great at a lesser cost.
fn is_greater(a: Saving, b: Saving) -> bool
    ensures { result ≡ is_greater a b }
{
    let (one, other) = (thousandths(a), thousandths(b));
    other < one || (one == other && a.cost < b.cost)
}

/// The greater of two savings.
fn more(best: Option<Saving>, other: Option<Saving>) -> Option<Saving>
    ensures { result ≡ more best other }
{
    match (best, other) {
        (None, other) => other,
        (Some(best), None) => Some(best),
        (Some(best), Some(other)) => { Some(if is_greater(other, best) { other } else { best }) }
    }
}

/// The least cost of a row.
fn least_cost(rows: &[FrontRow]) -> Option<u64>
    ensures { result ≡ least (map (λ r. r.cost) rows.now) }
{
    let mut least = None;
    for row in rows {
        least = Some(lesser(row.cost, least));
    }
    least
}

/// The saving at the cost of the cheapest row, if there is one.
fn cheapest_saving(rows: &[FrontRow], machines: &[NewMachine]) -> Option<Saving>
    ensures { result ≡ cheapest_saving rows.now machines.now }
{
    match least_cost(rows) {
        Some(cost) => saving_at(rows, machines, cost),
        None => None,
    }
}

/// The greatest saving by these new machines, at the least cost.
#[tactic(auto, using(crate::proofs::Greatest::none_more, crate::proofs::Greatest::more_assoc))]
pub(crate) fn greatest_saving(rows: &[FrontRow], machines: &[NewMachine]) -> Option<Saving>
    ensures { result ≡ saving_among rows.now machines.now }
{
    let mut best = cheapest_saving(rows, machines);
    for x in machines {
        best = more(best, saving_at(rows, machines, x.cost));
    }
    best
}
