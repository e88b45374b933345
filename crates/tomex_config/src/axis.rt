//! The axes of a grid: the values that each part of a configuration takes.

ghost use Rattle.std.specs.Prelude.{◌≡◌, ◌==◌, nat_lt, false};
ghost use Rattle.std.specs.List.{list_all};
ghost use Rattle.tomex_config.specs.Configuration.{is_between, is_option};
ghost use Rattle.tomex_config.specs.Grid.{lists_of, lengths, has_zero, product, has_empty, most_rows};
ghost use Rattle.tomex_config.specs.Grid.{stations_in_range};
ghost use Rattle.tomex_config.specs.Grid.{options_in_range, rest_in_range, in_range, is_above_limit, is_too_large};

use crate::config::{UnitOption, is_option};
use std::alloc::{Allocator, Global};

/// A list of values for each part of a configuration: the stations of the six pools, the options
/// for the five kinds of unit, the buses, and the issue width. The values may be out of the limits,
/// and a value may occur twice.
#[derive(Drop)]
pub struct Axes<A: Allocator = Global> {
    pub alu: Vec<u8, A>,
    pub mul: Vec<u8, A>,
    pub div: Vec<u8, A>,
    pub load: Vec<u8, A>,
    pub store: Vec<u8, A>,
    pub bru: Vec<u8, A>,
    pub alu_units: Vec<UnitOption, A>,
    pub mul_units: Vec<UnitOption, A>,
    pub div_units: Vec<UnitOption, A>,
    pub mem_units: Vec<UnitOption, A>,
    pub bru_units: Vec<UnitOption, A>,
    pub buses: Vec<u8, A>,
    pub width: Vec<u8, A>,
}

/// The most configurations that a grid has.
const MOST_ROWS: usize = 16_384;

/// True if one of the lengths is 0.
fn has_zero(lengths: &[usize]) -> bool
    ensures { result ≡ has_zero lengths.now }
{
    lengths.iter().any(|length| *length == 0)
}

/// True if the product of these lengths, all above 0, is above the limit; computed without
/// overflow.
fn is_above(lengths: &[usize]) -> bool
    requires { has_zero lengths.now ≡ false }
    ensures { result ≡ nat_lt most_rows (product lengths.now) }
{
    let mut rows = 1;
    for length in lengths {
        if *length > MOST_ROWS {
            return true;
        }
        rows *= *length;
        if rows > MOST_ROWS {
            return true;
        }
    }
    false
}

/// True if the product of the lengths is above the limit.
#[tactic(auto, using(crate::proofs::Lengths::zero_is_small), unfolding(crate::specs::Grid::is_above_limit))]
fn is_above_limit(lengths: &[usize]) -> bool
    ensures { result ≡ is_above_limit lengths.now }
{
    if has_zero(lengths) {
        return false;
    }
    is_above(lengths)
}

/// True if each count is from 1 to `most`.
fn are_counts(counts: &[u8], most: u8) -> bool
    ensures { result ≡ list_all (is_between 1 most) counts.now }
{
    counts.iter().all(|count| 1 <= *count && *count <= most)
}

/// True if every option is within the limits and has at most `most` units.
fn are_options(options: &[UnitOption], most: u8) -> bool
    ensures { result ≡ list_all (is_option most) options.now }
{
    options.iter().all(|option| is_option(*option, most))
}

impl<A: Allocator> Axes<A> {
    fn lengths(&self) -> [usize; 13]
        ensures { result ≡ lengths (lists_of self.now) }
    {
        [
            self.alu.len(),
            self.mul.len(),
            self.div.len(),
            self.load.len(),
            self.store.len(),
            self.bru.len(),
            self.alu_units.len(),
            self.mul_units.len(),
            self.div_units.len(),
            self.mem_units.len(),
            self.bru_units.len(),
            self.buses.len(),
            self.width.len(),
        ]
    }

    fn are_stations_in_range(&self) -> bool
        ensures { result ≡ stations_in_range (lists_of self.now) }
    {
        are_counts(&self.alu, 16)
            && are_counts(&self.mul, 16)
            && are_counts(&self.div, 16)
            && are_counts(&self.load, 16)
            && are_counts(&self.store, 16)
            && are_counts(&self.bru, 16)
    }

    fn are_options_in_range(&self) -> bool
        ensures { result ≡ options_in_range (lists_of self.now) }
    {
        are_options(&self.alu_units, 8)
            && are_options(&self.mul_units, 8)
            && are_options(&self.div_units, 8)
            && are_options(&self.mem_units, 8)
            && are_options(&self.bru_units, 1)
    }

    fn are_rest_in_range(&self) -> bool
        ensures { result ≡ rest_in_range (lists_of self.now) }
    {
        are_counts(&self.buses, 8) && are_counts(&self.width, 4)
    }

    /// True if an axis has no value.
    #[tactic(auto, unfolding(crate::specs::Grid::has_empty))]
    pub fn has_empty(&self) -> bool
        ensures { result ≡ has_empty (lists_of self.now) }
    {
        has_zero(self.lengths().as_slice())
    }

    /// True if each value is within the limits of a configuration.
    #[tactic(auto, unfolding(crate::specs::Grid::in_range))]
    pub fn is_in_range(&self) -> bool
        ensures { result ≡ in_range (lists_of self.now) }
    {
        self.are_stations_in_range() && self.are_options_in_range() && self.are_rest_in_range()
    }

    /// True if there are more than 16,384 configurations. Allocates nothing, and may be called for
    /// any axes.
    pub fn is_too_large(&self) -> bool
        ensures { result ≡ is_too_large (lists_of self.now) }
    {
        is_above_limit(self.lengths().as_slice())
    }
}
