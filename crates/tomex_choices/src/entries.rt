//! What a study's rows have in one list.

ghost use Rattle.std.specs.Prelude.{◌≡◌, ◌<◌, ◌≤◌, true, if◌then◌else◌, length, map, All};
ghost use Rattle.std.specs.List.{range_with_len};
ghost use Rattle.tomex_config.specs.Configuration.{is_between};
ghost use Rattle.tomex_config.specs.Grid.{most_rows};
ghost use Rattle.tomex_config.specs.Parts.{part_at, same_entry};
ghost use Rattle.tomex_choices.specs.Asking.{AreMostUnits, HasEarlier, are_alike, has_number, most_at};
ghost use Rattle.tomex_config.specs.Parts.{most_of, same_latency};
ghost use Rattle.tomex_survey.specs.Extremes.{lesser};
ghost use Rattle.tomex_choices.specs.NewMachines.{greatest_units, grown, least_price};

use std::marker::Model;
use tomex_config::{Config, Part, UnitOption, same_entry, with_count};
use tomex_rvdec::UnitId;

/// The most units that an option of a latency has, and the least price of such an option.
#[derive(Clone, Copy, PartialEq, Eq)]
pub(crate) struct MostUnits {
    pub units: u8,
    pub price: u32,
}

/// The entries of a study's rows in the list at a place.
#[derive(Clone, Drop)]
pub(crate) struct Entries<'s> {
    rows: &'s [Config],
    place: usize,
    /// For each number up to 16: whether a row has it.
    numbers: [bool; 17],
    /// Of options for each latency up to 64.
    options: [MostUnits; 65],
    /// How many rows one choice lasts, as far as can be seen from the first rows.
    step: usize,
}

impl<'s> Model for Entries<'s> {
    ghost use Rattle.tomex_choices.specs.Asking.{IsRead, ListOf};

    ghost Value = { ListOf };

    ghost view = { λ e. record { rows = e.rows.now; place = e.place } };

    ghost invariant = { λ e. IsRead (record { rows = e.rows.now; place = e.place }) e.numbers e.options };
}

/// The most units of the options of a latency, 0 if there is none.
fn greatest_units(rows: &[Config], unit: UnitId, latency: usize) -> u8
    ensures { result ≡ greatest_units rows.now unit latency }
{
    let mut greatest = 0;
    for config in rows {
        let option = config.option(unit);
        if usize::from(option.latency) == latency {
            greatest = option.units.max(greatest);
        }
    }
    greatest
}

/// The lesser of a price and what is least so far.
fn lesser(price: u32, least: Option<u32>) -> u32
    ensures { result ≡ lesser price least }
{
    match least {
        None => price,
        Some(least) => price.min(least),
    }
}

/// The least price of the options of a latency with that number of units, 0 if there is none.
fn least_price(rows: &[Config], unit: UnitId, latency: usize, units: u8) -> u32
    requires { units ≡ greatest_units rows.now unit latency }
    ensures price { result ≡ least_price rows.now unit latency }
    ensures range { result ≤ 1000000 }
{
    let mut least = None;
    for config in rows {
        let option = config.option(unit);
        if usize::from(option.latency) == latency && option.units == units {
            least = Some(lesser(option.price, least));
        }
    }
    least.unwrap_or(0)
}

impl MostUnits {
    /// Of no option.
    fn none() -> MostUnits
        ensures { result ≡ record { units = 0; price = 0 } }
    {
        MostUnits { units: 0, price: 0 }
    }

    /// Of the options of a latency that rows have.
    fn of(rows: &[Config], unit: UnitId, latency: usize) -> MostUnits
        ensures most { result ≡ most_at rows.now unit latency }
        ensures range { result.price ≤ 1000000 }
    {
        let units = greatest_units(rows, unit, latency);
        MostUnits {
            units,
            price: least_price(rows, unit, latency, units),
        }
    }
}

/// Of the options of each latency for a kind of unit.
fn most_units_of(rows: &[Config], unit: UnitId) -> [MostUnits; 65]
    ensures most { result ≡ map (most_at rows.now unit) (range_with_len 0 65) }
    ensures range { All (λ m. m.price ≤ 1000000) result }
{
    let mut options = [MostUnits::none(); 65];
    for latency in 0..65usize {
        options[latency] = MostUnits::of(rows, unit, latency);
    }
    options
}

/// Of the options of each latency, if the part is a kind of unit.
fn most_units(rows: &[Config], part: Part) -> [MostUnits; 65]
    ensures most { AreMostUnits rows.now part result }
    ensures range { All (λ m. m.price ≤ 1000000) result }
{
    match part {
        Part::Units(unit) => most_units_of(rows, unit),
        _ => [MostUnits::none(); 65],
    }
}

/// True if a row has this number of a part.
fn has_number(rows: &[Config], part: Part, number: u64) -> bool
    ensures { result ≡ has_number rows.now part number }
{
    for config in rows {
        if part.count(config) == number {
            return true;
        }
    }
    false
}

/// For each number up to 16 whether a row has it.
fn numbers_of(rows: &[Config], part: Part) -> [bool; 17]
    ensures { result ≡ map (has_number rows.now part) (range_with_len 0 17) }
{
    let mut numbers = [false; 17];
    for number in 0..17usize {
        numbers[number] = has_number(rows, part, number as u64);
    }
    numbers
}

/// The first row with another entry than the first row's, or 0.
fn step_of(rows: &[Config], part: Part) -> usize {
    for (row, config) in rows.iter().enumerate() {
        if !same_entry(&rows[0], config, part) {
            return row;
        }
    }
    0
}

/// True if two configurations have the same entry in a part's list, or at least the same latency, as is asked for.
fn is_alike_in(by_latency: bool, part: Part, a: &Config, b: &Config) -> bool
    ensures { result ≡ (if by_latency then same_latency part a.now b.now else same_entry a.now b.now part) }
{
    if by_latency {
        part.latency(a) == part.latency(b)
    } else {
        same_entry(a, b, part)
    }
}

/// True if two configurations have the same entries in all lists, in the one at this place maybe only the same
/// latency.
#[tactic(auto, unfolding(crate::specs::Asking::are_alike))]
fn are_alike(place: usize, a: &Config, b: &Config) -> bool
    ensures { result ≡ are_alike place a.now b.now }
{
    for (k, part) in Part::ALL.iter().enumerate() {
        if !is_alike_in(k == place, *part, a, b) {
            return false;
        }
    }
    true
}

impl<'s> Entries<'s> {
    /// The entries in the list at a place.
    pub(crate) fn new(rows: &'s [Config], place: usize) -> Entries<'s>
        requires { place < 13 }
        ensures rows { result.rows ≡ rows.now }
        ensures place { result.place ≡ place }
    {
        let part = Part::ALL[place];
        Entries {
            rows,
            place,
            numbers: numbers_of(rows, part),
            options: most_units(rows, part),
            step: step_of(rows, part),
        }
    }

    /// The part of the list.
    pub(crate) fn part(&self) -> Part
        ensures { result ≡ part_at self.now.place }
    {
        Part::ALL[self.place]
    }

    /// The configuration with this number of the part in place of its own, if the list lacks that choice.
    pub(crate) fn grown(&self, config: &Config, number: u8) -> Option<Config>
        requires { is_between 1 (most_of (part_at self.now.place)) number ≡ true }
        ensures { result ≡ grown self.now.rows (part_at self.now.place) config.now number }
    {
        match self.part() {
            Part::Units(unit) => self.with_units(config, unit, number),
            part => {
                if self.numbers[usize::from(number)] {
                    None
                } else {
                    Some(with_count(config, part, number))
                }
            }
        }
    }

    /// The configuration with this number of units of a kind, if that is more than any row of its latency has.
    fn with_units(&self, config: &Config, unit: UnitId, number: u8) -> Option<Config>
        requires unit { part_at self.now.place ≡ Part.Units unit }
        requires number { is_between 1 (most_of (Part.Units unit)) number ≡ true }
        ensures { result ≡ grown self.now.rows (Part.Units unit) config.now number }
    {
        let latency = config.latency(unit);
        let most = self.options[usize::from(latency)];
        if number <= most.units {
            return None;
        }
        let option = UnitOption {
            units: number,
            latency,
            price: most.price,
        };
        Some(config.with_option(unit, option))
    }

    /// True if an earlier row is found that is like this one in all other lists, and in this one in its latency. Such
    /// rows have the same new machines. In a grid they are a whole number of steps before.
    pub(crate) fn repeats(&self, row: usize) -> bool
        requires { row < length self.now.rows }
        ensures { result ≡ true → HasEarlier self.now.rows self.now.place row }
    {
        if self.step == 0 {
            return false;
        }
        let mut earlier = row;
        for _back in 0..64 {
            if earlier < self.step {
                return false;
            }
            earlier -= self.step;
            if are_alike(self.place, &self.rows[earlier], &self.rows[row]) {
                return true;
            }
        }
        false
    }
}
