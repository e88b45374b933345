//! Where a fault of a study is: the place, and the key in it.

ghost use Rattle.std.specs.Prelude.{◌≡◌, Some};
ghost use Rattle.tomex_values.specs.Place.{key_text, key_of_unit, place_text};

use std::fmt;
use tomex_rvdec::UnitId;

/// A key of a study. One name may be lawful in several places, as `alu` in the prices, in the axes
/// and in the options of units.
#[derive(Clone, Copy, Debug, PartialEq, Eq)]
pub enum Key {
    Program,
    Prices,
    Axes,
    Unit,
    Name,
    File,
    Base,
    Size,
    Limit,
    Watch,
    Weight,
    Alu,
    Mul,
    Div,
    Load,
    Store,
    Bru,
    Bus,
    Buses,
    Width,
    Mem,
    Units,
    Latency,
    Price,
}

impl Key {
    /// The key as studies write it.
    pub fn text(self) -> &'static str
        ensures { result.now ≡ key_text self }
    {
        match self {
            Key::Program => "program",
            Key::Prices => "prices",
            Key::Axes => "axes",
            Key::Unit => "unit",
            Key::Name => "name",
            Key::File => "file",
            Key::Base => "base",
            Key::Size => "size",
            Key::Limit => "limit",
            Key::Watch => "watch",
            Key::Weight => "weight",
            Key::Alu => "alu",
            Key::Mul => "mul",
            Key::Div => "div",
            Key::Load => "load",
            Key::Store => "store",
            Key::Bru => "bru",
            Key::Bus => "bus",
            Key::Buses => "buses",
            Key::Width => "width",
            Key::Mem => "mem",
            Key::Units => "units",
            Key::Latency => "latency",
            Key::Price => "price",
        }
    }

    /// The key of the options for a kind of unit.
    pub fn of_unit(unit: UnitId) -> Key
        ensures { result ≡ key_of_unit unit }
    {
        match unit {
            UnitId::Alu => Key::Alu,
            UnitId::Mul => Key::Mul,
            UnitId::Div => Key::Div,
            UnitId::Mem => Key::Mem,
            UnitId::Bru => Key::Bru,
        }
    }
}

impl fmt::Display for Key {
    ghost output = { λ key. Some (key_text key) };

    fn fmt<W: fmt::Write>(&self, f: &mut fmt::Formatter<W>) -> fmt::Result {
        let text = self.text();
        write!(f, "{text}")
    }
}

/// A table of a study. Programs, and the options of a kind of unit, are counted from 1.
#[derive(Clone, Copy, Debug, PartialEq, Eq)]
pub enum Place {
    Top,
    Program(u8),
    Prices,
    Axes,
    Unit,
    Option(UnitId, usize),
}

impl fmt::Display for Place {
    ghost output = { λ place. Some (place_text place) };

    fn fmt<W: fmt::Write>(&self, f: &mut fmt::Formatter<W>) -> fmt::Result {
        match *self {
            Place::Top => write!(f, "top"),
            Place::Program(number) => write!(f, "program {number}"),
            Place::Prices => write!(f, "prices"),
            Place::Axes => write!(f, "axes"),
            Place::Unit => write!(f, "unit"),
            Place::Option(unit, number) => {
                let kind = Key::of_unit(unit);
                write!(f, "unit {kind} {number}")
            }
        }
    }
}
