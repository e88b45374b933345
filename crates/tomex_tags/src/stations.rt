//! The reservation stations of one pool.

ghost use Rattle.std.specs.Prelude.{◌≡◌, ◌<◌, None, Some, option_map, replicate, slice_set};
ghost use Rattle.tomex_tags.specs.Contents.{with_change, hears, slot, with_start, with_address};
ghost use Rattle.tomex_tags.specs.Operands.{only};
ghost use Rattle.tomex_tags.specs.WaitSets.{waits};

use crate::station::{Station, field_after};
use arrayvec::ArrayVec;
use std::marker::Model;
use tomex_timing::Field;

/// The stations of one pool, at most 16, by number: contracts see a list of 16.
#[derive(Drop)]
pub struct Stations {
    stations: ArrayVec<Option<Station>, 16>,
}

impl Model for Stations {
    ghost use Rattle.std.specs.Prelude.{List, Option, length, ◌≡◌};
    ghost use Rattle.tomex_tags.specs.declared.station.Station.{Station};

    ghost Value = { List (Option Station) };

    ghost view = { λ s. s.stations.items };

    ghost invariant = { λ s. length s.stations.items ≡ 16 };
}

impl Stations {
    /// The stations before any is busy.
    pub fn new() -> Stations
        ensures { result ≡ replicate 16 None }
    {
        Stations {
            stations: ArrayVec::from_array_in((), [None; 16]),
        }
    }

    /// The station of a number, if it is busy.
    #[inline(always)]
    pub fn at(&self, number: usize) -> Option<Station>
        requires { number < 16 }
        ensures { result ≡ slot self.now number }
    {
        self.stations[number]
    }

    /// Sets the station of a number, or frees it.
    #[inline(always)]
    pub fn put(&mut self, number: usize, station: Option<Station>)
        requires { number < 16 }
        ensures { self.new ≡ slice_set self.old number station }
    {
        self.stations[number] = station;
    }

    /// Computes the address of the station of a number, if it is busy and its base is there.
    #[inline(always)]
    pub fn address(&mut self, number: usize)
        requires { number < 16 }
        ensures { self.new ≡ with_change with_address number self.old }
    {
        if let Some(station) = &mut self.stations[number] {
            if let Field::Value(base) = station.j {
                station.address = Some(base.wrapping_add(station.instr.imm()));
            }
        }
    }

    /// Gives the station of a number, if it is busy, the result that a place sends. True if it then
    /// waits only for a unit and for older accesses.
    #[inline(always)]
    pub fn hear(&mut self, number: usize, from: usize, value: u32) -> bool
        requires { number < 16 }
        ensures heard { self.new ≡ with_change (hears (only from (Some value))) number self.old }
        ensures waits { result
            ≡ waits (option_map (hears (only from (Some value))) (slot self.old number)) }
    {
        if let Some(station) = &mut self.stations[number] {
            station.j = field_after(station.j, from, value);
            station.k = field_after(station.k, from, value);
            return station.is_waiting();
        }
        false
    }

    /// Starts the operation of the station of a number, if it is busy.
    #[inline(always)]
    pub fn start(&mut self, number: usize, finish: u64, value: u32)
        requires { number < 16 }
        ensures { self.new ≡ with_change (with_start finish value) number self.old }
    {
        if let Some(station) = &mut self.stations[number] {
            station.finish = Some(finish);
            station.value = value;
        }
    }
}
