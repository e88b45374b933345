//! Stations are numbered over all pools: 16 places a pool, in the order of the pools.

ghost use Rattle.std.specs.Prelude.{ℕ, ◌≡◌, ◌<◌, ◌/◌};
ghost use Rattle.tomex_rvdec.specs.Operands.{unit_of_pool};
ghost use Rattle.tomex_bus.specs.Sets.{has};
ghost use Rattle.tomex_tags.specs.Places.{is_served, place_of_tag, pool_at, tag_at_place};

use tomex_rvdec::{PoolId, UnitId};
use tomex_timing::Tag;

/// The place of a station, below 96.
#[inline(always)]
pub fn place(tag: Tag) -> usize
    ensures place { result ≡ place_of_tag tag }
    ensures few { tag.number < 16 → result < 96 }
{
    16 * tag.pool.place() + tag.number as usize
}

/// The tag of the station in a place.
pub fn tag(place: usize) -> Tag
    ensures { result ≡ tag_at_place place }
{
    let pool = match place / 16 {
        0 => PoolId::Alu,
        1 => PoolId::Mul,
        2 => PoolId::Div,
        3 => PoolId::Load,
        4 => PoolId::Store,
        _ => PoolId::Bru,
    };
    Tag {
        pool,
        number: (place % 16) as u8,
    }
}

/// For each pool, the kind of unit that runs its operations.
static UNITS: [UnitId; 6] = [
    UnitId::Alu,
    UnitId::Mul,
    UnitId::Div,
    UnitId::Mem,
    UnitId::Mem,
    UnitId::Bru,
];

/// The kind of unit that runs the operations of the station in a place.
#[inline(always)]
pub fn unit(place: usize) -> UnitId
    requires { place < 96 }
    ensures { result ≡ unit_of_pool (pool_at (place / 16)) }
{
    UNITS[place / 16]
}

/// The places of the store buffers.
pub const STORES: u128 = 0xffff_0000_0000_0000_0000;

/// The places of the stations whose operations a kind of unit runs.
#[inline(always)]
pub fn places_served_by(unit: UnitId) -> u128
    ensures { (x : ℕ) → x < 128 → has result x ≡ is_served unit x }
{
    match unit {
        UnitId::Alu => 0xffff,
        UnitId::Mul => 0xffff_0000,
        UnitId::Div => 0xffff_0000_0000,
        UnitId::Mem => 0xffff_ffff_0000_0000_0000,
        UnitId::Bru => 0xffff_0000_0000_0000_0000_0000,
    }
}
