//! A result on a common data bus.

ghost use Rattle.std.specs.Prelude.{◌≡◌, ◌<◌, Some};
ghost use Rattle.tomex_tags.specs.Operands.{only};
ghost use Rattle.tomex_tags.specs.Pools.{HaveHeard};
ghost use Rattle.tomex_tags.specs.Registers.{registers_after};

use crate::pools::Pools;
use crate::register_status::RegStatus;

/// Sends the result of the station in a place to all stations and to its destination.
///
/// Each Q that names the place becomes V; the register is written and its Qi emptied if that Qi
/// still names the place, as it does unless a younger writer has issued.
#[inline(always)]
pub fn broadcast(
    pools: &mut Pools,
    registers: &mut RegStatus,
    place: usize,
    register: u8,
    value: u32,
)
    requires { register < 32 }
    ensures stations { HaveHeard (only place (Some value)) pools.old pools.new }
    ensures registers { registers.new ≡ registers_after registers.old register place value }
{
    pools.hear(place, value);
    registers.receive(register, place, value);
}
