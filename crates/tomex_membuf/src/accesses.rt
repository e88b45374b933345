//! Accesses to memory: they touch only their byte range.

ghost use Rattle.std.specs.Prelude.{◌≡◌, IfSome, IsSome, Some};
ghost use Rattle.tomex_rvdec.specs.Operands.{pool_of};
ghost use Rattle.tomex_rvexec.specs.Access.{HasStored, IsInside};
ghost use Rattle.tomex_rvexec.specs.Results.{byte_in, result_of};
ghost use Rattle.tomex_tags.specs.Contents.{step_in};

use std::alloc::Allocator;
use tomex_rvdec::PoolId;
use tomex_rvexec::{Memory, result_in, store};
use tomex_tags::Station;

/// The result of the operation of a station of this pool; a load reads its bytes for it. `None` if
/// a byte of its access lies outside memory.
#[inline(always)]
pub fn read<A: Allocator>(pool: PoolId, station: &Station, memory: &Memory<A>) -> Option<u32>
    requires { pool_of station.now.instr.op ≡ Some pool }
    ensures value { IfSome result (λ v. v ≡ result_of (step_in station.now) (byte_in memory.now)) }
    ensures inside { IsInside memory.now (step_in station.now) → IsSome result }
    ensures outside { IfSome result (λ v. IsInside memory.now (step_in station.now)) }
{
    result_in(pool, &station.step(), memory)
}

/// Writes the bytes of a station's store. Memory is unchanged if the station holds none, or if a
/// byte of its access lies outside memory.
#[inline(always)]
pub fn write<A: Allocator>(station: &Station, memory: &mut Memory<A>)
    ensures stored { HasStored (step_in station.now) memory.old memory.new }
    ensures outside { (IsInside memory.old (step_in station.now) → ⊥) → memory.new ≡ memory.old }
{
    store(&station.step(), memory);
}

/// A whole access: the result of the operation of a station of this pool, and the bytes of its
/// store. `None`, and memory unchanged, if a byte of it lies outside memory.
///
/// A cycle makes its accesses in two passes, `read` for each and then `write`, since all of its
/// loads read memory as it was before the cycle.
pub fn access<A: Allocator>(pool: PoolId, station: &Station, memory: &mut Memory<A>) -> Option<u32>
    requires { pool_of station.now.instr.op ≡ Some pool }
    ensures value { IfSome result (λ v. v ≡ result_of (step_in station.now) (byte_in memory.old)) }
    ensures inside { IsInside memory.old (step_in station.now) → IsSome result }
    ensures outside { IfSome result (λ v. IsInside memory.old (step_in station.now)) }
    ensures stored { HasStored (step_in station.now) memory.old memory.new }
    ensures unstored { (IsInside memory.old (step_in station.now) → ⊥) → memory.new ≡ memory.old }
{
    let value = read(pool, station, memory);
    write(station, memory);
    value
}
