//! What the steps with each key have of a run's cycles, and of their stretches' floors.

ghost use Rattle.std.specs.Prelude.{◌≡◌, ◌<◌, ◌≤◌, ◌*◌, ◌^◌, All, IfOk, IfSome, length, sum};
ghost use Rattle.tomex_timing.specs.Search.{times_in};
ghost use Rattle.tomex_stretches.specs.Accounts.{AreSums, floors_in, own_in};

use crate::adding::{Sums, sums_by_key};
use crate::floors::floor_cycles;
use crate::own::own_cycles;
use std::alloc::{AllocError, Allocator, Global};
use tomex_config::Config;
use tomex_timing::{Run, Times};

/// The cycles of the steps with each key, and what no machine saves of them.
#[derive(Drop)]
pub struct Accounts<A: Allocator = Global> {
    pub own: Sums<A>,
    pub floor: Sums<A>,
}

/// The cycles of a run's steps.
fn own_of<A: Allocator, B: Allocator>(
    alloc: A,
    run: &Run<B>,
    config: &Config,
    times: &[Times],
) -> Result<Vec<u64, A>, AllocError>
    requires few { length run.now < 2 ^ 56 }
    requires times { times.now ≡ times_in config.now run.now }
    ensures exact { IfOk result (λ v. v.items ≡ own_in config.now run.now) }
    ensures many { IfOk result (λ v. length v.items ≡ length run.now) }
    ensures most { IfOk result (λ v. sum v.items ≤ 67 * length run.now) }
{
    config.keeps_limits();
    let _steps = run.steps();
    own_cycles(alloc, times)
}

/// The floor cycles of a run's steps.
fn floors_of<A: Allocator + Clone, B: Allocator>(
    alloc: A,
    run: &Run<B>,
    config: &Config,
    stretches: &[Option<u32>],
) -> Result<Vec<u64, A>, AllocError>
    requires few { length run.now < 2 ^ 56 }
    requires stretches { length stretches.now ≡ length run.now }
    ensures exact { IfOk result (λ v. v.items ≡ floors_in config.now run.now stretches.now) }
    ensures many { IfOk result (λ v. length v.items ≡ length run.now) }
    ensures most { IfOk result (λ v. sum v.items ≤ 67 * length run.now) }
{
    config.keeps_limits();
    floor_cycles(alloc, run, config, stretches)
}

/// The accounts of a run with these times on a configuration, by one of `count` keys or none. For their floors the run
/// is cut in stretches where another key changes, which is in `stretches`. No machine that is no wider and has no
/// shorter latency takes fewer cycles for some stretches than these have on their floors.
pub fn accounts_of<A: Allocator + Clone, B: Allocator>(
    alloc: A,
    run: &Run<B>,
    config: &Config,
    times: &[Times],
    stretches: &[Option<u32>],
    keys: &[Option<u32>],
    count: usize,
) -> Result<Accounts<A>, AllocError>
    requires few { length run.now < 2 ^ 56 }
    requires times { times.now ≡ times_in config.now run.now }
    requires stretches { length stretches.now ≡ length run.now }
    requires pairs { length keys.now ≡ length run.now }
    requires keys { All (λ key. IfSome key (λ n. n < count)) keys.now }
    ensures own { IfOk result (λ a. AreSums count keys.now (own_in config.now run.now) a.own) }
    ensures floor { IfOk result (λ a. AreSums count keys.now (floors_in config.now run.now stretches.now) a.floor) }
{
    let own = own_of(alloc.clone()?, run, config, times)?;
    let floors = floors_of(alloc.clone()?, run, config, stretches)?;
    Ok(Accounts {
        own: sums_by_key(alloc.clone()?, count, keys, &own)?,
        floor: sums_by_key(alloc, count, keys, &floors)?,
    })
}
