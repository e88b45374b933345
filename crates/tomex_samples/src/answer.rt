//! The parts that stand for a run.

ghost use Rattle.std.specs.Prelude.{◌≡◌, ◌≢◌, ◌≤◌, Err, Ok, IfErr, IfOk, IsTrue};
ghost use Rattle.tomex_cut.specs.Part.{most_part};
ghost use Rattle.tomex_samples.specs.declared.error.PartsError.{PartsError};
ghost use Rattle.tomex_samples.specs.Near.{part_is_found};
ghost use Rattle.tomex_samples.specs.Parts.{all_weighed, leaders_from, parts_of, shares_of};
ghost use Rattle.tomex_samples.specs.Stretches.{Run};
ghost use Rattle.tomex_samples.specs.Tallied.{AreOf};
ghost use Rattle.tomex_samples.specs.Weighable.{AreLengths};

use crate::choosing::{all_weighed, first_that_can, leaders_from, shares_of};
use crate::chosen::Chosen;
use crate::error::PartsError;
use crate::stretches::Stretches;
use crate::walking::walk;
use std::alloc::{AllocError, Allocator};
use tomex_cut::Follower;
use tomex_image::Image;

/// The parts that stand for a run, by its first stretch that can.
fn parts_from<A: Allocator + Clone>(
    alloc: A,
    stretches: &Stretches<A>,
    first: u32,
) -> Result<Vec<Chosen, A>, AllocError>
    requires shown { (run : Run) × AreOf run stretches.now }
    requires lengths { AreLengths stretches.now.parts.items }
    requires can { IsTrue (part_is_found stretches.now.parts.items first) }
    ensures { IfOk result (λ v. (run : Run) → AreOf run stretches.now
        → v.items ≡ all_weighed (shares_of run stretches.now.steps (leaders_from run first))) }
{
    let leaders = leaders_from(alloc.clone()?, stretches, first)?;
    let shares = shares_of(alloc.clone()?, stretches, leaders.as_slice())?;
    all_weighed(alloc, shares.as_slice())
}

/// The parts that stand for the run of an image, by stretches of a number of steps: at most eight, in the order of the
/// run.
///
/// The whole run is carried out, and `follower` is called after every million of its steps, with how many there are at
/// most. Allocates the memory's size three times, and for each stretch as much as it has different pcs.
pub fn parts<A: Allocator + Clone, F: Follower>(
    alloc: A,
    image: &Image<A>,
    steps: u32,
    follower: &F,
) -> Result<Vec<Chosen, A>, PartsError>
    requires { (1 ≤ steps) × (steps ≤ most_part) }
    ensures ok { IfOk result (λ v. parts_of image.now steps ≡ Ok v.items) }
    ensures err { IfErr result (λ e. e ≢ PartsError.Memory → parts_of image.now steps ≡ Err e) }
{
    let stretches = walk(alloc.clone()?, image, steps, follower)?;
    if stretches.parts.is_empty() {
        return Err(PartsError::NoSuchStep);
    }
    let Some(first) = first_that_can(stretches.parts.as_slice()) else {
        return Err(PartsError::NoEnd);
    };
    Ok(parts_from(alloc, &stretches, first as u32)?)
}
