//! Loops one in the other: which places are in which loop.

ghost use Rattle.std.specs.Prelude.{◌≡◌, ℕ, ◌+◌, ◌*◌, ◌^◌, ◌<◌, ◌≤◌, List, Option, false, length, IfOk, IfSome};
ghost use Rattle.std.specs.Prelude.{slice_index, slice_index_or};
ghost use Rattle.tomex_loops.specs.Jumps.{AreJumps, IsForest, next_to};
ghost use Rattle.tomex_loops.specs.Loops.{heads_below, is_in_loop};
ghost use Rattle.tomex_loops.specs.Ways.{AreLower, loop_in};

use crate::finding::Heads;
use std::alloc::{AllocError, Allocator};

/// The loops of a run, each place with a jump to the head of a loop around.
#[derive(Drop)]
pub(crate) struct Forest<A: Allocator> {
    /// True for each place that is the head of a loop.
    pub heads: Vec<bool, A>,
    /// The head of each place's loop.
    pub loops: Vec<Option<u32>, A>,
    /// The head of a loop around each place that has a loop, by which a search is short; else the place.
    pub jumps: Vec<u32, A>,
    /// How many heads have a lower number.
    pub numbers: Vec<u32, A>,
}

/// The jump of a place whose loop has this head.
///
/// It goes over two jumps of the head if they go equally far, so a search takes a number of them that is logarithmic in
/// how deep the place is (E. Myers, "An applicative random-access stack", 1983).
fn jump_from(jumps: &[u32], depths: &[u32], head: u32) -> u32
    requires head { head < length jumps.now }
    requires depths { length depths.now ≡ length jumps.now }
    requires low { (x : ℕ) → x < length jumps.now → slice_index jumps.now x ≤ x }
    ensures low { result ≤ head }
    ensures far { (loops : List (Option ℕ)) (v : ℕ) → AreJumps loops jumps.now → v ≤ result
        → is_in_loop (loop_in loops) v head ≡ is_in_loop (loop_in loops) v result }
    ensures over { let near = slice_index jumps.now head in let far = slice_index jumps.now near in
        slice_index depths.now head + slice_index depths.now far ≡ 2 * slice_index depths.now near
        → result ≡ far }
{
    let near = jumps[head as usize];
    let far = jumps[near as usize];
    let first = depths[head as usize].wrapping_sub(depths[near as usize]);
    let second = depths[near as usize].wrapping_sub(depths[far as usize]);
    if first == second { far } else { head }
}

/// The jump of each place.
fn jumps_of<A: Allocator + Clone>(
    alloc: A,
    loops: &[Option<u32>],
) -> Result<Vec<u32, A>, AllocError>
    requires few { length loops.now < 2 ^ 32 }
    requires lower { AreLower loops.now }
    ensures many { IfOk result (λ v. length v.items ≡ length loops.now) }
    ensures jumps { IfOk result (λ v. AreJumps loops.now v.items) }
{
    let mut depths = Vec::new(alloc.clone()?);
    let mut jumps = Vec::new(alloc);
    for place in 0..loops.len() {
        match loops[place] {
            None => {
                jumps.push(place as u32)?;
                depths.push(0u32)?;
            }
            Some(head) => {
                let jump = jump_from(&jumps, &depths, head);
                let depth = depths[head as usize].wrapping_add(1);
                jumps.push(jump)?;
                depths.push(depth)?;
            }
        }
    }
    Ok(jumps)
}

/// How many heads have a lower number than each place.
fn numbers_of<A: Allocator>(alloc: A, heads: &[bool]) -> Result<Vec<u32, A>, AllocError>
    requires { length heads.now < 2 ^ 32 }
    ensures many { IfOk result (λ v. length v.items ≡ length heads.now) }
    ensures numbers { IfOk result (λ v. (x : ℕ) → x < length heads.now
        → slice_index v.items x ≡ heads_below (λ y. slice_index_or heads.now y false) x) }
{
    let mut numbers = Vec::new(alloc);
    let mut count = 0;
    for is_head in heads {
        numbers.push(count)?;
        if *is_head {
            count += 1;
        }
    }
    Ok(numbers)
}

/// The loops with these heads.
pub(crate) fn forest_of<A: Allocator + Clone>(
    alloc: A,
    heads: Heads<A>,
) -> Result<Forest<A>, AllocError>
    requires few { length heads.loops.items < 2 ^ 32 }
    requires many { length heads.heads.items ≡ length heads.loops.items }
    requires lower { AreLower heads.loops.items }
    ensures forest { IfOk result (λ r. IsForest r) }
    ensures heads { IfOk result (λ r. r.heads.items ≡ heads.heads.items) }
    ensures loops { IfOk result (λ r. r.loops.items ≡ heads.loops.items) }
{
    let jumps = jumps_of(alloc.clone()?, &heads.loops)?;
    let numbers = numbers_of(alloc, &heads.heads)?;
    Ok(Forest {
        heads: heads.heads,
        loops: heads.loops,
        jumps,
        numbers,
    })
}

/// True if a place is in the loop with this head.
pub(crate) fn is_in_loop(loops: &[Option<u32>], jumps: &[u32], head: u32, place: u32) -> bool
    requires place { place < length loops.now }
    requires many { length jumps.now ≡ length loops.now }
    requires lower { AreLower loops.now }
    requires jumps { AreJumps loops.now jumps.now }
    ensures { result ≡ is_in_loop (loop_in loops.now) head place }
{
    let mut inner = place;
    while head < inner {
        match loops[inner as usize] {
            None => return false,
            Some(around) => inner = next(jumps[inner as usize], around, head),
        }
    }
    inner == head
}

/// Where the search for a head goes on: by the jump if that isn't beyond it, else at the loop around.
fn next(jump: u32, around: u32, head: u32) -> u32
    ensures { result ≡ next_to jump around head }
{
    if head <= jump { jump } else { around }
}
