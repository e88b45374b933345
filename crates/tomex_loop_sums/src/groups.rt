//! Items by their keys.

ghost use Rattle.std.specs.Prelude.{◌≡◌, ◌<◌, ℕ, [], All, IfOk, length, map, replicate, slice_index_or};
ghost use Rattle.tomex_loop_sums.specs.Groups.{with_key};

use std::alloc::{AllocError, Allocator};

/// A list of `count` empty groups.
pub fn no_groups<T: Copy, A: Allocator + Clone>(
    alloc: A,
    count: usize,
) -> Result<Vec<Vec<T, A>, A>, AllocError>
    ensures { IfOk result (λ groups. map (λ group. group.items) groups.items ≡ replicate count []) }
{
    let mut groups = Vec::new(alloc.clone()?);
    for _ in 0..count {
        groups.push(Vec::new(alloc.clone()?))?;
    }
    Ok(groups)
}

/// Items by their keys, which are less than `count`: the items with each key, in order.
pub fn grouped<T: Copy, A: Allocator + Clone>(
    alloc: A,
    count: usize,
    keys: &[u32],
    items: &[T],
) -> Result<Vec<Vec<T, A>, A>, AllocError>
    requires keys { All (λ key. key < count) keys.now }
    requires pairs { length keys.now ≡ length items.now }
    ensures count { IfOk result (λ groups. length groups.items ≡ count) }
    ensures groups { IfOk result (λ groups. (n : ℕ) → n < count
        → slice_index_or (map (λ group. group.items) groups.items) n [] ≡ with_key n keys.now items.now) }
{
    let mut groups = no_groups(alloc, count)?;
    for k in 0..keys.len() {
        groups[keys[k] as usize].push(items[k])?;
    }
    Ok(groups)
}
