//! Sums over a run's steps by a key.

ghost use Rattle.std.specs.Prelude.{◌≡◌, ◌<◌, ◌+◌, ◌^◌, ℕ, if◌then◌else◌, All, IfOk, IfSome, is_none, length};
ghost use Rattle.std.specs.Prelude.{MatchOption, slice_index, sum};
ghost use Rattle.tomex_stretches.specs.Cycles.{is_key, sum_where};

use std::alloc::{AllocError, Allocator, Global};

/// Sums by a key.
#[derive(Drop)]
pub struct Sums<A: Allocator = Global> {
    /// The sum for each key.
    pub by_key: Vec<u64, A>,
    /// The sum without a key.
    pub without: u64,
}

impl<A: Allocator> Sums<A> {
    /// Adds a number.
    fn add(&mut self, key: Option<u32>, number: u64)
        requires key { IfSome key (λ n. n < length self.old.by_key.items) }
        requires few { MatchOption key (self.old.without + number < 2 ^ 64)
            (λ n. slice_index self.old.by_key.items n + number < 2 ^ 64) }
        ensures count { length self.new.by_key.items ≡ length self.old.by_key.items }
        ensures by_key { (n : ℕ) → slice_index self.new.by_key.items n
            ≡ slice_index self.old.by_key.items n + (if is_key n key then number else 0) }
        ensures without { self.new.without ≡ self.old.without + (if is_none key then number else 0) }
    {
        match key {
            Some(key) => self.by_key[key as usize] += number,
            None => self.without += number,
        }
    }
}

/// The sums of the numbers of a run's steps, which each have one of `count` keys or none.
pub fn sums_by_key<A: Allocator>(
    alloc: A,
    count: usize,
    keys: &[Option<u32>],
    numbers: &[u64],
) -> Result<Sums<A>, AllocError>
    requires few { sum numbers.now < 2 ^ 64 }
    requires keys { All (λ key. IfSome key (λ n. n < count)) keys.now }
    requires pairs { length keys.now ≡ length numbers.now }
    ensures count { IfOk result (λ s. length s.by_key.items ≡ count) }
    ensures by_key { IfOk result (λ s. (n : ℕ) → n < count
        → slice_index s.by_key.items n ≡ sum_where (is_key n) keys.now numbers.now) }
    ensures without { IfOk result (λ s. s.without ≡ sum_where is_none keys.now numbers.now) }
{
    let by_key = vec![in alloc; 0; count]?;
    let mut sums = Sums { by_key, without: 0 };
    for k in 0..keys.len() {
        sums.add(keys[k], numbers[k]);
    }
    Ok(sums)
}
