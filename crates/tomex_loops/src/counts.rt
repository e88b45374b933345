//! What is counted of the rounds of a loop.

ghost use Rattle.std.specs.Prelude.{◌≡◌, ◌==◌, ◌||◌, ℕ, ◌+◌, ◌-◌, ◌^◌, ◌<◌, ◌≤◌, nat_lt, not, if◌then◌else◌};
ghost use Rattle.std.specs.Prelude.{length, slice_index, MatchOption};
ghost use Rattle.std.specs.List.Sorted.{IsNonDecreasing};
ghost use Rattle.tomex_loops.specs.Rounds.{AreCounts, rounds_of};

/// What is counted of a loop's rounds, in cycles.
#[derive(Clone, Copy)]
pub struct Counts {
    pub least: u64,
    /// Of an even number of rounds the lower median.
    pub median: u64,
    pub most: u64,
    /// The cycles that most rounds take; the least of several such numbers.
    pub usual: u64,
    /// The number of rounds that take this many.
    pub alike: u64,
}

/// The number that occurs most often so far in a list in order, how often it does, and how often the last one does.
#[derive(Clone, Copy)]
struct Usual {
    usual: u64,
    alike: u64,
    same: u64,
}

impl Usual {
    /// Notes one more number, which may be the first of its kind.
    fn note(&mut self, number: u64, is_new: bool)
        requires { self.old.same < 2 ^ 63 }
        ensures same { self.new.same ≡ (if is_new then 1 else self.old.same + 1) }
        ensures alike { self.new.alike
            ≡ (if nat_lt self.old.alike self.new.same then self.new.same else self.old.alike) }
        ensures usual { self.new.usual
            ≡ (if nat_lt self.old.alike self.new.same then number else self.old.usual) }
    {
        self.same = if is_new { 1 } else { self.same + 1 };
        if self.same > self.alike {
            self.alike = self.same;
            self.usual = number;
        }
    }
}

/// True if the number at a place is the first of its kind in a list in order.
fn is_new(sorted: &[u64], place: usize) -> bool
    requires { place < length sorted.now }
    ensures { result ≡ (place == 0 || not (slice_index sorted.now place == slice_index sorted.now (place - 1))) }
{
    place == 0 || sorted[place] != sorted[place - 1]
}

/// The number that occurs most often in a list in order, the least of several, and how often.
fn usual_of(sorted: &[u64]) -> Usual
    requires order { IsNonDecreasing sorted.now }
    requires some { 0 < length sorted.now }
    ensures alike { result.alike ≡ rounds_of sorted.now result.usual }
    ensures usual { (n : ℕ) → rounds_of sorted.now n ≤ result.alike }
    ensures first { (n : ℕ) → n < result.usual → rounds_of sorted.now n < result.alike }
{
    let mut so_far = Usual {
        usual: 0,
        alike: 0,
        same: 0,
    };
    for k in 0..sorted.len() {
        so_far.note(sorted[k], is_new(sorted, k));
    }
    so_far
}

/// What is counted of rounds that take these cycles, which stand in order.
fn counts_of(sorted: &[u64]) -> Counts
    requires order { IsNonDecreasing sorted.now }
    requires some { 0 < length sorted.now }
    ensures { AreCounts sorted.now result }
{
    let last = sorted.len() - 1;
    let Usual { usual, alike, .. } = usual_of(sorted);
    Counts {
        least: sorted[0],
        median: sorted[last / 2],
        most: sorted[last],
        usual,
        alike,
    }
}

/// What is counted of rounds that take these cycles; `None` without a round. The cycles are left in order.
pub fn count_rounds(cycles: &mut [u64]) -> Option<Counts>
    ensures { MatchOption result (length cycles.old ≡ 0) (AreCounts cycles.old) }
{
    if cycles.is_empty() {
        return None;
    }
    cycles.sort_unstable();
    Some(counts_of(cycles))
}
