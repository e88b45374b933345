//! Where a block ends.

ghost use Rattle.std.specs.Prelude.{◌+◌, ◌^◌, ◌<◌, ◌≤◌, length};
ghost use Rattle.tomex_repeats.specs.Blocks.{EndsABlock};

use tomex_timing::Facts;

/// The most steps of a block.
pub(crate) const LONGEST: usize = 60;

/// The end of the block that begins at step `first`: after the next conditional branch or JALR, after 60 steps, or at
/// the run's end.
pub(crate) fn end_of_block(facts: &[Facts], first: usize) -> usize
    requires some { first < length facts.now }
    requires few { length facts.now < 2 ^ 28 }
    ensures some { first < result }
    ensures few { result ≤ first + 60 }
    ensures within { result ≤ length facts.now }
    ensures ends { EndsABlock facts.now first result }
{
    let last = facts.len().min(first + LONGEST);
    for place in first..last {
        if facts[place].is_branch {
            return place + 1;
        }
    }
    last
}
