//! The words of a board: marks, and entries of bands, as numbers of 64 bits. No other module
//! depends on their bits.

ghost use Rattle.std.specs.Prelude.{◌≡◌, ◌≤◌, ◌<◌, ◌^◌, [], map, take};
ghost use Rattle.std.specs.Mem.Slots.{slots_items, slots_len, IsFull};
ghost use Rattle.std.specs.Vec.{vec_capacity};
ghost use Rattle.tomex_board.specs.Words.{band_word, bound_of, mark_of, mark_word};

use crate::bound::Bound;
use crate::mark::Mark;
use atomic_table::Closed;
use std::alloc::Allocator;

/// The word of an open row.
pub(crate) const OPEN: u64 = 0;

/// The word of a taken row.
pub(crate) const TAKEN: u64 = 1;

/// The word of a band in which nothing was published; no row has a greater one.
pub(crate) const NOTHING_YET: u64 = u64::MAX;

/// The word of a mark.
pub fn mark_word(mark: Mark) -> u64
    requires fits { mark_word mark < 2 ^ 64 }
    ensures { result ≡ mark_word mark }
{
    match mark {
        Mark::Open => OPEN,
        Mark::Taken => TAKEN,
        Mark::Finished(cycles) => 4 * cycles + 2,
        Mark::Dropped(row) => 4 * row as u64 + 3,
    }
}

/// The mark of a word.
pub(crate) fn mark_of(word: u64) -> Mark
    ensures { result ≡ mark_of word }
{
    match word % 4 {
        2 => Mark::Finished(word / 4),
        3 => Mark::Dropped((word / 4) as usize),
        _ => if word == OPEN {
            Mark::Open
        } else {
            Mark::Taken
        },
    }
}

/// The word that publishes a finished row in its band. A word of fewer cycles is less, and with
/// equal cycles that of the lower row.
pub fn band_word(cycles: u64, row: usize) -> u64
    requires fits { band_word cycles row < 2 ^ 64 }
    ensures { result ≡ band_word cycles row }
{
    cycles * 16_384 + row as u64
}

/// The row and the cycles that a published word names.
pub(crate) fn bound_of(word: u64) -> Bound
    ensures { result ≡ bound_of word }
{
    Bound {
        cycles: word / 16_384,
        row: (word % 16_384) as usize,
    }
}

/// Reads the marks of a closed board into the room that is reserved for them.
pub(crate) fn read_marks<A: Allocator>(
    closed: &Closed<u64, A>,
    rows: usize,
    marks: &mut Vec<Mark, A>,
)
    requires words { (rows ≤ slots_len closed.now.words) × IsFull closed.now.words }
    requires room { (marks.old.items ≡ []) × (rows ≤ vec_capacity marks.old) }
    ensures { marks.new.items ≡ map mark_of (take rows (slots_items closed.now.words)) }
{
    for i in 0..rows {
        marks.push_reserved(mark_of(closed.word(i)));
    }
}
