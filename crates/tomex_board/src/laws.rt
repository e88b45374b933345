//! The words and floors of a board, for its readers, and laws of its rule. The functions without
//! arguments do nothing: their contracts are the laws.

ghost use Rattle.tomex_board.specs.Laws.{MarksAreLawful, NotedIsNotOpen, HandsAreApart, WordsSayMarks};
ghost use Rattle.tomex_board.specs.Laws.{JoinTakesLesserBest, CostsAreKept, DistinctCostsRise, FloorsRise};
ghost use Rattle.tomex_board.specs.Laws.{BandIsLeast};

pub use crate::floors::floor;
pub use crate::words::{band_word, mark_word};

/// At every moment the rows' words are those of lawful marks, and no two marks have one word.
pub fn marks_are_lawful()
    ensures lawful { MarksAreLawful }
    ensures words { WordsSayMarks }
{}

/// A row is in one hand only. A row that any seat has noted isn't open, so no row is claimed twice.
pub fn no_row_is_claimed_twice()
    ensures hands { HandsAreApart }
    ensures noted { NotedIsNotOpen }
{}

/// For each band, a joined seat has the smaller of the two seats' best words.
pub fn a_joined_seat_has_the_lesser_best()
    ensures { JoinTakesLesserBest }
{}

/// The distinct costs are the costs, each once, in ascending order.
pub fn distinct_costs_are_the_costs()
    ensures kept { CostsAreKept }
    ensures rise { DistinctCostsRise }
{}

/// The floors rise, so the band of a cost has the least floor that is at least the cost.
pub fn floors_rise()
    ensures rise { FloorsRise }
    ensures least { BandIsLeast }
{}
