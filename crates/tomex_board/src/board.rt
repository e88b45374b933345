//! A board and its seats: made, split, joined and closed.

ghost use Rattle.std.specs.Prelude.{◌≡◌, ◌≢◌, ℕ, ◌+◌, [], Some, length, slice_get, IfOk};
ghost use Rattle.tomex_board.specs.Plans.{IsPlan};
ghost use Rattle.tomex_board.specs.Marks.{AreLawful};
ghost use Rattle.tomex_board.specs.Views.{Has, KnowsNotOpen, Grows, IsWhole, HasTwo, first_view};
ghost use Rattle.tomex_board.specs.Views.{given_view, kept_view, joined_view};
ghost use Rattle.tomex_board.specs.declared.mark.Mark.{Mark};
ghost use Rattle.tomex_board.specs.declared.mark.Mark.TheVariants.{Open, Taken};

mod bands;
mod rows;

use crate::floors::{BANDS, floors_of};
use crate::mark::Mark;
use crate::plan::Plan;
use crate::rule::{JoinSeats, Lawful, SplitSeat};
use crate::view::View;
use crate::words::{NOTHING_YET, OPEN, read_marks};
use atomic_table::Table;
use std::alloc::{AllocError, Allocator, Global};
use std::marker::{Model, PhantomData};

/// The words of a board: one for each row, then 64 for the bands.
type BoardTable<J, A> = Table<u64, View, (), Lawful<J>, A>;

/// A seat at a board's words.
type TableSeat = atomic_table::Seat<u64, View>;

/// The marks and bands of a study's rows, which threads share.
#[derive(Drop)]
pub struct Board<J: Plan, A: Allocator = Global> {
    /// A word for each row, then 64 for the bands.
    table: Table<u64, View, (), Lawful<J>, A>,
    /// The number of rows.
    rows: usize,
    costs: Vec<u64, A>,
    /// The floors of the bands that are used, in ascending order.
    floors: Vec<u64, A>,
    /// Empty, with room for a mark for each row; `close` returns it.
    marks: Vec<Mark, A>,
}

impl<J: Plan, A: Allocator> Model for Board<J, A> {
    ghost use Rattle.std.specs.Prelude.{◌≡◌, ◌+◌, ◌≤◌, [], length};
    ghost use Rattle.std.specs.Vec.{vec_capacity};
    ghost use Rattle.atomic_table.specs.Seated.{TableId, table_id_coded};
    ghost use Rattle.tomex_board.specs.Plans.{IsPlan};
    ghost use Rattle.tomex_board.specs.Bands.{floors_of};

    ghost Value = { TableId };

    ghost coded = { table_id_coded };

    ghost view = { λ b. b.table.shared.table_id };

    ghost invariant = { λ b.
        IsPlan J.costs J.cycles
        × (b.rows ≡ length J.costs)
        × (b.table.shared.table_id.words ≡ length J.costs + 64)
        × (b.table.shared.table_id.slots ≡ 0)
        × (b.marks.items ≡ [])
        × (length J.costs ≤ vec_capacity b.marks)
        × (b.costs.items ≡ J.costs)
        × (b.floors.items ≡ floors_of J.costs)
        × (length (floors_of J.costs) ≤ 64) };
}

/// A thread's access to a board. It knows the rows that it has in hand, what it noted about others,
/// and the best word that it saw in each band; and it has a share of 32 numbers, so a seat with all
/// 32 and nothing in hand knows that no row is taken.
#[derive(Drop)]
pub struct Seat<J: Plan> {
    inner: atomic_table::Seat<u64, View>,
    of: PhantomData<J>,
}

impl<J: Plan> Model for Seat<J> {
    ghost use Rattle.std.specs.Prelude.{◌≡◌, [], ℕ};
    ghost use Rattle.tomex_board.specs.Known.{Known};
    ghost use Rattle.tomex_board.specs.Views.{Has};

    ghost Value = { Known };

    ghost view = { λ s. record { board = s.inner.table_id; view = s.inner.me.0 } };

    ghost invariant = { λ s. (s.inner.me.1 ≡ []) × ((x : ℕ) × Has s.inner.me.0.share x) };
}

impl<J: Plan, A: Allocator> Board<J, A> {
    /// A board whose rows are all open, and its first seat, which has nothing in hand, has noted
    /// nothing and has all 32 numbers. All memory that the board ever uses is allocated here.
    pub fn new(alloc: A, costs: &[u64]) -> Result<(Board<J, A>, Seat<J>), AllocError>
    where
        A: Clone,
        requires costs { costs.now ≡ J.costs }
        requires plan { IsPlan J.costs J.cycles }
        ensures { IfOk result (λ t. (t.1.board ≡ t.0) × (t.1.view ≡ first_view)) }
    {
        let rows = costs.len();
        let marks = Vec::with_capacity(alloc.clone()?, rows)?;
        let floors = floors_of(alloc.clone()?, costs)?;
        let costs = Vec::from_slice(alloc.clone()?, costs)?;
        let (table, inner) = Board::<J, A>::open_table(alloc, rows)?;
        let board = Board {
            table,
            rows,
            costs,
            floors,
            marks,
        };
        Ok((
            board,
            Seat {
                inner,
                of: PhantomData,
            },
        ))
    }

    /// The table of a board whose rows are all open, and its first seat.
    fn open_table(alloc: A, rows: usize) -> Result<(BoardTable<J, A>, TableSeat), AllocError>
    where
        A: Clone,
        requires rows { rows ≡ length J.costs }
        requires plan { IsPlan J.costs J.cycles }
        ensures table { IfOk result (λ t. (t.0.shared.table_id.words ≡ length J.costs + 64)
            × (t.0.shared.table_id.slots ≡ 0)) }
        ensures seat { IfOk result (λ t. (t.1.table_id ≡ t.0.shared.table_id)
            × (t.1.me ≡ (first_view, []))) }
    {
        let mut words = vec![in alloc.clone()?; OPEN; rows]?;
        words.resize(rows + BANDS, NOTHING_YET)?;
        Table::of_words(alloc, words.as_slice(), &())
    }

    /// A second seat, for another thread. It has noted what the first has, has nothing in hand, and
    /// gets the least of its numbers.
    pub fn split(&self, mut seat: Seat<J>) -> (Seat<J>, Seat<J>)
        requires board { seat.board ≡ self.now }
        requires two { HasTwo seat.view.share }
        ensures board { (result.0.board ≡ self.now) × (result.1.board ≡ self.now) }
        ensures views { (result.0.view ≡ kept_view seat.view)
            × (result.1.view ≡ given_view seat.view) }
    {
        let inner = self.table.shared.split_seat::<SplitSeat>(&mut seat.inner);
        (
            seat,
            Seat {
                inner,
                of: PhantomData,
            },
        )
    }

    /// One seat of two: the first one's hand, and the notes and numbers of both.
    pub fn join(&self, mut first: Seat<J>, second: Seat<J>) -> Seat<J>
        requires board { (first.board ≡ self.now) × (second.board ≡ self.now) }
        requires empty { second.view.hand ≡ [] }
        ensures board { result.board ≡ self.now }
        ensures view { result.view ≡ joined_view first.view second.view }
        ensures grown { Grows first.view result.view × Grows second.view result.view }
    {
        let Seat { inner, of: _ } = second;
        self.table
            .shared
            .join_seat::<JoinSeats>(&mut first.inner, inner);
        first
    }

    /// The marks of all rows. They agree with what this seat noted; if it has all 32 numbers and
    /// nothing in hand, no row is taken.
    pub fn close(self, seat: Seat<J>) -> Vec<Mark, A>
        requires board { seat.board ≡ self }
        ensures count { length result.items ≡ length J.costs }
        ensures lawful { AreLawful J.costs J.cycles result.items }
        ensures noted { (i : ℕ) (m : Mark) → Has seat.view.marks (i, m)
            → slice_get result.items i ≡ Some m }
        ensures shut { (i : ℕ) → KnowsNotOpen seat.view i → slice_get result.items i ≢ Some Open }
        ensures hand { (i : ℕ) → Has seat.view.hand i → slice_get result.items i ≡ Some Taken }
        ensures whole { IsWhole seat.view.share → seat.view.hand ≡ []
            → (i : ℕ) → slice_get result.items i ≢ Some Taken }
    {
        let Board {
            table,
            rows,
            costs: _,
            floors: _,
            mut marks,
        } = self;
        let Seat { inner, of: _ } = seat;
        let closed = table.close_with(inner);
        read_marks(&closed, rows, &mut marks);
        closed.free();
        marks
    }
}
