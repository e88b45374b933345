//! A study with what was surveyed of it.

ghost use Rattle.std.specs.Prelude.{◌≡◌, ◌<◌, length, slice_get, slice_index_or, All, Some, []};
ghost use Rattle.tomex_study.specs.Cycles.{total_at, totals_of};
ghost use Rattle.tomex_study.specs.Program.{Workload};
ghost use Rattle.tomex_study.specs.Study.{config_at, IsStudy};
ghost use Rattle.tomex_study.specs.StudyFront.{all_rows, front_of_study, row_at};
ghost use Rattle.tomex_study.specs.Surveyed.{AreTotalsOf};

use crate::study::Study;
use std::alloc::{Allocator, Global};
use std::marker::Model;
use tomex_config::Config;
use tomex_pareto::FrontRow;

/// A study with each program's cycles on each row, all rows with their costs and cycles, and the
/// front. Contracts see it as the study, since all the rest is determined by that.
#[derive(Drop)]
pub struct Surveyed<'s, A: Allocator = Global> {
    study: &'s Study<A>,
    /// For each row the programs' totals, in their order; the entries after them are unused.
    totals: Vec<[u64; 8], A>,
    rows: Vec<FrontRow, A>,
    front: Vec<FrontRow, A>,
}

impl<'s, A: Allocator> Model for Surveyed<'s, A> {
    ghost use Rattle.tomex_study.specs.Study.{DesignSpace};
    ghost use Rattle.tomex_study.specs.Surveyed.{IsSurvey};

    ghost Value = { DesignSpace };

    ghost view = { λ s. s.study.now };

    ghost invariant = { λ s. IsSurvey s.study.now s.totals.items s.rows.items s.front.items };
}

impl<'s, A: Allocator> Surveyed<'s, A> {
    /// A study with the programs' totals on each row, in arrays whose entries after them are
    /// unused; all its rows; and its front.
    pub fn new(
        study: &'s Study<A>,
        totals: Vec<[u64; 8], A>,
        rows: Vec<FrontRow, A>,
        front: Vec<FrontRow, A>,
    ) -> Surveyed<'s, A>
        requires totals { AreTotalsOf study.now totals.items }
        requires rows { rows.items ≡ all_rows study.now }
        requires front { front.items ≡ front_of_study study.now }
        ensures { result ≡ study.now }
    {
        Surveyed {
            study,
            totals,
            rows,
            front,
        }
    }

    /// A law: it is of a study.
    pub fn keeps_limits(&self)
        ensures { IsStudy self.now }
    {
        self.study.keeps_limits();
    }

    /// The study.
    pub fn study(&self) -> &'s Study<A>
        ensures { result.now ≡ self.now }
    {
        self.study
    }

    /// The configuration of a row.
    pub fn config(&self, row: usize) -> &'s Config
        requires { row < length self.now.rows }
        ensures { result.now ≡ config_at self.now row }
    {
        &self.study.rows()[row]
    }

    /// The cycles of the programs on a row, in their order.
    pub fn totals(&self, row: usize) -> &[u64]
        requires { row < length self.now.rows }
        ensures { result.now ≡ slice_index_or (totals_of self.now) row [] }
    {
        self.study.keeps_limits();
        &self.totals[row][..self.study.programs().len()]
    }

    /// The cycles of the program at a place on a row.
    pub fn total(&self, row: usize, place: usize) -> u64
        requires row { row < length self.now.rows }
        requires place { place < length self.now.programs }
        ensures { (p : Workload) → slice_get self.now.programs place ≡ Some p → result ≡ total_at self.now p row }
    {
        self.totals(row)[place]
    }

    /// All rows, in their order.
    pub fn rows(&self) -> &[FrontRow]
        ensures value { result.now ≡ all_rows self.now }
        ensures count { length result.now ≡ length self.now.rows }
        ensures within { All (λ r. r.row < length self.now.rows) result.now }
    {
        self.study.keeps_limits();
        self.rows.as_slice()
    }

    /// The row of this number.
    pub fn row(&self, number: usize) -> FrontRow
        requires { number < length self.now.rows }
        ensures { result ≡ row_at self.now number }
    {
        self.keeps_limits();
        self.rows()[number]
    }

    /// The rows that no other row dominates, by cost, then number.
    pub fn front(&self) -> &[FrontRow]
        ensures value { result.now ≡ front_of_study self.now }
        ensures within { All (λ r. r.row < length self.now.rows) result.now }
    {
        self.study.keeps_limits();
        self.front.as_slice()
    }
}
