//! A study: the input of an exploration.

ghost use Rattle.std.specs.Prelude.{◌≡◌, ◌≤◌, true, is_some, length, slice_get, option_copied, All, IfOk, IfSome};
ghost use Rattle.tomex_config.specs.Configuration.{IsWithinLimits};
ghost use Rattle.tomex_config.specs.Grid.{most_rows};
ghost use Rattle.tomex_study.specs.Program.{IsProgram};
ghost use Rattle.tomex_study.specs.Selection.{is_one_of, with_only};
ghost use Rattle.tomex_study.specs.Study.{costs_of, design_space, program_named, IsStudy};

use crate::program::Program;
use std::alloc::{AllocError, Allocator, Global};
use std::marker::Model;
use tomex_config::{Config, Prices, cost};

/// A study: 1 to 8 programs, 1 to 16,384 configurations in any order, the cost of each, the prices
/// that the costs are computed from, and whether reports show widths and weights. A configuration's
/// row is its place among them, counted from 0.
#[derive(Drop)]
pub struct Study<A: Allocator = Global> {
    programs: Vec<Program<A>, A>,
    rows: Vec<Config, A>,
    costs: Vec<u64, A>,
    prices: Prices,
    wide: bool,
}

impl<A: Allocator> Model for Study<A> {
    ghost use Rattle.tomex_study.specs.Study.{DesignSpace, design_space, IsStudy};

    ghost Value = { DesignSpace };

    ghost view = { λ s. design_space s.programs.items s.rows.items s.costs.items s.prices s.wide };

    ghost invariant = { λ s. IsStudy (design_space s.programs.items s.rows.items s.costs.items s.prices s.wide) };
}

/// Takes from each program's law that it ends.
fn each_ends<A: Allocator>(programs: &[Program<A>])
    ensures { All IsProgram programs.now }
{
    for program in programs {
        program.keeps_limits();
    }
}

/// The cost of each configuration. Each configuration's law says that it is within the limits.
fn costs_of<A: Allocator>(
    alloc: A,
    rows: &[Config],
    prices: &Prices,
) -> Result<Vec<u64, A>, AllocError>
    ensures costs { IfOk result (λ v. v.items ≡ costs_of prices.now rows.now) }
    ensures limits { IfOk result (λ v. All IsWithinLimits rows.now) }
{
    let mut costs = Vec::with_capacity(alloc, rows.len())?;
    for config in rows {
        config.keeps_limits();
        costs.push(cost(config, prices))?;
    }
    Ok(costs)
}

/// True if a program has one of two names.
fn is_one_of<A: Allocator>(program: &Program<A>, one: &str, other: &str) -> bool
    ensures { result ≡ is_one_of one.now other.now program.now }
{
    program.name() == one || program.name() == other
}

impl<A: Allocator> Study<A> {
    /// The study of these programs and configurations, with the cost of each configuration.
    pub fn new(
        alloc: A,
        programs: Vec<Program<A>, A>,
        rows: Vec<Config, A>,
        prices: Prices,
        wide: bool,
    ) -> Result<Study<A>, AllocError>
        requires some_programs { 1 ≤ length programs.items }
        requires few_programs { length programs.items ≤ 8 }
        requires some_rows { 1 ≤ length rows.items }
        requires few_rows { length rows.items ≤ most_rows }
        ensures parts { IfOk result
            (λ s. s ≡ design_space programs.items rows.items (costs_of prices rows.items) prices wide) }
        ensures study { IfOk result (λ s. IsStudy s) }
    {
        each_ends(&programs);
        prices.keeps_limits();
        let costs = costs_of(alloc, &rows, &prices)?;
        Ok(Study {
            programs,
            rows,
            costs,
            prices,
            wide,
        })
    }

    /// The study with only those of its programs that have one of two names. Nothing is allocated or run.
    pub fn with_only(self, one: &str, other: &str) -> Study<A>
        requires { is_some (program_named one.now self.programs) ≡ true }
        ensures { result ≡ with_only one.now other.now self }
    {
        let Study {
            mut programs,
            rows,
            costs,
            prices,
            wide,
        } = self;
        programs.retain(|program| is_one_of(program, one, other));
        Study {
            programs,
            rows,
            costs,
            prices,
            wide,
        }
    }

    /// A law: there are 1 to 8 programs, each of which ends, 1 to 16,384 configurations, each within the limits, with
    /// their costs, and a price list.
    pub fn keeps_limits(&self)
        ensures { IsStudy self.now }
    {
        let _wide = self.wide;
    }

    /// The programs, in the study's order.
    pub fn programs(&self) -> &[Program<A>]
        ensures value { result.now ≡ self.now.programs }
    {
        self.programs.as_slice()
    }

    /// The configurations, in the order of their rows.
    pub fn rows(&self) -> &[Config]
        ensures value { result.now ≡ self.now.rows }
    {
        self.rows.as_slice()
    }

    /// The cost of each configuration, in the order of the rows.
    pub fn costs(&self) -> &[u64]
        ensures value { result.now ≡ self.now.costs }
    {
        self.costs.as_slice()
    }

    /// The prices of stations, buses and widths.
    pub fn prices(&self) -> Prices
        ensures value { result ≡ self.now.prices }
    {
        self.prices
    }

    /// True if reports show the widths of configurations and the weights of programs.
    pub fn wide(&self) -> bool
        ensures value { result ≡ self.now.wide }
    {
        self.wide
    }

    /// The first program of that name.
    pub fn program(&self, name: &str) -> Option<&Program<A>>
        ensures first { option_copied result ≡ program_named name.now self.now.programs }
    {
        self.programs.iter().find(|program| program.name() == name)
    }

    /// The configuration of that row.
    pub fn config(&self, row: usize) -> Option<&Config>
        ensures value { option_copied result ≡ slice_get self.now.rows row }
    {
        self.rows.get(row)
    }
}
