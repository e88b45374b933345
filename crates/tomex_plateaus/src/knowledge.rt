//! What a worker knows about a study's programs.

ghost use Rattle.std.specs.Prelude.{◌≡◌, ◌<◌, ◌≤◌, ℕ, length, take, slice_get, IfOk, OnOk, OnErr, All, Some, None};
ghost use Rattle.tomex_timing.specs.Run.{total};
ghost use Rattle.tomex_study.specs.Cycles.{totals_on};
ghost use Rattle.tomex_plateaus.specs.Knowledge.{AreLearnt, AreTotals, AreTotalsFrom, IsLearntAt, IsTotalAt};
ghost use Rattle.tomex_plateaus.specs.Knowledge.{OnlyAt, known_totals_on, nothing_known};
ghost use Rattle.tomex_study.specs.Program.{IsProgram, Workload};

use crate::plateaus::Plateaus;
use std::alloc::{AllocError, Allocator};
use std::marker::Model;
use tomex_config::{Config, Part};
use tomex_study::Program;

/// For each of a study's programs, plateaus on which its total is known, each learnt from an
/// evaluation of its run on a configuration that this worker reached.
#[derive(Drop)]
pub struct Knowledge<'s, A: Allocator> {
    alloc: A,
    programs: &'s [Program<A>],
    /// The plateaus of each program, in the programs' order.
    lists: Vec<Plateaus<'s, A>, A>,
}

impl<'s, A: Allocator> Model for Knowledge<'s, A> {
    ghost use Rattle.tomex_plateaus.specs.Knowledge.{IsKnowledge, KnowledgeOf};

    ghost Value = { KnowledgeOf };

    ghost view = { λ k. record { programs = k.programs.now; lists = k.lists.items } };

    ghost invariant = { λ k. IsKnowledge k.programs.now k.lists.items };
}

impl<'s, A: Allocator + Clone> Knowledge<'s, A> {
    /// The knowledge before anything is known about these programs.
    pub fn new(alloc: A, programs: &'s [Program<A>]) -> Result<Knowledge<'s, A>, AllocError>
        requires few { length programs.now ≤ 8 }
        requires ends { All IsProgram programs.now }
        ensures programs { IfOk result (λ k. k.programs ≡ programs.now) }
        ensures nothing { IfOk result (λ k. k.lists ≡ nothing_known programs.now) }
    {
        let mut lists = Vec::new(alloc.clone()?);
        for program in programs {
            let list = Plateaus::new(alloc.clone()?, program.run())?;
            lists.push(list)?;
        }
        Ok(Knowledge {
            alloc,
            programs,
            lists,
        })
    }

    /// The known totals on a configuration, in the programs' order.
    pub fn known_totals(&self, config: &Config) -> [Option<u64>; 8]
        ensures known { take (length self.now.programs) result ≡ known_totals_on self.now.lists config.now }
        ensures totals { AreTotals self.now.programs config.now result }
    {
        let mut known = [None; 8];
        for (place, list) in self.lists.iter().enumerate() {
            known[place] = list.total_on(config);
        }
        known
    }

    /// A number of a part down to which all programs take the cycles that they take on a configuration, as far as the
    /// plateaus say that were found last. Ask for the totals on the configuration first.
    pub fn reach(&self, config: &Config, part: Part) -> u64
        ensures { AreTotalsFrom self.now.programs config.now part result }
    {
        let mut low = 0;
        for list in self.lists.iter() {
            low = low.max(list.reach(config, part));
        }
        low
    }

    /// The totals of all programs on a configuration, in their order, given the known ones: the
    /// others are learnt. If out of memory, what was learnt is kept.
    pub fn learn(
        &mut self,
        config: &Config,
        known: [Option<u64>; 8],
    ) -> Result<[u64; 8], AllocError>
        requires { AreTotals self.old.programs config.now known }
        ensures programs { self.new.programs ≡ self.old.programs }
        ensures totals { IfOk result
            (λ t. take (length self.old.programs) t ≡ totals_on self.old.programs config.now) }
        ensures learnt { OnOk result (AreLearnt config.now known self.old.lists self.new.lists) }
    {
        let mut totals = [0; 8];
        for place in 0..self.programs.len() {
            totals[place] = self.total_of(place, config, known[place])?;
        }
        Ok(totals)
    }

    /// The total of the program at a place, which is learnt if it isn't known.
    fn total_of(
        &mut self,
        place: usize,
        config: &Config,
        known: Option<u64>,
    ) -> Result<u64, AllocError>
        requires place { place < length self.old.programs }
        requires known { IsTotalAt self.old.programs config.now place known }
        ensures programs { self.new.programs ≡ self.old.programs }
        ensures total { IfOk result (λ n. IsTotalAt self.old.programs config.now place (Some n)) }
        ensures others { OnlyAt place self.old.lists self.new.lists }
        ensures learnt { OnOk result (IsLearntAt config.now place known self.old.lists self.new.lists) }
    {
        match known {
            Some(total) => Ok(total),
            None => self.learn_of(place, config),
        }
    }

    /// Learns the total of the program at a place.
    fn learn_of(&mut self, place: usize, config: &Config) -> Result<u64, AllocError>
        requires { place < length self.old.programs }
        ensures programs { self.new.programs ≡ self.old.programs }
        ensures total { IfOk result (λ n. IsTotalAt self.old.programs config.now place (Some n)) }
        ensures others { OnlyAt place self.old.lists self.new.lists }
        ensures learnt { OnOk result (IsLearntAt config.now place None self.old.lists self.new.lists) }
    {
        let alloc = self.alloc.clone()?;
        self.lists[place].learn(alloc, config)
    }
}
