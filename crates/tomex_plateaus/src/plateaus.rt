//! The plateaus of one program.

ghost use Rattle.std.specs.Prelude.{◌≡◌, ◌<◌, [], ◌^◌, false, length, true, All, IfOk, IfSome, None, OnErr, OnOk, Some};
ghost use Rattle.std.specs.List.{position};
ghost use Rattle.tomex_timing.specs.Search.{times_in, total_of};
ghost use Rattle.tomex_plateaus.specs.Kept.{AreKept, HasLearnt, LiesAt, kept_with};
ghost use Rattle.tomex_plateaus.specs.Plateaus.{AreSameFrom, IsPlateauOf, fits, total_known};

use crate::keys::{Keys, Words};
use crate::plateau::{Plateau, numbers_of};
use std::alloc::{AllocError, Allocator};
use std::marker::Model;
use tomex_config::{Config, Part};
use tomex_evaluation::Evaluator;
use tomex_timing::Run;

/// The most plateaus that are kept.
const MOST: usize = 8192;

/// Plateaus of a program, from the demands of its runs.
#[derive(Drop)]
pub struct Plateaus<'s, A: Allocator> {
    /// Evaluates the program's run.
    evaluator: Evaluator<'s, A>,
    found: Vec<Plateau, A>,
    /// The place of the oldest, once the list is full.
    oldest: usize,
    /// Where a search looks first. It changes only how long a search takes.
    keys: Keys<A>,
}

impl<'s, A: Allocator> Model for Plateaus<'s, A> {
    ghost use Rattle.tomex_plateaus.specs.Kept.{Kept, AreKept};

    ghost Value = { Kept };

    ghost view = { λ p. record { steps = p.evaluator; found = p.found.items; oldest = p.oldest } };

    ghost invariant = { λ p. AreKept (record { steps = p.evaluator; found = p.found.items; oldest = p.oldest }) };
}

impl<'s, A: Allocator> Plateaus<'s, A> {
    /// The cycles that the program takes on a configuration, if the configuration lies on one of
    /// its plateaus. Every plateau on which the configuration lies gives the same total.
    pub fn total_on(&self, config: &Config) -> Option<u64>
        ensures known { result ≡ total_known config.now self.now.found }
        ensures total { IfSome result (λ n. total_of (times_in config.now self.now.steps) ≡ n) }
    {
        config.keeps_limits();
        let place = self.place_of(&numbers_of(config))?;
        self.keys.remember(place);
        Some(self.found[place].total)
    }

    /// A number of a part down to which the program takes the cycles that it takes on a configuration, as the plateau
    /// says whose total was given or learnt last. It is the configuration's own number if that isn't on the plateau.
    pub fn reach(&self, config: &Config, part: Part) -> u64
        ensures { AreSameFrom self.now.steps config.now part result }
    {
        config.keeps_limits();
        match self.found.get(self.keys.latest()) {
            Some(plateau) if plateau.has(config) => plateau.least_count(part),
            _ => part.count(config),
        }
    }

    /// The place of a plateau on which the configuration with these numbers lies, if there is one. Neighbours often lie
    /// on one plateau, so the places that were found before are tried first, then those that the keys propose.
    fn place_of(&self, numbers: &[u8; 18]) -> Option<usize>
        ensures kept { AreKept self.now }
        ensures some { IfSome result (LiesAt numbers.now self.now.found) }
        ensures none { result ≡ None → All (λ p. fits numbers.now p ≡ false) self.now.found }
    {
        let latest = self.keys.latest();
        if self.lies_at(latest, numbers) {
            return Some(latest);
        }
        let earlier = self.keys.earlier();
        if self.lies_at(earlier, numbers) {
            return Some(earlier);
        }
        match self.keyed_place(numbers) {
            Some(place) => Some(place),
            None => self.first_place(numbers),
        }
    }

    /// The place of such a plateau in one of the groups.
    #[inline(never)]
    fn keyed_place(&self, numbers: &[u8; 18]) -> Option<usize>
        ensures { IfSome result (LiesAt numbers.now self.now.found) }
    {
        let words = Words::of(numbers);
        for group in 0..self.keys.groups() {
            let first = self.keys.first_of(group, words);
            if let Some(place) = self.chained_place(first, numbers) {
                self.keys.move_forward(group);
                return Some(place);
            }
        }
        None
    }

    /// The place of such a plateau in a chain, from its first place on.
    fn chained_place(&self, first: usize, numbers: &[u8; 18]) -> Option<usize>
        ensures { IfSome result (LiesAt numbers.now self.now.found) }
    {
        let mut place = first;
        for _ in 0..MOST {
            if self.lies_at(place, numbers) {
                return Some(place);
            }
            if self.found.len() <= place {
                return None;
            }
            place = self.keys.next_of(place);
        }
        None
    }

    /// The place of the first such plateau.
    #[inline(never)]
    fn first_place(&self, numbers: &[u8; 18]) -> Option<usize>
        ensures { result ≡ position (fits numbers.now) self.now.found }
    {
        self.found
            .iter()
            .position(|plateau| plateau.has_numbers(numbers))
    }

    /// True if there is a plateau at a place, and the configuration with these numbers lies on it.
    fn lies_at(&self, place: usize, numbers: &[u8; 18]) -> bool
        ensures { result ≡ true → LiesAt numbers.now self.now.found place }
    {
        match self.found.get(place) {
            Some(plateau) => plateau.has_numbers(numbers),
            None => false,
        }
    }

    /// Keeps one more, in place of the oldest if the list is full.
    fn keep(&mut self, plateau: Plateau) -> Result<(), AllocError>
        requires { IsPlateauOf self.old.steps plateau }
        ensures steps { self.new.steps ≡ self.old.steps }
        ensures one { OnOk result (self.new ≡ kept_with plateau self.old) }
        ensures refused { OnErr result (self.new ≡ self.old) }
        ensures kept { AreKept self.new }
    {
        if self.found.len() < MOST {
            let place = self.found.len();
            self.keys.add(place, &plateau)?;
            self.found.push(plateau)?;
            self.keys.remember(place);
            return Ok(());
        }
        self.keys.add(self.oldest, &plateau)?;
        self.found[self.oldest] = plateau;
        self.keys.remember(self.oldest);
        self.oldest = (self.oldest + 1) % MOST;
        Ok(())
    }
}

impl<'s, A: Allocator + Clone> Plateaus<'s, A> {
    /// No plateaus yet, for the program of this run.
    pub fn new(alloc: A, run: &'s Run<A>) -> Result<Plateaus<'s, A>, AllocError>
        requires { length run.now < 2 ^ 28 }
        ensures { IfOk result (λ p. p ≡ record { steps = run.now; found = []; oldest = 0 }) }
    {
        let keys = Keys::new(alloc.clone()?)?;
        Ok(Plateaus {
            evaluator: Evaluator::new(run),
            found: Vec::new(alloc),
            oldest: 0,
            keys,
        })
    }

    /// Evaluates the program's run on a configuration, and keeps the plateau that its demands give.
    /// Returns the run's cycles. If out of memory, no plateau is lost.
    ///
    /// The work is less than that of `times` if the program has loops: each block of steps is evaluated once in each
    /// state in which the run is before it.
    pub fn learn(&mut self, alloc: A, config: &Config) -> Result<u64, AllocError>
        ensures steps { self.new.steps ≡ self.old.steps }
        ensures total { IfOk result (λ n. total_of (times_in config.now self.old.steps) ≡ n) }
        ensures known { OnOk result
            (total_known config.now self.new.found ≡ Some (total_of (times_in config.now self.new.steps))) }
        ensures learnt { OnOk result (HasLearnt config.now self.old self.new) }
        ensures refused { OnErr result (self.new ≡ self.old) }
    {
        config.keeps_limits();
        let demands = self.evaluator.demands(&alloc, config)?;
        self.keep(Plateau::of(&demands, config))?;
        Ok(demands.total)
    }
}
