//! Where among plateaus a configuration is looked for first.
//!
//! Nothing is said of what these functions return: the places are only proposed, and whoever asks tests the plateau at
//! a place. So a wrong one costs time, and no result depends on it.

ghost use Rattle.std.specs.Prelude.{◌≤◌};

use crate::plateau::Plateau;
use std::alloc::{AllocError, Allocator};
use std::cell::Cell;

/// No place.
const NONE: u16 = u16::MAX;

/// The number of chains, a power of two.
const CHAINS: usize = 8192;

/// The bits of a product that number a chain.
const SHIFT: u32 = 51;

/// How many answers are remembered. In a grid the row that was so many rows before often has the same choices for most
/// parts.
const REMEMBERED: usize = 64;

/// A configuration's numbers, eight in a word.
#[derive(Clone, Copy)]
pub(crate) struct Words {
    words: [u64; 3],
}

/// Eight numbers, from a place on.
fn word_at(numbers: &[u8; 18], place: usize) -> u64
    requires { place ≤ 10 }
{
    u64::from_le_bytes([
        numbers[place],
        numbers[place + 1],
        numbers[place + 2],
        numbers[place + 3],
        numbers[place + 4],
        numbers[place + 5],
        numbers[place + 6],
        numbers[place + 7],
    ])
}

impl Words {
    pub(crate) fn of(numbers: &[u8; 18]) -> Words {
        Words {
            words: [
                word_at(numbers, 0),
                word_at(numbers, 8),
                u64::from(numbers[16]) | u64::from(numbers[17]) << 8,
            ],
        }
    }

    /// All bits of the numbers that have one value on a plateau.
    fn single(plateau: &Plateau) -> Words {
        let mut bytes = [0; 18];
        for place in 0..18 {
            if plateau.least[place] == plateau.most[place] {
                bytes[place] = u8::MAX;
            }
        }
        Words::of(&bytes)
    }

    /// The chain of the configurations that have these values of the numbers in a mask.
    fn chain(self, mask: Words) -> usize {
        let first = (self.words[0] & mask.words[0]).wrapping_mul(0x9e37_79b9_7f4a_7c15);
        let second = (self.words[1] & mask.words[1]).wrapping_mul(0xc2b2_ae3d_27d4_eb4f);
        let third = (self.words[2] & mask.words[2]).wrapping_mul(0x1656_67b1_9e37_79f9);
        ((first ^ second ^ third) >> SHIFT) as usize
    }

    fn is(self, other: Words) -> bool {
        self.words == other.words
    }
}

/// The chain that a place is in, and the place after it there.
#[derive(Clone, Copy)]
struct Link {
    chain: u16,
    next: u16,
}

/// Places of plateaus by keys. On a plateau a number has one value or a range. Those on which the same numbers have one
/// value are a group, with the mask of these numbers; their values are a plateau's key. Plateaus are chained by keys.
#[derive(Drop)]
pub(crate) struct Keys<A: Allocator> {
    /// The masks of all groups. A group in which a plateau is found moves forward.
    masks: Vec<Cell<Words>, A>,
    /// The first place of each chain.
    first: Vec<u16, A>,
    /// The links of all places.
    links: Vec<Link, A>,
    /// The places that were found last, each where its turn comes again.
    answers: Vec<Cell<usize>, A>,
    /// How many places were found.
    count: Cell<usize>,
}

impl<A: Allocator + Clone> Keys<A> {
    /// No keys. Allocates for the chains and the answers.
    pub(crate) fn new(alloc: A) -> Result<Keys<A>, AllocError> {
        let first = vec![in alloc.clone()?; NONE; CHAINS]?;
        let mut answers = Vec::with_capacity(alloc.clone()?, REMEMBERED)?;
        for _ in 0..REMEMBERED {
            answers.push(Cell::new(0))?;
        }
        Ok(Keys {
            masks: Vec::new(alloc.clone()?),
            first,
            links: Vec::new(alloc),
            answers,
            count: Cell::new(0),
        })
    }
}

impl<A: Allocator> Keys<A> {
    /// The place that was found so many answers before the next one.
    fn answer(&self, before: usize) -> usize {
        let turn = self.count.get().wrapping_sub(before) % REMEMBERED;
        self.answers.get(turn).map_or(0, |answer| answer.get())
    }

    /// The place that was found last.
    pub(crate) fn latest(&self) -> usize {
        self.answer(1)
    }

    /// The place that was found a grid's usual stretch before.
    pub(crate) fn earlier(&self) -> usize {
        self.answer(REMEMBERED)
    }

    /// Remembers the place that was found.
    pub(crate) fn remember(&self, place: usize) {
        let count = self.count.get();
        if let Some(answer) = self.answers.get(count % REMEMBERED) {
            answer.set(place);
        }
        self.count.set(count.wrapping_add(1));
    }

    /// The number of groups.
    pub(crate) fn groups(&self) -> usize {
        self.masks.len()
    }

    /// The first place of the chain of a configuration in a group.
    pub(crate) fn first_of(&self, group: usize, words: Words) -> usize {
        let mask = match self.masks.get(group) {
            Some(mask) => mask.get(),
            None => return usize::from(NONE),
        };
        match self.first.get(words.chain(mask)) {
            Some(place) => usize::from(*place),
            None => usize::from(NONE),
        }
    }

    /// The place after another one in its chain.
    pub(crate) fn next_of(&self, place: usize) -> usize {
        match self.links.get(place) {
            Some(link) => usize::from(link.next),
            None => usize::from(NONE),
        }
    }

    /// Half of the groups that are asked before this one are asked after it from now on.
    pub(crate) fn move_forward(&self, group: usize) {
        if let (Some(mask), Some(other)) = (self.masks.get(group), self.masks.get(group / 2)) {
            let moved = mask.get();
            mask.set(other.get());
            other.set(moved);
        }
    }

    /// Adds the plateau at a place, in place of the one that was there. The places are added in their order.
    pub(crate) fn add(&mut self, place: usize, plateau: &Plateau) -> Result<(), AllocError> {
        let mask = Words::single(plateau);
        if !self.masks.iter().any(|other| mask.is(other.get())) {
            self.masks.push(Cell::new(mask))?;
        }
        if self.links.len() <= place {
            self.links.push(Link {
                chain: 0,
                next: NONE,
            })?;
        } else {
            self.remove(place);
        }
        self.chain_in(place, Words::of(&plateau.least).chain(mask));
        Ok(())
    }

    /// Puts a place that is in no chain at the head of this one.
    fn chain_in(&mut self, place: usize, chain: usize) {
        if let (Some(link), Some(first)) = (self.links.get_mut(place), self.first.get_mut(chain)) {
            link.chain = u16::try_from(chain).unwrap_or(NONE);
            link.next = *first;
            *first = u16::try_from(place).unwrap_or(NONE);
        }
    }

    /// Takes a place out of its chain.
    fn remove(&mut self, place: usize) {
        let removed = match self.links.get(place) {
            Some(link) => *link,
            None => return,
        };
        let mut at = match self.first.get_mut(usize::from(removed.chain)) {
            Some(first) if usize::from(*first) == place => {
                *first = removed.next;
                return;
            }
            Some(first) => usize::from(*first),
            None => return,
        };
        for _ in 0..self.links.len() {
            match self.links.get_mut(at) {
                Some(link) if usize::from(link.next) == place => {
                    link.next = removed.next;
                    return;
                }
                Some(link) => at = usize::from(link.next),
                None => return,
            }
        }
    }
}
