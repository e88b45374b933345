//! The fetch of instructions: which one is at an address, decoded.

ghost use Rattle.std.specs.Prelude.{◌≡◌};
ghost use Rattle.tomex_rvexec.specs.Fetch.{instruction_at};

use crate::decode_cache::DecodeCache;
use crate::outcome::FaultKind;
use std::alloc::{Allocator, Global};
use std::marker::Model;
use tomex_image::Image;
use tomex_rvdec::{Instr, decode};

/// The instruction at an address of the image as it was loaded, or the fault of fetching it.
pub fn instruction_at<A: Allocator>(image: &Image<A>, pc: u32) -> Result<Instr, FaultKind>
    ensures { result ≡ instruction_at image.now pc }
{
    let window = image.window();
    if pc < window.base() || u64::from(pc) + 4 > window.end() {
        return Err(FaultKind::Fetch);
    }
    let place = (pc - window.base()) as usize;
    let code = image.memory();
    let word = [
        code[place],
        code[place + 1],
        code[place + 2],
        code[place + 3],
    ];
    decode(u32::from_le_bytes(word)).ok_or(FaultKind::Illegal)
}

/// Fetches and decodes the instructions of an image.
///
/// Keeps recently decoded ones. They can't be stale: fetches read the image as it was loaded, and a
/// store never changes it.
#[derive(Drop)]
pub struct Fetcher<'a, A: Allocator = Global> {
    image: &'a Image<A>,
    cache: DecodeCache,
}

impl<'a, A: Allocator> Model for Fetcher<'a, A> {
    ghost use Rattle.tomex_image.specs.Image.{Loaded};
    ghost use Rattle.tomex_rvexec.specs.Fetch.{IsCacheOf};

    ghost Value = { Loaded };

    ghost view = { λ f. f.image.now };

    ghost invariant = { λ f. IsCacheOf f.image.now f.cache };
}

impl<'a, A: Allocator> Fetcher<'a, A> {
    ghost use Rattle.std.specs.Prelude.{◌≡◌};
    ghost use Rattle.tomex_rvexec.specs.Fetch.{instruction_at};

    /// The fetcher of this image, with an empty cache.
    pub fn new(image: &'a Image<A>) -> Self
        ensures { result ≡ image.now }
    {
        Fetcher {
            image,
            cache: DecodeCache::new(),
        }
    }

    /// The instruction at an address, or the fault of fetching it.
    #[inline(always)]
    pub fn fetch(&mut self, pc: u32) -> Result<Instr, FaultKind>
        ensures value { result ≡ instruction_at self.old pc }
        ensures same { self.new ≡ self.old }
    {
        if let Some(instr) = self.cache.get(pc) {
            return Ok(instr);
        }
        self.fetch_anew(pc)
    }

    /// Decodes the instruction at an address, and keeps it. Most fetches find theirs in the cache.
    #[cold]
    #[inline(never)]
    fn fetch_anew(&mut self, pc: u32) -> Result<Instr, FaultKind>
        ensures value { result ≡ instruction_at self.old pc }
        ensures same { self.new ≡ self.old }
    {
        let instr = instruction_at(self.image, pc)?;
        self.cache.keep(pc, instr);
        Ok(instr)
    }
}
