//! Loaded images.
ghost use Rattle.std.specs.Prelude.{◌≡◌};
ghost use Rattle.tomex_image.specs.Image.{IsLoaded};

use crate::window::Window;
use std::alloc::{Allocator, Global};
use std::marker::Model;

/// A program in the memory of its window, before it runs: a byte of memory for each byte of the
/// window, and the address of the first instruction, a word of the window.
#[derive(Drop)]
pub struct Image<A: Allocator = Global> {
    window: Window,
    memory: Vec<u8, A>,
    entry: u32,
}

impl<A: Allocator> Model for Image<A> {
    ghost use Rattle.tomex_image.specs.Image.{Loaded, IsLoaded};

    ghost Value = { Loaded };

    ghost view = { λ i. record { window = i.window; memory = i.memory.items; entry = i.entry } };

    ghost invariant = { λ i. IsLoaded i.window i.memory.items i.entry };
}

impl<A: Allocator> Image<A> {
    /// The image of these parts.
    pub(crate) fn new(window: Window, memory: Vec<u8, A>, entry: u32) -> Self
        requires { IsLoaded window memory.items entry }
        ensures window { result.window ≡ window }
        ensures memory { result.memory ≡ memory.items }
        ensures entry { result.entry ≡ entry }
    {
        Image {
            window,
            memory,
            entry,
        }
    }

    /// A law: the image's memory fills its window, and its entry lies inside it.
    pub fn fills_its_window(&self)
        ensures { IsLoaded self.now.window self.now.memory self.now.entry }
    {
        let _window = self.window;
    }

    /// The window that the image was loaded into.
    pub fn window(&self) -> Window
        ensures value { result ≡ self.now.window }
        ensures loaded { IsLoaded self.now.window self.now.memory self.now.entry }
    {
        self.window
    }

    /// The bytes of the window, the one at its base first.
    pub fn memory(&self) -> &[u8]
        ensures value { result.now ≡ self.now.memory }
        ensures loaded { IsLoaded self.now.window self.now.memory self.now.entry }
    {
        self.memory.as_slice()
    }

    /// The address of the first instruction.
    pub fn entry(&self) -> u32
        ensures value { result ≡ self.now.entry }
        ensures loaded { IsLoaded self.now.window self.now.memory self.now.entry }
    {
        self.entry
    }
}
