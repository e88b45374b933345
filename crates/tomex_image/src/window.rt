//! Windows of memory.
ghost use Rattle.std.specs.Prelude.{◌≡◌, ◌≤◌, ◌+◌, ◌^◌, IfSome, IfNone};
ghost use Rattle.tomex_image.specs.Window.{IsWindow};

use std::marker::Model;

/// The largest size of a window, in bytes.
const MOST_BYTES: u32 = 1_048_576;

/// A window of memory: the bytes from `base` to `base + size`, exclusive. Both are multiples of 4,
/// the size is 4 to 1,048,576 bytes, and the end is at most 2^32.
#[derive(Clone, Copy, PartialEq, Eq)]
pub struct Window {
    base: u32,
    size: u32,
}

impl Model for Window {
    ghost use Rattle.tomex_image.specs.Window.{Span, IsWindow};

    ghost Value = { Span };

    ghost view = { λ w. record { base = w.base; size = w.size } };

    ghost invariant = { λ w. IsWindow w.base w.size };

    ghost inverse = { λ s. record { base = s.base; size = s.size } };
}

impl Window {
    /// The window with this base and this size in bytes; `None` outside the limits.
    pub fn new(base: u32, size: u32) -> Option<Self>
        ensures some { IfSome result (λ w. (w.base ≡ base) × (w.size ≡ size) × IsWindow base size) }
        ensures none { IfNone result (IsWindow base size → ⊥) }
    {
        if base % 4 == 0
            && size % 4 == 0
            && size >= 4
            && size <= MOST_BYTES
            && u64::from(base) + u64::from(size) <= 1 << 32
        {
            Some(Window { base, size })
        } else {
            None
        }
    }

    /// A law: a window is within the limits.
    pub fn keeps_limits(&self)
        ensures { IsWindow self.now.base self.now.size }
    {
        let _size = self.size;
    }

    /// The address of the first byte.
    pub fn base(&self) -> u32
        ensures value { result ≡ self.now.base }
    {
        self.base
    }

    /// The number of bytes.
    pub fn size(&self) -> u32
        ensures value { result ≡ self.now.size }
    {
        self.size
    }

    /// The address after the last byte, at most 2^32.
    pub fn end(&self) -> u64
        ensures value { result ≡ self.now.base + self.now.size }
        ensures limit { result ≤ 2 ^ 32 }
    {
        u64::from(self.base) + u64::from(self.size)
    }
}
