//! Images of small programs.

use std::alloc::Global;
use std::test::Fail;
use tomex_image::{Image, Window, load};

/// An image of these words at this base, in a window of `size` bytes.
pub fn image_of(alloc: Global, base: u32, size: u32, words: &[u32]) -> Result<Image, Fail> {
    let mut bytes = Vec::new(alloc);
    for word in words {
        bytes.extend_from_slice(&word.to_le_bytes())?;
    }
    let window = Window::new(base, size).ok_or("no window")?;
    Ok(load(alloc, bytes.as_slice(), window)?)
}
