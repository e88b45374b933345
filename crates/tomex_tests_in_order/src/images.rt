//! An image is loaded if there is memory; and the texts of the refusals.

use std::alloc::Global;
use std::test::Fail;
use tomex_image::{ImageError, Window, load};
use tomex_tests_fixtures::programs::ELF;

/// True if a memory is the product and zeros, 65,536 bytes in all.
fn is_product(memory: &[u8]) -> bool {
    memory.len() == 65536
        && memory.starts_with(&ELF.as_slice()[84..])
        && memory[16..].iter().all(|byte| *byte == 0)
}

/// True if a file is loaded as the product, which begins at the window's base.
fn loads_product(alloc: Global, file: &[u8], window: Window) -> Result<bool, ImageError> {
    let image = load(alloc, file, window)?;
    let is_at_base = image.window() == window && image.entry() == 65536;
    Ok(is_at_base && is_product(image.memory()))
}

#[test]
fn with_ample_memory(rt: HostRuntime) -> Result<(), Fail> {
    let window = Window::new(65536, 65536).ok_or("no window")?;
    assert!(rt; loads_product(rt.alloc(), &ELF.as_slice()[84..], window)?);
    assert!(rt; loads_product(rt.alloc(), ELF.as_slice(), window)?);
    Ok(())
}

/// Refusals and their texts.
static TEXTS: [(ImageError, &str); 12] = [
    (ImageError::Empty, "empty"),
    (ImageError::TooLarge, "too large"),
    (ImageError::Truncated, "truncated"),
    (ImageError::NotRiscv, "not RISC-V"),
    (ImageError::NotExec, "not executable"),
    (ImageError::HeaderSize, "header size"),
    (ImageError::Dynamic, "dynamic"),
    (ImageError::Segment, "segment"),
    (ImageError::Overlap, "overlap"),
    (ImageError::TooManySegments, "too many segments"),
    (ImageError::Entry, "entry"),
    (ImageError::Memory, "out of memory"),
];

#[test]
fn refusals_have_texts(rt: HostRuntime) -> Result<(), Fail> {
    for (error, text) in &TEXTS {
        let shown = format!(in rt.alloc(); "{error}")?;
        assert!(rt; shown.as_str() == *text);
    }
    Ok(())
}
