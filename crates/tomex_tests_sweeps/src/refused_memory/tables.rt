//! The cycle machine, and the text of its tables.

use crate::answers::{granted, image_in};
use std::alloc::{AllocError, Global};
use std::test::Fail;
use tomex_config::Config;
use tomex_cycle::Machine;
use tomex_image::Image;
use tomex_tests_fixtures::machines::one_unit_each;
use tomex_tests_fixtures::programs::PRODUCT;
use tomex_tests_fixtures::{Heap, ample, refusals_of};
use tomex_texts::tables_text;

/// True if there is memory for a machine, and for the text of its tables after 3 cycles.
fn is_shown(heap: Heap, image: &Image<Heap>, config: &Config) -> Result<bool, AllocError> {
    let mut machine = Machine::new(heap.clone()?, image, config)?;
    machine.advance(3);
    Ok(tables_text(heap, &machine.tables()).is_ok())
}

/// The number of blocks that they take.
fn blocks_of_both(
    other: Global,
    image: &Image<Heap>,
    config: &Config,
) -> Result<Option<u64>, AllocError> {
    Ok(refusals_of!(other, heap => granted(is_shown(heap, image, config) == Ok(true))))
}

/// The text of the tables after a cycle of `jal x0,0`, which has no end, with this latency of the alu.
fn shown_of_a_jump(other: Global, latency: u8, cycle: u64) -> Result<Vec<u8, Heap>, Fail> {
    let image = image_in(other, b"\x6f\x00\x00\x00", 4096)?;
    let config = one_unit_each([1; 6], [latency, 1, 1, 1, 1], 1)?;
    let mut machine = Machine::new(ample(other)?, &image, &config)?;
    machine.advance(cycle.min(1_000_000_000));
    Ok(tables_text(ample(other)?, &machine.tables())?)
}

/// Latencies, cycles, and the texts of the tables after them: after a million, and after more than any run that ends
/// may take, most of which are skipped.
static AFTER: [(u8, u64, &str); 2] = [
    (
        1,
        1_000_001,
        "cycle 1000001\nalu0 jal Vj=- Vk=- Qj=- Qk=- A=-\n",
    ),
    (
        64,
        17_563_649,
        "cycle 17563649\nalu0 jal Vj=- Vk=- Qj=- Qk=- A=-\n",
    ),
];

/// No machine can know this run in advance.
#[test]
fn a_run_without_an_end_has_tables(rt: HostRuntime) -> Result<(), Fail> {
    for (latency, cycle, text) in &AFTER {
        let shown = shown_of_a_jump(rt.alloc(), *latency, *cycle)?;
        assert!(rt; shown.as_slice() == text.as_bytes(), "{cycle}");
    }
    Ok(())
}

/// A machine takes the bytes that the run changes; cycles and tables allocate nothing. A text grows several times; the
/// library decides how often.
#[test]
fn machines_and_tables(rt: HostRuntime) -> Result<(), Fail> {
    let config = one_unit_each([2, 1, 1, 1, 1, 1], [1, 3, 1, 1, 1], 1)?;
    let image = image_in(rt.alloc(), PRODUCT.as_slice(), 4096)?;
    assert!(rt; blocks_of_both(rt.alloc(), &image, &config)? > Some(1));
    Ok(())
}
