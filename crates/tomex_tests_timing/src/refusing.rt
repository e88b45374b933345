use std::alloc::{Allocator, Global};
use std::test::Fail;
use tomex_tests_fixtures::{Budget, Refusing};

/// The number of blocks that a list was granted, its first and one for each growth, until one was
/// refused.
fn blocks_granted<A: Allocator>(alloc: A) -> u32 {
    let mut list: Vec<u64, A> = Vec::new(alloc);
    let mut blocks = 0u32;
    for item in 0..100u64 {
        let is_full = list.len() == list.capacity();
        if list.push(item).is_err() {
            break;
        }
        if is_full {
            blocks = blocks.wrapping_add(1);
        }
    }
    blocks
}

#[test]
fn the_block_past_the_budget_is_refused(rt: HostRuntime) -> Result<(), Fail> {
    for granted in 0..4u32 {
        let budget = Budget::new(rt.alloc(), u64::from(granted))?;
        let alloc = Refusing::new(rt.alloc(), budget);
        assert_eq!(rt; blocks_granted(alloc), granted);
    }
    Ok(())
}

#[test]
fn clones_share_one_count(rt: HostRuntime) -> Result<(), Fail> {
    let alloc = Refusing::new(rt.alloc(), Budget::new(rt.alloc(), 3)?);
    let clone: Refusing<Global> = alloc.clone()?;
    assert!(rt; Vec::<u64, _>::with_capacity(&alloc, 1).is_ok());
    assert_eq!(rt; blocks_granted(clone), 2);
    // Blocks that were freed are not granted again.
    assert!(rt; Vec::<u64, _>::with_capacity(alloc, 1).is_err());
    Ok(())
}
