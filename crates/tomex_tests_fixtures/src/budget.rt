use std::alloc::{AllocError, Global};
use std::sync::Arc;
use std::sync::atomic::{AtomicU64, Ordering};

/// The number of blocks that may still be granted. A clone is the same count, not a copy of it.
///
/// The count changes through a `&`, so no contract can name it. Only the crate's tests show that it
/// starts at the given number, falls by one for each block, stops at 0 and is shared by clones.
#[derive(Drop)]
pub struct Budget {
    left: Arc<AtomicU64, Global>,
}

impl Budget {
    /// A budget of `granted` blocks. The count itself is in a block of `alloc`, which is not one of
    /// them.
    pub fn new(alloc: Global, granted: u64) -> Result<Budget, AllocError> {
        let left = Arc::new(alloc, AtomicU64::new(granted))?;
        Ok(Budget { left })
    }

    /// True if nothing is left. Otherwise takes one block from the budget.
    pub(crate) fn refuses(&self) -> bool {
        self.left
            .fetch_update(
                Ordering::SeqCst,
                Ordering::SeqCst,
                |left| left.checked_sub(1),
            )
            .is_err()
    }
}

impl Clone for Budget {
    fn clone(&self) -> Result<Budget, AllocError> {
        let left = Arc::try_clone(&self.left)?;
        Ok(Budget { left })
    }
}
