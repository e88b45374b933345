ghost use Rattle.std.specs.Prelude.{◌≡◌};

use crate::budget::Budget;
use std::alloc::{AllocError, Allocator};

/// An allocator that asks the inner one while its budget lasts, and then refuses every block.
///
/// Each block counts as one, whatever its size. A list that grows or shrinks asks for a new block,
/// so that counts too. Freeing doesn't count, and returns nothing to the budget. A clone shares the
/// budget.
///
/// Its contract is that of any allocator: a block that it grants is one of the inner allocator's,
/// and goes back there. It may refuse at any time, so only the crate's tests show that it refuses
/// exactly when its budget is spent.
#[derive(Clone, Drop)]
pub struct Refusing<A> {
    /// The allocator that is asked.
    pub inner: A,
    budget: Budget,
}

impl<A> Refusing<A> {
    /// That allocator under that budget.
    pub fn new(inner: A, budget: Budget) -> Refusing<A>
        ensures { result.inner ≡ inner }
    {
        Refusing { inner, budget }
    }
}

unsafe impl<A: Allocator> Allocator for Refusing<A> {
    ghost dealloc_token = { λ it. A.dealloc_token it.inner };

    fn allocate(&self, size: usize, align: usize) -> Result<*mut u8, AllocError> {
        if self.budget.refuses() {
            return Err(AllocError);
        }
        self.inner.allocate(size, align)
    }

    unsafe fn deallocate(&self, ptr: *mut u8, size: usize, align: usize) {
        self.inner.deallocate(ptr, size, align);
    }
}
