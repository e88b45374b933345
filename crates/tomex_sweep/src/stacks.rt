//! The sizes of threads' stacks.

use core::thread::Stack;

/// The stack of each worker's thread. If one is too large, its thread can't be started.
pub trait Stacks {
    /// The stack of this worker's thread, from 0.
    fn stack_of(&self, worker: usize) -> Stack;
}

/// Stacks of the usual size.
#[derive(Clone, Copy)]
pub struct UsualStacks;

impl Stacks for UsualStacks {
    fn stack_of(&self, _worker: usize) -> Stack {
        Stack::new()
    }
}
