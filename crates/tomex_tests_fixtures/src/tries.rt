//! Each growth of a call refused in turn: the call reports it, and with memory it gives the right
//! answer.

use crate::budget::Budget;
use crate::refusing::Refusing;
use std::alloc::{AllocError, Global};

/// The memory of a try.
pub type Heap = Refusing<Global>;

/// Memory of `granted` blocks.
pub fn heap_of(other: Global, granted: u64) -> Result<Heap, AllocError> {
    Ok(Refusing::new(other, Budget::new(other, granted)?))
}

/// Memory that never runs out, of the same type.
pub fn ample(other: Global) -> Result<Heap, AllocError> {
    heap_of(other, u64::MAX)
}

/// The outcome of one try of a call.
#[derive(Clone, Copy, Debug, PartialEq, Eq)]
pub enum Try {
    /// The right answer.
    Answered,
    /// Memory was refused, and the call reported it.
    Refused,
    /// Anything else, which must not happen.
    Wrong,
}

impl Try {
    /// The outcome of an answer, which is right or not.
    pub fn right_if(is_right: bool) -> Try {
        if is_right { Try::Answered } else { Try::Wrong }
    }
}

/// A call that allocates.
pub trait Attempt {
    /// Makes the call in that memory.
    fn attempt(&self, heap: Heap) -> Result<Try, AllocError>;
}

/// The number of tries that are refused before the first answer, each with one more block than the
/// one before. `None` if a try is wrong.
pub fn refusals<C: Attempt>(alloc: Global, call: &C) -> Result<Option<u64>, AllocError> {
    for granted in 0..1000u64 {
        match call.attempt(heap_of(alloc, granted)?)? {
            Try::Answered => return Ok(Some(granted)),
            Try::Refused => {}
            Try::Wrong => return Ok(None),
        }
    }
    Ok(None)
}

/// The same for a call that takes the runtime, which no `Attempt` holds.
#[macro_export]
macro_rules! refusals_of {
    ($alloc:expr, $heap:ident => $attempt:expr) => {{
        let mut answered = None;
        for granted in 0..1000u64 {
            let $heap = $crate::heap_of($alloc, granted)?;
            match $attempt {
                $crate::Try::Answered => {
                    answered = Some(granted);
                    break;
                }
                $crate::Try::Refused => {}
                $crate::Try::Wrong => break,
            }
        }
        answered
    }};
}
