//! Who follows how far a long run has come.

/// Is given how many steps a run has taken on its way to a part. It changes nothing of the result.
pub trait Follower {
    /// The run has taken this number of steps, of the number before the part.
    fn passed(&self, steps: u64, of: u64);
}

/// Nobody.
#[derive(Clone, Copy)]
pub struct NoFollower;

impl Follower for NoFollower {
    fn passed(&self, _steps: u64, _of: u64) {}
}
