//! The links of a run's critical path, by the cycles of the run.

ghost use Rattle.std.specs.Prelude.{◌≡◌, ◌≤◌, nat_lt, true, All, None, length, slice_get, take};
ghost use Rattle.tomex_frames.specs.OnPath.{at_cycle, with_before};

use tomex_path::Link;

/// A link of a path.
#[derive(Clone, Copy)]
pub struct OnPath {
    /// The link before it, if there is one.
    pub before: Option<Link>,
    pub link: Link,
}

/// The place of the link with a cycle, if the links before place `from` end earlier. The link with the next cycle is at
/// the same place or at the one after it.
pub fn place_of(path: &[Link], from: usize, cycle: u64) -> usize
    requires few { from ≤ length path.now }
    requires passed { All (λ l. nat_lt l.to cycle ≡ true) (take from path.now) }
    ensures few { result ≤ length path.now }
    ensures passed { All (λ l. nat_lt l.to cycle ≡ true) (take result path.now) }
    ensures here { slice_get (with_before None path.now) result ≡ at_cycle cycle path.now }
{
    let mut place = from;
    while place < path.len() && path[place].to < cycle {
        place += 1;
    }
    place
}

/// The link at a place, if there is one.
pub fn link_at(path: &[Link], place: usize) -> Option<OnPath>
    ensures { result ≡ slice_get (with_before None path.now) place }
{
    if path.len() <= place {
        return None;
    }
    let before = if place == 0 {
        None
    } else {
        Some(path[place - 1])
    };
    Some(OnPath {
        before,
        link: path[place],
    })
}
