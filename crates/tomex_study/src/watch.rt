//! Ranges of memory that a report shows at a program's end.

ghost use Rattle.std.specs.Prelude.{◌≡◌, ◌≤◌, ◌↔◌, length, IsTrue};
ghost use Rattle.tomex_study.specs.Watch.{is_watchable, watched_bytes, IsWatch};

use tomex_image::Window;

/// `length` bytes of memory, from `address` on.
#[derive(Clone, Copy, PartialEq, Eq)]
pub struct WatchRange {
    pub address: u32,
    pub length: u32,
}

impl WatchRange {
    /// True if there is at least one byte and all lie in the window. Addresses don't wrap.
    pub fn is_inside(self, window: Window) -> bool
        ensures { result ≡ is_watchable window self }
    {
        let end = u64::from(self.address) + u64::from(self.length);
        1 <= self.length && window.base() <= self.address && end <= window.end()
    }
}

/// The number of bytes in all ranges together.
pub fn watched_bytes(ranges: &[WatchRange]) -> u64
    requires { length ranges.now ≤ 8 }
    ensures { result ≡ watched_bytes ranges.now }
{
    let mut bytes = 0;
    for range in ranges {
        bytes += u64::from(range.length);
    }
    bytes
}

/// True if a program in that window may have these ranges: there are at most 8, each lies in the
/// window, and together they have at most 4,096 bytes.
pub fn can_watch(window: Window, ranges: &[WatchRange]) -> bool
    ensures { IsTrue result ↔ IsWatch window ranges.now }
{
    ranges.len() <= 8
        && ranges.iter().all(|range| range.is_inside(window))
        && watched_bytes(ranges) <= 4096
}
