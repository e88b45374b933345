//! The hint after a refusal comes after the line of the refusal.

ghost use Rattle.std.specs.Prelude.{Some};

use crate::files::files;
use crate::words_of;
use std::sync::Wait;
use std::sync::atomic::{AtomicU64, Ordering};
use std::test::Fail;
use std::thread::Threads;
use tomex_command::{Heaps, command};
use tomex_streams::{Meter, Progress, PutFault, Sink};
use tomex_tests_fixtures::in_memory::{Narrow, Shelf};

/// A sink that tells how many bytes it has taken.
#[derive(Drop)]
struct Told<'a> {
    sink: Narrow,
    taken: &'a AtomicU64,
}

impl<'a> Sink for Told<'a> {
    ghost seen = { λ told. record { taken = Some told.sink.bytes.items; faults = told.sink.faults } };

    ghost terminal = { λ told. told.sink.is_terminal };

    fn is_terminal(&self) -> bool {
        self.sink.is_terminal()
    }

    fn put(&mut self, piece: &[u8]) -> Result<usize, PutFault> {
        let put = self.sink.put(piece);
        if let Ok(count) = put {
            self.taken.fetch_add(count as u64, Ordering::SeqCst);
        }
        put
    }
}

/// Keeps how many bytes of the error were written when the hint came.
#[derive(Drop)]
struct AtHint<'a> {
    taken: &'a AtomicU64,
    before: AtomicU64,
}

impl<'a> Meter for AtHint<'a> {
    fn show(&self, _progress: Progress) {}

    fn clear(&self) {}

    fn hint(&self) {
        self.before
            .store(self.taken.load(Ordering::SeqCst), Ordering::SeqCst);
    }
}

/// How many bytes of the error a line has before its hint, and in all.
fn around_the_hint<R: AllocGlobal + Threads + Wait + Sync>(
    rt: &R,
    line: &str,
) -> Result<[u64; 2], Fail> {
    let taken = AtomicU64::new(0);
    let meter = AtHint {
        taken: &taken,
        before: AtomicU64::new(0),
    };
    let mut words = Vec::new(rt.alloc());
    for word in words_of(rt.alloc(), line)? {
        words.push(String::from_str(rt.alloc(), word)?)?;
    }
    let heaps = Heaps {
        images: rt.alloc(),
        texts: rt.alloc(),
    };
    let mut out = Narrow::new(rt.alloc(), 1000, 1000);
    let mut err = Told {
        sink: Narrow::new(rt.alloc(), 1000, 10),
        taken: &taken,
    };
    let files = files();
    let shelf = Shelf { files: &files };
    command(
        rt,
        heaps,
        words.as_slice(),
        &shelf,
        &meter,
        &mut out,
        &mut err,
    );
    Ok([
        meter.before.load(Ordering::SeqCst),
        taken.load(Ordering::SeqCst),
    ])
}

#[test]
fn a_hint_comes_after_the_refusal(rt: HostRuntime) -> Result<(), Fail> {
    let line = "tomex run none.bin";
    let said = "tomex: cannot read none.bin\n".len() as u64;
    assert!(rt; around_the_hint(&rt, line)? == [said; 2]);
    Ok(())
}
