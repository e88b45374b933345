//! What no contract says about the system's files and its standard error.

use std::fs::File;
use std::io;
use std::io::{IsTerminal, Read};
use std::sync::atomic::{AtomicU64, Ordering};
use std::test::Fail;
use std::time::{Clock, Duration};
use tomex_streams::{
    Counted, Files, HINT, HostFiles, Meter, Progress, ReadFault, TerminalMeter, bytes_within,
};
use tomex_tests_fixtures::heap_of;

const TEXT: &[u8; 13] = b"0123456789abc";

/// Names that aren't read as files.
static UNREAD: [&str; 2] = ["no such file", "/"];

#[test]
fn files_of_the_system_are_read(rt: HostRuntime) -> Result<(), Fail> {
    let files = HostFiles::new(&rt);
    for name in &UNREAD {
        assert!(rt; files.read(rt.alloc(), name).err() == Some(ReadFault::NoFile));
    }
    assert!(rt; files.read(rt.alloc(), "/dev/null")?.is_empty());
    Ok(())
}

#[test]
fn memory_for_a_file_is_refused(rt: HostRuntime) -> Result<(), Fail> {
    let refused = heap_of(rt.alloc(), 0)?;
    let read = HostFiles::new(&rt).read(refused, "/proc/self/cmdline");
    assert!(rt; read.err() == Some(ReadFault::Memory));
    Ok(())
}

/// The most bytes of a file that is read.
const MOST: u32 = 268_435_456;

/// A device without an end is refused if it has given more bytes than a file may have.
#[test]
fn no_more_bytes_are_read_than_a_file_may_have(rt: HostRuntime) -> Result<(), Fail> {
    assert!(rt; bytes_within(rt.alloc(), TEXT.as_slice(), 13)?.as_slice() == TEXT.as_slice());
    assert!(rt; bytes_within(rt.alloc(), TEXT.as_slice(), 12).err() == Some(ReadFault::NoFile));
    let zeros = File::open(&rt, "/dev/zero")?.take(u64::from(MOST));
    assert!(rt; bytes_within(rt.alloc(), zeros, MOST)?.len() == MOST as usize);
    Ok(())
}

/// The program that runs this test, which is longer than most studies.
#[test]
fn long_files_are_read(rt: HostRuntime) -> Result<(), Fail> {
    let name = "/proc/self/exe";
    let read = HostFiles::new(&rt).read(rt.alloc(), name)?;
    assert!(rt; read.len() > 100_000);
    Ok(())
}

#[test]
fn endless_files_are_refused(rt: HostRuntime) -> Result<(), Fail> {
    let read = HostFiles::new(&rt).read(rt.alloc(), "/dev/zero");
    assert!(rt; read.err() == Some(ReadFault::NoFile));
    Ok(())
}

/// A clock that advances by a second at each reading.
#[derive(Drop)]
struct Leaping {
    seconds: AtomicU64,
}

impl Clock for Leaping {
    fn monotonic(&self) -> io::Result<Duration> {
        Ok(Duration::from_secs(self.seconds.fetch_add(1, Ordering::SeqCst)))
    }

    fn since_1970(&self) -> io::Result<Duration> {
        self.monotonic()
    }
}

/// The system's line with the number of bytes that this process has written so far; empty if the
/// system doesn't count them.
fn written<R: AllocGlobal + std::rt::Files>(rt: &R) -> Result<String, Fail> {
    let counts = match HostFiles::new(rt).read(rt.alloc(), "/proc/self/io") {
        Ok(bytes) => String::from_utf8(bytes).map_err(|_| "no text")?,
        Err(_) => String::new(rt.alloc()),
    };
    let count = counts.lines().find(|line| line.starts_with("wchar: "));
    Ok(String::from_str(rt.alloc(), count.unwrap_or(""))?)
}

/// Tests run with a pipe for standard error, to which the meter writes nothing.
#[test]
fn a_pipe_gets_no_line(rt: HostRuntime) -> Result<(), Fail> {
    if rt.stderr().is_terminal() {
        return Ok(());
    }
    let clock = Leaping {
        seconds: AtomicU64::new(0),
    };
    let meter = TerminalMeter::new(&clock, rt.stderr());
    let before = written(&rt)?;
    meter.show(Progress {
        done: 1,
        of: 2,
        counted: Counted::Configurations,
    });
    meter.clear();
    meter.hint();
    let after = written(&rt)?;
    assert!(rt; before.as_str() == after.as_str());
    Ok(())
}

#[test]
fn a_terminal_gets_these_lines(rt: HostRuntime) -> Result<(), Fail> {
    for (counted, text) in [
        (Counted::Configurations, "3 of 16384 configurations"),
        (Counted::Steps, "3 of 16384 steps"),
        (Counted::AtMostSteps, "3 of at most 16384 steps"),
    ] {
        let progress = Progress {
            done: 3,
            of: 16_384,
            counted,
        };
        let line = format!(in rt.alloc(); "{progress}")?;
        assert!(rt; line.as_str() == text);
    }
    assert!(rt; HINT == "tomex: `tomex explain` and these words say what it means\n");
    Ok(())
}
