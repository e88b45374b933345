//! What a person at a terminal sees beside a command's output: the progress of long work, and after a refusal where it
//! is explained.

ghost use Rattle.std.specs.Prelude.{◌≡◌, IfSome};

use std::fmt;
use std::io::{IsTerminal, Stderr, Write};
use std::sync::atomic::{AtomicU64, Ordering};
use std::time::Clock;

/// The least time between two lines, in milliseconds.
const PAUSE: u64 = 100;

/// The line on a terminal after a refusal.
pub const HINT: &str = "tomex: `tomex explain` and these words say what it means\n";

/// What progress counts.
#[derive(Clone, Copy, PartialEq, Eq)]
pub enum Counted {
    Configurations,
    /// The steps of a run.
    Steps,
    /// The steps of a run that may have fewer.
    AtMostSteps,
}

/// How much of long work is finished.
#[derive(Clone, Copy, PartialEq, Eq)]
pub struct Progress {
    pub done: u64,
    pub of: u64,
    pub counted: Counted,
}

impl fmt::Display for Progress {
    ghost use Rattle.std.specs.Prelude.{Some};
    ghost use Rattle.tomex_streams.specs.Progress.{text_of};

    ghost output = { λ p. Some (text_of p) };

    fn fmt<W: fmt::Write>(&self, f: &mut fmt::Formatter<W>) -> fmt::Result {
        let Progress { done, of, counted } = *self;
        match counted {
            Counted::Configurations => write!(f, "{done} of {of} configurations"),
            Counted::Steps => write!(f, "{done} of {of} steps"),
            Counted::AtMostSteps => write!(f, "{done} of at most {of} steps"),
        }
    }
}

/// Shows progress. Several threads may call it at once.
pub trait Meter {
    /// Shows how much is finished.
    fn show(&self, progress: Progress);

    /// Removes what is shown; the work is finished.
    fn clear(&self);

    /// Says, after a refusal, where it is explained.
    fn hint(&self);
}

/// A meter that shows nothing.
#[derive(Clone, Copy)]
pub struct NoMeter;

impl Meter for NoMeter {
    fn show(&self, _progress: Progress) {}

    fn clear(&self) {}

    fn hint(&self) {}
}

/// A line on the terminal of standard error, overwritten at most ten times a second. If standard
/// error is not a terminal, nothing is written. A line that can't be written is skipped.
#[derive(Drop)]
pub struct TerminalMeter<'a, R: Clock> {
    clock: &'a R,
    terminal: Option<Stderr>,
    /// When the last line was written, or the meter was made, in milliseconds of the clock.
    last: AtomicU64,
    /// The number of lines that were written.
    lines: AtomicU64,
}

/// The clock's time in milliseconds; 0 if it can't be read.
fn milliseconds(clock: &impl Clock) -> u64 {
    match clock.monotonic() {
        Ok(time) => time
            .as_secs()
            .saturating_mul(1000)
            .saturating_add(u64::from(time.subsec_millis())),
        Err(_) => 0,
    }
}

impl<'a, R: Clock> TerminalMeter<'a, R> {
    /// A meter on this standard error.
    pub fn new(clock: &'a R, error: Stderr) -> TerminalMeter<'a, R>
        ensures clock { result.clock.now ≡ clock.now }
        ensures terminal { IfSome result.terminal (λ t. t ≡ error) }
    {
        let terminal = if error.is_terminal() {
            Some(error)
        } else {
            None
        };
        TerminalMeter {
            clock,
            terminal,
            last: AtomicU64::new(milliseconds(clock)),
            lines: AtomicU64::new(0),
        }
    }

    /// True if it is time for another line. If several threads ask at once, it is true for only
    /// one.
    fn is_due(&self) -> bool {
        let now = milliseconds(self.clock);
        let last = self.last.load(Ordering::SeqCst);
        now >= last.saturating_add(PAUSE)
            && self
                .last
                .compare_exchange(last, now, Ordering::SeqCst, Ordering::SeqCst)
                .is_ok()
    }
}

impl<'a, R: Clock> Meter for TerminalMeter<'a, R> {
    fn show(&self, progress: Progress) {
        if let Some(terminal) = &self.terminal {
            if self.is_due() {
                let mut writer = terminal;
                let _ = write!(writer, "\r\x1b[K{progress}");
                self.lines.fetch_add(1, Ordering::SeqCst);
            }
        }
    }

    fn clear(&self) {
        if let Some(terminal) = &self.terminal {
            if self.lines.load(Ordering::SeqCst) > 0 {
                let mut writer = terminal;
                let _ = write!(writer, "\r\x1b[K");
            }
        }
    }

    fn hint(&self) {
        if let Some(terminal) = &self.terminal {
            let mut writer = terminal;
            let _ = write!(writer, "{HINT}");
        }
    }
}
