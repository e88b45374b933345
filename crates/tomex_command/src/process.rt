//! The program as a process: the system's command line, files and streams, and the exit code.
ghost use Rattle.std.specs.Prelude.{◌≡◌, ◌≤◌, map, string_bytes, IfOk, IfErr, IsErrAnd, IsOkUnless};
ghost use Rattle.std.specs.Process.{exit_status};
ghost use Rattle.std.specs.Vec.Iter.{into_iter_items};
ghost use Rattle.tomex_arguments.specs.declared.fault.LineFault.TheVariants.{Memory};
ghost use Rattle.tomex_command.specs.Commands.{IsEnd};
ghost use Rattle.tomex_command.specs.Reporting.{IsSaid, IsFaultReported};
ghost use Rattle.tomex_command.specs.Words.{IsReadingFault};

use crate::commands::command;
use crate::heaps::Heaps;
use crate::reporting::report_line_fault;
use std::alloc::{Allocator, Global};
use std::io::{ErrorKind, IsTerminal, Stderr, Stdout};
use std::process::ExitCode;
use std::sync::Wait;
use std::thread::Threads;
use std::time::Clock;
use std::{env, io};
use tomex_arguments::{LineFault, not_text, reading_fault};
use tomex_streams::{Files, HostFiles, Meter, Sink, Stream, TerminalMeter};

/// The exit code of a status.
fn exit_of(status: u8) -> ExitCode
    ensures { exit_status result ≡ status }
{
    ExitCode::from(status)
}

/// Runs the program on its words, or reports why there are none, and returns its exit code.
pub fn run_words<
    R: Threads + Wait + Sync,
    F: Files,
    O: Sink,
    E: Sink,
    A: Allocator + Clone + Send + Sync + Drop,
    M: Meter + Sync,
>(
    rt: &R,
    heaps: Heaps<A>,
    words: Result<Vec<String>, LineFault>,
    files: &F,
    meter: &M,
    out: &mut O,
    err: &mut E,
) -> ExitCode
    ensures end { IfOk words (λ words. IsEnd (map string_bytes words.items) (F.file files.now) (O.terminal out.old)
        (exit_status result) (O.seen out.old) (O.seen out.new) (E.seen err.old) (E.seen err.new)) }
    ensures reported { IfErr words (λ f. IsFaultReported f (exit_status result) (O.seen out.old) (O.seen out.new)) }
    ensures said { IfErr words (λ fault. IsSaid fault (exit_status result) (E.seen err.old) (E.seen err.new)) }
    ensures statuses { exit_status result ≤ 3 }
{
    let status = match words {
        Ok(words) => command(rt, heaps, words.as_slice(), files, meter, out, err),
        Err(fault) => report_line_fault(&fault, out, err),
    };
    exit_of(status)
}

/// All words that the system gives, or why it gives none.
fn words_in(found: io::Result<env::Args>, alloc: Global) -> Result<Vec<String>, LineFault>
    ensures words { IfOk found (λ words. IfOk result (λ read. read.items ≡ into_iter_items words)) }
    ensures memory { IfOk found (λ words. IsOkUnless result Memory) }
    ensures fault { IfErr found (λ error. IsErrAnd result (IsReadingFault error)) }
{
    match found {
        Ok(words) => Ok(words.collect(alloc)?),
        Err(error) => Err(reading_fault(error.kind() == ErrorKind::OutOfMemory, not_text(alloc))),
    }
}

/// The words of the command line.
fn words_of(rt: &(impl env::Env + AllocGlobal)) -> Result<Vec<String>, LineFault> {
    words_in(env::args(rt), rt.alloc())
}

/// Runs the program on the system's command line, files and streams, and returns its exit code: what `main` does.
pub fn run_of<R: AllocGlobal + env::Env + std::rt::Files + Clock + Threads + Wait + Sync>(
    rt: &R,
    out: Stdout,
    err: Stderr,
) -> ExitCode
    ensures { exit_status result ≤ 3 }
{
    let alloc = rt.alloc();
    let heaps = Heaps {
        images: alloc,
        texts: alloc,
    };
    let (files, meter) = (HostFiles::new(rt), TerminalMeter::new(rt, err));
    let is_terminal = out.is_terminal();
    let (mut out, mut err) = (Stream::new(out, is_terminal), Stream::new(err, false));
    run_words(rt, heaps, words_of(rt), &files, &meter, &mut out, &mut err)
}
