//! What is reported on the streams if there is no result.
ghost use Rattle.std.specs.Prelude.{◌≡◌, codes, IfOk, OnErr, string_bytes};
ghost use Rattle.tomex_streams.specs.Sinks.{IsWritten};
ghost use Rattle.tomex_command.specs.Statuses.{status_of_failure};
ghost use Rattle.tomex_command.specs.Reporting.{IsTextOf, IsLineOf, IsFailureReported, IsSaid, IsFaultReported};
ghost use Rattle.tomex_command.specs.Reporting.{line_of};

use crate::failure::Failure;
use std::alloc::{AllocError, Global};
use tomex_arguments::LineFault;
use tomex_layout::shown_name;
use tomex_streams::{Sink, write_all_of};

/// Writes a text as far as the sink takes it.
fn write_text<W: Sink>(sink: &mut W, text: &[u8])
    ensures { IsWritten text.now (W.seen sink.old) (W.seen sink.new) }
{
    let _ = write_all_of(sink, text);
}

/// Writes that memory was refused.
fn write_out_of_memory<E: Sink>(err: &mut E)
    ensures { IsWritten (line_of (codes "out of memory")) (E.seen err.old) (E.seen err.new) }
{
    write_text(err, "tomex: out of memory\n".as_bytes());
}

/// Writes that the standard output failed.
fn write_cannot_write<E: Sink>(err: &mut E)
    ensures { IsWritten (line_of (codes "cannot write")) (E.seen err.old) (E.seen err.new) }
{
    write_text(err, "tomex: cannot write\n".as_bytes());
}

/// Reports why a line asks for no command, and answers the exit status: help on the output, all else on
/// the error stream. A failed write to the error stream changes no status.
pub fn report_line_fault<O: Sink, E: Sink>(fault: &LineFault, out: &mut O, err: &mut E) -> u8
    ensures reported { IsFaultReported fault.now result (O.seen out.old) (O.seen out.new) }
    ensures said { IsSaid fault.now result (E.seen err.old) (E.seen err.new) }
{
    match fault {
        LineFault::Help(text) => {
            if write_all_of(out, text.as_bytes()).is_err() {
                write_cannot_write(err);
                return 3;
            }
        }
        LineFault::Usage(text) => write_text(err, text.as_bytes()),
        LineFault::Memory => write_out_of_memory(err),
    }
    fault.status()
}

/// The text of a failure.
fn text_of(heap: Global, failure: &Failure) -> Result<String, AllocError>
    ensures { IfOk result (λ text. IsTextOf failure.now (string_bytes text)) }
{
    match failure {
        Failure::BadWindow => String::from_str(heap, "bad window"),
        Failure::Run(refusal) => format!(in heap; "{refusal}"),
        Failure::Study(error) => format!(in heap; "{error}"),
        Failure::NoSuchRow => String::from_str(heap, "no such row"),
        Failure::SeveralRows(rows) => format!(in heap; "several rows: {rows}"),
        Failure::NoSuchProgram => String::from_str(heap, "no such program"),
        Failure::NoSymbols => String::from_str(heap, "no symbols"),
        Failure::CyclePastEnd => String::from_str(heap, "cycle past the end"),
        Failure::NoSuchStep => String::from_str(heap, "no such step"),
        Failure::NoEnd => String::from_str(heap, "no end"),
        Failure::CodeOverwritten => String::from_str(heap, "code overwritten"),
        Failure::NoRoom => String::from_str(heap, "no room"),
        Failure::PictureTooLarge => String::from_str(heap, "picture too large"),
        Failure::TableTooLarge => String::from_str(heap, "table too large"),
        Failure::NoSuchChoice(choice) => {
            let choice = shown_name(heap, choice.as_str())?;
            format!(in heap; "no such choice: {choice}")
        }
        Failure::NoSuchRefusal => String::from_str(heap, "no such refusal"),
        Failure::CannotRead(name) => {
            let name = shown_name(heap, name.as_str())?;
            format!(in heap; "cannot read {name}")
        }
        Failure::CannotWrite => String::from_str(heap, "cannot write"),
        Failure::OnTerminal => String::from_str(heap, "output is a terminal"),
        Failure::Memory => String::from_str(heap, "out of memory"),
        Failure::Worker => String::from_str(heap, "thread refused"),
    }
}

/// The line of a failure.
fn line_of(heap: Global, failure: &Failure) -> Result<String, AllocError>
    ensures { IfOk result (λ line. IsLineOf failure.now (string_bytes line)) }
{
    let text = text_of(heap, failure)?;
    format!(in heap; "tomex: {text}\n")
}

/// Writes a failure's line, and answers its status. If there was no memory for the line, it says that in its place.
fn report_line<E: Sink>(line: Result<String, AllocError>, failure: &Failure, err: &mut E) -> u8
    ensures line { IfOk line (λ line. (result ≡ status_of_failure failure.now)
        × IsWritten (string_bytes line) (E.seen err.old) (E.seen err.new)) }
    ensures no_line { OnErr line ((result ≡ 3)
        × IsWritten (line_of (codes "out of memory")) (E.seen err.old) (E.seen err.new)) }
{
    match line {
        Ok(line) => {
            write_text(err, line.as_bytes());
            failure.status()
        }
        Err(_) => {
            write_out_of_memory(err);
            3
        }
    }
}

/// Reports a failure on the standard error, and answers its status. A line that can't be written changes no status;
/// one that there is no memory for becomes `out of memory`.
pub fn report_failure<E: Sink>(heap: Global, failure: &Failure, err: &mut E) -> u8
    ensures { IsFailureReported failure.now result (E.seen err.old) (E.seen err.new) }
{
    report_line(line_of(heap, failure), failure, err)
}
