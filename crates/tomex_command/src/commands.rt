//! A whole run of the program, over any files and sinks: what it prints, and its exit status.
//!
//! Views of a study have one text (`view.rt`), and so have views of one run of it (`run_view.rt`); each other command's
//! text has a file here. A further command is a further view or file, and a line in `text_of`.

ghost use Rattle.std.specs.Prelude.{◌≡◌, ◌≤◌, ◌⊎◌, ◌&&◌, map, string_bytes, IfOk, IfErr, OnOk};
ghost use Rattle.tomex_command.specs.Commands.{IsDone, IsFailure, IsCarriedOut, IsLeft, IsEnd, prints_image};

pub mod all;
pub mod animate;
pub mod chosen;
pub mod cut;
pub mod explain;
pub mod explore;
pub mod find;
pub mod functions;
pub mod image;
pub mod parts;
pub mod path;
pub mod pipeline;
pub mod reading;
pub mod run;
pub mod run_view;
pub mod stalls;
pub mod study;
pub mod tables;
pub mod view;

use crate::failure::Failure;
use crate::heaps::Heaps;
use crate::reporting::{report_failure, report_line_fault};
use all::text_of_all;
use chosen::row_name;
use cut::text_of_cut;
use explain::text_of_explain;
use explore::text_of_explore;
use find::text_of_find;
use functions::text_of_functions;
use parts::text_of_parts;
use run::text_of_run;
use run_view::{RunView, text_of_run_view};
use std::alloc::{Allocator, Global};
use std::sync::Wait;
use std::thread::Threads;
use tomex_command_line::{Line, read_line};
use tomex_streams::{Files, Meter, Sink, write_all_of};
use tomex_views::{ChoicesView, StudyView, SurveyView};
use view::{form_of, page_view, plot_view, table_view, text_of_view};

/// The text that a line asks for.
fn text_of<
    R: Threads + Wait + Sync,
    F: Files,
    A: Allocator + Clone + Send + Sync + Drop,
    M: Meter + Sync,
>(
    rt: &R,
    alloc: A,
    heap: Global,
    line: Line<'_>,
    files: &F,
    meter: &M,
) -> Result<Vec<u8, A>, Failure>
    ensures text { IfOk result (λ text. IsDone (F.file files.now) line.entry text.items) }
    ensures failure { IfErr result (λ failure. IsFailure (F.file files.now) line.entry failure) }
{
    match line {
        Line::Run(line) => text_of_run(alloc, heap, line, files),
        Line::Parts(line) => text_of_parts(alloc, heap, line, files, meter),
        Line::Cut(line) => text_of_cut(alloc, heap, line, files, meter),
        Line::Times(run) => text_of_run_view(alloc, heap, RunView::Times(run), files),
        Line::Stalls(line) => text_of_run_view(alloc, heap, RunView::Stalls(line), files),
        Line::Path(line) => text_of_run_view(alloc, heap, RunView::Path(line), files),
        Line::Loops(run) => text_of_run_view(alloc, heap, RunView::Loops(run), files),
        Line::Pipeline(line) => text_of_run_view(alloc, heap, RunView::Pipeline(line), files),
        Line::Tables(line) => text_of_run_view(alloc, heap, RunView::Tables(line), files),
        Line::Animate(line) => text_of_run_view(alloc, heap, RunView::Animate(line), files),
        Line::All(line) => text_of_all(rt, alloc, heap, line, files, meter),
        Line::Explore(line) => text_of_explore(rt, alloc, heap, line, files, meter),
        Line::Front(line) => {
            let view = StudyView::Survey(table_view(line.hull));
            text_of_view(rt, alloc, heap, line.explore, files, meter, view)
        }
        Line::Plot(line) => {
            let view = StudyView::Survey(plot_view(line.all));
            text_of_view(rt, alloc, heap, line.explore, files, meter, view)
        }
        Line::Rows(line) => {
            let view = StudyView::Survey(SurveyView::Rows);
            text_of_view(rt, alloc, heap, line, files, meter, view)
        }
        Line::Worth(line) => {
            let row = row_name(line.config);
            let view = StudyView::Survey(SurveyView::Worth(row, form_of(line.csv)));
            text_of_view(rt, alloc, heap, line.explore, files, meter, view)
        }
        Line::Choices(line) => {
            let view = StudyView::Choices(ChoicesView::Lists(form_of(line.csv)));
            text_of_view(rt, alloc, heap, line.explore, files, meter, view)
        }
        Line::Prices(line) => {
            let view = StudyView::Survey(SurveyView::Prices(form_of(line.csv)));
            text_of_view(rt, alloc, heap, line.explore, files, meter, view)
        }
        Line::Weights(line) => {
            let view = StudyView::Survey(SurveyView::Weights(form_of(line.csv)));
            text_of_view(rt, alloc, heap, line.explore, files, meter, view)
        }
        Line::Compare(line) => {
            let (old, new) = (line.builds.old, line.builds.new);
            let view = StudyView::Survey(SurveyView::Compare(old, new, form_of(line.csv)));
            text_of_view(rt, alloc, heap, line.explore, files, meter, view)
        }
        Line::Functions(line) => text_of_functions(alloc, heap, line, files),
        Line::Page(line) => {
            let view = page_view(line);
            text_of_view(rt, alloc, heap, line.explore, files, meter, view)
        }
        Line::Find(line) => text_of_find(alloc, heap, line, files),
        Line::Explain(line) => text_of_explain(alloc, heap, &line),
    }
}

/// True if a line's command prints an image, which isn't text, and the output is a terminal.
fn is_unfit(terminal: bool, line: &Line<'_>) -> bool
    ensures { result ≡ (terminal && prints_image line.now) }
{
    terminal && matches!(line, Line::Cut(_))
}

/// Writes the text that a line asks for; nothing is written before the whole text is made. An image isn't made for a
/// terminal.
fn carry_out<
    R: Threads + Wait + Sync,
    F: Files,
    O: Sink,
    A: Allocator + Clone + Send + Sync + Drop,
    M: Meter + Sync,
>(
    rt: &R,
    alloc: A,
    heap: Global,
    line: Line<'_>,
    files: &F,
    meter: &M,
    out: &mut O,
) -> Result<(), Failure>
    ensures done { OnOk result (IsCarriedOut (F.file files.now) (O.terminal out.old) line.entry
        (O.seen out.old) (O.seen out.new)) }
    ensures left { IfErr result (λ failure. IsLeft (F.file files.now) (O.terminal out.old) line.entry failure
        (O.seen out.old) (O.seen out.new)) }
{
    if is_unfit(out.is_terminal(), &line) {
        return Err(Failure::OnTerminal);
    }
    let text = text_of(rt, alloc, heap, line, files, meter)?;
    match write_all_of(out, text.as_slice()) {
        Ok(()) => Ok(()),
        Err(_) => Err(Failure::CannotWrite),
    }
}

/// Runs the program on a command line, the program's own name first, and returns its exit status: 0
/// done, 1 refused input, 2 a refused command line, 3 memory, a thread, a file or a device.
///
/// While a study's rows are explored, their progress is reported to `meter`, and a refusal is too, after its line.
/// Results and help go to `out`. Error messages go to `err`: one line `tomex: ..` with 1 and 3, the parser's text with
/// 2.
pub fn command<
    R: Threads + Wait + Sync,
    F: Files,
    O: Sink,
    E: Sink,
    A: Allocator + Clone + Send + Sync + Drop,
    M: Meter + Sync,
>(rt: &R, heaps: Heaps<A>, words: &[String], files: &F, meter: &M, out: &mut O, err: &mut E) -> u8
    ensures end { IsEnd (map string_bytes words.now) (F.file files.now) (O.terminal out.old) result
        (O.seen out.old) (O.seen out.new)
        (E.seen err.old) (E.seen err.new) }
    ensures statuses { result ≤ 3 }

    // If the input or the line is refused, nothing is written to the standard output; only a whole
    // text is done.
    ensures refused { (result ≡ 1) ⊎ (result ≡ 2)
        → (O.seen out.new).taken ≡ (O.seen out.old).taken }
    ensures done { result ≡ 0 → (O.seen out.new).faults ≡ (O.seen out.old).faults }
{
    let Heaps { images, texts } = heaps;
    match read_line(texts, words) {
        Ok(line) => match carry_out(rt, images, texts, line, files, meter, out) {
            Ok(()) => 0,
            Err(failure) => {
                let status = report_failure(texts, &failure, err);
                meter.hint();
                status
            }
        },
        Err(fault) => report_line_fault(&fault, out, err),
    }
}
