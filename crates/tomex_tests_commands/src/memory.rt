//! The text of a run, and whole runs of each command, that run out of memory. The command line takes other memory.

use crate::each_is_granted;
use crate::files::files;
use std::alloc::AllocError;
use std::test::Fail;
use tomex_command::{RunRefusal, run_text};
use tomex_image::Window;
use tomex_tests_fixtures::programs::ELF;
use tomex_tests_fixtures::{Attempt, Heap, Try, refusals};

/// Makes the text of the run.
struct Text;

impl Attempt for Text {
    fn attempt(&self, heap: Heap) -> Result<Try, AllocError> {
        let Some(window) = Window::new(65536, 4096) else {
            return Ok(Try::Wrong);
        };
        match run_text(heap, ELF.as_slice(), window, 4) {
            Ok(text) if text.ends_with(b"ebreak at 0001000c after 4\n".as_slice()) => Ok(
                Try::Answered,
            ),
            Err(RunRefusal::Memory) => Ok(Try::Refused),
            _ => Ok(Try::Wrong),
        }
    }
}

#[test]
fn of_the_text_of_a_run(rt: HostRuntime) -> Result<(), Fail> {
    // A text grows several times; the library decides how often.
    assert!(rt; refusals(rt.alloc(), &Text)? > Some(2));
    Ok(())
}

/// Lines on one program, and the least number of blocks that they need.
static ON_ONE_PROGRAM: [(&str, u64); 23] = [
    // The file's bytes, the window's, those that the run changes, and the text.
    ("tomex run image --base 65536", 4),
    // With the last uses of words, and lists of stretches, leaders and groups.
    ("tomex parts image 1 --base 65536", 8),
    // The same, with the memory before the part, its words, and the image's file in place of the text.
    ("tomex cut image 2 1 --base 65536", 6),
    // And the list of its symbols.
    ("tomex cut calls.elf 2 1 --symbols", 7),
    // The study's bytes and its file's, names, the program, rows, costs, steps, times and the text.
    ("tomex times product 1 mul", 11),
    // Choices are small values.
    ("tomex times product row=1 mul", 11),
    // All of that except the times.
    ("tomex stalls product 1 mul", 10),
    // All of that, with the waits and the places.
    ("tomex stalls product 1 mul --by-pc", 12),
    // All of that except the waits and places; the times, the width of the numbers, and each
    // number.
    ("tomex pipeline product 1 mul", 12),
    // The same, with the steps of the log and their events, but no width of numbers.
    ("tomex pipeline product 0 mul --konata", 13),
    // All of that except steps and times; the machine's memory and the text.
    ("tomex tables product 0 mul 3", 11),
    // As by place, with the symbols, the functions of the steps, the calls and the rows.
    ("tomex stalls calls 0 p --by-function", 15),
    // The same without calls and rows.
    ("tomex stalls calls 0 p --by-pc --by-function", 14),
    // As `times`, with what is noted of each step, and the links.
    ("tomex path product 1 mul", 13),
    ("tomex path product 1 mul --links", 13),
    // With the addresses, and the places.
    ("tomex path product 1 mul --by-pc", 15),
    // With the symbols, and functions of the steps in place of times.
    ("tomex path calls 0 p --links --by-function", 15),
    ("tomex path calls 0 p --by-pc --by-function", 17),
    ("tomex path calls 0 p --by-function", 17),
    // As `path`, with the way to each step, the visits, and lists of each loop.
    ("tomex loops calls 0 p", 40),
    // What `stalls --by-function` has, of both builds; names are small values.
    ("tomex functions calls 0 p p", 20),
    // A text grows several times.
    ("tomex explain image: overlap", 1),
    ("tomex explain", 1),
];

/// Lines on whole studies, and the least number of blocks that they need.
static ON_STUDIES: [(&str, u64); 26] = [
    // The dropped's bytes and its file's, names, the program, rows, costs and the text; marks, machines, the
    // front and its ends.
    ("tomex all dropped", 16),
    ("tomex explore dropped", 14),
    ("tomex explore dropped --workers 2", 14),
    // All of that, with columns of numbers and their names in place of the records.
    ("tomex front dropped", 14),
    ("tomex front dropped --hull", 14),
    // No marks, front or ends: the columns.
    ("tomex find dropped row=0", 10),
    // The front is enough.
    ("tomex plot dropped", 14),

    // The twelve's bytes and its file's, names, the program, rows, costs and the text; stretches, totals, the plateaus,
    // all rows, marks and the front.
    ("tomex rows twelve", 14),
    ("tomex rows twelve --workers 3", 14),
    // Small values aren't allocated in this memory.
    ("tomex worth twelve 4", 14),
    ("tomex choices twelve", 14),
    ("tomex prices twelve", 14),
    ("tomex weights twelve", 14),
    ("tomex compare twelve mul mul", 14),
    ("tomex worth twelve 4 --csv", 14),
    ("tomex choices twelve --csv", 14),
    ("tomex prices twelve --csv", 14),
    ("tomex weights twelve --csv", 14),
    ("tomex compare twelve mul mul --csv", 14),
    ("tomex plot twelve --rows", 14),
    ("tomex page twelve", 14),
    ("tomex page twelve --choices", 14),
    ("tomex animate twelve 4 mul --cycles 2", 14),
    ("tomex animate twelve 4 mul --cycles 2 --blank", 14),
    // Two of three programs are compared, and the third is dropped.

    ("tomex compare three a c", 14),
    ("tomex compare three c b", 14),
];

#[test]
fn of_one_program(rt: HostRuntime) -> Result<(), Fail> {
    each_is_granted(&rt, &files(), &ON_ONE_PROGRAM)
}

#[test]
fn of_studies(rt: HostRuntime) -> Result<(), Fail> {
    each_is_granted(&rt, &files(), &ON_STUDIES)
}
