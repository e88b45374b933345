//! `path STUDY CONFIG PROGRAM [--links] [--by-pc] [--by-function]`
ghost use Rattle.std.specs.Prelude.{◌≡◌, ◌≤◌, IfOk, IfErr};
ghost use Rattle.tomex_arguments.specs.Faults.{IsRefusedIf};
ghost use Rattle.tomex_command_line.specs.Grammar.{path_shape};
ghost use Rattle.clap.specs.Simple.{shape_of};
ghost use Rattle.clap.specs.Words.{found_of};
ghost use Rattle.clap.specs.Walk.{rows_of};
ghost use Rattle.tomex_command_line.specs.Values.{IsPathAsked, IsNoPath};

use super::one_run::{OneRun, on_one_run, one_run_of};
use super::texts::{Texts, with_argument};
use super::values::flag;
use clap::{ArgMatches, Command};
use std::alloc::{AllocError, Global};
use tomex_arguments::{LineFault, flag_of};

/// A run's path that was asked for.
#[derive(Clone, Copy)]
pub struct PathLine<'a> {
    pub run: OneRun<'a>,
    /// True if each link has a line.
    pub links: bool,
    /// True if the cycles are listed by place in the program, and not by part; `links` is finer.
    pub by_pc: bool,
    /// True if they are listed by function; with one of the others, if each line has its function.
    pub by_function: bool,
}

const ABOUT: &str = "Prints a run's critical path: why it takes exactly its cycles";

const LONG_ABOUT: &str = "Prints why a program takes exactly its cycles on one of the study's
configurations: its critical path, a chain of instructions, each of which waited
for the one before, with each cycle of the run once.

STUDY is a TOML document that names programs, prices, axes and unit options;
its files are read from the current folder. CONFIG is a configuration of it:
its number, from 0, as `tomex front` prints it, or choices that only it has,
joined by commas, as in alu=2,mul=2; `tomex find` lists configurations by
choices. PROGRAM is the name of a program of the study; a name that begins with
`-` must follow `--`.

The path begins at the end of the first instruction that ends last. What holds
its end, start or issue is an older instruction, whose event came in the cycle
before: that is the link before it, and so on back to cycle 1. A link is one
instruction, with the cycles in which it issues, computes its address, is in its
unit or has a bus; in none of them it waits.

The report is CSV: a header, and a record for each part with its count, how many
links wait for it, for how many cycles these instructions had waited for it
(what of the stalls of `tomex stalls` is on the path), and how many cycles are
the links'. Then comes the same for what is no part: an older branch, an
operand, the address of a load or store, an older access to the same bytes; and
`order`, if an instruction begins in turn, without a wait. The total has all
links; its cycles are the program's. The last five records are no summands: each
latency, how many operations of that kind the path has from start to finish, and
the product.

With --links there is a record for each link, from cycle 1 on: its instruction,
what it waited for last and how long, its cycles, and what it does in each of
them, in the signs of `tomex pipeline`.

With --by-pc the cycles are listed by place in the program, with --by-function
by function, most cycles first, by what the instructions had waited for. For
functions the program must be an ELF file with symbols. With several options the
finest counts, and --by-function adds a column.

A path isn't the only chain as long, so what a part more saves only `tomex
worth` says; docs/COMMANDS.md says what may be concluded.";

const AFTER_LONG_HELP: &str = "Exit status:
  0  the report was written
  1  the study or a program of it was refused, or has no such row or program,
     or the program's file has no symbols, with --by-function
  2  the command line was refused
  3  memory, a file or a device was refused

Examples, in the folder `examples`:
  tomex path explore.toml 132 matrix

prints a line for each part, such as
  mul,1,1584,10944,15840
whose links had waited for the one mul station; and

  tomex path explore.toml 132 matrix --by-pc

prints a line for each instruction of the path, such as
  0001126c,\"mul x21,x21,x16\",144,1440,0,0,1440,0,0,0,0,0,0";

const TEXTS: Texts = Texts {
    about: ABOUT,
    long_about: LONG_ABOUT,
    after_long_help: AFTER_LONG_HELP,
};

const LINKS_HELP: &str = "List the links, an instruction a line";

const BY_PC_HELP: &str = "List the cycles by place in the program";

const BY_FUNCTION_HELP: &str = "List the cycles by function";

pub(super) fn grammar<'a>(alloc: Global) -> Result<Command<'a>, AllocError>
    ensures { IfOk result (λ c. shape_of c ≡ path_shape) }
{
    let command = on_one_run(alloc, "path", TEXTS);
    let command = with_argument(command, flag(alloc, "links", LINKS_HELP));
    let command = with_argument(command, flag(alloc, "by-pc", BY_PC_HELP));
    with_argument(command, flag(alloc, "by-function", BY_FUNCTION_HELP))
}

pub(super) fn line_of<'a>(
    alloc: Global,
    matches: &ArgMatches<'a>,
) -> Result<PathLine<'a>, LineFault>
    ensures line { IfOk result (λ line. IsPathAsked (rows_of (found_of matches.now))
        line.run.study.now line.run.config line.run.program.now line.links line.by_pc line.by_function) }
    ensures refused { IfErr result (IsRefusedIf (IsNoPath (rows_of (found_of matches.now)))) }
{
    Ok(PathLine {
        run: one_run_of(alloc, matches)?,
        links: flag_of(matches, "links"),
        by_pc: flag_of(matches, "by-pc"),
        by_function: flag_of(matches, "by-function"),
    })
}
