//! `tables STUDY CONFIG PROGRAM CYCLE`
ghost use Rattle.std.specs.Prelude.{◌≡◌, ◌≤◌, IfOk, IfErr};
ghost use Rattle.tomex_arguments.specs.Faults.{IsRefusedIf};
ghost use Rattle.tomex_command_line.specs.Grammar.{tables_shape};
ghost use Rattle.clap.specs.Simple.{shape_of};
ghost use Rattle.clap.specs.Words.{found_of};
ghost use Rattle.clap.specs.Walk.{rows_of};
ghost use Rattle.tomex_command_line.specs.Values.{IsTablesAsked, IsNoTables};
ghost use Rattle.tomex_command_line.specs.Limits.{last_cycle};

use super::one_run::{OneRun, on_one_run, one_run_of};
use super::texts::{Texts, with_argument};
use super::values::numeral;
use clap::{ArgMatches, Command};
use std::alloc::{AllocError, Global};
use tomex_arguments::{Bounds, LineFault, number_of};

/// The cycles of a run. No program takes more: 67 for each of 262,144 instructions.
const CYCLE: Bounds = Bounds {
    least: 0,
    greatest: 17_563_648,
};

/// A request for tables.
#[derive(Clone, Copy)]
pub struct TablesLine<'a> {
    pub run: OneRun<'a>,
    /// The cycle after which the tables are shown.
    pub cycle: u32,
    pub ghost cycle_to: { cycle ≤ last_cycle },
}

const ABOUT: &str = "Prints the stations and registers after a cycle of a program";

const LONG_ABOUT: &str = "Prints the tables of Tomasulo's algorithm, as Hennessy and Patterson draw
them, after a cycle of a program's run on one of the study's configurations:
the reservation stations that are busy, with what they hold and what they wait
for, and the registers that wait for a station.

STUDY is a TOML document that names programs, prices, axes and unit options;
its files are read from the current folder. CONFIG is a configuration of it:
its number, from 0, as `tomex front` prints it, or choices that only it has,
joined by commas, as in alu=2,mul=2; `tomex find` lists configurations by
choices. PROGRAM is the name of a program of the study; a name that begins with
`-` must follow `--`. CYCLE goes from 0, before the first instruction issues,
to the run's total, which `tomex times` prints last. docs/STUDIES.md lists the
keys of a study, and docs/MACHINE.md says what the tables mean.

Numbers on the command line are decimal; in the study's TOML they may be
hexadecimal too, as in 0x10000.

The first line is the cycle. Then comes a line for each busy station, pool by
pool: its name, its instruction, and for the operands j and k the value V or
the station Q that it waits for. A is the address of a load or store, and
before its address cycle the offset. V and A are hexadecimal, and `-` means
that there is none. Last comes a line for each register that waits, with Qi,
the station of its youngest writer.";

const AFTER_LONG_HELP: &str = "Exit status:
  0  the tables were written
  1  the study or a program of it was refused, or has no such row or program,
     or its run ends before the cycle
  2  the command line was refused
  3  memory, a file or a device was refused

Example, in the folder `examples`:
  tomex tables study.toml 4 mul 3

prints
  cycle 3
  alu1 addi Vj=00000000 Vk=- Qj=- Qk=- A=-
  mul0 mul Vj=00000005 Vk=- Qj=- Qk=alu1 A=-
  x2 Qi=alu1
  x3 Qi=mul0";

const TEXTS: Texts = Texts {
    about: ABOUT,
    long_about: LONG_ABOUT,
    after_long_help: AFTER_LONG_HELP,
};

const CYCLE_HELP: &str = "The cycle after which the tables are shown, 0 for the start";

pub(super) fn grammar<'a>(alloc: Global) -> Result<Command<'a>, AllocError>
    ensures { IfOk result (λ c. shape_of c ≡ tables_shape) }
{
    let command = on_one_run(alloc, "tables", TEXTS);
    with_argument(command, numeral(alloc, "CYCLE", CYCLE, CYCLE_HELP))
}

pub(super) fn line_of<'a>(
    alloc: Global,
    matches: &ArgMatches<'a>,
) -> Result<TablesLine<'a>, LineFault>
    ensures line { IfOk result
        (λ line. IsTablesAsked (rows_of (found_of matches.now))
        line.run.study.now line.run.config line.run.program.now line.cycle) }
    ensures refused { IfErr result (IsRefusedIf (IsNoTables (rows_of (found_of matches.now)))) }
{
    Ok(TablesLine {
        run: one_run_of(alloc, matches)?,
        cycle: number_of(alloc, matches, "CYCLE", CYCLE)?,
    })
}
