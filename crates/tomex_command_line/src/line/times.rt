//! `times STUDY CONFIG PROGRAM`
ghost use Rattle.std.specs.Prelude.{◌≡◌, IfOk};
ghost use Rattle.tomex_command_line.specs.Grammar.{times_shape};
ghost use Rattle.clap.specs.Simple.{shape_of};

use super::one_run::on_one_run;
use super::texts::Texts;
use clap::Command;
use std::alloc::{AllocError, Global};

const ABOUT: &str = "Prints the cycles of each instruction on one configuration";

const LONG_ABOUT: &str = "Prints, for each instruction that a program of a study runs, the cycles in
which it issues, gets its address, starts, finishes and ends on one of the
study's configurations, and its reservation station.

STUDY is a TOML document that names programs, prices, axes and unit options;
its files are read from the current folder. CONFIG is a configuration of it:
its number, from 0, as `tomex front` prints it, or choices that only it has,
joined by commas, as in alu=2,mul=2; `tomex find` lists configurations by
choices. PROGRAM is the name of a program of the study; a name that begins with
`-` must follow `--`. docs/STUDIES.md lists the keys of a study, and
docs/MACHINE.md says what the cycles mean.

Numbers on the command line are decimal; in the study's TOML they may be
hexadecimal too, as in 0x10000.

The report is CSV: a header, a record for each instruction in program order,
and a record of the total. Steps and cycles are counted from 1; `-` means that
there is no address cycle or station.";

const AFTER_LONG_HELP: &str = "Exit status:
  0  the report was written
  1  the study or a program of it was refused, or has no such row or program
  2  the command line was refused
  3  memory, a file or a device was refused

Example, in the folder `examples`:
  tomex times study.toml 4 mul

prints a line for each instruction, such as
  3,00000008,\"mul x3,x1,x2\",3,-,5,7,8,mul0
and last the total:
  total,-,-,-,-,-,-,8,-";

const TEXTS: Texts = Texts {
    about: ABOUT,
    long_about: LONG_ABOUT,
    after_long_help: AFTER_LONG_HELP,
};

pub(super) fn grammar<'a>(alloc: Global) -> Result<Command<'a>, AllocError>
    ensures { IfOk result (λ c. shape_of c ≡ times_shape) }
{
    on_one_run(alloc, "times", TEXTS)
}
