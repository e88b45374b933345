//! `rows STUDY [--workers N]`
ghost use Rattle.std.specs.Prelude.{◌≡◌, IfOk};
ghost use Rattle.clap.specs.Simple.{shape_of};
ghost use Rattle.tomex_command_line.specs.Grammar.{rows_shape};

use super::explore::study_and_workers;
use super::texts::Texts;
use clap::Command;
use std::alloc::{AllocError, Global};

const ABOUT: &str = "Prints the cycles of every configuration of a study";

const LONG_ABOUT: &str =
    "Prints the cost and the exact cycles of every configuration of a study, each
program's own cycles on it, and whether it is on the front and on its hull.

Most programs aren't evaluated on most configurations: their cycles follow from
those on another one. The number of workers doesn't change the report.

STUDY is a TOML document that names programs, prices, axes and unit options;
its files are read from the current folder. docs/STUDIES.md lists the keys of a
study.

The report is CSV: a header, and a record for each configuration, by number. Its
first columns are those of `explore`. Then come each program's cycles, which
aren't multiplied by its weight, and last `front`, which is 1 on the front, and
`hull`, which is 1 on its hull, and else 0.";

const AFTER_LONG_HELP: &str = "Exit status:
  0  the report was written
  1  the study or a program of it was refused
  2  the command line was refused
  3  memory, a file or a device was refused

Examples, in the folder `examples`:
  tomex rows study.toml
  tomex rows explore.toml --workers 4

print a header, and a line for each configuration, such as
  4,85,8,2,1,1,1,1,1,1,1,1,3,1,1,1,1,1,1,1,8,1,1";

const TEXTS: Texts = Texts {
    about: ABOUT,
    long_about: LONG_ABOUT,
    after_long_help: AFTER_LONG_HELP,
};

pub(super) fn grammar<'a>(alloc: Global) -> Result<Command<'a>, AllocError>
    ensures { IfOk result (λ c. shape_of c ≡ rows_shape) }
{
    study_and_workers(alloc, "rows", TEXTS)
}
