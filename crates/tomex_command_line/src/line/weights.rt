//! `weights STUDY [--workers N] [--csv]`
ghost use Rattle.std.specs.Prelude.{◌≡◌, IfOk};
ghost use Rattle.clap.specs.Simple.{shape_of};
ghost use Rattle.tomex_command_line.specs.Grammar.{weights_shape};

use super::table_or_csv::grammar_of;
use super::texts::Texts;
use clap::Command;
use std::alloc::{AllocError, Global};

const ABOUT: &str = "Prints the weights of the programs for which each row is on the front";

const LONG_ABOUT: &str =
    "Prints between which values of each program's weight a configuration is on the
front, all other weights being as the study states them; and by how many percent
all weights may be wrong at once. Only their proportions matter, so weights are
printed in hundredths: 2.13 is 2 and 13 hundredths.

The first line has the programs; one that takes equally many cycles on all
configurations changes no front, and has no column. The second line has the
weights as stated. Then comes a line for each configuration that is on the
front, or would be if one of the weights were another. Under a program:
  0.17..46.88  it is on the front if the weight is at least 0.17 and at most
               46.88, all other weights as stated
  ..5.54       if it is at most 5.54, even 0.01
  2.18..       if it is at least 2.18, up to 1000
  any          whatever the weight is
  -            for no weight of this program
Under `all` is the greatest percentage by which all weights may be wrong, each in
its own direction, without taking the configuration off the front; `-` if it
isn't on it as the weights are stated.

With --csv the table is printed as CSV: row, cost, cycles, front, all, program,
weight, low, high. It has a record for each configuration of the table and each
program for some weight of which it is on the front, from `low` to `high`;
`front` is 1 on the front, else 0. A number has no `+`, and what isn't there is
empty.

STUDY is a TOML document that names programs, prices, axes and unit options;
its files are read from the current folder. docs/STUDIES.md lists the keys of a
study, and reads such a table.";

const AFTER_LONG_HELP: &str = "Exit status:
  0  the table was written
  1  the study or a program of it was refused
  2  the command line was refused
  3  memory, a file or a device was refused

Examples, in the folder `examples`:
  tomex weights explore.toml

prints a table that begins with
  row  cost  cycles  all        primes      matrix
  now     -       -    -             1           1
    4   101   54153  any           any         any
  132   107   44727  99%           any         any
   68   109   48969    -        ..0.45      2.18..";

const TEXTS: Texts = Texts {
    about: ABOUT,
    long_about: LONG_ABOUT,
    after_long_help: AFTER_LONG_HELP,
};

pub(super) fn grammar<'a>(alloc: Global) -> Result<Command<'a>, AllocError>
    ensures { IfOk result (λ c. shape_of c ≡ weights_shape) }
{
    grammar_of(alloc, "weights", TEXTS)
}
