//! `prices STUDY [--workers N] [--csv]`
ghost use Rattle.std.specs.Prelude.{◌≡◌, IfOk};
ghost use Rattle.clap.specs.Simple.{shape_of};
ghost use Rattle.tomex_command_line.specs.Grammar.{prices_shape};

use super::table_or_csv::grammar_of;
use super::texts::Texts;
use clap::Command;
use std::alloc::{AllocError, Global};

const ABOUT: &str = "Prints the prices for which each row of the front stays on it";

const LONG_ABOUT: &str =
    "Prints, for each configuration on the front, between which values of each price
it stays on the front, all other prices being as the study states them; and by
how many percent all prices may be wrong at once.

The first line has the names of the prices: that of a station of each pool, of
each option of a kind of unit, such as `mul:1@8` for one unit of latency 8, of a
bus and of the width. A price that all configurations pay equally often changes
no front, and has no column. The second line has the prices as stated. Then
comes a line for each configuration on the front. Under a price:
  2..11  it stays if the price is at least 2 and at most 11
  ..11   if it is at most 11, even 0
  2..    if it is at least 2, up to the limit of prices, 1000000
  any    whatever the price is
Under `all` is the greatest percentage by which all prices may be wrong, each in
its own direction, without taking the configuration off the front.

With --csv the table is printed as CSV: row, cost, cycles, all, price, now, low,
high. It has a record for each configuration on the front and each price that
has a column. `low` and `high` are the ends of the interval. A number has no
`+`, and what isn't there is empty.

STUDY is a TOML document that names programs, prices, axes and unit options;
its files are read from the current folder. docs/STUDIES.md lists the keys of a
study, and reads such a table.

A table of more than 262144 intervals is refused.";

const AFTER_LONG_HELP: &str = "Exit status:
  0  the table was written
  1  the study or a program of it was refused, or the table is too large
  2  the command line was refused
  3  memory, a file or a device was refused

Examples, in the folder `examples`:
  tomex prices study.toml

prints
  row  cost  cycles  all   alu  mul:1@3  mul:1@6  bus
  now     -       -    -    10       40       15   25
    2    50      13  45%   1..     16..     ..39  any
    6    60      11  23%  ..24     26..     ..29  any
    0    75      10  99%   1..      any      any  any
    4    85       8  any   any      any      any  any";

const TEXTS: Texts = Texts {
    about: ABOUT,
    long_about: LONG_ABOUT,
    after_long_help: AFTER_LONG_HELP,
};

pub(super) fn grammar<'a>(alloc: Global) -> Result<Command<'a>, AllocError>
    ensures { IfOk result (λ c. shape_of c ≡ prices_shape) }
{
    grammar_of(alloc, "prices", TEXTS)
}
