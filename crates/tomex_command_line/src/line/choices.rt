//! `choices STUDY [--workers N] [--csv]`
ghost use Rattle.std.specs.Prelude.{◌≡◌, IfOk};
ghost use Rattle.clap.specs.Simple.{shape_of};
ghost use Rattle.tomex_command_line.specs.Grammar.{choices_shape};

use super::table_or_csv::grammar_of;
use super::texts::Texts;
use clap::Command;
use std::alloc::{AllocError, Global};

const ABOUT: &str = "Prints which choices of each list are of use, and which it lacks";

const LONG_ABOUT: &str = "Prints, for each list of a study, whether its choices were well chosen:
  front   the choices that some configuration of the front has
  unused  the others: without them the front stays the same
  add     the choices that the list lacks and that would bring something to the
          front, each with everything else as the study has it; of units only
          more of a latency that the list has, at the price of the cheapest
          choice with the most units of that latency
  %       by how much they make the fewest cycles that a cost buys fewer, at the
          cost at which that is the most
  cost    the least such cost
  enough  the number from which on more of the part change no cycles of any
          program on any configuration, whatever the prices are
A choice of units is written as in 2@3 for two units of latency 3; `-` stands
for nothing, and under `enough` if even the most that a study can have may not
be enough. Each list is asked with the others as they are: two lists together
may bring more than each of them.

The last line has the fewest cycles of any configuration, and the floor: with
the latencies and the widths that the study has, no machine takes fewer, however
many stations, units and buses it has; and the floor at any width up to 4.

With --csv the lines of the lists are printed as CSV: list, front, unused, add,
percent, cost, enough. Choices have a space between them. A number has no `+`,
and what isn't there is empty.

STUDY is a TOML document that names programs, prices, axes and unit options;
its files are read from the current folder. docs/STUDIES.md lists the keys of a
study, and reads such a table.";

const AFTER_LONG_HELP: &str = "Exit status:
  0  the table was written
  1  the study or a program of it was refused
  2  the command line was refused
  3  memory, a file or a device was refused

Examples, in the folder `examples`:
  tomex choices study.toml

prints a table with a line for each list, which begins and ends with
      list    front  unused  add  %  cost  enough
       alu      1,2       4    -  0     -       2
     width        1       -    -  0     -       1
  fastest 8, floor 8 (0%), at any width 7 (-12.5%)";

const TEXTS: Texts = Texts {
    about: ABOUT,
    long_about: LONG_ABOUT,
    after_long_help: AFTER_LONG_HELP,
};

pub(super) fn grammar<'a>(alloc: Global) -> Result<Command<'a>, AllocError>
    ensures { IfOk result (λ c. shape_of c ≡ choices_shape) }
{
    grammar_of(alloc, "choices", TEXTS)
}
