//! `loops STUDY CONFIG PROGRAM`
ghost use Rattle.std.specs.Prelude.{◌≡◌, IfOk};
ghost use Rattle.tomex_command_line.specs.Grammar.{loops_shape};
ghost use Rattle.clap.specs.Simple.{shape_of};

use super::one_run::on_one_run;
use super::texts::Texts;
use clap::Command;
use std::alloc::{AllocError, Global};

const ABOUT: &str =
    "Prints a run's loops: how often each goes round, in how many cycles, and what holds it";

const LONG_ABOUT: &str =
    "Prints the loops of a program's run on one of the study's configurations: how
often each goes round, in exactly how many cycles, how many of these no machine
can save, and what holds the others.

STUDY is a TOML document that names programs, prices, axes and unit options;
its files are read from the current folder. CONFIG is a configuration of it:
its number, from 0, as `tomex front` prints it, or choices that only it has,
joined by commas, as in alu=2,mul=2; `tomex find` lists configurations by
choices. PROGRAM is the name of a program of the study; a name that begins with
`-` must follow `--`.

A loop is found in the run: a call comes again to a place that it was at since
its last round. `pc` is the loop's head, the place at which the run was first.

The report is CSV: a header, and a record for each loop, those with the most
cycles of their own first. `first` and `last` are the least and the greatest
address in the loop, calls not counted, `in` is the head of the loop around it.
`entered` is how often the run came to the loop from outside, `iterations` how
often it came to its head. `cycles` are those from the head's issue to the issue
of what comes after the loop; `own` leaves out the loops inside; `floor` is how
many of its own cycles no machine saves, with these latencies and at most this
issue width.

A round is an iteration that another one follows. `least`, `median` and `most`
are the cycles of the rounds, `usual` is the count that most rounds have, and
`alike` how many have it. `pattern` is what the rounds repeat in the end, as
`8 12`. `path` has the cycles of the run's critical path in the loop, by what
held them, as in `tomex path`.

Then come the instructions outside of all loops, as `-`, and the total. `own`,
`floor` and `path` add up to it.";

const AFTER_LONG_HELP: &str = "Exit status:
  0  the report was written
  1  the study or a program of it was refused, or has no such row or program
  2  the command line was refused
  3  memory, a file or a device was refused

Example, in the folder `examples`:
  tomex loops explore.toml 132 matrix

prints a line for each loop, first
  00011260,00011260,000112fc,_start,00011224,12,144,5760,18432,18432,5904,..
and last the total:
  total,-,-,-,-,-,-,6625,20826,20826,6798,-,-,-,-,-,-,mul=15840 width=1562 ..";

const TEXTS: Texts = Texts {
    about: ABOUT,
    long_about: LONG_ABOUT,
    after_long_help: AFTER_LONG_HELP,
};

pub(super) fn grammar<'a>(alloc: Global) -> Result<Command<'a>, AllocError>
    ensures { IfOk result (λ c. shape_of c ≡ loops_shape) }
{
    on_one_run(alloc, "loops", TEXTS)
}
