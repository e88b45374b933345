//! `plot STUDY [--workers N] [--rows]`
ghost use Rattle.std.specs.Prelude.{◌≡◌, IfOk, IfErr};
ghost use Rattle.tomex_arguments.specs.Faults.{IsRefusedIf};
ghost use Rattle.tomex_command_line.specs.Grammar.{plot_shape};
ghost use Rattle.clap.specs.Simple.{shape_of};
ghost use Rattle.clap.specs.Words.{found_of};
ghost use Rattle.clap.specs.Walk.{rows_of};
ghost use Rattle.tomex_command_line.specs.Values.{IsPlotAsked, IsNoPlot};

use super::explore::{ExploreLine, line_of as explore_of, on_rows};
use super::texts::{Texts, with_argument};
use super::values::flag;
use clap::{ArgMatches, Command};
use std::alloc::{AllocError, Global};
use tomex_arguments::{LineFault, flag_of};

/// A request for a picture.
#[derive(Clone, Copy)]
pub struct PlotLine<'a> {
    pub explore: ExploreLine<'a>,
    /// True if every row is drawn, and not only those of the front.
    pub all: bool,
}

const ABOUT: &str = "Explores the configurations of a study and draws the front";

const LONG_ABOUT: &str =
    "Explores a study as `explore` does, and prints the front as a picture in SVG,
720 by 440 points: cost from left to right, cycles from bottom to top, a filled
circle for each step worth taking (a row of `front --hull`), a hollow one for
each other row of the front, and a staircase through them. All other
configurations lie on or above the staircase, in the part that is shaded. Both
axes have round numbers, and need not begin at 0.

The number beside a circle is that of its configuration; if circles are close
together, only some have one. In a browser a circle shows its configuration,
cost and cycles when it is pointed at. The picture has no script,
style sheet or font from elsewhere.

With --rows each configuration of the study is a faint dot behind the front, and
the axes span all of them. `rows` prints their numbers.

STUDY is a TOML document that names programs, prices, axes and unit options;
its files are read from the current folder. docs/STUDIES.md lists the keys of a
study.";

const AFTER_LONG_HELP: &str = "Exit status:
  0  the picture was written
  1  the study or a program of it was refused
  2  the command line was refused
  3  memory, a thread, a file or a device was refused

Examples, in the folder `examples`:
  tomex plot study.toml
  tomex plot explore.toml --workers 4
  tomex plot explore.toml --rows

print a picture that begins
  <svg xmlns=\"http://www.w3.org/2000/svg\" width=\"720\" height=\"440\" ..";

const TEXTS: Texts = Texts {
    about: ABOUT,
    long_about: LONG_ABOUT,
    after_long_help: AFTER_LONG_HELP,
};

const ROWS_HELP: &str = "Draw every configuration, and not only the front";

pub(super) fn grammar<'a>(alloc: Global) -> Result<Command<'a>, AllocError>
    ensures { IfOk result (λ c. shape_of c ≡ plot_shape) }
{
    let command = on_rows(alloc, "plot", TEXTS);
    with_argument(command, flag(alloc, "rows", ROWS_HELP))
}

pub(super) fn line_of<'a>(
    alloc: Global,
    matches: &ArgMatches<'a>,
) -> Result<PlotLine<'a>, LineFault>
    ensures line { IfOk result (λ line. IsPlotAsked (rows_of (found_of matches.now))
        line.explore.study.now line.explore.workers line.all) }
    ensures refused { IfErr result (IsRefusedIf (IsNoPlot (rows_of (found_of matches.now)))) }
{
    Ok(PlotLine {
        explore: explore_of(alloc, matches)?,
        all: flag_of(matches, "rows"),
    })
}
