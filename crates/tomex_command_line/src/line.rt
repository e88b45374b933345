//! The command line, read by `clap`. No other part of the program knows of `clap`.
//!
//! Each command has a file here with two functions: `grammar`, what `clap` reads and prints in its
//! help, and `line_of`, what was read. A further command is a further file, a variant of `Line` and
//! of `CommandName`, and a line in each of `grammar` and `line_with` below.
ghost use Rattle.std.specs.Prelude.{◌≡◌, [], IfOk, IfErr, map, string_bytes};
ghost use Rattle.tomex_arguments.specs.Faults.{IsRefusedIf};
ghost use Rattle.tomex_command_line.specs.Grammar.{bare_app, tomex_app};
ghost use Rattle.clap.specs.Words.{app_of, fault_of as faults_of, found_of, subcommand_rows_of};
ghost use Rattle.clap.specs.Walk.{rows_of};
ghost use Rattle.tomex_command_line.specs.Asked.{HasNoLine, IsCommand, IsAsked, IsLineOf, IsNoCommand};
ghost use Rattle.tomex_command_line.specs.Asked.{IsNoLineAsked};

pub mod all;
pub mod animate;
pub mod builds;
mod choices;
mod command_name;
pub mod compare;
pub mod config;
pub mod cut;
pub mod explain;
pub mod explore;
pub mod find;
pub mod front;
pub mod functions;
pub mod image;
mod loops;
pub mod one_run;
pub mod page;
pub mod parts;
pub mod path;
pub mod pipeline;
pub mod plot;
mod prices;
mod rows;
pub mod run;
pub mod stalls;
pub mod table_or_csv;
pub mod tables;
mod texts;
mod times;
mod values;
mod weights;
pub mod worth;

use all::AllLine;
use animate::AnimateLine;
use clap::{ArgMatches, Command};
use command_name::{CommandName, command_named};
use compare::CompareLine;
use cut::CutLine;
use explain::ExplainLine;
use explore::ExploreLine;
use find::FindLine;
use front::FrontLine;
use functions::FunctionsLine;
use one_run::{OneRun, one_run_of};
use page::PageLine;
use parts::PartsLine;
use path::PathLine;
use pipeline::PipelineLine;
use plot::PlotLine;
use run::RunLine;
use stalls::StallsLine;
use std::alloc::{AllocError, Global};
use table_or_csv::TableLine;
use tables::TablesLine;
use texts::with_command;
use tomex_arguments::{LineFault, fault_of, refusal_of};
use worth::WorthLine;

/// A request, as read from the command line.
#[derive(Drop)]
pub enum Line<'a> {
    Run(RunLine<'a>),
    Parts(PartsLine<'a>),
    Cut(CutLine<'a>),
    Times(OneRun<'a>),
    Stalls(StallsLine<'a>),
    Path(PathLine<'a>),
    Loops(OneRun<'a>),
    Pipeline(PipelineLine<'a>),
    Tables(TablesLine<'a>),
    Animate(AnimateLine<'a>),
    All(AllLine<'a>),
    Explore(ExploreLine<'a>),
    Front(FrontLine<'a>),
    Plot(PlotLine<'a>),
    Rows(ExploreLine<'a>),
    Worth(WorthLine<'a>),
    Choices(TableLine<'a>),
    Prices(TableLine<'a>),
    Weights(TableLine<'a>),
    Compare(CompareLine<'a>),
    Functions(FunctionsLine<'a>),
    Page(PageLine<'a>),
    Find(FindLine<'a>),
    Explain(ExplainLine),
}

const ABOUT: &str = "Runs RV32IM programs, and explores Tomasulo processors that run them";

const LONG_ABOUT: &str = "Runs RV32IM programs in order, and explores Tomasulo processors without
speculation that run them.

The commands come in this order: a program and parts of it (`run`, `parts`,
`cut`), one run on a machine (`times` to `animate`), why it takes its cycles
(`stalls`, `path`, `loops`), which machine (`front` to `page`), is it safe
(`worth` to `weights`), two builds (`compare`, `functions`), for scripts
(`explore`, `all`), help (`explain`).

A command writes nothing to standard output until its whole result is ready.
Errors are reported on standard error.";

const AFTER_LONG_HELP: &str = "Exit status:
  0  the result was written, or help
  1  the input was refused
  2  the command line was refused
  3  memory, a thread, a file or a device was refused

Examples, in the folder `examples`:
  tomex run mul.bin --size 4096
  tomex parts primes.elf 1000 --base 65536 --size 262144
  tomex cut primes.elf 5001 1000 --base 65536 --size 262144 > part.elf
  tomex times study.toml 4 mul
  tomex pipeline study.toml 4 mul
  tomex tables study.toml 4 mul 3
  tomex animate study.toml 4 mul > mul.html
  tomex stalls study.toml 4 mul
  tomex path study.toml 4 mul
  tomex loops explore.toml 132 matrix
  tomex front explore.toml --workers 4
  tomex plot explore.toml --workers 4
  tomex rows explore.toml --workers 4
  tomex find explore.toml alu=2 mul=2
  tomex page explore.toml > explore.html
  tomex worth explore.toml 132
  tomex choices explore.toml --workers 4
  tomex prices explore.toml
  tomex weights explore.toml
  tomex compare builds.toml o2 o3
  tomex functions builds.toml 167 o2 o3
  tomex explore explore.toml --workers 4
  tomex all study.toml
  tomex explain image: segment

Numbers on the command line are decimal; in a study's TOML they may be
hexadecimal too, as in 0x10000.";

/// The program without its commands.
fn without_commands<'a>(alloc: Global) -> Command<'a>
    ensures { app_of result ≡ bare_app }
{
    Command::new(alloc, "tomex")
        .version("0.1.0")
        .about(ABOUT)
        .long_about(LONG_ABOUT)
        .after_long_help(AFTER_LONG_HELP)
        .subcommand_required(true)
}

fn grammar<'a>(alloc: Global) -> Result<Command<'a>, AllocError>
    ensures { IfOk result (λ c. app_of c ≡ tomex_app) }
{
    let program = Ok(without_commands(alloc));
    let program = with_command(program, run::grammar(alloc));
    let program = with_command(program, parts::grammar(alloc));
    let program = with_command(program, cut::grammar(alloc));
    let program = with_command(program, times::grammar(alloc));
    let program = with_command(program, pipeline::grammar(alloc));
    let program = with_command(program, tables::grammar(alloc));
    let program = with_command(program, animate::grammar(alloc));
    let program = with_command(program, stalls::grammar(alloc));
    let program = with_command(program, path::grammar(alloc));
    let program = with_command(program, loops::grammar(alloc));
    let program = with_command(program, front::grammar(alloc));
    let program = with_command(program, plot::grammar(alloc));
    let program = with_command(program, rows::grammar(alloc));
    let program = with_command(program, find::grammar(alloc));
    let program = with_command(program, page::grammar(alloc));
    let program = with_command(program, worth::grammar(alloc));
    let program = with_command(program, choices::grammar(alloc));
    let program = with_command(program, prices::grammar(alloc));
    let program = with_command(program, weights::grammar(alloc));
    let program = with_command(program, compare::grammar(alloc));
    let program = with_command(program, functions::grammar(alloc));
    let program = with_command(program, explore::grammar(alloc));
    let program = with_command(program, all::grammar(alloc));
    with_command(program, explain::grammar(alloc))
}

/// The line of this command, with the values that the parser found.
fn line_with<'a>(
    alloc: Global,
    command: CommandName,
    args: &ArgMatches<'a>,
) -> Result<Line<'a>, LineFault>
    ensures command { IfOk result (λ line. IsLineOf command (rows_of (found_of args.now)) line) }
    ensures refused { IfErr result (IsRefusedIf (HasNoLine command (rows_of (found_of args.now)))) }
{
    match command {
        CommandName::Run => run::line_of(alloc, args).map(Line::Run),
        CommandName::Parts => parts::line_of(alloc, args).map(Line::Parts),
        CommandName::Cut => cut::line_of(alloc, args).map(Line::Cut),
        CommandName::Times => one_run_of(alloc, args).map(Line::Times),
        CommandName::Stalls => stalls::line_of(alloc, args).map(Line::Stalls),
        CommandName::Path => path::line_of(alloc, args).map(Line::Path),
        CommandName::Loops => one_run_of(alloc, args).map(Line::Loops),
        CommandName::Pipeline => pipeline::line_of(alloc, args).map(Line::Pipeline),
        CommandName::Tables => tables::line_of(alloc, args).map(Line::Tables),
        CommandName::Animate => animate::line_of(alloc, args).map(Line::Animate),
        CommandName::All => all::line_of(alloc, args).map(Line::All),
        CommandName::Explore => explore::line_of(alloc, args).map(Line::Explore),
        CommandName::Front => front::line_of(alloc, args).map(Line::Front),
        CommandName::Plot => plot::line_of(alloc, args).map(Line::Plot),
        CommandName::Rows => explore::line_of(alloc, args).map(Line::Rows),
        CommandName::Worth => worth::line_of(alloc, args).map(Line::Worth),
        CommandName::Choices => table_or_csv::line_of(alloc, args).map(Line::Choices),
        CommandName::Prices => table_or_csv::line_of(alloc, args).map(Line::Prices),
        CommandName::Weights => table_or_csv::line_of(alloc, args).map(Line::Weights),
        CommandName::Compare => compare::line_of(alloc, args).map(Line::Compare),
        CommandName::Functions => functions::line_of(alloc, args).map(Line::Functions),
        CommandName::Page => page::line_of(alloc, args).map(Line::Page),
        CommandName::Find => find::line_of(alloc, args).map(Line::Find),
        CommandName::Explain => Ok(Line::Explain(explain::line_of(alloc, args)?)),
    }
}

/// The line of the command that the parser found.
fn line_of<'a>(alloc: Global, matches: &ArgMatches<'a>) -> Result<Line<'a>, LineFault>
    ensures command { IfOk result (λ line. IsCommand (subcommand_rows_of matches.now) line) }
    ensures refused { IfErr result (IsRefusedIf (IsNoLineAsked (subcommand_rows_of matches.now))) }
{
    if let Some((name, found)) = matches.subcommand() {
        if let Some(command) = command_named(name) {
            return line_with(alloc, command, found);
        }
    }
    Err(refusal_of(alloc, "command"))
}

/// Reads a command line, the program's own name first.
pub fn read_line<'a>(alloc: Global, words: &'a [String]) -> Result<Line<'a>, LineFault>
    ensures asked { IfOk result (λ line. IsAsked (map string_bytes words.now) line) }
    ensures accepted { IfOk result (λ _. faults_of tomex_app (map string_bytes words.now) ≡ []) }
    ensures no_command { IfErr result (λ fault. IsNoCommand (map string_bytes words.now) fault) }
{
    match grammar(alloc)?.try_get_matches_from(words) {
        Ok(matches) => line_of(alloc, &matches),
        Err(error) => Err(fault_of(alloc, &error)),
    }
}
