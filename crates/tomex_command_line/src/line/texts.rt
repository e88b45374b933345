//! A command as `clap` reads it: its name and its help texts, and then its arguments.
ghost use Rattle.std.specs.Prelude.{◌≡◌, IfOk, IsOkAnd, false, true};
ghost use Rattle.clap.specs.Simple.{app_of, new_app, shape_of, with_subcommand};
ghost use Rattle.clap.specs.Words.{rule_of, with_rule};

use clap::{Arg, Command};
use std::alloc::{AllocError, Global};

/// The help of a command: in a line, at length, and after the options.
#[derive(Clone, Copy)]
pub struct Texts {
    pub about: &'static str,
    pub long_about: &'static str,
    pub after_long_help: &'static str,
}

/// The command with this name, without arguments.
pub fn command_with_texts<'a>(alloc: Global, name: &'a str, texts: Texts) -> Command<'a>
    ensures { app_of result ≡ new_app name.entry.now }
{
    Command::new(alloc, name)
        .about(texts.about)
        .long_about(texts.long_about)
        .after_long_help(texts.after_long_help)
}

/// The command with one more argument. It takes a `Result`, so that in a chain of calls the only test is here.
pub fn with_argument<'a>(
    command: Result<Command<'a>, AllocError>,
    arg: Arg<'a>,
) -> Result<Command<'a>, AllocError>
    requires { arg.global ≡ false }
    ensures { IfOk result (λ made. IsOkAnd command.entry (λ c.
        app_of made ≡ with_rule (app_of c) (rule_of arg.entry))) }
{
    command?.arg(arg)
}

/// The program with one more command, if there was memory for both.
pub fn with_command<'a>(
    program: Result<Command<'a>, AllocError>,
    command: Result<Command<'a>, AllocError>,
) -> Result<Command<'a>, AllocError>
    requires { IfOk command (λ c. (shape_of c).is_plain ≡ true) }
    ensures { IfOk result (λ made. IsOkAnd program.entry (λ p. IsOkAnd command.entry (λ c.
        app_of made ≡ with_subcommand (app_of p) (shape_of c)))) }
{
    program?.subcommand(command?)
}
