//! The configuration and the program that a command is about.
ghost use Rattle.std.specs.Prelude.{◌≡◌, IfOk, IfErr, length, map};
ghost use Rattle.std.specs.List.{position};
ghost use Rattle.std.specs.Str.{bytes_eq};
ghost use Rattle.tomex_command.specs.Chosen.{IsChosen, IsUnchosen, choice_of, row_name};

use super::study::Studied;
use crate::failure::Failure;
use std::alloc::{Allocator, Global};
use tomex_command_line::{ConfigName, OneRun};
use tomex_config::Config;
use tomex_find::{RowName, row_named};
use tomex_study::{Program, Study};

/// A configuration of a study with its number, a program that runs on it, and the bytes of the program's file.
#[derive(Drop)]
pub struct ChosenRun<'s, A: Allocator> {
    pub number: usize,
    pub config: &'s Config,
    pub program: &'s Program<A>,
    pub file: &'s [u8],
}

/// The name of a row, as the line has it.
pub fn row_name(config: ConfigName<'_>) -> RowName<'_>
    ensures { result ≡ row_name config.entry }
{
    match config {
        ConfigName::Number(number) => RowName::Number(number as usize),
        ConfigName::Choices(word) => RowName::Choices(word),
    }
}

/// The place of the first program of that name.
fn place_of<A: Allocator>(study: &Study<A>, name: &str) -> Option<usize>
    ensures { result ≡ position (λ p. bytes_eq p.name name.now) study.now.programs }
{
    study
        .programs()
        .iter()
        .position(|program| program.name() == name)
}

/// The configuration, the program and its file. The configuration is looked for first.
pub fn choose<'s, A: Allocator>(
    heap: Global,
    studied: &'s Studied<A>,
    run: OneRun<'_>,
) -> Result<ChosenRun<'s, A>, Failure>
    requires { length studied.now.files.items ≡ length studied.now.study.programs }
    ensures chosen { IfOk result (λ chosen. IsChosen studied.now.study
        (map (λ bytes. bytes.items) studied.now.files.items) run.entry (choice_of chosen)) }
    ensures unchosen { IfErr result (IsUnchosen studied.now.study run.entry) }
{
    let study = &studied.study;
    let number = row_named(heap, study, row_name(run.config))?;
    let place = place_of(study, run.program).ok_or(Failure::NoSuchProgram)?;
    Ok(ChosenRun {
        number,
        config: &study.rows()[number],
        program: &study.programs()[place],
        file: studied.files[place].as_slice(),
    })
}
