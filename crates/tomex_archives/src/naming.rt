//! The archives of golden cases, and which of their cases words name.
use crate::case::Case;
use anyhow::{Context, Result, ensure};
use std::fs;
use std::rt::Files;

/// The archives, one a command, and those of forms that several commands have.
pub const COMMANDS: [&str; 26] = [
    "all",
    "animate",
    "choices",
    "compare",
    "config",
    "cut",
    "explore",
    "find",
    "front",
    "functions",
    "help",
    "hull",
    "loops",
    "page",
    "parts",
    "path",
    "pipeline",
    "plot",
    "prices",
    "rows",
    "run",
    "stalls",
    "tables",
    "times",
    "weights",
    "worth",
];

/// An archive: the file that it was read from, and its text.
#[derive(Drop)]
pub struct Archive {
    pub file: String,
    pub text: Vec<u8>,
}

/// The archive of a command: in this folder, or in its folder data if this is that of the crate.
pub fn archive_of(rt: &(impl AllocGlobal + Files), command: &str) -> Result<Archive> {
    let file = format!(in rt.alloc(); "{command}.txtar")?;
    if let Ok(text) = fs::read(rt, file.as_str()) {
        return Ok(Archive { file, text });
    }
    let file = format!(in rt.alloc(); "data/{file}")?;
    let text = fs::read(rt, file.as_str()).context(format_args!("{file}"))?;
    Ok(Archive { file, text })
}

/// The command in whose archive the case with a name is.
fn command_of(name: &str) -> &str {
    match name.split_once('-') {
        Some((command, _)) => command,
        None => name,
    }
}

/// True if a case is named: if no words are given, or its name or its command is one of them.
pub fn is_asked(words: &[String], case: &str) -> bool {
    words.is_empty() || is_word(words, case) || is_word(words, command_of(case))
}

/// True if a name is one of the words.
pub fn is_word(words: &[String], name: &str) -> bool {
    words.iter().any(|word| word.as_str() == name)
}

/// Refuses words that name nothing among a command's cases, and cases that are not the command's.
pub fn check_names(command: &str, cases: &[Case], words: &[String]) -> Result<()> {
    for case in cases {
        let name = case.name.as_str();
        ensure!(
            command_of(name) == command,
            "{name} is in the archive of {command}"
        );
    }
    for word in words {
        let word = word.as_str();
        let is_named = word == command || cases.iter().any(|case| case.name.as_str() == word);
        ensure!(
            is_named || command_of(word) != command,
            "there is no case {word}"
        );
    }
    Ok(())
}

/// Refuses words that begin with no command.
pub fn check_commands(words: &[String]) -> Result<()> {
    for word in words {
        let word = word.as_str();
        ensure!(
            COMMANDS.contains(&command_of(word)),
            "there are no cases of {word}"
        );
    }
    Ok(())
}

/// True if cases of a command are named: if no words are given, or one is about it.
pub fn is_read(words: &[String], command: &str) -> bool {
    words.is_empty()
        || words
            .iter()
            .any(|word| command_of(word.as_str()) == command)
}
