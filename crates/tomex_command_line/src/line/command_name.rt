//! The names of the commands.
ghost use Rattle.tomex_command_line.specs.Names.{IsNamed};

/// A command of the program.
#[derive(Clone, Copy)]
pub enum CommandName {
    Run,
    Parts,
    Cut,
    Times,
    Stalls,
    Path,
    Loops,
    Pipeline,
    Tables,
    Animate,
    All,
    Explore,
    Front,
    Plot,
    Rows,
    Worth,
    Choices,
    Prices,
    Weights,
    Compare,
    Functions,
    Page,
    Find,
    Explain,
}

/// The command of this name, if there is one.
pub(super) fn command_named(name: &str) -> Option<CommandName>
    ensures { IsNamed name.now result }
{
    match name {
        "run" => Some(CommandName::Run),
        "parts" => Some(CommandName::Parts),
        "cut" => Some(CommandName::Cut),
        "times" => Some(CommandName::Times),
        "stalls" => Some(CommandName::Stalls),
        "path" => Some(CommandName::Path),
        "loops" => Some(CommandName::Loops),
        "pipeline" => Some(CommandName::Pipeline),
        "tables" => Some(CommandName::Tables),
        "animate" => Some(CommandName::Animate),
        "all" => Some(CommandName::All),
        "explore" => Some(CommandName::Explore),
        "front" => Some(CommandName::Front),
        "plot" => Some(CommandName::Plot),
        "rows" => Some(CommandName::Rows),
        "worth" => Some(CommandName::Worth),
        "choices" => Some(CommandName::Choices),
        "prices" => Some(CommandName::Prices),
        "weights" => Some(CommandName::Weights),
        "compare" => Some(CommandName::Compare),
        "functions" => Some(CommandName::Functions),
        "page" => Some(CommandName::Page),
        "find" => Some(CommandName::Find),
        "explain" => Some(CommandName::Explain),
        _ => None,
    }
}
