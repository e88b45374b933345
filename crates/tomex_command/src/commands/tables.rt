//! What `tables` prints.
ghost use Rattle.std.specs.Prelude.{IfOk, IfErr};
ghost use Rattle.tomex_command.specs.Chosen.{choice_of};
ghost use Rattle.tomex_command.specs.RunViews.{IsNotShown, IsShown};

use super::chosen::ChosenRun;
use super::run_view::RunView;
use crate::failure::Failure;
use std::alloc::Allocator;
use tomex_command_line::TablesLine;
use tomex_cycle::Machine;
use tomex_texts::tables_text;

/// The text of the tables after a cycle of a program's run on a configuration. The machine stops at the end of the run,
/// so a cycle that it doesn't reach is past the end.
pub fn text_after<A: Allocator + Clone>(
    alloc: A,
    chosen: &ChosenRun<'_, A>,
    line: TablesLine<'_>,
) -> Result<Vec<u8, A>, Failure>
    ensures text { IfOk result (λ text. IsShown (RunView.Tables line.entry) (choice_of chosen.now) text.items) }
    ensures failure { IfErr result (λ failure. IsNotShown failure (RunView.Tables line.entry) (choice_of chosen.now)) }
{
    chosen.program.keeps_limits();
    let cycle = u64::from(line.cycle);
    let mut machine = Machine::new(alloc.clone()?, chosen.program.image(), chosen.config)?;
    machine.advance(cycle);
    if machine.cycle() < cycle {
        return Err(Failure::CyclePastEnd);
    }
    Ok(tables_text(alloc, &machine.tables())?)
}
