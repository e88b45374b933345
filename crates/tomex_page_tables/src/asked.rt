//! What was asked: the table of the programs, and how a row for a part's list begins.

ghost use Rattle.std.specs.Prelude.{◌≡◌, ◌++◌, length, OnOk};
ghost use Rattle.std.specs.List.{flat_map};
ghost use Rattle.tomex_layout.specs.Growth.{Appends};
ghost use Rattle.tomex_html.specs.Html.{td};
ghost use Rattle.tomex_page_tables.specs.Asked.{end_text, program_row, programs_table};
ghost use Rattle.tomex_html.specs.Tables.{number_cell, row_start};
ghost use Rattle.tomex_config.specs.Parts.{all_parts};
ghost use Rattle.tomex_layout.specs.Lists.{name_of_list};

use std::alloc::{AllocError, Allocator};
use std::fmt::Write;
use tomex_config::Part;
use tomex_html::{push_number, push_row_start, push_table_end, push_table_head};
use tomex_layout::push_name_of_list;
use tomex_rvexec::Step;
use tomex_study::{Program, Study};

/// Adds a cell with the last step's instruction, which ends the run.
fn push_end<A: Allocator>(text: &mut String<A>, steps: &[Step]) -> Result<(), AllocError>
    ensures { OnOk result (Appends (td (end_text steps.now)) text.old text.new) }
{
    match steps.last() {
        Some(step) => {
            let instr = step.instr;
            write!(text, "<td>{instr}</td>")
        }
        None => text.push_str("<td></td>"),
    }
}

/// Adds the number of a run's instructions, the one that ends it, and how often its cycles count.
fn push_program_cells<A: Allocator>(
    text: &mut String<A>,
    steps: &[Step],
    weight: u32,
) -> Result<(), AllocError>
    ensures { OnOk result (
        Appends (number_cell (length steps.now) ++ (td (end_text steps.now) ++ number_cell weight)) text.old text.new) }
{
    push_number(text, steps.len() as u64)?;
    push_end(text, steps)?;
    push_number(text, u64::from(weight))
}

#[tactic(auto, unfolding(crate::specs::Asked::program_row, tomex_html::specs::Tables::table_row))]
fn push_program_row<A: Allocator, B: Allocator>(
    text: &mut String<A>,
    program: &Program<B>,
) -> Result<(), AllocError>
    ensures { OnOk result (Appends (program_row program.now) text.old text.new) }
{
    push_row_start(text, program.name())?;
    push_program_cells(text, program.steps(), program.weight())?;
    text.push_str("</tr>\n")
}

fn push_program_rows<A: Allocator, B: Allocator>(
    text: &mut String<A>,
    programs: &[Program<B>],
) -> Result<(), AllocError>
    ensures { OnOk result (Appends (flat_map program_row programs.now) text.old text.new) }
{
    for program in programs {
        push_program_row(text, program)?;
    }
    Ok(())
}

/// Adds the table of the programs.
#[tactic(auto, unfolding(crate::specs::Asked::programs_table))]
pub fn push_programs_table<A: Allocator, B: Allocator>(
    text: &mut String<A>,
    study: &Study<B>,
) -> Result<(), AllocError>
    ensures { OnOk result (Appends (programs_table study.now) text.old text.new) }
{
    let names = ["Name", "Instructions", "End", "Weight"];
    push_table_head(text, " class=\"a\"", "Programs", &names)?;
    push_program_rows(text, study.programs())?;
    push_table_end(text)
}

/// Adds the start of a row for a part's list.
#[tactic(auto, unfolding(tomex_html::specs::Tables::row_start))]
pub fn push_list_start<A: Allocator>(text: &mut String<A>, part: Part) -> Result<(), AllocError>
    ensures { OnOk result (Appends (row_start (name_of_list part)) text.old text.new) }
{
    text.push_str("<tr><th scope=\"row\">")?;
    push_name_of_list(text, part)?;
    write!(text, "</th>")
}

/// All parts.
pub fn all_parts() -> &'static [Part]
    ensures { result.now ≡ all_parts }
{
    &Part::ALL
}
