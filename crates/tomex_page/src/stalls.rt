//! A run's stalls, with bars.

ghost use Rattle.std.specs.Prelude.{◌≡◌, IfOk, OnOk, string_bytes};
ghost use Rattle.std.specs.List.{flat_map};
ghost use Rattle.tomex_layout.specs.Growth.{Appends};
ghost use Rattle.tomex_html.specs.Tables.{row_start};
ghost use Rattle.tomex_page.specs.Stalls.{after_issue, before_issue, cause_cells, cause_row, drain_row, group};
ghost use Rattle.tomex_page.specs.Stalls.{on_path, part_cells, pool_parts, stall_row, stalls_caption, stalls_table};
ghost use Rattle.tomex_page.specs.Stalls.{unit_parts};
ghost use Rattle.tomex_path_views.specs.Shares.{AreShort};
ghost use Rattle.tomex_run_views.specs.StallsReport.{name_of_part};

use crate::bars::{push_cycles, push_drained};
use std::alloc::{AllocError, Allocator, Global};
use std::fmt::Write;
use tomex_config::{Config, Part};
use tomex_html::{push_empty, push_number, push_row_start, push_table_end, push_table_head};
use tomex_path::{Link, Reason};
use tomex_path_views::share_of;
use tomex_run_views::push_name_of_part;
use tomex_rvdec::{PoolId, UnitId};
use tomex_timing::Needs;

const POOL_PARTS: [Part; 6] = [
    Part::Stations(PoolId::Alu),
    Part::Stations(PoolId::Mul),
    Part::Stations(PoolId::Div),
    Part::Stations(PoolId::Load),
    Part::Stations(PoolId::Store),
    Part::Stations(PoolId::Bru),
];

const UNIT_PARTS: [Part; 5] = [
    Part::Units(UnitId::Alu),
    Part::Units(UnitId::Mul),
    Part::Units(UnitId::Div),
    Part::Units(UnitId::Mem),
    Part::Units(UnitId::Bru),
];

/// The stations of each pool.
#[tactic(auto, unfolding(crate::specs::Stalls::pool_parts))]
fn pool_parts() -> &'static [Part]
    ensures { result.now ≡ pool_parts }
{
    &POOL_PARTS
}

/// The units of each kind.
#[tactic(auto, unfolding(crate::specs::Stalls::unit_parts))]
fn unit_parts() -> &'static [Part]
    ensures { result.now ≡ unit_parts }
{
    &UNIT_PARTS
}

/// Adds the heading of a group of lines.
#[tactic(auto, unfolding(crate::specs::Stalls::group))]
fn push_group<A: Allocator>(text: &mut String<A>, words: &str) -> Result<(), AllocError>
    ensures { OnOk result (Appends (group words.now) text.old text.new) }
{
    write!(
        text,
        "<tr><th scope=\"rowgroup\" colspan=\"6\">{words}</th></tr>\n"
    )
}

/// How long the steps of a path had waited for a reason.
fn on_path(path: &[Link], reason: Reason) -> u64
    requires { AreShort path.now }
    ensures { result ≡ on_path path.now reason }
{
    share_of(path, reason).waits
}

/// Adds the cells of something that is no part, and has no count.
#[tactic(auto, unfolding(crate::specs::Stalls::cause_cells))]
fn push_cause_cells<A: Allocator>(
    text: &mut String<A>,
    needs: &Needs,
    path: &[Link],
    reason: Reason,
    cycles: u64,
) -> Result<(), AllocError>
    requires { AreShort path.now }
    ensures { OnOk result (Appends (cause_cells needs.now path.now reason cycles) text.old text.new) }
{
    push_empty(text)?;
    push_empty(text)?;
    push_cycles(text, cycles, on_path(path, reason), needs.total)
}

/// Adds the line of something that is no part.
#[tactic(auto, unfolding(crate::specs::Stalls::cause_row, tomex_html::specs::Tables::table_row))]
fn push_cause<A: Allocator>(
    text: &mut String<A>,
    needs: &Needs,
    path: &[Link],
    reason: Reason,
    name: &str,
    cycles: u64,
) -> Result<(), AllocError>
    requires { AreShort path.now }
    ensures { OnOk result (Appends (cause_row needs.now path.now reason name.now cycles) text.old text.new) }
{
    push_row_start(text, name)?;
    push_cause_cells(text, needs, path, reason, cycles)?;
    text.push_str("</tr>\n")
}

/// Adds the line of the cycles after the last issue.
#[tactic(auto, unfolding(crate::specs::Stalls::drain_row, tomex_html::specs::Tables::table_row))]
fn push_drain<A: Allocator>(text: &mut String<A>, needs: &Needs) -> Result<(), AllocError>
    ensures { OnOk result (Appends (drain_row needs.now) text.old text.new) }
{
    push_row_start(text, "drain")?;
    push_drained(text, needs.drain(), needs.total)?;
    text.push_str("</tr>\n")
}

/// Adds the start of a part's line.
#[tactic(auto, unfolding(tomex_html::specs::Tables::row_start))]
fn push_part_start<A: Allocator>(text: &mut String<A>, part: Part) -> Result<(), AllocError>
    ensures { OnOk result (Appends (row_start (name_of_part part)) text.old text.new) }
{
    text.push_str("<tr><th scope=\"row\">")?;
    push_name_of_part(text, part)?;
    write!(text, "</th>")
}

/// Adds how many there are of a part, the most in use at once, and the cycles that instructions wait for it.
#[tactic(auto, unfolding(crate::specs::Stalls::part_cells))]
fn push_part_cells<A: Allocator>(
    text: &mut String<A>,
    config: &Config,
    needs: &Needs,
    path: &[Link],
    part: Part,
) -> Result<(), AllocError>
    requires { AreShort path.now }
    ensures { OnOk result (Appends (part_cells config.now needs.now path.now part) text.old text.new) }
{
    let need = needs.need(part);
    push_number(text, part.count(config))?;
    push_number(text, need.peak)?;
    push_cycles(
        text,
        need.stalls,
        on_path(path, Reason::For(part)),
        needs.total,
    )
}

/// Adds a part's line.
#[tactic(auto, unfolding(crate::specs::Stalls::stall_row, tomex_html::specs::Tables::table_row))]
fn push_part<A: Allocator>(
    text: &mut String<A>,
    config: &Config,
    needs: &Needs,
    path: &[Link],
    part: Part,
) -> Result<(), AllocError>
    requires { AreShort path.now }
    ensures { OnOk result (Appends (stall_row config.now needs.now path.now part) text.old text.new) }
{
    push_part_start(text, part)?;
    push_part_cells(text, config, needs, path, part)?;
    text.push_str("</tr>\n")
}

/// Adds the lines of some parts.
fn push_parts<A: Allocator>(
    text: &mut String<A>,
    config: &Config,
    needs: &Needs,
    path: &[Link],
    parts: &[Part],
) -> Result<(), AllocError>
    requires { AreShort path.now }
    ensures { OnOk result (
        Appends (flat_map (stall_row config.now needs.now path.now) parts.now) text.old text.new) }
{
    for part in parts {
        push_part(text, config, needs, path, *part)?;
    }
    Ok(())
}

/// Adds what instructions wait for before they issue, and the cycles after the last issue.
#[tactic(auto, unfolding(crate::specs::Stalls::before_issue))]
fn push_before_issue<A: Allocator>(
    text: &mut String<A>,
    config: &Config,
    needs: &Needs,
    path: &[Link],
) -> Result<(), AllocError>
    requires { AreShort path.now }
    ensures { OnOk result (Appends (before_issue config.now needs.now path.now) text.old text.new) }
{
    push_group(text, "Before an issue: these and 1 add up to all cycles")?;
    push_cause(text, needs, path, Reason::Branch, "branch", needs.branch)?;
    push_part(text, config, needs, path, Part::Width)?;
    push_parts(text, config, needs, path, pool_parts())?;
    push_drain(text, needs)
}

/// Adds what instructions wait for after the issue.
#[tactic(auto, unfolding(crate::specs::Stalls::after_issue))]
fn push_after_issue<A: Allocator>(
    text: &mut String<A>,
    config: &Config,
    needs: &Needs,
    path: &[Link],
) -> Result<(), AllocError>
    requires { AreShort path.now }
    ensures { OnOk result (Appends (after_issue config.now needs.now path.now) text.old text.new) }
{
    push_group(text, "After it: of all instructions together")?;
    push_cause(text, needs, path, Reason::Operand, "operand", needs.operand)?;
    push_cause(text, needs, path, Reason::Address, "address", needs.address)?;
    push_cause(text, needs, path, Reason::Memory, "memory", needs.memory)?;
    push_parts(text, config, needs, path, unit_parts())?;
    push_part(text, config, needs, path, Part::Buses)
}

/// The caption of the table of a program's stalls.
#[tactic(auto, unfolding(crate::specs::Stalls::stalls_caption))]
fn caption(heap: Global, name: &str, total: u64, floor: u64) -> Result<String, AllocError>
    ensures { IfOk result (λ text. string_bytes text ≡ stalls_caption name.now total floor) }
{
    format!(in heap; "{name}: {total} cycles, floor {floor}")
}

/// Adds the table of the stalls of a program's run on a configuration, given its needs, its path and its floor.
#[tactic(auto, unfolding(crate::specs::Stalls::stalls_table))]
pub fn push_stalls_table<A: Allocator>(
    text: &mut String<A>,
    heap: Global,
    config: &Config,
    needs: &Needs,
    path: &[Link],
    floor: u64,
    name: &str,
) -> Result<(), AllocError>
    requires { AreShort path.now }
    ensures { OnOk result (
        Appends (stalls_table config.now needs.now path.now floor name.now) text.old text.new) }
{
    let caption = caption(heap, name, needs.total, floor)?;
    let names = [
        "Stalls",
        "Count",
        "Peak",
        "Cycles",
        "On path",
        "of all cycles",
    ];
    push_table_head(text, " class=\"a t\"", caption.as_str(), &names)?;
    push_before_issue(text, config, needs, path)?;
    push_after_issue(text, config, needs, path)?;
    push_table_end(text)
}
