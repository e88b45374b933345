//! What tables begin with, up to their rows.

ghost use Rattle.std.specs.Prelude.{map, OnOk};
ghost use Rattle.std.specs.List.{flat_map};
ghost use Rattle.tomex_layout.specs.Growth.{Appends};
ghost use Rattle.tomex_html.specs.Tables.{column_head, head_end, table_head, table_start};

use std::alloc::{AllocError, Allocator};
use std::fmt::Write;

/// Adds a column's name.
#[tactic(auto, unfolding(crate::specs::Tables::column_head))]
pub fn push_column_head<A: Allocator>(text: &mut String<A>, name: &str) -> Result<(), AllocError>
    ensures { OnOk result (Appends (column_head name.now) text.old text.new) }
{
    write!(text, "<th scope=\"col\">{name}</th>")
}

/// Adds the names of columns.
pub fn push_column_heads<A: Allocator>(
    text: &mut String<A>,
    names: &[&str],
) -> Result<(), AllocError>
    ensures { OnOk result (Appends (flat_map column_head (map (λ name. name.now) names.now)) text.old text.new) }
{
    for name in names {
        push_column_head(text, name)?;
    }
    Ok(())
}

/// Adds the start of a table, up to the names of its columns.
#[tactic(auto, unfolding(crate::specs::Tables::table_start))]
pub fn push_table_start<A: Allocator>(
    text: &mut String<A>,
    attributes: &str,
    caption: &str,
) -> Result<(), AllocError>
    ensures { OnOk result (Appends (table_start attributes.now caption.now) text.old text.new) }
{
    write!(
        text,
        "<div class=\"w\"><table{attributes}>\n<caption>{caption}</caption>\n<thead><tr>"
    )
}

/// Adds the part between the names of a table's columns and its rows.
#[tactic(auto, unfolding(crate::specs::Tables::head_end))]
pub fn push_head_end<A: Allocator>(text: &mut String<A>) -> Result<(), AllocError>
    ensures { OnOk result (Appends head_end text.old text.new) }
{
    text.push_str("</tr></thead>\n<tbody>\n")
}

/// Adds the start of a table, up to its rows.
#[tactic(auto, unfolding(crate::specs::Tables::table_head))]
pub fn push_table_head<A: Allocator>(
    text: &mut String<A>,
    attributes: &str,
    caption: &str,
    names: &[&str],
) -> Result<(), AllocError>
    ensures { OnOk result (
        Appends (table_head attributes.now caption.now (map (λ name. name.now) names.now)) text.old text.new) }
{
    push_table_start(text, attributes, caption)?;
    push_column_heads(text, names)?;
    push_head_end(text)
}
