//! The part above the rows' views: the name, the picture next to what was asked, and the front.

ghost use Rattle.std.specs.Prelude.{◌≡◌, IfOk, OnOk, string_bytes};
ghost use Rattle.tomex_layout.specs.Growth.{Appends};
ghost use Rattle.tomex_page.specs.Page.{all_in_picture, counts_text, left_out, overview, page_head, page_name};
ghost use Rattle.tomex_page.specs.Page.{title_of};

use crate::constants::page_css;
use std::alloc::{AllocError, Allocator, Global};
use std::fmt::Write;
use tomex_front_views::push_linked_picture;
use tomex_html::{push_name, push_page_start};
use tomex_page_rows::{push_floor_sentence, push_lists_table};
use tomex_page_tables::{MOST_ROWS, push_programs_table, push_steps_sentence};
use tomex_pareto::FrontRow;
use tomex_study::{Floors, Surveyed};

/// Adds the number of rows, and how many of them are on the front.
#[tactic(auto, unfolding(crate::specs::Page::counts_text))]
fn push_counts<A: Allocator>(
    text: &mut String<A>,
    front: usize,
    rows: usize,
) -> Result<(), AllocError>
    ensures { OnOk result (Appends (counts_text front rows) text.old text.new) }
{
    write!(text, ": {front} of {rows} rows are on the front")
}

/// The page's title.
#[tactic(auto, unfolding(crate::specs::Page::title_of))]
fn title_of(heap: Global, name: &str, front: usize, rows: usize) -> Result<String, AllocError>
    ensures { IfOk result (λ title. string_bytes title ≡ title_of name.now front rows) }
{
    let mut title = String::new(heap);
    push_name(&mut title, name)?;
    push_counts(&mut title, front, rows)?;
    Ok(title)
}

/// Adds the start of the page, up to its name.
#[tactic(auto, unfolding(crate::specs::Page::page_name))]
fn push_page_name<A: Allocator>(
    text: &mut String<A>,
    heap: Global,
    name: &str,
    front: usize,
    rows: usize,
) -> Result<(), AllocError>
    ensures { OnOk result (Appends (page_name name.now front rows) text.old text.new) }
{
    let title = title_of(heap, name, front, rows)?;
    push_page_start(text, title.as_str(), page_css())?;
    text.push_str("<header><h1><bdi>")?;
    push_name(text, name)?;
    text.push_str("</bdi>")?;
    push_counts(text, front, rows)?;
    write!(text, "</h1>\n")
}

/// Adds the start of the page, up to the picture: its name, and which of the front's rows, `front` in number, are worth
/// taking.
#[tactic(auto, unfolding(crate::specs::Page::page_head))]
pub fn push_page_head<A: Allocator>(
    text: &mut String<A>,
    heap: Global,
    name: &str,
    front: usize,
    rows: usize,
    hull: &[FrontRow],
    shown: &[FrontRow],
) -> Result<(), AllocError>
    ensures { OnOk result (Appends (page_head name.now front rows hull.now shown.now) text.old text.new) }
{
    push_page_name(text, heap, name, front, rows)?;
    push_steps_sentence(text, hull, front, shown)?;
    write!(text, "</header>\n<main>\n<div class=\"c\">\n")
}

/// Adds the picture of all rows next to what was asked, and how far the fastest row is from the floors.
///
/// `hull` are the rows of the front that are on its hull, `shown` those that are shown.
#[tactic(auto, unfolding(crate::specs::Page::overview))]
pub fn push_overview<A: Allocator + Clone>(
    text: &mut String<A>,
    alloc: &A,
    heap: Global,
    surveyed: &Surveyed<'_, A>,
    floors: Floors,
    hull: &[FrontRow],
    shown: &[FrontRow],
) -> Result<(), AllocError>
    ensures { OnOk result (Appends (overview surveyed.now floors hull.now shown.now) text.old text.new) }
{
    let study = surveyed.study();
    text.push_str("<div class=\"w\">")?;
    push_linked_picture(text, alloc.clone()?, heap, surveyed, hull, shown)?;
    text.push_str("</div>\n<div>\n")?;
    push_programs_table(text, study)?;
    push_lists_table(text, heap, surveyed)?;
    push_floor_sentence(text, floors)?;
    write!(text, "</div>\n</div>\n")
}

/// Adds that the picture has all rows of the front, and the page doesn't.
#[tactic(auto, unfolding(crate::specs::Page::all_in_picture))]
fn push_all_in_picture<A: Allocator>(text: &mut String<A>, front: usize) -> Result<(), AllocError>
    ensures { OnOk result (Appends (all_in_picture front) text.old text.new) }
{
    write!(
        text,
        "<p>The picture has all {front} rows of the front. The table and the rows below it are 64 of \
them: <code>tomex front</code> has them all.</p>\n"
    )
}

/// Adds that some rows of the front aren't shown, if so.
#[tactic(auto, unfolding(crate::specs::Page::left_out))]
pub fn push_left_out<A: Allocator>(text: &mut String<A>, front: usize) -> Result<(), AllocError>
    ensures { OnOk result (Appends (left_out front) text.old text.new) }
{
    if front <= MOST_ROWS {
        return Ok(());
    }
    push_all_in_picture(text, front)
}
