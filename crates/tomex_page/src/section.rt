//! The views of the rows that are shown.

ghost use Rattle.std.specs.Prelude.{◌≡◌, ◌<◌, length, map, option_map, slice_index_or, All, None, OnOk};
ghost use Rattle.tomex_study.specs.Program.{steps_of};
ghost use Rattle.tomex_layout.specs.Growth.{Appends};
ghost use Rattle.tomex_page.specs.Page.{number_before, row_section, row_sections, section_head, section_runs};
ghost use Rattle.tomex_page.specs.Page.{section_start};
ghost use Rattle.tomex_page.specs.Page.{section_tables, view_of};
ghost use Rattle.tomex_page_tables.specs.Shown.{no_row};
ghost use Rattle.tomex_page_rows.specs.Stays.{AreFound};

use crate::runs::push_runs;
use std::alloc::{AllocError, Allocator, Global};
use std::fmt::Write;
use tomex_config::Config;
use tomex_floor::Floored;
use tomex_html::{Links, push_links};
use tomex_page_rows::{
    PriceBook, push_against, push_changes_table, push_parts_table, push_prices_table,
};
use tomex_page_tables::{ShownRow, hull_mark, row_of};
use tomex_pareto::FrontRow;
use tomex_study::{Program, Surveyed};

/// A row between its neighbours among the rows that are shown.
#[derive(Drop)]
pub struct View {
    pub before: Option<ShownRow>,
    pub here: ShownRow,
    pub after: Option<FrontRow>,
}

/// Adds the start of a row's view.
#[tactic(auto, unfolding(crate::specs::Page::section_start))]
fn push_start<A: Allocator>(
    text: &mut String<A>,
    hull: &[FrontRow],
    row: FrontRow,
) -> Result<(), AllocError>
    ensures { OnOk result (Appends (section_start hull.now row) text.old text.new) }
{
    let FrontRow { row, cost, cycles } = row;
    let mark = hull_mark(hull, row);
    write!(
        text,
        "<section id=\"r{row}\"{mark}>\n<header><h2>Row {row} <small>cost {cost}, {cycles} cycles</small></h2>\n"
    )
}

/// The number of the row before, if there is one.
fn number_before(before: &Option<ShownRow>) -> Option<u64>
    ensures { result ≡ option_map number_before before.now }
{
    match before {
        Some(before) => Some(before.row.row as u64),
        None => None,
    }
}

/// The position of a row's view among those of the rows that are shown.
fn links_of(shown: &[FrontRow], view: &View) -> Links
    requires { 0 < length shown.now }
    ensures { result ≡ view_of shown.now view.now }
{
    Links {
        first: shown[0].row as u64,
        before: number_before(&view.before),
        here: view.here.row.row as u64,
        after: view.after.map(|after| after.row as u64),
        last: shown[shown.len() - 1].row as u64,
    }
}

/// Adds the header of a row's view.
#[tactic(auto, unfolding(crate::specs::Page::section_head))]
fn push_head<A: Allocator>(
    text: &mut String<A>,
    hull: &[FrontRow],
    shown: &[FrontRow],
    view: &View,
) -> Result<(), AllocError>
    requires { 0 < length shown.now }
    ensures { OnOk result (Appends (section_head hull.now shown.now view.now) text.old text.new) }
{
    push_start(text, hull, view.here.row)?;
    push_links(text, links_of(shown, view))?;
    write!(text, "</header>\n")
}

/// Adds the tables of the row at a place among those that are shown.
#[tactic(auto, unfolding(crate::specs::Page::section_tables))]
fn push_tables<A: Allocator, B: Allocator>(
    text: &mut String<A>,
    heap: Global,
    surveyed: &Surveyed<'_, B>,
    book: &PriceBook,
    shown: &[FrontRow],
    place: usize,
    view: &View,
) -> Result<(), AllocError>
    requires book { AreFound surveyed.now shown.now book.now }
    requires place { place < length shown.now }
    requires within { All (λ r. r.row < length surveyed.now.rows) shown.now }
    requires here { view.now.here.row ≡ slice_index_or shown.now place no_row }
    ensures { OnOk result (Appends (section_tables surveyed.now shown.now view.now) text.old text.new) }
{
    push_against(text, &view.before, &view.here)?;
    push_parts_table(text, &surveyed.study().prices(), &view.before, &view.here)?;
    push_changes_table(text, heap, surveyed, shown, view.here.row)?;
    push_prices_table(text, surveyed, book, shown, place)
}

/// Adds the programs' runs on a row.
#[tactic(auto, unfolding(crate::specs::Page::section_runs))]
fn push_section_runs<A: Allocator, B: Allocator + Clone>(
    text: &mut String<A>,
    alloc: &B,
    heap: Global,
    config: &Config,
    programs: &[Program<B>],
    floored: &mut Vec<Floored<'_, B>, B>,
) -> Result<(), AllocError>
    requires runs { floored.old.items ≡ map steps_of programs.now }
    ensures runs { floored.new.items ≡ floored.old.items }
    ensures text { OnOk result (Appends (section_runs programs.now config.now) text.old text.new) }
{
    text.push_str("<div class=\"l\">\n")?;
    push_runs(text, alloc, heap, config, programs, floored)?;
    write!(text, "</div>\n</section>\n")
}

/// Adds the view of the row at a place among those that are shown.
#[tactic(auto, unfolding(crate::specs::Page::row_section))]
fn push_section<A: Allocator, B: Allocator + Clone>(
    text: &mut String<A>,
    alloc: &B,
    heap: Global,
    surveyed: &Surveyed<'_, B>,
    floored: &mut Vec<Floored<'_, B>, B>,
    book: &PriceBook,
    hull: &[FrontRow],
    shown: &[FrontRow],
    place: usize,
    view: &View,
) -> Result<(), AllocError>
    requires runs { floored.old.items ≡ map steps_of surveyed.now.programs }
    requires book { AreFound surveyed.now shown.now book.now }
    requires place { place < length shown.now }
    requires within { All (λ r. r.row < length surveyed.now.rows) shown.now }
    requires here { view.now.here.row ≡ slice_index_or shown.now place no_row }
    ensures runs { floored.new.items ≡ floored.old.items }
    ensures text { OnOk result (Appends (row_section surveyed.now hull.now shown.now view.now) text.old text.new) }
{
    push_head(text, hull, shown, view)?;
    push_tables(text, heap, surveyed, book, shown, place, view)?;
    let programs = surveyed.study().programs();
    push_section_runs(text, alloc, heap, &view.here.config, programs, floored)
}

/// Adds a view for each row that is shown. `floored` are the runs of the study's programs, and `hull` the rows on the
/// front's hull.
pub fn push_sections<A: Allocator, B: Allocator + Clone>(
    text: &mut String<A>,
    alloc: &B,
    heap: Global,
    surveyed: &Surveyed<'_, B>,
    floored: &mut Vec<Floored<'_, B>, B>,
    book: &PriceBook,
    hull: &[FrontRow],
    shown: &[FrontRow],
) -> Result<(), AllocError>
    requires runs { floored.old.items ≡ map steps_of surveyed.now.programs }
    requires book { AreFound surveyed.now shown.now book.now }
    requires within { All (λ r. r.row < length surveyed.now.rows) shown.now }
    ensures runs { floored.new.items ≡ floored.old.items }
    ensures text { OnOk result
        (Appends (row_sections surveyed.now hull.now shown.now None shown.now) text.old text.new) }
{
    let study = surveyed.study();
    let mut before = None;
    for (place, row) in shown.iter().enumerate() {
        let view = View {
            before,
            here: row_of(study, *row),
            after: shown.get(place + 1).copied(),
        };
        push_section(
            text, alloc, heap, surveyed, floored, book, hull, shown, place, &view,
        )?;
        before = Some(row_of(study, *row));
    }
    Ok(())
}
