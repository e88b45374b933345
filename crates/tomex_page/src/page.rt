//! The page of a study.

ghost use Rattle.std.specs.Prelude.{◌≡◌, ◌<◌, length, map, option_map, All, IfOk, OnOk};
ghost use Rattle.std.specs.List.{Contains};
ghost use Rattle.tomex_layout.specs.Growth.{Appends};
ghost use Rattle.tomex_page.specs.Page.{asked_choices, asked_help, page_of, page_over, page_rest, page_start_of};
ghost use Rattle.tomex_page.specs.Page.{views_text};
ghost use Rattle.tomex_study.specs.Program.{steps_of};
ghost use Rattle.tomex_study.specs.StudyFront.{front_of_study};

use crate::constants::{choices_help, commands_help, page_help};
use crate::overview::{push_left_out, push_overview, push_page_head};
use crate::section::push_sections;
use std::alloc::{AllocError, Allocator, Global};
use std::fmt::Write;
use tomex_config::Prices;
use tomex_floor::Floored;
use tomex_html::push_page_end;
use tomex_page_rows::{PriceBook, push_choices_table};
use tomex_page_tables::{push_front_table, shown_rows};
use tomex_pareto::{FrontRow, hull};
use tomex_study::{Floors, ListReport, Surveyed};

/// Adds the views of the rows that are shown.
#[tactic(auto, unfolding(crate::specs::Page::views_text))]
fn push_views<A: Allocator, B: Allocator + Clone>(
    text: &mut String<A>,
    alloc: &B,
    heap: Global,
    surveyed: &Surveyed<'_, B>,
    floored: &mut Vec<Floored<'_, B>, B>,
    hull: &[FrontRow],
    shown: &[FrontRow],
) -> Result<(), AllocError>
    requires runs { floored.old.items ≡ map steps_of surveyed.now.programs }
    requires shown { All (Contains (front_of_study surveyed.now)) shown.now }
    requires within { All (λ r. r.row < length surveyed.now.rows) shown.now }
    ensures { OnOk result (Appends (views_text surveyed.now hull.now shown.now) text.old text.new) }
{
    let book = PriceBook::new(heap, surveyed, shown)?;
    text.push_str("<div class=\"v\">\n")?;
    push_sections(text, alloc, heap, surveyed, floored, &book, hull, shown)?;
    write!(text, "</div>\n</main>\n")
}

/// Adds what was found out of the lists, if it was asked for.
#[tactic(auto, unfolding(crate::specs::Page::asked_choices))]
fn push_asked_choices<A: Allocator>(
    text: &mut String<A>,
    prices: &Prices,
    choices: Option<&[ListReport]>,
) -> Result<(), AllocError>
    ensures { OnOk result
        (Appends (asked_choices prices.now (option_map (λ l. l.now) choices.entry)) text.old text.new) }
{
    match choices {
        Some(lists) => push_choices_table(text, prices, lists),
        None => Ok(()),
    }
}

/// Adds the explanation of that, if it was asked for.
#[tactic(auto, unfolding(crate::specs::Page::asked_help))]
fn push_asked_help<A: Allocator>(
    text: &mut String<A>,
    choices: Option<&[ListReport]>,
) -> Result<(), AllocError>
    ensures { OnOk result (Appends (asked_help (option_map (λ l. l.now) choices.entry)) text.old text.new) }
{
    match choices {
        Some(_) => text.push_str(choices_help()),
        None => Ok(()),
    }
}

/// Adds the page up to the front.
#[tactic(auto, unfolding(crate::specs::Page::page_start_of))]
fn push_start<A: Allocator + Clone>(
    text: &mut String<A>,
    alloc: &A,
    heap: Global,
    name: &str,
    surveyed: &Surveyed<'_, A>,
    floors: Floors,
    hull: &[FrontRow],
    shown: &[FrontRow],
) -> Result<(), AllocError>
    requires { All (λ r. r.row < length surveyed.now.rows) shown.now }
    ensures { OnOk result (Appends (page_start_of name.now surveyed.now floors
        (length (front_of_study surveyed.now)) hull.now shown.now) text.old text.new) }
{
    let (front, rows) = (surveyed.front().len(), surveyed.rows().len());
    push_page_head(text, heap, name, front, rows, hull, shown)?;
    push_overview(text, alloc, heap, surveyed, floors, hull, shown)?;
    push_left_out(text, front)?;
    push_front_table(text, heap, surveyed, hull, shown)
}

/// Adds the page from the views on.
#[tactic(auto, unfolding(crate::specs::Page::page_rest))]
fn push_rest<A: Allocator, B: Allocator + Clone>(
    text: &mut String<A>,
    alloc: &B,
    heap: Global,
    surveyed: &Surveyed<'_, B>,
    floored: &mut Vec<Floored<'_, B>, B>,
    hull: &[FrontRow],
    shown: &[FrontRow],
    choices: Option<&[ListReport]>,
) -> Result<(), AllocError>
    requires runs { floored.old.items ≡ map steps_of surveyed.now.programs }
    requires shown { All (Contains (front_of_study surveyed.now)) shown.now }
    requires within { All (λ r. r.row < length surveyed.now.rows) shown.now }
    ensures { OnOk result (Appends
        (page_rest surveyed.now hull.now shown.now (option_map (λ l. l.now) choices.entry)) text.old text.new) }
{
    push_views(text, alloc, heap, surveyed, floored, hull, shown)?;
    text.push_str(page_help())?;
    push_asked_help(text, choices)?;
    text.push_str(commands_help())?;
    push_page_end(text)
}

/// Adds the page of a study with this name, given of the rows of its front those on the hull and those that are shown.
#[tactic(auto, unfolding(crate::specs::Page::page_over))]
fn push_page<A: Allocator + Clone>(
    text: &mut String<A>,
    alloc: &A,
    heap: Global,
    name: &str,
    surveyed: &Surveyed<'_, A>,
    floors: Floors,
    floored: &mut Vec<Floored<'_, A>, A>,
    hull: &[FrontRow],
    shown: &[FrontRow],
    choices: Option<&[ListReport]>,
) -> Result<(), AllocError>
    requires runs { floored.old.items ≡ map steps_of surveyed.now.programs }
    requires shown { All (Contains (front_of_study surveyed.now)) shown.now }
    requires within { All (λ r. r.row < length surveyed.now.rows) shown.now }
    ensures { OnOk result (Appends
        (page_over name.now surveyed.now floors (length (front_of_study surveyed.now)) hull.now shown.now
        (option_map (λ l. l.now) choices.entry)) text.old text.new) }
{
    push_start(text, alloc, heap, name, surveyed, floors, hull, shown)?;
    push_asked_choices(text, &surveyed.study().prices(), choices)?;
    push_rest(text, alloc, heap, surveyed, floored, hull, shown, choices)
}

/// A study's report as a page: the picture of all rows, the programs and the lists of parts, the front, and a view for
/// each row of the front, or for 64 of them if it has more.
///
/// Beside the picture: how far the fastest row is from the floors, and which choices no row of the front has. In a
/// row's view: its differences from the row before, its parts, the gains from changing one part, the prices with which
/// it stays on the front, and for each program its floor, its stalls with those on its path, and the chart of its
/// first instructions. With `choices`, also what choices that the lists lack would bring.
///
/// `name` is the study's, and may have any characters. `floored` are the runs of its programs. The work is that of two
/// evaluations of each program on each row that is shown, and of two for each set of latencies that `floored` hasn't
/// met. Small temporary data is allocated from `heap`.
pub fn study_page<A: Allocator + Clone>(
    alloc: A,
    heap: Global,
    name: &str,
    surveyed: &Surveyed<'_, A>,
    floors: Floors,
    floored: &mut Vec<Floored<'_, A>, A>,
    choices: Option<&[ListReport]>,
) -> Result<Vec<u8, A>, AllocError>
    requires runs { floored.old.items ≡ map steps_of surveyed.now.programs }
    ensures { IfOk result (λ text. text.items
        ≡ page_of (option_map (λ l. l.now) choices.entry) floors name.now surveyed.now) }
{
    let hull = hull(heap, surveyed.front())?;
    let shown = shown_rows(heap, surveyed.front())?;
    let mut text = String::new(alloc.clone()?);
    push_page(
        &mut text,
        &alloc,
        heap,
        name,
        surveyed,
        floors,
        floored,
        hull.as_slice(),
        shown.as_slice(),
        choices,
    )?;
    Ok(text.into_bytes())
}
