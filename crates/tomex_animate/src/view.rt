//! The view of a cycle.

ghost use Rattle.std.specs.Prelude.{◌≡◌, ◌<◌, ◌^◌, ◌++◌, All, IfSome, OnOk, length, string_bytes};
ghost use Rattle.std.specs.List.{flat_map};
ghost use Rattle.tomex_layout.specs.Growth.{Appends};
ghost use Rattle.tomex_frames.specs.OnPath.{IsOfRun, at_cycle, framed_step, path_line};
ghost use Rattle.tomex_animate.specs.Machine.{cycles_of};
ghost use Rattle.tomex_animate.specs.Page.{blank_frame, frame, frame_head, links_at, view_of};

use crate::cells::Cells;
use std::alloc::{AllocError, Allocator, Global};
use std::fmt::Write;
use tomex_config::Config;
use tomex_frames::{
    OnPath, Scratch, Values, link_at, place_of, push_blank_events, push_blank_registers,
    push_blank_stations, push_blank_status, push_events, push_path_line, push_register_status,
    push_station_table, push_status_table,
};
use tomex_html::{Links, push_links};
use tomex_path::Link;
use tomex_rvexec::Step;
use tomex_snapshots::{Entry, Span, View};

/// The links of the view of a cycle.
#[tactic(auto, unfolding(crate::specs::Page::links_at))]
fn links_at(page: Span, cycle: u64) -> Links
    requires { cycle < 2 ^ 63 }
    ensures { result ≡ links_at page cycle }
{
    let before = if page.from < cycle {
        Some(cycle - 1)
    } else {
        None
    };
    let after = if cycle < page.to {
        Some(cycle + 1)
    } else {
        None
    };
    Links {
        first: page.from,
        before,
        here: cycle,
        after,
        last: page.to,
    }
}

/// Adds the start of a view: its cycle, the links to others, and the path's line.
#[tactic(auto, unfolding(crate::specs::Page::frame_head))]
fn push_head<A: Allocator>(
    text: &mut String<A>,
    views: &Views<'_>,
    place: Option<OnPath>,
    cycle: u64,
) -> Result<(), AllocError>
    requires cycle { cycle < 2 ^ 63 }
    requires place { IfSome place (λ place. IfSome place.before (IsOfRun (length views.now.steps.now))) }
    ensures { OnOk result (Appends (frame_head views.now.page views.now.total cycle
        (path_line views.now.steps.now cycle place)) text.old text.new) }
{
    let total = views.total;
    write!(
        text,
        "<section id=\"c{cycle}\">\n<header><h2>Cycle {cycle} <small>of {total}</small></h2>\n"
    )?;
    push_links(text, links_at(views.page, cycle))?;
    push_path_line(text, views.steps, cycle, place)?;
    write!(text, "</header>\n")
}

/// The data that all views of a page share.
#[derive(Clone, Copy)]
pub struct Views<'a> {
    pub cells: Cells,
    pub config: &'a Config,
    pub page: Span,
    /// The cycles of the run.
    pub total: u64,
    /// The steps of the run, its registers at the end, and its critical path.
    pub steps: &'a [Step],
    pub last: &'a [u32; 32],
    pub path: &'a [Link],
    /// The steps that the page shows.
    pub entries: &'a [Entry],
}

/// The number of the step whose row has the frame.
fn framed_step(place: Option<OnPath>) -> Option<u64>
    ensures { result ≡ framed_step place }
{
    match place {
        Some(place) => Some(place.link.step),
        None => None,
    }
}

/// Adds the view of a cycle, with its cells full.
#[tactic(auto, unfolding(crate::specs::Page::frame))]
fn push_frame<A: Allocator>(
    text: &mut String<A>,
    heap: Global,
    scratch: &mut Scratch,
    views: &Views<'_>,
    place: Option<OnPath>,
    cycle: u64,
) -> Result<(), AllocError>
    requires cycle { cycle < 2 ^ 63 }
    requires place { place ≡ at_cycle cycle views.now.path.now }
    requires steps { All (IsOfRun (length views.now.steps.now)) views.now.path.now }
    ensures { OnOk result (Appends (frame views.now.config.now views.now.page views.now.total views.now.steps.now
        views.now.last.now views.now.path.now views.now.entries.now cycle) text.old text.new) }
{
    let view = View::new(views.entries, cycle);
    let framed = framed_step(place);
    push_head(text, views, place, cycle)?;
    let values = Values {
        steps: views.steps,
        last: views.last,
    };
    push_events(text, heap, &values, &view)?;
    push_status_table(text, framed, views.page, views.entries, cycle)?;
    push_station_table(text, scratch, &view, views.config)?;
    push_register_status(text, &view)?;
    write!(text, "</section>\n")
}

/// Adds the view of a cycle, with its cells empty.
#[tactic(auto, unfolding(crate::specs::Page::blank_frame))]
fn push_blank_frame<A: Allocator>(
    text: &mut String<A>,
    views: &Views<'_>,
    cycle: u64,
) -> Result<(), AllocError>
    requires { cycle < 2 ^ 63 }
    ensures { OnOk result (Appends (blank_frame views.now.config.now views.now.page views.now.total
        views.now.entries.now cycle) text.old text.new) }
{
    push_head(text, views, None, cycle)?;
    push_blank_events(text)?;
    push_blank_status(text, views.page, views.entries, cycle)?;
    push_blank_stations(text, views.config)?;
    push_blank_registers(text)?;
    write!(text, "</section>\n")
}

/// Adds the view of a cycle.
fn push_view<A: Allocator>(
    text: &mut String<A>,
    heap: Global,
    scratch: &mut Scratch,
    views: &Views<'_>,
    place: Option<OnPath>,
    cycle: u64,
) -> Result<(), AllocError>
    requires cycle { cycle < 2 ^ 63 }
    requires place { place ≡ at_cycle cycle views.now.path.now }
    requires steps { All (IsOfRun (length views.now.steps.now)) views.now.path.now }
    ensures { OnOk result (Appends (view_of views.now.cells views.now.config.now views.now.page views.now.total
        views.now.steps.now views.now.last.now views.now.path.now views.now.entries.now cycle) text.old text.new) }
{
    match views.cells {
        Cells::Filled => push_frame(text, heap, scratch, views, place, cycle),
        Cells::Blank => push_blank_frame(text, views, cycle),
    }
}

/// Adds the views of all cycles of the page.
#[tactic(auto, unfolding(crate::specs::Machine::cycles_of))]
pub fn push_views<A: Allocator>(
    text: &mut String<A>,
    heap: Global,
    views: &Views<'_>,
) -> Result<(), AllocError>
    requires page { views.now.page.to < 2 ^ 63 }
    requires steps { All (IsOfRun (length views.now.steps.now)) views.now.path.now }
    ensures { OnOk result (string_bytes text.new ≡ string_bytes text.old
        ++ flat_map (view_of views.now.cells views.now.config.now views.now.page views.now.total views.now.steps.now
        views.now.last.now views.now.path.now views.now.entries.now) (cycles_of views.now.page)) }
{
    let mut scratch = Scratch::new(heap);
    let mut place = 0;
    let Span { from, to } = views.page;
    for cycle in from..=to {
        place = place_of(views.path, place, cycle);
        let here = link_at(views.path, place);
        push_view(text, heap, &mut scratch, views, here, cycle)?;
    }
    Ok(())
}
