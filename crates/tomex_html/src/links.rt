//! Views, of which a page shows one, and the links from one to the next.

ghost use Rattle.std.specs.Prelude.{OnOk};
ghost use Rattle.tomex_layout.specs.Growth.{Appends};
ghost use Rattle.tomex_html.specs.Html.{id_text, link_or_text, links};

use std::alloc::{AllocError, Allocator};
use std::fmt::{self, Write};

/// A link of a view, by the view's number.
#[derive(Clone, Copy)]
enum Anchor {
    Next(u64),
    Previous(u64),
}

impl fmt::Display for Anchor {
    ghost use Rattle.std.specs.Prelude.{Some};
    ghost use Rattle.tomex_html.specs.Html.{anchor_text};

    ghost output = { λ anchor. Some (anchor_text anchor) };

    fn fmt<W: fmt::Write>(&self, f: &mut fmt::Formatter<W>) -> fmt::Result {
        match *self {
            Anchor::Next(view) => write!(f, "n{view}"),
            Anchor::Previous(view) => write!(f, "p{view}"),
        }
    }
}

/// The position of a view among the views of its page, which have numbers.
#[derive(Clone, Copy)]
pub struct Links {
    /// The page's first view.
    pub first: u64,
    /// The view before this one, if there is one.
    pub before: Option<u64>,
    /// This view.
    pub here: u64,
    /// The view after this one, if there is one.
    pub after: Option<u64>,
    /// The page's last view.
    pub last: u64,
}

/// Adds the name of a link that others lead to, if it has one.
fn push_id<A: Allocator>(text: &mut String<A>, id: Option<Anchor>) -> Result<(), AllocError>
    ensures { OnOk result (Appends (id_text id) text.old text.new) }
{
    if let Some(id) = id {
        write!(text, " id=\"{id}\"")?;
    }
    Ok(())
}

/// Adds a link, or its words if it leads nowhere.
fn push_link<A: Allocator>(
    text: &mut String<A>,
    id: Option<Anchor>,
    to: Option<Anchor>,
    words: &str,
) -> Result<(), AllocError>
    ensures { OnOk result (Appends (link_or_text id to words.now) text.old text.new) }
{
    match to {
        Some(to) => {
            text.push_str("<a")?;
            push_id(text, id)?;
            write!(text, " href=\"#{to}\">{words}</a>\n")?;
        }
        None => {
            text.push_str("<span")?;
            push_id(text, id)?;
            write!(text, ">{words}</span>\n")?;
        }
    }
    Ok(())
}

/// Adds a view's links: to the first view, to the one before, to the one after, and to the last one.
#[tactic(auto, unfolding(crate::specs::Html::links))]
pub fn push_links<A: Allocator>(text: &mut String<A>, view: Links) -> Result<(), AllocError>
    ensures { OnOk result (Appends (links view) text.old text.new) }
{
    let first = view.before.map(|_| Anchor::Next(view.first));
    let previous = view.before.map(|before| Anchor::Previous(before));
    let next = view.after.map(|after| Anchor::Next(after));
    let last = view.after.map(|_| Anchor::Previous(view.last));
    text.push_str("<nav>\n")?;
    push_link(text, None, first, "first")?;
    push_link(
        text,
        Some(Anchor::Previous(view.here)),
        previous,
        "previous",
    )?;
    push_link(text, Some(Anchor::Next(view.here)), next, "next")?;
    push_link(text, None, last, "last")?;
    text.push_str("</nav>\n")
}
