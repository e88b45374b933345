//! The start and the end of pages.

ghost use Rattle.std.specs.Prelude.{OnOk};
ghost use Rattle.tomex_layout.specs.Growth.{Appends};
ghost use Rattle.tomex_html.specs.Html.{page_end, page_start};

use crate::constants::{base_css, frame_css, head_html};
use std::alloc::{AllocError, Allocator};
use std::fmt::Write;

/// Adds the start of a page, up to its body. `title` is text in which nothing is markup, `style` the page's own style,
/// after that of all pages.
#[tactic(auto, unfolding(crate::specs::Html::page_start))]
pub fn push_page_start<A: Allocator>(
    text: &mut String<A>,
    title: &str,
    style: &str,
) -> Result<(), AllocError>
    ensures { OnOk result (Appends (page_start title.now style.now) text.old text.new) }
{
    let (head, base, frame) = (head_html(), base_css(), frame_css());
    write!(
        text,
        "{head}{title}</title>\n<style>\n{base}{frame}{style}</style>\n</head>\n<body>\n"
    )
}

/// Adds the end of a page.
#[tactic(auto, unfolding(crate::specs::Html::page_end))]
pub fn push_page_end<A: Allocator>(text: &mut String<A>) -> Result<(), AllocError>
    ensures { OnOk result (Appends page_end text.old text.new) }
{
    text.push_str("</body>\n</html>\n")
}
