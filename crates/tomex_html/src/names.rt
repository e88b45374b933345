//! Names in pages.

ghost use Rattle.std.specs.Prelude.{OnOk};
ghost use Rattle.tomex_layout.specs.Growth.{Appends};
ghost use Rattle.tomex_html.specs.Html.{html_char, html_name};

use std::alloc::{AllocError, Allocator};
use tomex_layout::push_shown;

/// Adds a character of a name.
#[tactic(auto, unfolding(crate::specs::Html::html_char))]
fn push_char<A: Allocator>(text: &mut String<A>, letter: char) -> Result<(), AllocError>
    ensures { OnOk result (Appends (html_char letter) text.old text.new) }
{
    match letter {
        '&' => text.push_str("&amp;"),
        '<' => text.push_str("&lt;"),
        '>' => text.push_str("&gt;"),
        '"' => text.push_str("&quot;"),
        letter => push_shown(text, letter),
    }
}

/// Adds a name, which may have any characters. No part of it is read as markup.
pub fn push_name<A: Allocator>(text: &mut String<A>, name: &str) -> Result<(), AllocError>
    ensures { OnOk result (Appends (html_name name.now) text.old text.new) }
{
    for letter in name.chars() {
        push_char(text, letter)?;
    }
    Ok(())
}
