//! Names, as they are shown.

ghost use Rattle.std.specs.Prelude.{◌≡◌, IfOk, OnOk, string_bytes};
ghost use Rattle.tomex_layout.specs.Names.{shown_char, shown_name};
ghost use Rattle.tomex_layout.specs.Growth.{Appends};

use std::alloc::{AllocError, Allocator, Global};
use std::fmt::Write;

/// Adds a character: a control character as `char::escape_debug` writes it, any other as it is.
pub fn push_shown<A: Allocator>(text: &mut String<A>, letter: char) -> Result<(), AllocError>
    ensures { OnOk result (Appends (shown_char letter) text.old text.new) }
{
    match letter {
        '\0' => text.push_str("\\0"),
        '\t' => text.push_str("\\t"),
        '\n' => text.push_str("\\n"),
        '\r' => text.push_str("\\r"),
        control if control.is_control() => {
            let code = u32::from(control);
            Ok(write!(text, "\\u{{{code:x}}}")?)
        }
        letter => text.push(letter),
    }
}

/// A name as it is shown in a line of text: none of its control characters reaches the terminal, so
/// that one line stays one.
pub fn shown_name(heap: Global, name: &str) -> Result<String, AllocError>
    ensures { IfOk result (λ text. string_bytes text ≡ shown_name name.now) }
{
    let mut text = String::new(heap);
    for letter in name.chars() {
        push_shown(&mut text, letter)?;
    }
    Ok(text)
}
