//! Names of functions, as they are shown.

ghost use Rattle.std.specs.Prelude.{◌≡◌, ◌++◌, ◌∷◌, [], IfOk, OnOk, string_bytes};
ghost use Rattle.std.specs.List.{flat_map};
ghost use Rattle.csv.specs.Records.{fields_of, partial_of};
ghost use Rattle.tomex_layout.specs.Growth.{Appends};
ghost use Rattle.tomex_functions.specs.ShownNames.{name_field, shown_byte, shown_bytes, shown_function};

use csv::ByteRecord;
use std::alloc::{AllocError, Global};
use std::fmt::Write;
use tomex_layout::{push_shown, shown_name};
use tomex_symbols::{Symbol, name_of};

/// How many bytes of a name are shown.
const MOST_SHOWN: usize = 256;

/// Adds a byte of a name that isn't UTF-8.
fn push_byte(text: &mut String, byte: u8) -> Result<(), AllocError>
    ensures { OnOk result (Appends (shown_byte byte) text.old text.new) }
{
    if byte < 128 {
        push_shown(text, char::from(byte))
    } else {
        Ok(write!(text, "\\x{byte:x}")?)
    }
}

/// A name that isn't UTF-8, byte by byte.
fn escape(heap: Global, bytes: &[u8]) -> Result<String, AllocError>
    ensures { IfOk result (λ text. string_bytes text ≡ flat_map shown_byte bytes.now) }
{
    let mut text = String::new(heap);
    for byte in bytes {
        push_byte(&mut text, *byte)?;
    }
    Ok(text)
}

/// A name, or the beginning of one.
fn shown_bytes(heap: Global, bytes: &[u8]) -> Result<String, AllocError>
    ensures { IfOk result (λ text. string_bytes text ≡ shown_bytes bytes.now) }
{
    match str::from_utf8(bytes) {
        Ok(name) => shown_name(heap, name),
        Err(_) => escape(heap, bytes),
    }
}

/// The name of a symbol of a file: its first 256 bytes, `..` after them if there are more. No control character is
/// left in it, and no more of the name is looked at.
pub fn shown_function(heap: Global, bytes: &[u8], symbol: &Symbol) -> Result<String, AllocError>
    ensures { IfOk result (λ text. string_bytes text ≡ shown_function bytes.now symbol.now) }
{
    let name = name_of(bytes, symbol, MOST_SHOWN + 1);
    let mut text = shown_bytes(heap, &name[..name.len().min(MOST_SHOWN)])?;
    if name.len() > MOST_SHOWN {
        text.push_str("..")?;
    }
    Ok(text)
}

/// Adds the name of a function, or `-` of none.
pub fn push_function(
    fields: &mut ByteRecord,
    heap: Global,
    file: &[u8],
    function: &Option<Symbol>,
) -> Result<(), AllocError>
    requires { partial_of fields.old ≡ [] }
    ensures fields { OnOk result (fields_of fields.new
        ≡ fields_of fields.old ++ name_field file.now function.now ∷ []) }
    ensures whole { OnOk result (partial_of fields.new ≡ []) }
{
    match function {
        Some(symbol) => fields.push_field(shown_function(heap, file, symbol)?.as_bytes()),
        None => fields.push_field(b"-"),
    }
}
