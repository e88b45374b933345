//! The names of symbols (System V ABI, "String Table").
ghost use Rattle.std.specs.Prelude.{◌≡◌, take};
ghost use Rattle.tomex_symbols.specs.Names.{name_of, until_zero};

use crate::symbol::Symbol;

/// The bytes before the first zero byte; all of them if there is none.
fn before_zero(bytes: &[u8]) -> &[u8]
    ensures { result.now ≡ until_zero bytes.now }
{
    for (length, byte) in bytes.iter().enumerate() {
        if *byte == 0 {
            return &bytes[..length];
        }
    }
    bytes
}

/// The first bytes of a symbol's name, at most `most`: names may overlap, so none is read further.
/// The bytes are those of the file that the symbol was read from.
pub fn name_of<'a>(bytes: &'a [u8], symbol: &Symbol, most: usize) -> &'a [u8]
    ensures { result.now ≡ take most (name_of bytes.now symbol.now) }
{
    let end = symbol.names_end.min(bytes.len());
    let start = symbol.name.min(end);
    let names = &bytes[start..end];
    before_zero(&names[..names.len().min(most)])
}
