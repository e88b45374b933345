//! Tables of names.

ghost use Rattle.std.specs.Prelude.{◌≡◌, map};
ghost use Rattle.tomex_asm_tokens.specs.Registers.{named};

/// The value in the first row whose name is the word.
pub fn named<T: Copy>(rows: &[(&str, T)], word: &[u8]) -> Option<T>
    ensures { result ≡ named (map (λ row. (row.0.now, row.1)) rows.now) word.now }
{
    for (name, value) in rows {
        if name.as_bytes() == word {
            return Some(*value);
        }
    }
    None
}
