//! The bytes of a text, by what they are in a line.

ghost use Rattle.std.specs.Prelude.{◌≡◌, ◌≤◌, length};
ghost use Rattle.std.specs.List.{prefix_len};
ghost use Rattle.tomex_asm_tokens.specs.Characters.{is_blank, begins_word, is_in_word, is_plain, is_octal};

/// True if the byte is a space, a tab or a carriage return.
pub fn is_blank(byte: u8) -> bool
    ensures { result ≡ is_blank byte }
{
    byte == b' ' || byte == b'\t' || byte == b'\r'
}

pub(crate) fn begins_word(byte: u8) -> bool
    ensures { result ≡ begins_word byte }
{
    byte.is_ascii_alphabetic() || byte == b'_' || byte == b'.' || byte == b'$'
}

fn is_in_word(byte: u8) -> bool
    ensures { result ≡ is_in_word byte }
{
    begins_word(byte) || byte.is_ascii_digit()
}

/// True if the byte is a character that stands for itself between quotes.
pub(crate) fn is_plain(byte: u8) -> bool
    ensures { result ≡ is_plain byte }
{
    byte >= b' ' && byte <= b'~' && byte != b'\'' && byte != b'\\'
}

pub(crate) fn is_octal(byte: u8) -> bool
    ensures { result ≡ is_octal byte }
{
    byte >= b'0' && byte <= b'7'
}

/// How many letters, digits, `_`, `.` and `$` the bytes begin with.
pub(crate) fn word_length(bytes: &[u8]) -> usize
    ensures value { result ≡ prefix_len is_in_word bytes.now }
    ensures within { result ≤ length bytes.now }
{
    for (length, byte) in bytes.iter().enumerate() {
        if !is_in_word(*byte) {
            return length;
        }
    }
    bytes.len()
}
