//! Where a text is, and what is left of a byte.

ghost use Rattle.std.specs.Prelude.{◌≡◌};
ghost use Rattle.tomex_asm_tokens.specs.Bare.{mode_after, is_comment, bare_byte};
ghost use Rattle.tomex_asm_tokens.specs.Characters.{is_quote};

/// Where a text is between two bytes.
#[derive(Clone, Copy)]
pub enum Mode {
    /// In neither quotes nor a comment.
    Code,
    /// After this quote, before the next quote of the same kind.
    Quoted(u8),
    /// Between such quotes, right after a `\`.
    Escaped(u8),
    /// In a comment that ends with its line.
    Line,
    /// Between the two bytes of a `/*`.
    Open,
    /// After a `/*`.
    Block,
    /// Between the two bytes of a `*/`.
    Close,
}

/// The byte that ends a line.
pub(crate) const NEWLINE: u8 = b'\n';

/// True if the byte is a quote, with which a character or a string begins and ends.
fn is_quote(byte: u8) -> bool
    ensures { result ≡ is_quote byte }
{
    byte == b'"' || byte == b'\''
}

/// Where the text is after a byte of code. A `/*` that isn't closed doesn't begin a comment.
fn after_code(byte: u8, next: Option<u8>, is_closed: bool) -> Mode
    ensures { result ≡ mode_after Mode.Code byte next is_closed }
{
    if byte == b'#' || byte == b'/' && next == Some(b'/') {
        Mode::Line
    } else if byte == b'/' && next == Some(b'*') && is_closed {
        Mode::Open
    } else if is_quote(byte) {
        Mode::Quoted(byte)
    } else {
        Mode::Code
    }
}

impl Mode {
    /// Where the text is after the byte, if the byte `next` follows, and then a `*/` if `is_closed`.
    pub(crate) fn after(self, byte: u8, next: Option<u8>, is_closed: bool) -> Mode
        ensures { result ≡ mode_after self byte next is_closed }
    {
        match self {
            Mode::Code => after_code(byte, next, is_closed),
            Mode::Quoted(quote) => {
                if byte == b'\\' {
                    Mode::Escaped(quote)
                } else if byte == quote || byte == NEWLINE {
                    Mode::Code
                } else {
                    Mode::Quoted(quote)
                }
            }
            Mode::Escaped(quote) => if byte == NEWLINE {
                Mode::Code
            } else {
                Mode::Quoted(quote)
            },
            Mode::Line => if byte == NEWLINE {
                Mode::Code
            } else {
                Mode::Line
            },
            Mode::Open => Mode::Block,
            Mode::Block => if byte == b'*' && next == Some(b'/') {
                Mode::Close
            } else {
                Mode::Block
            },
            Mode::Close => Mode::Code,
        }
    }

    fn is_comment(self) -> bool
        ensures { result ≡ is_comment self }
    {
        match self {
            Mode::Code | Mode::Quoted(_) | Mode::Escaped(_) => false,
            Mode::Line | Mode::Open | Mode::Block | Mode::Close => true,
        }
    }
}

/// What is left of a byte between two modes.
pub(crate) fn bare_byte(before: Mode, after: Mode, byte: u8) -> u8
    ensures { result ≡ bare_byte before after byte }
{
    if byte != NEWLINE && (before.is_comment() || after.is_comment()) {
        b' '
    } else {
        byte
    }
}
