//! The tokens of a line.

ghost use Rattle.std.specs.Prelude.{◌≡◌};

/// A character that is a token.
#[derive(Clone, Copy)]
pub enum Mark {
    Comma,
    Open,
    Close,
    Colon,
    Plus,
    Minus,
    Star,
    Percent,
    At,
}

/// What a token is.
#[derive(Clone, Copy)]
pub enum Sort {
    Word,
    /// A number that can be a local label: decimal, without a prefix.
    Decimal(u32),
    /// Any other number, or a character.
    Number(u32),
    /// A local label above, such as `1b`.
    Above,
    /// A local label below, such as `1f`.
    Below,
    /// A string.
    Text,
    Mark(Mark),
}

/// A token, and where it is in its line, in bytes from the beginning.
#[derive(Clone, Copy)]
pub struct Token {
    pub sort: Sort,
    pub from: usize,
    /// Right after its last byte.
    pub to: usize,
}

impl Mark {
    ghost use Rattle.tomex_asm_tokens.specs.Tokens.{character_of};

    fn character(self) -> u8
        ensures { result ≡ character_of self }
    {
        match self {
            Mark::Comma => b',',
            Mark::Open => b'(',
            Mark::Close => b')',
            Mark::Colon => b':',
            Mark::Plus => b'+',
            Mark::Minus => b'-',
            Mark::Star => b'*',
            Mark::Percent => b'%',
            Mark::At => b'@',
        }
    }
}

impl Token {
    ghost use Rattle.tomex_asm_tokens.specs.Tokens.{is_mark, sort_is_word};

    pub fn is_mark(self, mark: Mark) -> bool
        ensures { result ≡ is_mark mark self }
    {
        match self.sort {
            Sort::Mark(other) => mark.character() == other.character(),
            _ => false,
        }
    }

    pub fn is_word(self) -> bool
        ensures { result ≡ sort_is_word self.sort }
    {
        matches!(self.sort, Sort::Word)
    }
}
