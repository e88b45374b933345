//! How words are looked for in a text: capitals are as small letters.

ghost use Rattle.std.specs.Prelude.{◌≡◌, ◌≤◌, ◌+◌, ◌↔◌, true, drop, length, take};
ghost use Rattle.std.specs.Str.{str_eq_ignore_ascii_case};
ghost use Rattle.tomex_refusals.specs.Looking.{HasWords};

/// True if the words stand at this place of a text.
fn stand_at(text: &[u8], words: &[u8], place: usize) -> bool
    requires { place + length words.now ≤ length text.now }
    ensures { result ≡ str_eq_ignore_ascii_case (take (length words.now) (drop place text.now)) words.now }
{
    text[place..place + words.len()].eq_ignore_ascii_case(words)
}

/// True if the words are somewhere in the text. Capitals are as small letters, in both.
pub fn has_words(text: &str, words: &str) -> bool
    ensures { (result ≡ true) ↔ HasWords text.now words.now }
{
    let (text, words) = (text.as_bytes(), words.as_bytes());
    if text.len() < words.len() {
        return false;
    }
    let last = text.len() - words.len();
    for place in 0..last {
        if stand_at(text, words, place) {
            return true;
        }
    }
    stand_at(text, words, last)
}
