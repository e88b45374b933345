//! The part of a line by which refusals are looked for.

ghost use Rattle.std.specs.Prelude.{◌≡◌, ◌↔◌, List, ℕ, option_map, true};
ghost use Rattle.tomex_refusals.specs.LongestWords.{AreWords, IsInALine, IsLongest, IsPart};

use crate::looking::has_words;
use crate::refusal::Refusal;

/// True if some line of the list has these words in it.
fn is_in_a_line(words: &str) -> bool
    ensures { (result ≡ true) ↔ IsInALine words.now }
{
    for refusal in Refusal::ALL {
        if has_words(refusal.form(), words) {
            return true;
        }
    }
    false
}

/// The longest word of a text that some line has, if there is one: the first of several equally long ones.
fn longest_word(text: &str) -> Option<&str>
    ensures { (words : List (List ℕ)) × AreWords text.now words
        × IsLongest words (option_map (λ word. word.now) result) }
{
    let mut longest: Option<&str> = None;
    for word in text.split_whitespace() {
        if longest.unwrap_or("").len() < word.len() && is_in_a_line(word) {
            longest = Some(word);
        }
    }
    longest
}

/// The words, if some line of the list has them; else the longest of them that some line has, if there is one.
pub fn part_of(words: &str) -> Option<&str>
    ensures { IsPart words.now (option_map (λ part. part.now) result) }
{
    if is_in_a_line(words) {
        return Some(words);
    }
    longest_word(words)
}
