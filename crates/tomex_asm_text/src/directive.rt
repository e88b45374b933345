//! The names of directives and sections.

ghost use Rattle.std.specs.Prelude.{◌≡◌, map};
ghost use Rattle.tomex_asm_text.specs.Directives.{begins_text, directive_named, is_part_of, section_in, section_named};

use crate::statement::{Alignment, Binding, Section};
use tomex_asm_tokens::named;

/// What a directive says.
#[derive(Clone, Copy)]
pub enum Directive {
    InSection(Section),
    /// The section whose name follows.
    Section,
    Bind(Binding),
    OfKind,
    Size,
    Define,
    Common,
    /// Numbers, each of this many bytes.
    Data(u8),
    /// Strings, each with a zero after it if the flag is set.
    Strings(bool),
    Space,
    Align(Alignment),
    /// Nothing; the rest of the line is ignored.
    Ignored,
}

const DIRECTIVES: [(&str, Directive); 30] = [
    (".text", Directive::InSection(Section::Text)),
    (".data", Directive::InSection(Section::Data)),
    (".bss", Directive::InSection(Section::Data)),
    (".section", Directive::Section),
    (".globl", Directive::Bind(Binding::Global)),
    (".global", Directive::Bind(Binding::Global)),
    (".weak", Directive::Bind(Binding::Weak)),
    (".type", Directive::OfKind),
    (".size", Directive::Size),
    (".equ", Directive::Define),
    (".set", Directive::Define),
    (".comm", Directive::Common),
    (".word", Directive::Data(4)),
    (".half", Directive::Data(2)),
    (".byte", Directive::Data(1)),
    (".ascii", Directive::Strings(false)),
    (".asciz", Directive::Strings(true)),
    (".string", Directive::Strings(true)),
    (".zero", Directive::Space),
    (".space", Directive::Space),
    (".align", Directive::Align(Alignment::Power)),
    (".p2align", Directive::Align(Alignment::Power)),
    (".balign", Directive::Align(Alignment::Bytes)),
    (".file", Directive::Ignored),
    (".ident", Directive::Ignored),
    (".attribute", Directive::Ignored),
    (".option", Directive::Ignored),
    (".local", Directive::Ignored),
    (".addrsig", Directive::Ignored),
    (".addrsig_sym", Directive::Ignored),
];

/// Sections, by the first part of their names.
const SECTIONS: [(&str, Section); 8] = [
    (".text", Section::Text),
    (".data", Section::Data),
    (".rodata", Section::Data),
    (".bss", Section::Data),
    (".sdata", Section::Data),
    (".srodata", Section::Data),
    (".sbss", Section::Data),
    (".note", Section::Data),
];

fn begins_text(front: &[u8], word: &[u8]) -> bool
    ensures { result ≡ begins_text front.now word.now }
{
    word.starts_with(front)
}

/// The directive with this name.
pub(crate) fn directive_named(word: &[u8]) -> Option<Directive>
    ensures { result ≡ directive_named word.now }
{
    if begins_text(b".cfi_", word) {
        Some(Directive::Ignored)
    } else {
        named(&DIRECTIVES, word)
    }
}

/// True if the word is the name, or begins with the name and a `.`.
fn is_part_of(word: &[u8], name: &[u8]) -> bool
    ensures { result ≡ is_part_of word.now name.now }
{
    begins_text(name, word)
        && (word.len() == name.len() || word.get(name.len()).copied().unwrap_or(0) == b'.')
}

/// The section in the first row for which `is_part_of` is true.
fn section_in(rows: &[(&str, Section)], word: &[u8]) -> Option<Section>
    ensures { result ≡ section_in (map (λ row. (row.0.now, row.1)) rows.now) word.now }
{
    for (name, section) in rows {
        if is_part_of(word, name.as_bytes()) {
            return Some(*section);
        }
    }
    None
}

/// The section with this name.
pub(crate) fn section_named(word: &[u8]) -> Option<Section>
    ensures { result ≡ section_named word.now }
{
    section_in(&SECTIONS, word)
}
