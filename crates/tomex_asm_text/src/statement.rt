//! What a line says.

use tomex_asm_tokens::Token;
use tomex_rvdec::Op;

/// What an instruction's immediate will be. A value is its tokens.
#[derive(Clone, Copy)]
pub enum Immediate<'a> {
    Fixed(i32),
    /// The value.
    Plain(&'a [Token]),
    /// Its low 12 bits, with their sign: `%lo`.
    Low(&'a [Token]),
    /// Its upper 20 bits, so that these and the low ones make the value: `%hi`.
    High(&'a [Token]),
    /// How far it is from the instruction, if it is an address; else the value.
    Target(&'a [Token]),
    /// The upper 20 bits of how far the address is from the instruction.
    PcHigh(&'a [Token]),
    /// The low 12 bits of how far the address is from the instruction before.
    PcLow(&'a [Token]),
}

/// An instruction before its value. A register that its form doesn't have is 0.
#[derive(Clone, Copy)]
pub struct Template<'a> {
    pub op: Op,
    pub rd: u8,
    pub rs1: u8,
    pub rs2: u8,
    pub immediate: Immediate<'a>,
}

/// One of the two sections.
#[derive(Clone, Copy)]
pub enum Section {
    Text,
    Data,
}

/// How an alignment is given.
#[derive(Clone, Copy)]
pub enum Alignment {
    /// As the exponent of a power of 2.
    Power,
    /// As the number of bytes.
    Bytes,
}

/// Who sees a symbol, if it isn't only its own file.
#[derive(Clone, Copy)]
pub enum Binding {
    Global,
    Weak,
}

/// What a symbol is the name of.
#[derive(Clone, Copy)]
pub enum Kind {
    Function,
    Object,
}

/// What a line says. A value is its tokens, and so is a list of values, of names or of strings, with its commas.
#[derive(Clone, Copy)]
pub enum Statement<'a> {
    Nothing,
    One(Template<'a>),
    /// A pair: the second's pc is the first's.
    Two(Template<'a>, Template<'a>),
    /// `li`: a register, and the number that it gets.
    LoadNumber(u8, &'a [Token]),
    InSection(Section),
    Align(Alignment, &'a [Token]),
    /// This many zeros.
    Space(&'a [Token]),
    /// Strings, each with a zero after it if the flag is set.
    Strings(bool, &'a [Token]),
    /// Numbers, each of this many bytes.
    Data(u8, &'a [Token]),
    /// A name, and the value that it stands for.
    Define(Token, &'a [Token]),
    /// A label in the data, its size and its alignment.
    Common(Token, &'a [Token], &'a [Token]),
    Bind(Binding, &'a [Token]),
    OfKind(Token, Kind),
    Size(Token, &'a [Token]),
}
