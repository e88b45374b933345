//! Refusals of studies.

ghost use Rattle.std.specs.Prelude.{◌≡◌};
ghost use Rattle.tomex_refusals.specs.Studies.{advice_of, form_of, words_of};

/// A refusal of a study.
#[derive(Clone, Copy)]
pub enum StudyRefusal {
    /// The study's file is not a TOML document.
    NotToml,
    /// A table has a key that isn't known.
    UnknownKey,
    /// A table is missing a key that it needs.
    Missing,
    /// A value has the wrong kind.
    WrongKind,
    /// A value is too small or too large.
    OutOfRange,
    /// The product of the lists is too large.
    TooMany,
    /// Files and programs differ in number.
    NumberOfFiles,
}

const NOT_TOML: &str =
    "The file can't be read as TOML: a comma, a quote or a bracket is missing, a key
or a table is there twice, or it isn't UTF-8 (a letter with an accent as Latin-1
is enough, in a comment too). This line says the line and the column:
  python3 -c 'import tomllib; tomllib.load(open(\"study.toml\", \"rb\"))'
Python refuses a little more: an inline table, `{ .. }`, that goes over several
lines, and a comma after its last key.
";

const UNKNOWN_KEY: &str = "PLACE has a key that isn't known there. Those that are:
  top: program, prices, axes, unit
  program N, a table [[program]]: name, file, base, size, limit, watch, weight
  prices: alu, mul, div, load, store, bru, bus, width
  axes: alu, mul, div, load, store, bru, buses, width
  unit: alu, mul, div, mem, bru
  unit KIND N, a table [[unit.KIND]]: units, latency, price
Prices have `bus`, and axes `buses`. Loads and stores share the units `mem`.
";

const MISSING: &str =
    "PLACE needs KEY. A study needs one table [[program]] at least, and each of them
a `name` and a `file`; all other keys may be left out.
";

const WRONG_KIND: &str = "The value of KEY isn't of the kind that is wanted. The usual causes:
  [program] or [unit.mul] for [[program]] or [[unit.mul]], which are lists
  axes: a number in place of a list: alu = [4]
  units, latency, price: a list; each option has its own table [[unit.KIND]]
  a number in quotes, or with a point: 65536, or 0x10000
  watch: a list of pairs: [[4096, 8]]
";

const OUT_OF_RANGE: &str = "The value of KEY is outside its range:
  program: 1 to 8 tables; name: 1 to 32 of a-z 0-9 _ -, unlike the earlier names
  base: a multiple of 4; size: a multiple of 4 from 4 to 1048576; base + size at
  most 2^32; limit: 1 to 262144; weight: 1 to 1000; file: not empty
  watch: 8 pairs inside memory at most, 4096 bytes together
  prices and price: 0 to 1000000
  axes, lists that aren't empty: stations 1 to 16, buses 1 to 8, width 1 to 4
  unit: one table or more; units: 1 to 8, of bru 1; latency: 1 to 64
";

const TOO_MANY: &str =
    "The product of the lists has more than 16384 configurations. It is the numbers
of values of all axes, times the numbers of tables of each kind of unit. Take
values out of lists, or make several studies.
";

const NUMBER_OF_FILES: &str =
    "There aren't as many files as the study has programs. No command of this
program says it: it names each program's file itself.
";

impl StudyRefusal {
    /// The words that all such refusals have.
    pub fn words(self) -> &'static str
        ensures { result.now ≡ words_of self }
    {
        match self {
            StudyRefusal::NotToml => "study: not TOML",
            StudyRefusal::UnknownKey => "unknown key",
            StudyRefusal::Missing => "missing",
            StudyRefusal::WrongKind => "of wrong kind",
            StudyRefusal::OutOfRange => "out of range",
            StudyRefusal::TooMany => "study: too many configurations",
            StudyRefusal::NumberOfFiles => "study: wrong number of files",
        }
    }

    /// Its form, with names in place of the parts that vary.
    pub fn form(self) -> &'static str
        ensures { result.now ≡ form_of self }
    {
        match self {
            StudyRefusal::UnknownKey => "study: PLACE: unknown key",
            StudyRefusal::Missing => "study: PLACE: KEY missing",
            StudyRefusal::WrongKind => "study: PLACE: KEY of wrong kind",
            StudyRefusal::OutOfRange => "study: PLACE: KEY out of range",
            other => other.words(),
        }
    }

    /// The advice on it: its meaning, the usual causes, and what to do.
    pub fn advice(self) -> &'static str
        ensures { result.now ≡ advice_of self }
    {
        match self {
            StudyRefusal::NotToml => NOT_TOML,
            StudyRefusal::UnknownKey => UNKNOWN_KEY,
            StudyRefusal::Missing => MISSING,
            StudyRefusal::WrongKind => WRONG_KIND,
            StudyRefusal::OutOfRange => OUT_OF_RANGE,
            StudyRefusal::TooMany => TOO_MANY,
            StudyRefusal::NumberOfFiles => NUMBER_OF_FILES,
        }
    }
}
