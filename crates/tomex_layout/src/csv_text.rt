//! A text of records.

ghost use Rattle.std.specs.Prelude.{◌≡◌, ◌++◌, [], map, IfOk};
ghost use Rattle.tomex_layout.specs.Csv.{record_text};

use crate::csv_fields::Fields;
use crate::writing::{into_text, put_record};
use csv::Writer;
use std::alloc::{AllocError, Allocator, Global};
use std::marker::Model;

/// A text of CSV: its records, so far.
#[derive(Drop)]
pub struct CsvText<A: Allocator> {
    writer: Writer<Vec<u8, A>>,
}

impl<A: Allocator> Model for CsvText<A> {
    ghost use Rattle.std.specs.Prelude.{ℕ, List};
    ghost use Rattle.tomex_layout.specs.Csv.{IsReady, text_written};

    ghost Value = { List ℕ };

    ghost view = { λ text. text_written (λ v. v.items) text.writer };

    ghost invariant = { λ text. IsReady text.writer };
}

impl<A: Allocator> CsvText<A> {
    /// No records.
    pub fn new(alloc: A) -> Self
        ensures { result ≡ [] }
    {
        Self {
            writer: Writer::from_writer(Vec::new(alloc)),
        }
    }

    /// A header of these names.
    pub fn with_header(alloc: A, heap: Global, names: &[&str]) -> Result<Self, AllocError>
        ensures { IfOk result (λ text. text ≡ record_text (map (λ name. name.now) names.now)) }
    {
        Self::new(alloc).with(&Fields::of_names(heap, names)?)
    }

    /// The text with a record more. Without memory for it nothing is left of the text.
    pub fn with(self, fields: &Fields) -> Result<Self, AllocError>
        ensures { IfOk result (λ text. text ≡ self ++ record_text fields.now) }
    {
        let mut writer = self.writer;
        put_record(&mut writer, fields.as_record())?;
        Ok(Self { writer })
    }

    /// Its bytes.
    pub fn into_bytes(self) -> Result<Vec<u8, A>, AllocError>
        ensures { IfOk result (λ text. text.items ≡ self) }
    {
        into_text(self.writer)
    }
}
