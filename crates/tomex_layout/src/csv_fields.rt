//! The fields of a record.

ghost use Rattle.std.specs.Prelude.{◌≡◌, ◌++◌, ◌∷◌, [], IfOk, OnOk, map};
ghost use Rattle.std.specs.Fmt.{decimal};
ghost use Rattle.csv.specs.Records.{fields_of};
ghost use Rattle.tomex_layout.specs.CsvFields.{flag_field, number_field, percent_field};

use crate::csv_cells::number_in;
use csv::{ByteRecord, StringRecord};
use std::alloc::{AllocError, Global};
use std::fmt::Write;
use std::marker::Model;

/// The fields of a record, so far.
#[derive(Drop)]
pub struct Fields {
    record: StringRecord,
    /// For a number's digits.
    scratch: String,
}

impl Model for Fields {
    ghost use Rattle.std.specs.Prelude.{ℕ, List};
    ghost use Rattle.csv.specs.Records.{fields_of};

    ghost Value = { List (List ℕ) };

    ghost view = { λ f. fields_of f.record };
}

impl Fields {
    /// No fields.
    pub fn new(heap: Global) -> Self
        ensures { result ≡ [] }
    {
        Self {
            record: StringRecord::new(heap),
            scratch: String::new(heap),
        }
    }

    /// A field for each of these names.
    pub fn of_names(heap: Global, names: &[&str]) -> Result<Self, AllocError>
        ensures { IfOk result (λ fields. fields ≡ map (λ name. name.now) names.now) }
    {
        Ok(Self {
            record: StringRecord::from_fields(heap, names)?,
            scratch: String::new(heap),
        })
    }

    /// Adds a field.
    pub fn push(&mut self, field: &str) -> Result<(), AllocError>
        ensures { OnOk result (self.new ≡ self.old ++ field.now ∷ []) }
    {
        self.record.push_field(field)
    }

    /// Adds the number in a table's cell, without its plus sign, or nothing if `-` stands in it.
    pub fn push_number(&mut self, cell: &str) -> Result<(), AllocError>
        ensures { OnOk result (self.new ≡ self.old ++ number_field cell.now ∷ []) }
    {
        self.record.push_field(number_in(cell))
    }

    /// Adds a number in decimal.
    pub fn push_decimal(&mut self, number: u64) -> Result<(), AllocError>
        ensures { OnOk result (self.new ≡ self.old ++ decimal number ∷ []) }
    {
        self.scratch.clear();
        write!(self.scratch, "{number}")?;
        self.record.push_field(self.scratch.as_str())
    }

    /// Adds the percentage by which amounts may be wrong, or nothing from 100 on.
    pub fn push_percent(&mut self, percent: u64) -> Result<(), AllocError>
        ensures { OnOk result (self.new ≡ self.old ++ percent_field percent ∷ []) }
    {
        if percent < 100 {
            self.push_decimal(percent)
        } else {
            self.push("")
        }
    }

    /// Adds 1 if it is true, else 0.
    pub fn push_flag(&mut self, flag: bool) -> Result<(), AllocError>
        ensures { OnOk result (self.new ≡ self.old ++ flag_field flag ∷ []) }
    {
        self.push(if flag { "1" } else { "0" })
    }

    pub(crate) fn as_record(&self) -> &ByteRecord
        ensures { fields_of result.now ≡ self.now }
    {
        self.record.as_byte_record()
    }
}
