//! Records, written one after another into a text.

ghost use Rattle.std.specs.Prelude.{◌≡◌, IfOk, OnOk};
ghost use Rattle.csv.specs.Records.{fields_of};
ghost use Rattle.tomex_layout.specs.Csv.{IsReady, record_text, text_written};
ghost use Rattle.tomex_layout.specs.Growth.{Writes};

use csv::{ByteRecord, Writer};
use std::alloc::{AllocError, Allocator};

/// Writes a record. Writing to a list of bytes can fail only by running out of memory.
pub fn put_record<A: Allocator>(
    writer: &mut Writer<Vec<u8, A>>,
    fields: &ByteRecord,
) -> Result<(), AllocError>
    requires { IsReady writer.old }
    ensures ready { OnOk result (IsReady writer.new) }
    ensures text { OnOk result (Writes (record_text (fields_of fields.now)) writer.old writer.new) }
{
    match writer.write_byte_record(fields) {
        Ok(()) => Ok(()),
        Err(_) => Err(AllocError),
    }
}

/// All that was written.
pub fn into_text<A: Allocator>(writer: Writer<Vec<u8, A>>) -> Result<Vec<u8, A>, AllocError>
    ensures { IfOk result (λ text. text.items ≡ text_written (λ v. v.items) writer) }
{
    match writer.into_inner() {
        Ok(text) => Ok(text),
        Err(_) => Err(AllocError),
    }
}

/// The text of a record.
pub fn text_of_record<A: Allocator>(alloc: A, fields: &ByteRecord) -> Result<Vec<u8, A>, AllocError>
    ensures { IfOk result (λ text. text.items ≡ record_text (fields_of fields.now)) }
{
    let mut writer = Writer::from_writer(Vec::new(alloc));
    put_record(&mut writer, fields)?;
    into_text(writer)
}
