//! Instructions at their addresses, as fields of the records of steps. The text of one is made once, as long as no
//! other one takes its place in the table.

ghost use Rattle.std.specs.Prelude.{◌≡◌, ◌++◌, ◌<◌, true, IfOk, IfSome, OnOk};
ghost use Rattle.tomex_texts.specs.Places.{AreKept, place_text};

use csv::ByteRecord;
use std::alloc::{AllocError, Allocator, Global};
use tomex_layout::{push_instruction, text_of_record};
use tomex_rvdec::Instr;

/// An instruction at its address, and the text of both.
#[derive(Drop)]
pub(crate) struct Place {
    pub pc: u32,
    pub instr: Instr,
    pub text: Vec<u8>,
}

/// The text of an instruction after its address, each after a comma.
fn text_of(heap: Global, pc: u32, instr: Instr) -> Result<Vec<u8>, AllocError>
    ensures { IfOk result (λ text. text.items ≡ place_text pc instr) }
{
    let mut record = ByteRecord::new(heap);
    record.push_field(b"")?;
    push_instruction(&mut record, &mut String::new(heap), pc, instr)?;
    let mut text = text_of_record(heap, &record)?;
    // The line feed.
    text.pop();
    Ok(text)
}

/// A table without places.
pub(crate) fn no_places(heap: Global) -> Result<Vec<Option<Place>>, AllocError>
    ensures { IfOk result (λ places. AreKept places.items) }
{
    let mut places = Vec::with_capacity(heap, 1024)?;
    for _slot in 0..1024usize {
        places.push(None)?;
    }
    Ok(places)
}

/// True if two instructions are the same.
fn is_same(a: Instr, b: Instr) -> bool
    ensures { result ≡ true → a ≡ b }
{
    a.op() == b.op()
        && a.rd() == b.rd()
        && a.rs1() == b.rs1()
        && a.rs2() == b.rs2()
        && a.imm() == b.imm()
}

/// The text of an instruction after its address, if it is kept in this slot.
fn kept_text(places: &[Option<Place>], slot: usize, pc: u32, instr: Instr) -> Option<&[u8]>
    requires kept { AreKept places.now }
    requires slot { slot < 1024 }
    ensures { IfSome result (λ text. text.now ≡ place_text pc instr) }
{
    match &places[slot] {
        Some(place) if place.pc == pc && is_same(place.instr, instr) => Some(place.text.as_slice()),
        _ => None,
    }
}

/// Adds an instruction after its address, each after a comma.
pub(crate) fn push_place<A: Allocator>(
    text: &mut Vec<u8, A>,
    heap: Global,
    places: &mut Vec<Option<Place>>,
    pc: u32,
    instr: Instr,
) -> Result<(), AllocError>
    requires kept { AreKept places.old.items }
    ensures kept { AreKept places.new.items }
    ensures text { OnOk result (text.new.items ≡ text.old.items ++ place_text pc instr) }
{
    let slot = (pc >> 2) as usize % 1024;
    if let Some(fields) = kept_text(places.as_slice(), slot, pc, instr) {
        return text.extend_from_slice(fields);
    }
    let fields = text_of(heap, pc, instr)?;
    text.extend_from_slice(fields.as_slice())?;
    places[slot] = Some(Place {
        pc,
        instr,
        text: fields,
    });
    Ok(())
}
