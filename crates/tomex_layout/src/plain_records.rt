//! Records of numbers, without a writer of CSV: no field of theirs needs quotes.

ghost use Rattle.std.specs.Prelude.{◌≡◌, ◌<◌, ◌++◌, length, map, OnOk};
ghost use Rattle.std.specs.List.{flat_map};
ghost use Rattle.std.specs.Fmt.{decimal};
ghost use Rattle.tomex_layout.specs.Csv.{record_text};
ghost use Rattle.tomex_layout.specs.PlainRecords.{after_comma};

use crate::digits::push_digits;
use std::alloc::{AllocError, Allocator};

/// Adds a number after a comma.
pub fn push_next_number<A: Allocator>(text: &mut Vec<u8, A>, number: u64) -> Result<(), AllocError>
    ensures { OnOk result (text.new.items ≡ text.old.items ++ after_comma number) }
{
    text.push(b',')?;
    push_digits(text, number)
}

/// Adds each of these numbers after a comma.
fn push_others<A: Allocator>(text: &mut Vec<u8, A>, numbers: &[u64]) -> Result<(), AllocError>
    ensures { OnOk result (text.new.items ≡ text.old.items ++ flat_map after_comma numbers.now) }
{
    for number in numbers {
        push_next_number(text, *number)?;
    }
    Ok(())
}

/// Adds a record of these numbers to a text of CSV.
pub fn push_numbers<A: Allocator>(text: &mut Vec<u8, A>, numbers: &[u64]) -> Result<(), AllocError>
    requires some { 0 < length numbers.now }
    ensures { OnOk result (text.new.items ≡ text.old.items ++ record_text (map decimal numbers.now)) }
{
    push_digits(text, numbers[0])?;
    push_others(text, &numbers[1..])?;
    text.push(b'\n')?;
    Ok(())
}
