//! The fields of a record of the table.

ghost use Rattle.std.specs.Prelude.{◌≡◌, ◌++◌, ◌∷◌, [], OnOk, codes, map};
ghost use Rattle.std.specs.List.{flat_map};
ghost use Rattle.std.specs.Fmt.{decimal};
ghost use Rattle.std.specs.Option.{option_map};
ghost use Rattle.csv.specs.Records.{fields_of, partial_of};
ghost use Rattle.tomex_rvdec.specs.Text.{hex8};
ghost use Rattle.tomex_layout.specs.Growth.{Appends};
ghost use Rattle.tomex_loop_views.specs.Table.{around_text, charge_text, count_fields, dashes, extent_fields};
ghost use Rattle.tomex_loop_views.specs.Table.{path_text, pattern_text};

use crate::charges::Charge;
use csv::ByteRecord;
use std::alloc::AllocError;
use std::fmt::Write;
use tomex_layout::push_decimal;
use tomex_loop_sums::{Around, Extent};
use tomex_loops::Counts;
use tomex_path_views::push_name_of_reason;

/// Adds an address.
pub(crate) fn push_address(
    fields: &mut ByteRecord,
    scratch: &mut String,
    address: u32,
) -> Result<(), AllocError>
    requires { partial_of fields.old ≡ [] }
    ensures fields { OnOk result (fields_of fields.new ≡ fields_of fields.old ++ hex8 address ∷ []) }
    ensures whole { OnOk result (partial_of fields.new ≡ []) }
{
    scratch.clear();
    write!(scratch, "{address:08x}")?;
    fields.push_field(scratch.as_bytes())
}

/// Adds the least and the greatest address.
pub(crate) fn push_extent(
    fields: &mut ByteRecord,
    scratch: &mut String,
    extent: Option<Extent>,
) -> Result<(), AllocError>
    requires { partial_of fields.old ≡ [] }
    ensures fields { OnOk result (fields_of fields.new ≡ fields_of fields.old ++ extent_fields extent) }
    ensures whole { OnOk result (partial_of fields.new ≡ []) }
{
    match extent {
        Some(e) => {
            push_address(fields, scratch, e.first)?;
            push_address(fields, scratch, e.last)
        }
        None => push_dashes(fields, 2),
    }
}

/// Adds the head of the loop around.
pub(crate) fn push_around(
    fields: &mut ByteRecord,
    scratch: &mut String,
    around: Around,
) -> Result<(), AllocError>
    requires { partial_of fields.old ≡ [] }
    ensures fields { OnOk result (fields_of fields.new ≡ fields_of fields.old ++ around_text around ∷ []) }
    ensures whole { OnOk result (partial_of fields.new ≡ []) }
{
    match around {
        Around::Nowhere => fields.push_field(b"-"),
        Around::Within(head) => push_address(fields, scratch, head),
        Around::Several => fields.push_field(b"several"),
    }
}

/// Adds a field for each number.
pub(crate) fn push_decimals(
    fields: &mut ByteRecord,
    scratch: &mut String,
    numbers: &[u64],
) -> Result<(), AllocError>
    requires { partial_of fields.old ≡ [] }
    ensures fields { OnOk result (fields_of fields.new ≡ fields_of fields.old ++ map decimal numbers.now) }
    ensures whole { OnOk result (partial_of fields.new ≡ []) }
{
    for number in numbers {
        push_decimal(fields, scratch, *number)?;
    }
    Ok(())
}

/// Adds this many dashes.
pub(crate) fn push_dashes(fields: &mut ByteRecord, count: usize) -> Result<(), AllocError>
    requires { partial_of fields.old ≡ [] }
    ensures fields { OnOk result (fields_of fields.new ≡ fields_of fields.old ++ dashes count) }
    ensures whole { OnOk result (partial_of fields.new ≡ []) }
{
    for _field in 0..count {
        fields.push_field(b"-")?;
    }
    Ok(())
}

/// Adds what is counted of rounds.
pub(crate) fn push_counts(
    fields: &mut ByteRecord,
    scratch: &mut String,
    counts: Option<Counts>,
) -> Result<(), AllocError>
    requires { partial_of fields.old ≡ [] }
    ensures fields { OnOk result (fields_of fields.new ≡ fields_of fields.old ++ count_fields counts) }
    ensures whole { OnOk result (partial_of fields.new ≡ []) }
{
    match counts {
        Some(c) => push_decimals(
            fields,
            scratch,
            &[c.least, c.median, c.most, c.usual, c.alike],
        ),
        None => push_dashes(fields, 5),
    }
}

/// Adds numbers to a text, with a space before each.
fn push_more_numbers(text: &mut String, numbers: &[u64]) -> Result<(), AllocError>
    ensures { OnOk result (Appends (flat_map (λ n. codes " " ++ decimal n) numbers.now) text.old text.new) }
{
    for number in numbers {
        write!(text, " {number}")?;
    }
    Ok(())
}

/// Adds the counts that rounds repeat.
pub(crate) fn push_pattern(
    fields: &mut ByteRecord,
    scratch: &mut String,
    pattern: Option<&[u64]>,
) -> Result<(), AllocError>
    requires { partial_of fields.old ≡ [] }
    ensures fields { OnOk result (fields_of fields.new
        ≡ fields_of fields.old ++ pattern_text (option_map (λ counts. counts.now) pattern.entry) ∷ []) }
    ensures whole { OnOk result (partial_of fields.new ≡ []) }
{
    let Some(counts) = pattern else {
        return fields.push_field(b"-");
    };
    let Some((first, more)) = counts.split_first() else {
        return fields.push_field(b"-");
    };
    scratch.clear();
    write!(scratch, "{first}")?;
    push_more_numbers(scratch, more)?;
    fields.push_field(scratch.as_bytes())
}

/// Adds the cycles for a reason to a text.
fn push_charge(text: &mut String, charge: Charge) -> Result<(), AllocError>
    ensures { OnOk result (Appends (charge_text charge) text.old text.new) }
{
    push_name_of_reason(text, charge.reason)?;
    write!(text, "={}", charge.cycles)?;
    Ok(())
}

/// Adds cycles to a text, with a space before those for each reason.
fn push_more_charges(text: &mut String, charges: &[Charge]) -> Result<(), AllocError>
    ensures { OnOk result (Appends (flat_map (λ c. codes " " ++ charge_text c) charges.now) text.old text.new) }
{
    for charge in charges {
        text.push(' ')?;
        push_charge(text, *charge)?;
    }
    Ok(())
}

/// Adds the cycles of a path.
pub(crate) fn push_path(
    fields: &mut ByteRecord,
    scratch: &mut String,
    charges: &[Charge],
) -> Result<(), AllocError>
    requires { partial_of fields.old ≡ [] }
    ensures fields { OnOk result (fields_of fields.new ≡ fields_of fields.old ++ path_text charges.now ∷ []) }
    ensures whole { OnOk result (partial_of fields.new ≡ []) }
{
    let Some((first, more)) = charges.split_first() else {
        return fields.push_field(b"-");
    };
    scratch.clear();
    push_charge(scratch, *first)?;
    push_more_charges(scratch, more)?;
    fields.push_field(scratch.as_bytes())
}
