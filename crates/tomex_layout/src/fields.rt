//! The fields of records, added one after another through a reused text.

ghost use Rattle.std.specs.Prelude.{◌≡◌, ◌++◌, ◌∷◌, [], OnOk, map};
ghost use Rattle.std.specs.Fmt.{decimal};
ghost use Rattle.csv.specs.Records.{fields_of, partial_of};
ghost use Rattle.tomex_rvdec.specs.Text.{hex8, instr_text};

use csv::ByteRecord;
use std::alloc::AllocError;
use std::fmt::Write;
use tomex_rvdec::Instr;

/// Adds a field of decimal digits.
pub fn push_decimal(
    fields: &mut ByteRecord,
    scratch: &mut String,
    number: u64,
) -> Result<(), AllocError>
    requires { partial_of fields.old ≡ [] }
    ensures fields { OnOk result (fields_of fields.new
        ≡ fields_of fields.old ++ decimal number ∷ []) }
    ensures whole { OnOk result (partial_of fields.new ≡ []) }
{
    scratch.clear();
    write!(scratch, "{number}")?;
    fields.push_field(scratch.as_bytes())
}

/// Adds an instruction, after its address in eight hexadecimal digits.
pub fn push_instruction(
    fields: &mut ByteRecord,
    scratch: &mut String,
    pc: u32,
    instr: Instr,
) -> Result<(), AllocError>
    requires { partial_of fields.old ≡ [] }
    ensures fields { OnOk result (fields_of fields.new
        ≡ fields_of fields.old ++ hex8 pc ∷ instr_text instr ∷ []) }
    ensures whole { OnOk result (partial_of fields.new ≡ []) }
{
    scratch.clear();
    write!(scratch, "{pc:08x}")?;
    fields.push_field(scratch.as_bytes())?;
    scratch.clear();
    write!(scratch, "{instr}")?;
    fields.push_field(scratch.as_bytes())
}

/// Adds a field for each of these names.
pub fn push_names(fields: &mut ByteRecord, names: &[&str]) -> Result<(), AllocError>
    requires { partial_of fields.old ≡ [] }
    ensures fields { OnOk result (fields_of fields.new
        ≡ fields_of fields.old ++ map (λ name. name.now) names.now) }
    ensures whole { OnOk result (partial_of fields.new ≡ []) }
{
    for name in names {
        fields.push_field(name.as_bytes())?;
    }
    Ok(())
}
