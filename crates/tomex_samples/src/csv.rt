//! Parts as CSV.

ghost use Rattle.std.specs.Prelude.{◌≡◌, ◌++◌, IfOk, OnOk, string_bytes, sum_by};
ghost use Rattle.std.specs.List.{flat_map};
ghost use Rattle.tomex_samples.specs.declared.chosen.Chosen.{Chosen};
ghost use Rattle.tomex_samples.specs.PartsCsv.{part_line, parts_csv, total_line};

use crate::chosen::Chosen;
use std::alloc::{AllocError, Allocator};
use std::fmt::Write;

/// Adds the record of a part.
fn push_part<A: Allocator>(text: &mut String<A>, part: &Chosen) -> Result<(), AllocError>
    ensures { OnOk result (string_bytes text.new ≡ string_bytes text.old ++ part_line part.now) }
{
    let Chosen {
        from,
        steps,
        stretches,
        weight,
    } = *part;
    write!(text, "{from},{steps},{stretches},{weight}\n")
}

/// Adds the records of parts.
fn push_parts<A: Allocator>(text: &mut String<A>, parts: &[Chosen]) -> Result<(), AllocError>
    ensures { OnOk result (string_bytes text.new ≡ string_bytes text.old ++ flat_map part_line parts.now) }
{
    for part in parts {
        push_part(text, part)?;
    }
    Ok(())
}

/// The steps of all parts.
fn all_steps(parts: &[Chosen]) -> u128
    ensures { result ≡ sum_by (λ (p : Chosen). p.steps) parts.now }
{
    parts.iter().map(|part| u128::from(part.steps)).sum()
}

/// The stretches for which all parts stand.
fn all_stretches(parts: &[Chosen]) -> u128
    ensures { result ≡ sum_by (λ (p : Chosen). p.stretches) parts.now }
{
    parts.iter().map(|part| u128::from(part.stretches)).sum()
}

/// Adds the record of all parts.
fn push_total<A: Allocator>(text: &mut String<A>, parts: &[Chosen]) -> Result<(), AllocError>
    ensures { OnOk result (string_bytes text.new ≡ string_bytes text.old ++ total_line parts.now) }
{
    let (steps, stretches) = (all_steps(parts), all_stretches(parts));
    write!(text, "total,{steps},{stretches},-\n")
}

/// The parts as CSV: a header; a record for each part, with the number of its first step, its steps, the stretches for
/// which it stands and its weight; and a record of all, with their steps and stretches.
pub fn parts_csv<A: Allocator>(alloc: A, parts: &[Chosen]) -> Result<Vec<u8, A>, AllocError>
    ensures { IfOk result (λ text. text.items ≡ parts_csv parts.now) }
{
    let mut text = String::new(alloc);
    text.push_str("from,steps,stretches,weight\n")?;
    push_parts(&mut text, parts)?;
    push_total(&mut text, parts)?;
    Ok(text.into_bytes())
}
