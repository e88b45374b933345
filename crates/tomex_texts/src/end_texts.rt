//! The texts of a program's end: the registers that aren't zero, and the watched bytes.

ghost use Rattle.std.specs.Prelude.{◌≡◌, ◌++◌, IfOk, codes, length, map, string_bytes};
ghost use Rattle.std.specs.List.{flat_map};
ghost use Rattle.std.specs.Fmt.{decimal};
ghost use Rattle.tomex_rvdec.specs.Text.{hex8};
ghost use Rattle.tomex_rvexec.specs.Texts.{hex2};
ghost use Rattle.tomex_study.specs.Watch.{watched_bytes};
ghost use Rattle.tomex_texts.specs.FrontReport.{join_texts, nonzero_from, watch_texts};

use std::alloc::{AllocError, Global};
use std::fmt::Write;
use tomex_study::WatchRange;

/// Texts joined by one space, or `-` if there is none.
fn join_texts(heap: Global, texts: &[String]) -> Result<String, AllocError>
    ensures { IfOk result (λ s. string_bytes s ≡ join_texts (map string_bytes texts.now)) }
{
    let mut text = String::new(heap);
    let Some((first, rest)) = texts.split_first() else {
        text.push('-')?;
        return Ok(text);
    };
    text.push_str(first.as_str())?;
    for next in rest {
        text.push(' ')?;
        text.push_str(next.as_str())?;
    }
    Ok(text)
}

/// A register and its value.
fn register_text(heap: Global, register: usize, value: u32) -> Result<String, AllocError>
    ensures { IfOk result
        (λ s. string_bytes s ≡ codes "x" ++ (decimal register ++ (codes "=" ++ hex8 value))) }
{
    format!(in heap; "x{register}={value:08x}")
}

/// The registers that aren't zero.
fn register_texts(heap: Global, registers: &[u32]) -> Result<Vec<String>, AllocError>
    ensures { IfOk result (λ v. map string_bytes v.items ≡ nonzero_from 0 registers.now) }
{
    let mut texts = Vec::new(heap);
    for (register, value) in registers.iter().enumerate() {
        if *value != 0 {
            texts.push(register_text(heap, register, *value)?)?;
        }
    }
    Ok(texts)
}

/// The registers that aren't zero, as `x3=00000023`.
pub fn registers_text(heap: Global, registers: &[u32]) -> Result<String, AllocError>
    ensures { IfOk result (λ s. string_bytes s ≡ join_texts (nonzero_from 0 registers.now)) }
{
    let texts = register_texts(heap, registers)?;
    join_texts(heap, texts.as_slice())
}

/// A range and its bytes.
fn range_text(heap: Global, range: WatchRange, bytes: &[u8]) -> Result<String, AllocError>
    ensures { IfOk result
        (λ s. string_bytes s ≡ hex8 range.address ++ (codes ":" ++ flat_map hex2 bytes.now)) }
{
    let address = range.address;
    let mut text = format!(in heap; "{address:08x}:")?;
    for byte in bytes {
        write!(&mut text, "{byte:02x}")?;
    }
    Ok(text)
}

/// Each range with its own of these bytes.
fn range_texts(heap: Global, ranges: &[WatchRange], bytes: &[u8]) -> Result<Vec<String>, AllocError>
    requires { length bytes.now ≡ watched_bytes ranges.now }
    ensures { IfOk result (λ v. map string_bytes v.items ≡ watch_texts ranges.now bytes.now) }
{
    let mut texts = Vec::new(heap);
    let mut rest = bytes;
    for range in ranges {
        let (own, others) = rest.split_at(range.length as usize);
        texts.push(range_text(heap, *range, own)?)?;
        rest = others;
    }
    Ok(texts)
}

/// The watched ranges, as `00000100:00030000`, from their bytes, range by range.
pub fn watch_text(heap: Global, ranges: &[WatchRange], bytes: &[u8]) -> Result<String, AllocError>
    requires { length bytes.now ≡ watched_bytes ranges.now }
    ensures { IfOk result (λ s. string_bytes s ≡ join_texts (watch_texts ranges.now bytes.now)) }
{
    let texts = range_texts(heap, ranges, bytes)?;
    join_texts(heap, texts.as_slice())
}
