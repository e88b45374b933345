//! What directives say of symbols.

ghost use Rattle.std.specs.Prelude.{◌≡◌, ℕ, List, OnOk, IfOk, map};
ghost use Rattle.tomex_asm_words.specs.Outputs.{remark_of};
ghost use Rattle.tomex_asm.specs.File.{attributes_from, attributes_of, nothing_said, noted, noted_if, stronger};
ghost use Rattle.tomex_asm.specs.Named.{attributes_at};

use std::alloc::{AllocError, Allocator};
use std::collections::BTreeMap;
use tomex_asm_text::{Binding, Kind};
use tomex_asm_words::{Remark, Said};

/// What directives say of a symbol.
#[derive(Clone, Copy)]
pub struct Attributes {
    /// None of a local symbol.
    pub binding: Option<Binding>,
    pub kind: Option<Kind>,
    pub size: u32,
}

/// Nothing is said.
const NOTHING: Attributes = Attributes {
    binding: None,
    kind: None,
    size: 0,
};

fn stronger(before: Option<Binding>, binding: Binding) -> Option<Binding>
    ensures { result ≡ stronger before binding }
{
    match before {
        Some(Binding::Weak) => before,
        _ => Some(binding),
    }
}

fn noted(before: Attributes, said: Said) -> Attributes
    ensures { result ≡ noted before said }
{
    let Attributes {
        binding,
        kind,
        size,
    } = before;
    match said {
        Said::Bound(more) => Attributes {
            binding: stronger(binding, more),
            kind,
            size,
        },
        Said::IsOfKind(kind) => Attributes {
            binding,
            kind: Some(kind),
            size,
        },
        Said::HasSize(size) => Attributes {
            binding,
            kind,
            size,
        },
    }
}

/// What is said of a name.
pub(crate) fn attributes_at<'a, A: Allocator + Clone>(
    index: &BTreeMap<&'a [u8], Attributes, A>,
    name: &'a [u8],
) -> Attributes
    ensures { result ≡ attributes_at index.now name.now }
{
    match index.get(&name) {
        Some(attributes) => *attributes,
        None => NOTHING,
    }
}

/// Notes a remark.
fn note<'a, A: Allocator + Clone>(
    index: &mut BTreeMap<&'a [u8], Attributes, A>,
    remark: Remark<'a>,
) -> Result<(), AllocError>
    ensures { OnOk result ((w : List ℕ) → attributes_at index.new w
        ≡ noted_if w (attributes_at index.old w) (remark_of remark.entry)) }
{
    let before = attributes_at(index, remark.name);
    index.insert(remark.name, noted(before, remark.said))?;
    Ok(())
}

/// What is said of each name.
pub(crate) fn index_of<'a, A: Allocator + Clone>(
    alloc: A,
    remarks: &[Remark<'a>],
) -> Result<BTreeMap<&'a [u8], Attributes, A>, AllocError>
    ensures { IfOk result (λ index. (w : List ℕ) → attributes_at index w
        ≡ attributes_of w (map remark_of remarks.now)) }
{
    let mut index = BTreeMap::new(alloc);
    for remark in remarks {
        note(&mut index, *remark)?;
    }
    Ok(index)
}
