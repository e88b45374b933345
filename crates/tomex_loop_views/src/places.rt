//! The places of a run's loops: their heads, functions and addresses, and the loops around them.

ghost use Rattle.std.specs.Prelude.{◌≡◌, ◌<◌, ℕ, [], All, IfOk, IfSome, List, None, length, map, slice_index};
ghost use Rattle.std.specs.Prelude.{slice_index_or};
ghost use Rattle.std.specs.Option.{option_map};
ghost use Rattle.tomex_rvexec.specs.declared.step.Step.{Step};
ghost use Rattle.tomex_symbols.specs.declared.symbol.Symbol.{Symbol};
ghost use Rattle.tomex_symbols.specs.Functions.{function_at};
ghost use Rattle.tomex_symbols.specs.Symbols.{symbols_of};
ghost use Rattle.tomex_run_views.specs.ByPlace.{pc_of};
ghost use Rattle.tomex_functions.specs.Kept.{HasAddress, IsIndexOf};
ghost use Rattle.tomex_loops.specs.Sound.{AreEarlier, IsOneOf};
ghost use Rattle.tomex_loop_sums.specs.ByLoop.{head_of_visit, heads_around, loops_of};
ghost use Rattle.tomex_loop_sums.specs.Extents.{IsExtent, is_in_visit_of};
ghost use Rattle.tomex_loop_sums.specs.Groups.{with_key};
ghost use Rattle.tomex_loop_views.specs.PlaceColumns.{ArePlaces};

use std::alloc::{AllocError, Allocator};
use tomex_functions::Index;
use tomex_loop_sums::{Extent, extents_of, grouped, loops_of, within_of};
use tomex_loops::Visit;
use tomex_rvexec::Step;
use tomex_symbols::{Symbol, symbols};

/// The places of the loops, by their numbers.
#[derive(Drop)]
pub(crate) struct Places<A: Allocator> {
    /// The addresses of the heads.
    pub heads: Vec<u32, A>,
    /// The functions of the heads.
    pub functions: Vec<Option<Symbol>, A>,
    /// The least and the greatest address of the steps in a loop's visits.
    pub extents: Vec<Option<Extent>, A>,
    /// For each visit the address of the head of the loop around.
    pub around: Vec<Vec<Option<u32>, A>, A>,
}

/// The address of each step.
fn addresses_of<A: Allocator>(alloc: A, steps: &[Step]) -> Result<Vec<u32, A>, AllocError>
    ensures { IfOk result (λ v. v.items ≡ map pc_of steps.now) }
{
    let mut addresses = Vec::new(alloc);
    for step in steps {
        addresses.push(step.pc)?;
    }
    Ok(addresses)
}

/// The addresses of these steps, given those of all.
fn at_steps<A: Allocator + Clone>(
    alloc: &A,
    addresses: &[u32],
    steps: &[u32],
) -> Result<Vec<u32, A>, AllocError>
    requires { All (λ step. step < length addresses.now) steps.now }
    ensures { IfOk result (λ v. v.items ≡ map (slice_index addresses.now) steps.now) }
{
    let mut found = Vec::new(alloc.clone()?);
    for step in steps {
        found.push(addresses[*step as usize])?;
    }
    Ok(found)
}

/// The functions of these addresses, each of which is a step's.
fn functions_at<A: Allocator, B: Allocator>(
    alloc: A,
    index: &Index<B>,
    addresses: &[u32],
) -> Result<Vec<Option<Symbol>, A>, AllocError>
    ensures { IfOk result (λ v. (symbols : List Symbol) (steps : List Step) → IsIndexOf symbols steps index.now
        → All (λ pc. HasAddress pc steps) addresses.now → v.items ≡ map (function_at symbols) addresses.now) }
{
    let mut functions = Vec::new(alloc);
    for address in addresses {
        functions.push(index.function_at(*address))?;
    }
    Ok(functions)
}

/// The functions of the heads of loops, given their addresses.
fn functions_of<A: Allocator + Clone>(
    alloc: &A,
    file: &[u8],
    steps: &[Step],
    heads: &[u32],
) -> Result<Vec<Option<Symbol>, A>, AllocError>
    requires { All (λ pc. HasAddress pc steps.now) heads.now }
    ensures { IfOk result (λ v. v.items ≡ map (function_at (symbols_of file.now)) heads.now) }
{
    let symbols = symbols(alloc.clone()?, file)?;
    let index = Index::new(alloc.clone()?, symbols, steps)?;
    functions_at(alloc.clone()?, &index, heads)
}

/// For each of `count` loops the least and the greatest address of the steps in its visits, given the address of each
/// step and the number of each visit's loop.
fn extents_in<A: Allocator + Clone>(
    alloc: &A,
    count: usize,
    loops: &[u32],
    visits: &[Visit],
    here: &[Option<u32>],
    addresses: &[u32],
) -> Result<Vec<Option<Extent>, A>, AllocError>
    requires loops { loops.now ≡ loops_of visits.now }
    requires numbers { All (λ v. v.number < count) visits.now }
    requires within { AreEarlier (λ v. v.within) visits.now }
    requires here { All (IsOneOf (length visits.now)) here.now }
    requires pairs { length addresses.now ≡ length here.now }
    ensures count { IfOk result (λ extents. length extents.items ≡ count) }
    ensures extents { IfOk result (λ extents. (n : ℕ) → n < count
        → IsExtent (is_in_visit_of (loops_of visits.now) (map (λ v. v.within) visits.now) here.now n) addresses.now
        (slice_index_or extents.items n None)) }
{
    let within = within_of(alloc.clone()?, visits)?;
    extents_of(alloc.clone()?, count, loops, &within, here, addresses)
}

/// The address of the head of a visit's loop, if there is a visit.
fn head_of_visit(
    addresses: &[u32],
    heads: &[u32],
    visits: &[Visit],
    visit: Option<u32>,
) -> Option<u32>
    requires heads { All (λ h. h < length addresses.now) heads.now }
    requires loops { All (λ v. v.number < length heads.now) visits.now }
    requires visit { IfSome visit (λ v. v < length visits.now) }
    ensures { result ≡ option_map (head_of_visit addresses.now heads.now visits.now) visit }
{
    let number = visits[visit? as usize].number;
    let head = heads[number as usize];
    Some(addresses[head as usize])
}

/// For each visit the address of the head of the loop around.
fn heads_around<A: Allocator>(
    alloc: A,
    addresses: &[u32],
    heads: &[u32],
    visits: &[Visit],
) -> Result<Vec<Option<u32>, A>, AllocError>
    requires heads { All (λ h. h < length addresses.now) heads.now }
    requires loops { All (λ v. v.number < length heads.now) visits.now }
    requires around { AreEarlier (λ v. v.around) visits.now }
    ensures { IfOk result (λ v. v.items ≡ heads_around addresses.now heads.now visits.now) }
{
    let mut around = Vec::new(alloc);
    for visit in visits {
        around.push(head_of_visit(addresses, heads, visits, visit.around))?;
    }
    Ok(around)
}

/// For each loop the addresses of the heads around its visits, given the number of each visit's loop.
fn around_in<A: Allocator + Clone>(
    alloc: &A,
    addresses: &[u32],
    heads: &[u32],
    loops: &[u32],
    visits: &[Visit],
) -> Result<Vec<Vec<Option<u32>, A>, A>, AllocError>
    requires heads { All (λ h. h < length addresses.now) heads.now }
    requires loops { loops.now ≡ loops_of visits.now }
    requires numbers { All (λ v. v.number < length heads.now) visits.now }
    requires around { AreEarlier (λ v. v.around) visits.now }
    ensures count { IfOk result (λ groups. length groups.items ≡ length heads.now) }
    ensures groups { IfOk result (λ groups. (n : ℕ) → n < length heads.now
        → slice_index_or (map (λ group. group.items) groups.items) n []
        ≡ with_key n (loops_of visits.now) (heads_around addresses.now heads.now visits.now)) }
{
    let around = heads_around(alloc.clone()?, addresses, heads, visits)?;
    grouped(alloc.clone()?, heads.len(), loops, &around)
}

/// The places of a run's loops, given the address of each step and the number of each visit's loop.
fn places_at<A: Allocator + Clone>(
    alloc: &A,
    file: &[u8],
    steps: &[Step],
    heads: &[u32],
    visits: &[Visit],
    here: &[Option<u32>],
    addresses: &[u32],
    loops: &[u32],
) -> Result<Places<A>, AllocError>
    requires heads { All (λ h. h < length steps.now) heads.now }
    requires numbers { All (λ v. v.number < length heads.now) visits.now }
    requires around { AreEarlier (λ v. v.around) visits.now }
    requires within { AreEarlier (λ v. v.within) visits.now }
    requires here { All (IsOneOf (length visits.now)) here.now }
    requires pairs { length here.now ≡ length steps.now }
    requires addresses { addresses.now ≡ map pc_of steps.now }
    requires loops { loops.now ≡ loops_of visits.now }
    ensures { IfOk result (λ p.
        ArePlaces (symbols_of file.now) (map pc_of steps.now) heads.now visits.now here.now p) }
{
    let at_heads = at_steps(alloc, addresses, heads)?;
    let functions = functions_of(alloc, file, steps, &at_heads)?;
    let extents = extents_in(alloc, heads.len(), loops, visits, here, addresses)?;
    let around = around_in(alloc, addresses, heads, loops, visits)?;
    Ok(Places {
        heads: at_heads,
        functions,
        extents,
        around,
    })
}

/// The places of a run's loops. `heads` has the step that is the head of each loop, and `here` the innermost visit that
/// each step is in, in its own call. `file` is the whole file of the program.
pub(crate) fn places_of<A: Allocator + Clone>(
    alloc: &A,
    file: &[u8],
    steps: &[Step],
    heads: &[u32],
    visits: &[Visit],
    here: &[Option<u32>],
) -> Result<Places<A>, AllocError>
    requires heads { All (λ h. h < length steps.now) heads.now }
    requires loops { All (λ v. v.number < length heads.now) visits.now }
    requires around { AreEarlier (λ v. v.around) visits.now }
    requires within { AreEarlier (λ v. v.within) visits.now }
    requires here { All (IsOneOf (length visits.now)) here.now }
    requires pairs { length here.now ≡ length steps.now }
    ensures { IfOk result (λ p.
        ArePlaces (symbols_of file.now) (map pc_of steps.now) heads.now visits.now here.now p) }
{
    let addresses = addresses_of(alloc.clone()?, steps)?;
    let loops = loops_of(alloc.clone()?, visits)?;
    places_at(alloc, file, steps, heads, visits, here, &addresses, &loops)
}
