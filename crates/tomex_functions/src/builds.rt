//! The functions of two builds' runs, added up by name.

ghost use Rattle.std.specs.Prelude.{◌≡◌, ◌≤◌, [], IfOk, OnOk, length};
ghost use Rattle.tomex_rvexec.specs.Run.{most_steps};
ghost use Rattle.tomex_functions.specs.Kept.{IsListing};
ghost use Rattle.tomex_symbols.specs.Symbols.{symbols_of};
ghost use Rattle.tomex_functions.specs.Changes.{both_of, cycles_share, entries_of, entry_of};
ghost use Rattle.tomex_functions.specs.ChangesKept.{HasRoom, IsNamed, both_after, listing_share, name_of};
ghost use Rattle.tomex_functions.specs.Shares.{Both, Fits, share_of};

use crate::named::Named;
use crate::rows::{Listing, Row, listing_of};
use crate::shares::{Share, Side};
use crate::shown_names::shown_function;
use std::alloc::{AllocError, Allocator, Global};
use tomex_config::Config;
use tomex_symbols::symbols;
use tomex_timing::Run;

/// The run of a build of a program, and the whole file that the program was read from.
#[derive(Clone, Copy, Drop)]
pub struct BuildRun<'r, A: Allocator> {
    pub run: &'r Run<A>,
    pub file: &'r [u8],
}

/// The cycles after the last issue.
pub fn drain_in<A: Allocator>(listing: &Listing<A>) -> Share
    ensures { result ≡ cycles_share listing.now.drain.cycles }
{
    Share::new(0, 0, listing.drain.cycles)
}

/// All that a run takes.
pub fn total_in<A: Allocator>(listing: &Listing<A>) -> Share
    ensures value { result ≡ listing_share listing.now }
    ensures fits { Fits result }
{
    Share::new(listing.calls, listing.total.steps, listing.total.cycles)
}

/// The functions of a build's run on a configuration.
pub fn listing_in<A: Allocator + Clone>(
    alloc: A,
    config: &Config,
    build: &BuildRun<'_, A>,
) -> Result<Listing<A>, AllocError>
    requires few { length build.now.run.now ≤ most_steps }
    ensures { IfOk result (IsListing (symbols_of build.now.file.now) config.now build.now.run.now) }
{
    let symbols = symbols(alloc.clone()?, build.file)?;
    listing_of(alloc, config, build.run.steps(), symbols)
}

/// The name under which a row's function is shown, if it has one.
fn name_in(heap: Global, file: &[u8], row: &Row) -> Result<Option<String>, AllocError>
    ensures { IfOk result (λ name. name_of name ≡ (entry_of file.now row.now).name) }
{
    match &row.function {
        Some(symbol) => Ok(Some(shown_function(heap, file, symbol)?)),
        None => Ok(None),
    }
}

/// What a row's function takes.
fn share_in(row: &Row) -> Share
    ensures { result ≡ (entry_of [] row.now).share }
{
    Share::new(row.calls, row.sum.steps, row.sum.cycles)
}

/// Adds what the functions of a build's run take.
fn add_rows(
    named: &mut Named,
    heap: Global,
    file: &[u8],
    side: Side,
    rows: &[Row],
) -> Result<(), AllocError>
    requires { HasRoom side (entries_of file.now rows.now) named.old }
    ensures { OnOk result ((both : Both) → IsNamed both named.old
        → IsNamed (both_after side (entries_of file.now rows.now) both) named.new) }
{
    for row in rows {
        let name = name_in(heap, file, row)?;
        named.add(name, side, &share_in(row))?;
    }
    Ok(())
}

/// What the functions of both builds' runs take, by name.
pub fn named_of<A: Allocator>(
    heap: Global,
    old_file: &[u8],
    old: &Listing<A>,
    new_file: &[u8],
    new: &Listing<A>,
) -> Result<Named, AllocError>
    requires old { Fits (share_of (entries_of old_file.now old.now.rows.items)) }
    requires new { Fits (share_of (entries_of new_file.now new.now.rows.items)) }
    ensures { IfOk result
        (IsNamed (both_of old_file.now old.now.rows.items new_file.now new.now.rows.items)) }
{
    let mut named = Named::new(heap);
    add_rows(&mut named, heap, old_file, Side::Old, old.rows.as_slice())?;
    add_rows(&mut named, heap, new_file, Side::New, new.rows.as_slice())?;
    Ok(named)
}
