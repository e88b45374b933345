//! What is printed of two builds.

ghost use Rattle.std.specs.Prelude.{◌≡◌, ◌<◌, length, IfOk};
ghost use Rattle.tomex_compare.specs.Builds.{IsBuild};
ghost use Rattle.tomex_compare.specs.Compare.{compare_table_of};
ghost use Rattle.tomex_compare.specs.GroupCsv.{compare_csv_of};
ghost use Rattle.tomex_compare.specs.Groups.{groups_of};

use crate::build::{Build, build_at};
use crate::group_records::group_csv;
use crate::group_table::group_table;
use crate::groups::{Group, groups_of};
use crate::pairs::pairs_of;
use crate::program_table::program_table;
use std::alloc::{AllocError, Allocator, Global};
use tomex_study::Surveyed;

/// The groups of all rows, by the ratios of two builds.
fn all_groups<A: Allocator>(
    heap: Global,
    surveyed: &Surveyed<'_, A>,
    old: &Build<'_, A>,
    new: &Build<'_, A>,
) -> Result<Vec<Group>, AllocError>
    requires old { IsBuild surveyed.now old.now.place old.now.program.now }
    requires new { IsBuild surveyed.now new.now.place new.now.program.now }
    ensures { IfOk result (λ v. v.items ≡ groups_of surveyed.now old.now.program.now new.now.program.now) }
{
    let pairs = pairs_of(heap, surveyed, old, new)?;
    groups_of(heap, surveyed, old, new, pairs.as_slice())
}

/// Two builds of a program, the programs of a study at these places, on all its rows, as two tables with an empty line
/// between them: their steps, and their cycles at best and at worst; and for groups of rows on how many of them the new
/// build takes fewer cycles, and by what ratios.
///
/// Rows with their cycles and small values are allocated in `heap`.
pub fn compare_table<A: Allocator>(
    alloc: A,
    heap: Global,
    surveyed: &Surveyed<'_, A>,
    old: usize,
    new: usize,
) -> Result<Vec<u8, A>, AllocError>
    requires old { old < length surveyed.now.programs }
    requires new { new < length surveyed.now.programs }
    ensures { IfOk result (λ text. text.items ≡ compare_table_of surveyed.now old new) }
{
    let (old, new) = (build_at(surveyed, old), build_at(surveyed, new));
    let mut text = program_table(alloc, heap, surveyed, &old, &new)?;
    let groups = all_groups(heap, surveyed, &old, &new)?;
    let second = group_table(heap, heap, groups.as_slice())?;
    text.push(b'\n')?;
    text.extend_from_slice(second.as_slice())?;
    Ok(text)
}

/// The second of these tables as CSV: a header, and a record for each group of rows.
///
/// Rows with their cycles and small values are allocated in `heap`.
pub fn compare_csv<A: Allocator>(
    alloc: A,
    heap: Global,
    surveyed: &Surveyed<'_, A>,
    old: usize,
    new: usize,
) -> Result<Vec<u8, A>, AllocError>
    requires old { old < length surveyed.now.programs }
    requires new { new < length surveyed.now.programs }
    ensures { IfOk result (λ text. text.items ≡ compare_csv_of surveyed.now old new) }
{
    let (old, new) = (build_at(surveyed, old), build_at(surveyed, new));
    let groups = all_groups(heap, surveyed, &old, &new)?;
    group_csv(alloc, heap, groups.as_slice())
}
