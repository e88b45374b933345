//! All rows as CSV.

ghost use Rattle.std.specs.Prelude.{◌≡◌, ◌<◌, ◌++◌, length, map, IfOk, OnOk};
ghost use Rattle.std.specs.List.{flat_map, range_with_len};
ghost use Rattle.tomex_texts.specs.RowsReport.{row_record, rows_text_of};
ghost use Rattle.tomex_pareto.specs.Front.{is_on};
ghost use Rattle.tomex_pareto.specs.Hull.{hull_of};
ghost use Rattle.tomex_study.specs.StudyFront.{all_rows, front_of_study};

use crate::flags::flags;
use crate::rows_header::columns;
use crate::rows_numbers::fill_numbers;
use std::alloc::{AllocError, Allocator, Global};
use tomex_layout::{push_numbers, text_of_record};
use tomex_pareto::{FrontRow, hull};
use tomex_study::Surveyed;

/// Adds the record of a row, whose numbers are listed in `numbers`.
fn put_row<A: Allocator>(
    text: &mut Vec<u8, A>,
    numbers: &mut Vec<u64>,
    surveyed: &Surveyed<'_, A>,
    row: FrontRow,
    on_front: bool,
    on_hull: bool,
) -> Result<(), AllocError>
    requires row { row.row < length surveyed.now.rows }
    requires front { on_front ≡ is_on (front_of_study surveyed.now) row.row }
    requires hull { on_hull ≡ is_on (hull_of (front_of_study surveyed.now)) row.row }
    ensures { OnOk result (text.new.items ≡ text.old.items ++ row_record surveyed.now row) }
{
    let wide = surveyed.study().wide();
    let (config, totals) = (surveyed.config(row.row), surveyed.totals(row.row));
    fill_numbers(numbers, wide, row, config, totals, on_front, on_hull)?;
    push_numbers(text, numbers.as_slice())
}

/// Adds the records of all rows, in their order.
fn put_rows<A: Allocator>(
    text: &mut Vec<u8, A>,
    heap: Global,
    surveyed: &Surveyed<'_, A>,
    on_front: &[bool],
    on_hull: &[bool],
) -> Result<(), AllocError>
    requires front { on_front.now
        ≡ map (is_on (front_of_study surveyed.now)) (range_with_len 0 (length surveyed.now.rows)) }
    requires hull { on_hull.now
        ≡ map (is_on (hull_of (front_of_study surveyed.now))) (range_with_len 0 (length surveyed.now.rows)) }
    ensures { OnOk result
        (text.new.items ≡ text.old.items ++ flat_map (row_record surveyed.now) (all_rows surveyed.now)) }
{
    let mut numbers = Vec::new(heap);
    for row in surveyed.rows() {
        put_row(
            text,
            &mut numbers,
            surveyed,
            *row,
            on_front[row.row],
            on_hull[row.row],
        )?;
    }
    Ok(())
}

/// All rows of a study as CSV: a header, and a record for each row in the order of their numbers.
/// The first columns are those of the front report; then come each program's cycles without its
/// weight, `front`, which is 1 if the row is on the front, else 0, and `hull`, which is 1 if it is on the front's hull.
///
/// `csv` allocates the header's record in `heap`, and so is the list of a row's numbers.
#[tactic(auto, unfolding(crate::specs::RowsReport::rows_text_of))]
pub fn rows_report<A: Allocator + Clone>(
    alloc: A,
    heap: Global,
    surveyed: &Surveyed<'_, A>,
) -> Result<Vec<u8, A>, AllocError>
    ensures { IfOk result (λ text. text.items ≡ rows_text_of surveyed.now) }
{
    let (count, front) = (surveyed.rows().len(), surveyed.front());
    let hull = hull(heap, front)?;
    let on_front = flags(alloc.clone()?, count, front)?;
    let on_hull = flags(alloc.clone()?, count, hull.as_slice())?;
    let mut text = text_of_record(alloc, &columns(heap, surveyed.study())?)?;
    put_rows(
        &mut text,
        heap,
        surveyed,
        on_front.as_slice(),
        on_hull.as_slice(),
    )?;
    Ok(text)
}
