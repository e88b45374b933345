//! The front report.

ghost use Rattle.std.specs.Prelude.{◌≡◌, IfOk, OnOk};
ghost use Rattle.std.specs.List.{AllZip, flat_map};
ghost use Rattle.tomex_study.specs.StudyFront.{front_of_study};
ghost use Rattle.tomex_layout.specs.Csv.{IsReady};
ghost use Rattle.tomex_layout.specs.Growth.{Writes};
ghost use Rattle.tomex_texts.specs.Ends.{IsProgramEnd};
ghost use Rattle.tomex_texts.specs.RowEnds.{AreEndsOf};
ghost use Rattle.tomex_texts.specs.FrontReport.{program_record, records_of, report_of};

use csv::{ByteRecord, Writer};
use std::alloc::{AllocError, Allocator, Global};
use tomex_config::Config;
use tomex_layout::{into_text, put_record};
use tomex_study::{Program, Study};
use tomex_sweep::FrontRow;
use tomex_texts::{ProgramEnd, RowEnds, columns, fill_record};

/// Writes the records of a front row's programs.
fn put_programs<A: Allocator>(
    writer: &mut Writer<Vec<u8, A>>,
    heap: Global,
    wide: bool,
    front: FrontRow,
    config: &Config,
    programs: &[Program<A>],
    ends: &[ProgramEnd<A>],
) -> Result<(), AllocError>
    requires ready { IsReady writer.old }
    requires ends { AllZip (IsProgramEnd config.now) programs.now ends.now }
    ensures ready { OnOk result (IsReady writer.new) }
    ensures text { OnOk result (
        Writes (flat_map (program_record wide front config.now) programs.now) writer.old writer.new) }
{
    let mut record = ByteRecord::new(heap);
    for (place, program) in programs.iter().enumerate() {
        fill_record(
            &mut record,
            heap,
            wide,
            front,
            config,
            program,
            &ends[place],
        )?;
        put_record(writer, &record)?;
    }
    Ok(())
}

/// Writes the records of a front row.
fn put_row<A: Allocator>(
    writer: &mut Writer<Vec<u8, A>>,
    heap: Global,
    study: &Study<A>,
    front: FrontRow,
    ends: &RowEnds<A>,
) -> Result<(), AllocError>
    requires ready { IsReady writer.old }
    requires ends { AreEndsOf study.now front ends.now }
    ensures ready { OnOk result (IsReady writer.new) }
    ensures text { OnOk result (Writes (records_of study.now front) writer.old writer.new) }
{
    let config = &study.rows()[front.row];
    put_programs(
        writer,
        heap,
        study.wide(),
        front,
        config,
        study.programs(),
        ends.programs.as_slice(),
    )?;
    Ok(())
}

/// Writes the records of a front's rows, in order.
fn put_rows<A: Allocator>(
    writer: &mut Writer<Vec<u8, A>>,
    heap: Global,
    study: &Study<A>,
    front: &[FrontRow],
    ends: &[RowEnds<A>],
) -> Result<(), AllocError>
    requires ready { IsReady writer.old }
    requires ends { AllZip (λ r e. AreEndsOf study.now r e) front.now ends.now }
    ensures ready { OnOk result (IsReady writer.new) }
    ensures text { OnOk result (Writes (flat_map (records_of study.now) front.now) writer.old writer.new) }
{
    for (place, row) in front.iter().enumerate() {
        put_row(writer, heap, study, *row, &ends[place])?;
    }
    Ok(())
}

/// The front report of a study, given its front and the ends of its rows: CSV with a header, and
/// for each row of the front a record for each program.
///
/// `csv` allocates its records from `heap`.
#[tactic(auto, unfolding(tomex_texts::specs::FrontReport::report_of))]
pub fn front_report<A: Allocator + Clone>(
    alloc: A,
    heap: Global,
    study: &Study<A>,
    front: &[FrontRow],
    ends: &[RowEnds<A>],
) -> Result<Vec<u8, A>, AllocError>
    requires front { front.now ≡ front_of_study study.now }
    requires ends { AllZip (λ r e. AreEndsOf study.now r e) front.now ends.now }
    ensures { IfOk result (λ text. text.items ≡ report_of study.now) }
{
    let mut writer = Writer::from_writer(Vec::new(alloc));
    put_record(&mut writer, &columns(heap, study.wide())?)?;
    put_rows(&mut writer, heap, study, front, ends)?;
    into_text(writer)
}
