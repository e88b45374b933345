//! Whole studies, with their programs' files: their results, and damaged ones.

use super::studies::{STUDY_L, STUDY_M};
use std::alloc::{AllocError, Global};
use std::test::Fail;
use tomex_config::Config;
use tomex_document::{StudyError, read_study};
use tomex_rvdec::PoolId;
use tomex_study::{Program, Study, WatchRange};
use tomex_tests_fixtures::programs::{ELF, LOOP, PRODUCT};

/// The bytes of files.
fn copies(alloc: Global, files: &[&[u8]]) -> Result<Vec<Vec<u8>>, AllocError> {
    let mut copies = Vec::new(alloc);
    for file in files {
        copies.push(file.to_vec(alloc)?)?;
    }
    Ok(copies)
}

/// The study of these bytes and these files.
fn reading(alloc: Global, study: &[u8], files: &[&[u8]]) -> Result<Study, StudyError> {
    let copies = copies(alloc, files)?;
    read_study(alloc, alloc, study, copies.as_slice())
}

/// The text of the refusal of a study and its files, empty for a study that is read.
fn refusal(alloc: Global, study: &[u8], files: &[&[u8]]) -> Result<String, AllocError> {
    match reading(alloc, study, files) {
        Ok(_) => Ok(String::new(alloc)),
        Err(error) => format!(in alloc; "{error}"),
    }
}

/// True if that is this text.
fn is_said(alloc: Global, study: &str, files: &[&[u8]], wanted: &str) -> Result<bool, AllocError> {
    let text = refusal(alloc, study.as_bytes(), files)?;
    Ok(text.as_str() == wanted)
}

const WHOLE: &str = "[[program]]\nname = \"first\"\nfile = \"a\"\nlimit = 4\nwatch = [[8, 4]]\n\
    [[program]]\nname = \"second\"\nfile = \"b\"\nbase = 65536\nsize = 4096\n\
    [prices]\nalu = 10\nmul = 100\nbus = 7\n[axes]\nalu = [2, 1]\nbuses = [2]\n\
    [[unit.mul]]\nprice = 50\n";

/// True if a row has this number of alu stations and two buses.
fn is_row(row: Option<&Config>, stations: u8) -> bool {
    match row {
        Some(config) => config.stations(PoolId::Alu) == stations && config.buses() == 2,
        None => false,
    }
}

/// True if a program has this name and limit, and this file's bytes in a window of this base and
/// size.
fn is_program(program: &Program, name: &str, limit: u32, window: [u32; 2], file: &[u8]) -> bool {
    let image = program.image();
    program.name() == name
        && program.limit() == limit
        && [image.window().base(), image.window().size()] == window
        && image.memory().starts_with(file)
}

/// True if its programs are as stated.
fn are_its_programs(programs: &[Program]) -> bool {
    let watched = WatchRange {
        address: 8,
        length: 4,
    };
    match programs {
        [first, second] => {
            is_program(first, "first", 4, [0, 65_536], PRODUCT.as_slice())
                && first.watch() == [watched].as_slice()
                && is_program(second, "second", 262_144, [65_536, 4096], LOOP.as_slice())
                && second.watch().len() == 0
        }
        _ => false,
    }
}

/// True if the study is as stated.
fn is_whole(study: &Study) -> bool {
    study.costs() == [184, 174].as_slice()
        && study.rows().len() == 2
        && is_row(study.config(0), 2)
        && is_row(study.config(1), 1)
        && are_its_programs(study.programs())
}

/// Its files.
static FILES: [&[u8]; 2] = [PRODUCT, LOOP];

#[test]
fn a_study_has_what_its_document_says(rt: HostRuntime) -> Result<(), Fail> {
    let study = reading(rt.alloc(), WHOLE.as_bytes(), &FILES)?;
    assert!(rt; is_whole(&study));
    Ok(())
}

const LIMITED: &str = "[[program]]\nname = \"first\"\nfile = \"a\"\nlimit = 4\n\
    [[program]]\nname = \"second\"\nfile = \"b\"\nlimit = 999\n";

const ZEROS: &[u8; 4] = b"\x00\x00\x00\x00";

/// Why the number of files is refused.
const NUMBER: &str = "study: wrong number of files";

/// Studies, their files, and the text of the refusal, empty if the study is read. The document is tested first, the
/// files after they are counted, and the first program that fails is named.
static FAILING: [(&str, &[&[u8]], &str); 12] = [
    (STUDY_M, &[PRODUCT], ""),
    (STUDY_M, &[], NUMBER),
    (STUDY_M, &[PRODUCT, PRODUCT], NUMBER),
    (STUDY_M, &[b"", b""], NUMBER),
    ("", &[], "study: top: program missing"),
    (LIMITED, &[PRODUCT, PRODUCT], ""),
    (LIMITED, &[b"", ZEROS], "program first: image: empty"),
    (
        LIMITED,
        &[PRODUCT, b"\x7fELF"],
        "program second: image: truncated",
    ),
    (
        LIMITED,
        &[PRODUCT, ZEROS],
        "program second: fault: illegal at 00000000",
    ),
    (LIMITED, &[PRODUCT, LOOP], "program second: too long"),
    (LIMITED, &[LOOP, ZEROS], "program first: too long"),
    (
        LIMITED,
        &[ZEROS, b"\x7fELF"],
        "program first: fault: illegal at 00000000",
    ),
];

#[test]
fn each_refusal_of_files_is_named(rt: HostRuntime) -> Result<(), Fail> {
    for (study, files, wanted) in &FAILING {
        assert!(rt; is_said(rt.alloc(), study, files, wanted)?, "{wanted}");
    }
    Ok(())
}

/// A file with this byte at this place.
fn damaged(alloc: Global, file: &[u8], place: usize, byte: u8) -> Result<Vec<u8>, AllocError> {
    let mut damaged = file.to_vec(alloc)?;
    if place < damaged.len() {
        damaged[place] = byte;
    }
    Ok(damaged)
}

/// One program at the ELF file's address.
const ONE_IMAGE: &str = "[[program]]\nname = \"a\"\nfile = \"a\"\nbase = 65536\nsize = 4096\n";

/// True if this file of that program is refused with this text, or read if the text is empty.
fn is_image(alloc: Global, file: Vec<u8>, wanted: &str) -> Result<bool, AllocError> {
    is_said(alloc, ONE_IMAGE, &[file.as_slice()], wanted)
}

/// Bytes at places of the ELF file, and the text of the refusal, empty if it is read.
static IMAGES: [(usize, u8, &str); 7] = [
    (0, 0x7f, ""),
    (18, 0x3e, "program a: image: not RISC-V"),
    (16, 3, "program a: image: not executable"),
    (42, 31, "program a: image: header size"),
    (52, 3, "program a: image: dynamic"),
    (72, 15, "program a: image: segment"),
    (24, 2, "program a: image: entry"),
];

#[test]
fn each_refusal_of_an_image_is_named(rt: HostRuntime) -> Result<(), Fail> {
    for (place, byte, wanted) in &IMAGES {
        let file = damaged(rt.alloc(), ELF.as_slice(), *place, *byte)?;
        assert!(rt; is_image(rt.alloc(), file, wanted)?, "{wanted}");
    }
    Ok(())
}

/// A program header of four bytes of memory at 65536.
const SEGMENT: [u8; 32] = [
    1, 0, 0, 0, 0, 0, 0, 0, 0, 0, 1, 0, 0, 0, 1, 0, 0, 0, 0, 0, 4, 0, 0, 0, 5, 0, 0, 0, 4, 0, 0, 0,
];

/// Adds that header, but this many bytes above.
fn push_segment(file: &mut Vec<u8>, above: u8) -> Result<(), AllocError> {
    let mut segment = SEGMENT;
    segment[8] = above;
    file.extend_from_slice(&segment)
}

/// The ELF file's headers and `more` program headers, each four bytes of memory after the one before.
fn with_segments(alloc: Global, more: u8, first: u8) -> Result<Vec<u8>, AllocError> {
    let mut file = damaged(alloc, &ELF[..84], 44, more.wrapping_add(1))?;
    for number in 0..more {
        push_segment(&mut file, first.wrapping_add(number.wrapping_mul(4)))?;
    }
    Ok(file)
}

#[test]
fn segments_and_sizes_of_an_image(rt: HostRuntime) -> Result<(), Fail> {
    let overlapping = with_segments(rt.alloc(), 1, 28)?;
    assert!(rt; is_image(rt.alloc(), overlapping, "program a: image: overlap")?);
    let many = with_segments(rt.alloc(), 16, 32)?;
    assert!(rt; is_image(rt.alloc(), many, "program a: image: too many segments")?);
    let long = vec![in rt.alloc(); 0u8; 4100]?;
    assert!(rt; is_image(rt.alloc(), long, "program a: image: too large")?);
    Ok(())
}

/// True if a damaged study of one program is read with a file that runs, or refused with the same text as its document
/// without files.
fn is_answered<R: AllocGlobal>(rt: &R, study: &[u8]) -> Result<bool, Fail> {
    let read = refusal(rt.alloc(), study, &[LOOP.as_slice()])?;
    let named = super::refusal(rt, study)?;
    let is_read = read.as_str() == "";
    Ok(read.as_str() == named.as_str() && (is_read || read.as_str().starts_with("study: ")))
}

#[test]
fn every_beginning_is_answered(rt: HostRuntime) -> Result<(), Fail> {
    let study = STUDY_L.as_bytes();
    for length in 0..study.len() {
        assert!(rt; is_answered(&rt, &study[..length])?, "{length} bytes");
    }
    Ok(())
}

/// The same with one byte replaced.
fn is_answered_with<R: AllocGlobal>(rt: &R, place: usize, byte: u8) -> Result<bool, Fail> {
    let damaged = damaged(rt.alloc(), STUDY_L.as_bytes(), place, byte)?;
    is_answered(rt, damaged.as_slice())
}

#[test]
fn every_damaged_byte_is_answered(rt: HostRuntime) -> Result<(), Fail> {
    for value in [0x00, 0x22, 0xff] {
        for place in 0..STUDY_L.len() {
            assert!(rt; is_answered_with(&rt, place, value)?, "{value} at {place}");
        }
    }
    Ok(())
}
