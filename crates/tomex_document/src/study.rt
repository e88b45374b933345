//! Whole studies: the document, and the programs that its files hold.

ghost use Rattle.std.specs.Prelude.{◌≡◌, ◌≢◌, ◌≤◌, ◌⊎◌, length, map, IfOk, IfErr, IsErrOf, OnErr, None, Ok};
ghost use Rattle.tomex_image.specs.Loading.{IsPlaced, refused};
ghost use Rattle.tomex_config.specs.Grid.{grid_of};
ghost use Rattle.tomex_study.specs.Study.{costs_of};
ghost use Rattle.tomex_document.specs.Refusals.{unfit_as, load_error};
ghost use Rattle.tomex_document.specs.Study.{AreProgramsOf, IsFileRefusal, IsFirstRefusal};
ghost use Rattle.tomex_document.specs.Study.{IsProgramOf, IsRefusalOfFiles, IsStudyOf, IsStudyRefusal};

use crate::document::{Entry, Outline, document_of};
use crate::error::StudyError;
use std::alloc::{AllocError, Allocator, Global};
use tomex_config::grid;
use tomex_image::{Image, ImageError, load};
use tomex_study::{Program, ProgramError, Study};

/// The refusal of a file that can't be loaded, with the program's name. Out of memory only if
/// loading ran out of it, or if there was none for the name.
fn load_error(name: Result<String, AllocError>, error: ImageError) -> StudyError
    ensures with_name { IfOk name (λ name. result ≡ load_error name error) }
    ensures without_name { OnErr name (result ≡ StudyError.Memory) }
{
    let Ok(name) = name else {
        return StudyError::Memory;
    };
    match error {
        ImageError::Memory => StudyError::Memory,
        error => StudyError::Image(name, error),
    }
}

/// The image of the file in the entry's window. A refusal's name is allocated in `heap`.
fn image_of<A: Allocator + Clone>(
    alloc: A,
    heap: Global,
    entry: &Entry<A>,
    file: &[u8],
) -> Result<Image<A>, StudyError>
    ensures ok { IfOk result (λ image. IsPlaced file.now entry.now.window image
        × (refused file.now entry.now.window ≡ None)) }
    ensures err { IfErr result
        (λ error. (error ≡ StudyError.Memory) ⊎ IsFileRefusal entry.now file.now error) }
{
    match load(alloc, file, entry.window()) {
        Ok(image) => Ok(image),
        Err(error) => Err(load_error(String::from_str(heap, entry.name()), error)),
    }
}

/// The refusal of a program whose run faults or doesn't end within its limit, with its name. Out of
/// memory only if the run ran out of it, or if there was none for the name.
fn program_refusal(name: Result<String, AllocError>, error: ProgramError) -> StudyError
    ensures with_name { IfOk name (λ name. result ≡ unfit_as name error) }
    ensures without_name { OnErr name (result ≡ StudyError.Memory) }
{
    let Ok(name) = name else {
        return StudyError::Memory;
    };
    match error {
        ProgramError::Fault(fault) => StudyError::Fault(name, fault),
        ProgramError::TooLong => StudyError::TooLong(name),
        ProgramError::Memory => StudyError::Memory,
    }
}

/// The program of an entry and its file, which is loaded and run. A refusal's name is allocated in
/// `heap`.
fn program_of<A: Allocator + Clone>(
    alloc: A,
    heap: Global,
    entry: &Entry<A>,
    file: &[u8],
) -> Result<Program<A>, StudyError>
    ensures ok { IfOk result (λ program. IsProgramOf entry.now file.now program) }
    ensures err { IfErr result
        (λ error. (error ≡ StudyError.Memory) ⊎ IsFileRefusal entry.now file.now error) }
{
    entry.keeps_limits();
    let image = image_of(alloc.clone()?, heap, entry, file)?;
    let name = String::from_str(alloc.clone()?, entry.name())?;
    let mut watch = Vec::new(alloc.clone()?);
    watch.extend_from_slice(entry.watch())?;
    match Program::new(alloc, name, image, entry.limit(), watch, entry.weight()) {
        Ok(program) => Ok(program),
        Err(error) => Err(program_refusal(String::from_str(heap, entry.name()), error)),
    }
}

/// The programs of the entries and their files, in order, up to the first that is refused.
fn programs_of<A: Allocator + Clone>(
    alloc: A,
    heap: Global,
    entries: &[Entry<A>],
    files: &[Vec<u8, A>],
) -> Result<Vec<Program<A>, A>, StudyError>
    requires { length files.now ≡ length entries.now }
    ensures ok { IfOk result
        (λ v. AreProgramsOf entries.now (map (λ f. f.items) files.now) v.items) }
    ensures err { IfErr result
        (λ error. (error ≡ StudyError.Memory) ⊎ IsFirstRefusal entries.now (map (λ f. f.items) files.now) error) }
{
    let mut programs = Vec::new(alloc.clone()?);
    for (place, entry) in entries.iter().enumerate() {
        match program_of(alloc.clone()?, heap, entry, files[place].as_slice()) {
            Ok(program) => programs.push(program)?,
            Err(error) => return Err(error),
        }
    }
    Ok(programs)
}

/// The study of this outline and the files of its programs, or the first test of the files that
/// they fail. The names in refusals are allocated in `heap`.
fn study_from<A: Allocator + Clone>(
    alloc: A,
    heap: Global,
    outline: &Outline<A>,
    files: &[Vec<u8, A>],
) -> Result<Study<A>, StudyError>
    requires some { 1 ≤ length outline.now.programs }
    requires few { length outline.now.programs ≤ 8 }
    ensures ok { IfOk result
        (λ s. AreProgramsOf outline.now.programs (map (λ f. f.items) files.now) s.programs
        × (grid_of outline.now.axes ≡ Ok s.rows) × (s.prices ≡ outline.now.prices)
        × (s.costs ≡ costs_of s.prices s.rows) × (s.wide ≡ outline.now.wide)) }
    ensures err { IfErr result
        (λ error. (error ≡ StudyError.Memory)
        ⊎ IsRefusalOfFiles outline.now (map (λ f. f.items) files.now) error) }
    ensures count { length files.now ≢ length outline.now.programs → IsErrOf result StudyError.Files }
{
    if files.len() != outline.programs.len() {
        return Err(StudyError::Files);
    }
    let entries = outline.programs.as_slice();
    let programs = programs_of(alloc.clone()?, heap, entries, files)?;
    // The axes of a document span a grid, so this can fail only by running out of memory.
    let Ok(rows) = grid(alloc.clone()?, &outline.axes) else {
        return Err(StudyError::Memory);
    };
    Ok(Study::new(alloc, programs, rows, outline.prices, outline.wide)?)
}

/// The study of the bytes and the programs' files, or the first test that they fail: those of the
/// document, then that there is a file for each program, then for each program that its file can be
/// loaded and that its run ends.
///
/// The document and the names in refusals are allocated in `heap`, everything else in `alloc`.
pub fn read_study<A: Allocator + Clone>(
    alloc: A,
    heap: Global,
    study: &[u8],
    files: &[Vec<u8, A>],
) -> Result<Study<A>, StudyError>
    ensures ok { IfOk result (λ s. IsStudyOf study.now (map (λ f. f.items) files.now) s) }
    ensures err { IfErr result
        (λ error. IsStudyRefusal study.now (map (λ f. f.items) files.now) error) }
{
    let outline = document_of(alloc.clone()?, heap, study)?;
    study_from(alloc, heap, &outline, files)
}

/// [`read_study`] for a caller that keeps its allocator.
pub fn study_in<A: Allocator + Clone>(
    alloc: &A,
    heap: Global,
    study: &[u8],
    files: &[Vec<u8, A>],
) -> Result<Study<A>, StudyError>
    ensures ok { IfOk result (λ s. IsStudyOf study.now (map (λ f. f.items) files.now) s) }
    ensures err { IfErr result
        (λ error. IsStudyRefusal study.now (map (λ f. f.items) files.now) error) }
{
    let Ok(own) = alloc.clone() else {
        return Err(StudyError::Memory);
    };
    read_study(own, heap, study, files)
}
