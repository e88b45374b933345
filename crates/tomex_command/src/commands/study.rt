//! The study that a command is about.
ghost use Rattle.std.specs.Prelude.{IfOk, IfErr, map};
ghost use Rattle.tomex_command.specs.StudyFiles.{AreSources, IsStudyIn, IsStudyFailure, IsStudyWith};

use super::reading::{read, read_all};
use crate::failure::Failure;
use std::alloc::{Allocator, Global};
use tomex_document::{file_names, read_study};
use tomex_streams::Files;
use tomex_study::Study;

/// A study's bytes, and those of its programs' files, in the order of the programs.
#[derive(Drop)]
pub struct Sources<A: Allocator> {
    pub study: Vec<u8, A>,
    pub files: Vec<Vec<u8, A>, A>,
}

/// A study, and the bytes of its programs' files, in the order of the programs.
#[derive(Drop)]
pub struct Studied<A: Allocator> {
    pub study: Study<A>,
    pub files: Vec<Vec<u8, A>, A>,
}

/// Reads a study, and then the files that it names.
pub fn sources_in<F: Files, A: Allocator + Clone>(
    alloc: A,
    heap: Global,
    files: &F,
    name: &str,
) -> Result<Sources<A>, Failure>
    ensures read { IfOk result
        (λ sources. AreSources (F.file files.now) name.now sources.study.items
        (map (λ bytes. bytes.items) sources.files.items)) }
    ensures failure { IfErr result (λ failure. IsStudyFailure (F.file files.now) name.now failure) }
{
    let study = read(alloc.clone()?, heap, files, name)?;
    let names = file_names(alloc.clone()?, heap, study.as_slice())?;
    let contents = read_all(alloc.clone()?, heap, files, names.as_slice())?;
    Ok(Sources {
        study,
        files: contents,
    })
}

/// The study of the file of this name, and of the files that it names.
pub fn study_named<F: Files, A: Allocator + Clone>(
    alloc: A,
    heap: Global,
    files: &F,
    name: &str,
) -> Result<Study<A>, Failure>
    ensures study { IfOk result (λ study. IsStudyIn (F.file files.now) name.now study) }
    ensures failure { IfErr result (λ failure. IsStudyFailure (F.file files.now) name.now failure) }
{
    let sources = sources_in(alloc.clone()?, heap, files, name)?;
    let (study, contents) = (sources.study.as_slice(), sources.files.as_slice());
    Ok(read_study(alloc, heap, study, contents)?)
}

/// The study of a file, and the files that it names.
pub fn study_with_files<F: Files, A: Allocator + Clone>(
    alloc: A,
    heap: Global,
    files: &F,
    name: &str,
) -> Result<Studied<A>, Failure>
    ensures study { IfOk result
        (λ studied. IsStudyWith (F.file files.now) name.now studied.study
        (map (λ bytes. bytes.items) studied.files.items)) }
    ensures failure { IfErr result (λ failure. IsStudyFailure (F.file files.now) name.now failure) }
{
    let sources = sources_in(alloc.clone()?, heap, files, name)?;
    let study = read_study(
        alloc,
        heap,
        sources.study.as_slice(),
        sources.files.as_slice(),
    )?;
    Ok(Studied {
        study,
        files: sources.files,
    })
}
