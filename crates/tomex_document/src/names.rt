//! The files that a study names.

ghost use Rattle.std.specs.Prelude.{◌≡◌, ◌⊎◌, map, string_bytes, IfOk, IfErr, Ok};
ghost use Rattle.tomex_document.specs.Document.{files_of, file_names_of};
ghost use Rattle.tomex_document.specs.Refusals.{IsDocumentRefusal};

use crate::document::{Entry, document_of};
use crate::error::StudyError;
use std::alloc::{AllocError, Allocator, Global};

/// The names of these programs' files, in order.
fn files_of<A: Allocator>(
    alloc: A,
    programs: Vec<Entry<A>, A>,
) -> Result<Vec<String<A>, A>, AllocError>
    ensures { IfOk result (λ v. map string_bytes v.items ≡ files_of programs.items) }
{
    let mut files = Vec::new(alloc);
    for program in programs {
        files.push(program.into_file())?;
    }
    Ok(files)
}

/// The names of the programs' files, in the order of the programs, or the first test of the
/// document that the bytes of the study fail. The names are made in `alloc`; the document is read
/// in `heap`, and again by `read_study`, whose contract is about the study's bytes.
#[tactic(auto, unfolding(crate::specs::Document::file_names_of))]
pub fn file_names<A: Allocator + Clone>(
    alloc: A,
    heap: Global,
    study: &[u8],
) -> Result<Vec<String<A>, A>, StudyError>
    ensures names { IfOk result (λ v. file_names_of study.now ≡ Ok (map string_bytes v.items)) }
    ensures refused { IfErr result
        (λ error. (error ≡ StudyError.Memory) ⊎ IsDocumentRefusal study.now error) }
{
    let outline = document_of(alloc.clone()?, heap, study)?;
    Ok(files_of(alloc, outline.programs)?)
}
