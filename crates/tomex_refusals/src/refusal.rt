//! All refusals, and how to find a text's.

ghost use Rattle.std.specs.Prelude.{◌≡◌, IfOk};
ghost use Rattle.tomex_refusals.specs.Refusals.{AreWith, IsFirstIn, advice_of, all_refusals};
ghost use Rattle.tomex_refusals.specs.Refusals.{form_of, words_of};

use crate::commands::CommandRefusal;
use crate::faults::FaultRefusal;
use crate::images::ImageRefusal;
use crate::looking::has_words;
use crate::statuses::ExitStatus;
use crate::studies::StudyRefusal;
use std::alloc::{AllocError, Allocator};

/// A refusal that some command can report, or an exit status.
#[derive(Clone, Copy)]
pub enum Refusal {
    Command(CommandRefusal),
    Image(ImageRefusal),
    Fault(FaultRefusal),
    Study(StudyRefusal),
    Status(ExitStatus),
}

impl Refusal {
    /// All refusals, in the order in which they are looked for: those with a name in them first.
    pub const ALL: [Refusal; 45] = [
        Refusal::Command(CommandRefusal::CannotRead),
        Refusal::Command(CommandRefusal::NoSuchChoice),
        Refusal::Command(CommandRefusal::BadWindow),
        Refusal::Command(CommandRefusal::TooLong),
        Refusal::Command(CommandRefusal::NoSuchRow),
        Refusal::Command(CommandRefusal::SeveralRows),
        Refusal::Command(CommandRefusal::NoSuchProgram),
        Refusal::Command(CommandRefusal::NoSymbols),
        Refusal::Command(CommandRefusal::NoSuchStep),
        Refusal::Command(CommandRefusal::NoEnd),
        Refusal::Command(CommandRefusal::CodeOverwritten),
        Refusal::Command(CommandRefusal::NoRoom),
        Refusal::Command(CommandRefusal::PictureTooLarge),
        Refusal::Command(CommandRefusal::TableTooLarge),
        Refusal::Command(CommandRefusal::CyclePastEnd),
        Refusal::Command(CommandRefusal::CannotWrite),
        Refusal::Command(CommandRefusal::OnTerminal),
        Refusal::Command(CommandRefusal::ThreadRefused),
        Refusal::Command(CommandRefusal::OutOfMemory),
        Refusal::Command(CommandRefusal::NoSuchRefusal),
        Refusal::Image(ImageRefusal::Empty),
        Refusal::Image(ImageRefusal::TooLarge),
        Refusal::Image(ImageRefusal::Truncated),
        Refusal::Image(ImageRefusal::NotRiscv),
        Refusal::Image(ImageRefusal::NotExecutable),
        Refusal::Image(ImageRefusal::HeaderSize),
        Refusal::Image(ImageRefusal::Dynamic),
        Refusal::Image(ImageRefusal::TooManySegments),
        Refusal::Image(ImageRefusal::Segment),
        Refusal::Image(ImageRefusal::Overlap),
        Refusal::Image(ImageRefusal::Entry),
        Refusal::Fault(FaultRefusal::Fetch),
        Refusal::Fault(FaultRefusal::Illegal),
        Refusal::Fault(FaultRefusal::MisalignedTarget),
        Refusal::Fault(FaultRefusal::Access),
        Refusal::Study(StudyRefusal::NotToml),
        Refusal::Study(StudyRefusal::UnknownKey),
        Refusal::Study(StudyRefusal::Missing),
        Refusal::Study(StudyRefusal::WrongKind),
        Refusal::Study(StudyRefusal::OutOfRange),
        Refusal::Study(StudyRefusal::TooMany),
        Refusal::Study(StudyRefusal::NumberOfFiles),
        Refusal::Status(ExitStatus::Input),
        Refusal::Status(ExitStatus::Line),
        Refusal::Status(ExitStatus::System),
    ];

    /// The words by which it is known.
    pub fn words(self) -> &'static str
        ensures { result.now ≡ words_of self }
    {
        match self {
            Refusal::Command(refusal) => refusal.words(),
            Refusal::Image(refusal) => refusal.words(),
            Refusal::Fault(refusal) => refusal.words(),
            Refusal::Study(refusal) => refusal.words(),
            Refusal::Status(status) => status.words(),
        }
    }

    /// Its form, with names in place of the parts that vary.
    pub fn form(self) -> &'static str
        ensures { result.now ≡ form_of self }
    {
        match self {
            Refusal::Command(refusal) => refusal.form(),
            Refusal::Image(refusal) => refusal.words(),
            Refusal::Fault(refusal) => refusal.form(),
            Refusal::Study(refusal) => refusal.form(),
            Refusal::Status(status) => status.words(),
        }
    }

    /// The advice on it: its meaning, the usual causes, and what to do.
    pub fn advice(self) -> &'static str
        ensures { result.now ≡ advice_of self }
    {
        match self {
            Refusal::Command(refusal) => refusal.advice(),
            Refusal::Image(refusal) => refusal.advice(),
            Refusal::Fault(refusal) => refusal.advice(),
            Refusal::Study(refusal) => refusal.advice(),
            Refusal::Status(status) => status.advice(),
        }
    }
}

/// The refusal in a text: the first one whose words it has, if any. Capitals are as small letters.
pub fn refusal_in(text: &str) -> Option<Refusal>
    ensures { IsFirstIn text.now all_refusals result }
{
    for refusal in Refusal::ALL {
        if has_words(text, refusal.words()) {
            return Some(refusal);
        }
    }
    None
}

/// Those of all refusals whose line in the list has these words in it, in the list's order.
pub fn refusals_with<A: Allocator>(alloc: A, words: &str) -> Result<Vec<Refusal, A>, AllocError>
    ensures { IfOk result (λ found. AreWith words.now all_refusals found.items) }
{
    let mut found = Vec::new(alloc);
    for refusal in Refusal::ALL {
        if has_words(refusal.form(), words) {
            found.push(refusal)?;
        }
    }
    Ok(found)
}
