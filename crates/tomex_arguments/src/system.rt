//! A command line that can't be read as words of text.
ghost use Rattle.std.specs.Prelude.{◌≡◌, true, false, string_bytes, IfOk, IfErr};
ghost use Rattle.tomex_arguments.specs.Faults.{not_text};
ghost use Rattle.tomex_arguments.specs.declared.fault.LineFault.TheVariants as fault;

use crate::fault::{LineFault, mistake};
use std::alloc::{AllocError, Global};

/// The message for a line with a word that is not UTF-8.
pub fn not_text(alloc: Global) -> Result<String, AllocError>
    ensures { IfOk result (λ text. string_bytes text ≡ not_text) }
{
    String::from_str(alloc, "error: the command line is not UTF-8\n")
}

/// Why the command line could not be read: out of memory, or a word is not UTF-8, which is a
/// mistake in the line. There may have been no memory for the message of the latter.
pub fn reading_fault(wants_memory: bool, said: Result<String, AllocError>) -> LineFault
    ensures memory { wants_memory ≡ true → result ≡ fault.Memory }
    ensures said { wants_memory ≡ false → IfOk said (λ text. result ≡ fault.Usage text) }
    ensures unsaid { IfErr said (λ e. result ≡ fault.Memory) }
{
    if wants_memory {
        LineFault::Memory
    } else {
        mistake(said)
    }
}
