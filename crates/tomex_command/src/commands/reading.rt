//! Files, read whole.
ghost use Rattle.std.specs.Prelude.{◌≡◌, map, string_bytes, IfOk, IfErr, OnErr};
ghost use Rattle.tomex_command.specs.Reading.{IsUnread, AreRead, AreUnread, unread_as};
ghost use Rattle.tomex_streams.specs.Files.{IsRead};

use crate::failure::Failure;
use std::alloc::{AllocError, Allocator, Global};
use tomex_streams::{Files, ReadFault};

/// The failure for a file that was not read: out of memory only if there was none for its bytes, or
/// for its name.
fn read_failure(fault: ReadFault, name: Result<String, AllocError>) -> Failure
    ensures named { IfOk name (λ name. result ≡ unread_as fault name) }
    ensures unnamed { OnErr name (result ≡ Failure.Memory) }
{
    let Ok(name) = name else {
        return Failure::Memory;
    };
    match fault {
        ReadFault::Memory => Failure::Memory,
        ReadFault::NoFile => Failure::CannotRead(name),
    }
}

/// All bytes of a file.
pub fn read<F: Files, A: Allocator>(
    alloc: A,
    heap: Global,
    files: &F,
    name: &str,
) -> Result<Vec<u8, A>, Failure>
    ensures read { IfOk result (λ bytes. IsRead (F.file files.now name.now) bytes.items) }
    ensures unread { IfErr result (λ failure. IsUnread (F.file files.now) name.now failure) }
{
    match files.read(alloc, name) {
        Ok(bytes) => Ok(bytes),
        Err(fault) => Err(read_failure(fault, String::from_str(heap, name))),
    }
}

/// All bytes of each file, in the order of the names.
pub fn read_all<F: Files, A: Allocator + Clone>(
    alloc: A,
    heap: Global,
    files: &F,
    names: &[String<A>],
) -> Result<Vec<Vec<u8, A>, A>, Failure>
    ensures read { IfOk result
        (λ contents. AreRead (F.file files.now) (map string_bytes names.now)
        (map (λ bytes. bytes.items) contents.items)) }
    ensures unread { IfErr result
        (λ failure. AreUnread (F.file files.now) (map string_bytes names.now) failure) }
{
    let mut contents = Vec::new(alloc.clone()?);
    for name in names {
        contents.push(read(alloc.clone()?, heap, files, name.as_str())?)?;
    }
    Ok(contents)
}
