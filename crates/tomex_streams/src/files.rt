//! The files from which images and studies are read.
ghost use Rattle.std.specs.Prelude.{◌≡◌, ℕ, ◌≤◌, List, length, IfOk, IfSome, IsErrOf};
ghost use Rattle.tomex_streams.specs.Files.{Known, Nothing, IsRead, IsMissing, most_bytes};

use std::alloc::Allocator;
use std::fs::File;
use std::io::{ErrorKind, Read};

/// Why a file was not read.
#[derive(Clone, Copy, Debug, PartialEq, Eq)]
pub enum ReadFault {
    /// There is no such file, or it is a folder, too long, or can't be read.
    NoFile,
    /// Out of memory for its bytes.
    Memory,
}

/// A place to read files by their names, as written.
pub trait Files {
    /// What is known about the file with a name.
    ghost file: { Self → List ℕ → Known };

    /// All bytes of a file.
    fn read<A: Allocator>(&self, alloc: A, name: &str) -> Result<Vec<u8, A>, ReadFault>
        ensures bytes { IfOk result (λ bytes. IsRead (file self.now name.now) bytes.items) }
        ensures no_file { IsErrOf result ReadFault.NoFile → IsMissing (file self.now name.now) };
}

/// The most bytes of a file that is read: 256 MiB, far above any image or study.
const MOST_BYTES: u32 = 268_435_456;

/// All bytes of a reader, if they are at most `most`. From a longer one, such as a device without
/// an end, it reads only one more byte.
pub fn bytes_within<R: Read + Drop, A: Allocator>(
    alloc: A,
    reader: R,
    most: u32,
) -> Result<Vec<u8, A>, ReadFault>
    ensures few { IfOk result (λ bytes. length bytes.items ≤ most) }
    ensures all { IfOk result (λ bytes. IfSome (R.remaining reader) (λ held. bytes.items ≡ held)) }
{
    let mut bytes = Vec::new(alloc);
    match reader.take(u64::from(most) + 1).read_to_end(&mut bytes) {
        Ok(_) if bytes.len() <= most as usize => Ok(bytes),
        Err(error) if error.kind() == ErrorKind::OutOfMemory => Err(ReadFault::Memory),
        _ => Err(ReadFault::NoFile),
    }
}

/// All bytes of a file of the system, if they are at most 256 MiB.
fn host_bytes<R: Read + Drop, A: Allocator>(alloc: A, file: R) -> Result<Vec<u8, A>, ReadFault>
    ensures few { IfOk result (λ bytes. length bytes.items ≤ most_bytes) }
    ensures all { IfOk result (λ bytes. IfSome (R.remaining file) (λ held. bytes.items ≡ held)) }
{
    bytes_within(alloc, file, MOST_BYTES)
}

/// The files of the system, below the current folder if a name is relative. Their contents are not
/// known.
#[derive(Drop)]
pub struct HostFiles<'a, R> {
    pub rt: &'a R,
}

impl<'a, R> HostFiles<'a, R> {
    /// The files that the runtime reaches.
    pub fn new(rt: &'a R) -> HostFiles<'a, R>
        ensures { result.rt ≡ rt.entry }
    {
        HostFiles { rt }
    }
}

impl<'a, R: std::rt::Files> Files for HostFiles<'a, R> {
    ghost file = { λ _ _. Nothing };

    fn read<A: Allocator>(&self, alloc: A, name: &str) -> Result<Vec<u8, A>, ReadFault>
        ensures bytes { IfOk result (λ bytes. IsRead Nothing bytes.items) }
        ensures no_file { IsErrOf result ReadFault.NoFile → IsMissing Nothing }
        ensures few { IfOk result (λ bytes. length bytes.items ≤ most_bytes) }
    {
        match File::open(self.rt, name) {
            Ok(file) => host_bytes(alloc, file),
            Err(error) if error.kind() == ErrorKind::OutOfMemory => Err(ReadFault::Memory),
            Err(_) => Err(ReadFault::NoFile),
        }
    }
}
