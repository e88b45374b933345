//! Output: a sink takes bytes piece by piece, and may take less than it is given or fail.
ghost use Rattle.std.specs.Prelude.{◌≡◌, ◌<◌, ◌≤◌, Bool, false, length, take, IfOk, IfErr, OnOk, OnErr};
ghost use Rattle.std.specs.Io.KnownBytes.{Appends, Keeps};
ghost use Rattle.tomex_streams.specs.Sinks.{Rises, Seen};

use std::io::Write;

/// A sink failed, and took nothing of the piece.
#[derive(Clone, Copy, PartialEq, Eq)]
pub struct PutFault;

/// A sink of bytes.
///
/// Contracts see a sink as the bytes that it took, if those are known, and a count of its faults:
/// the puts that failed, or that took nothing of a piece that was not empty. The count is a number
/// of 64 bits in the sink itself, so it stops at its greatest value. Hence `Rises` has a premise:
/// the count went up unless it was at that value. No sink can get there, since a put takes longer
/// than a nanosecond and 2^64 of them would take centuries.
pub trait Sink {
    /// The bytes that it took so far, if they are known, and the number of puts that were faults.
    ghost seen: { Self → Seen };

    /// True if it is a terminal, which shows text.
    ghost terminal: { Self → Bool };

    /// True if it is a terminal, on which bytes that aren't text make no sense.
    fn is_terminal(&self) -> bool
        ensures { result ≡ terminal self.now };

    /// Takes a first part of the piece, and returns its length in bytes.
    fn put(&mut self, piece: &[u8]) -> Result<usize, PutFault>
        ensures within { IfOk result (λ count. count ≤ length piece.now) }
        ensures ok { IfOk result
            (λ count. Appends (seen self.old).taken (seen self.new).taken (take count piece.now)) }
        ensures err { OnErr result (Keeps (seen self.old).taken (seen self.new).taken) }

        // A put that failed or took nothing is counted, and no other is.
        ensures failed { OnErr result (Rises (seen self.old).faults (seen self.new).faults) }
        ensures nothing { IfOk result (λ count. count ≡ 0 → 0 < length piece.now
            → Rises (seen self.old).faults (seen self.new).faults) }
        ensures fine { IfOk result (λ count. (count ≡ 0 → length piece.now ≡ 0)
            → (seen self.new).faults ≡ (seen self.old).faults) };
}

/// A write stopped: the sink took only this number of first bytes.
#[derive(Clone, Copy, PartialEq, Eq)]
pub struct WriteFault {
    pub written: usize,
}

/// Writes all of the bytes, piece by piece. It stops at the first put that fails or takes nothing.
pub fn write_all_of<W: Sink>(sink: &mut W, bytes: &[u8]) -> Result<(), WriteFault>
    ensures all { OnOk result (Appends (W.seen sink.old).taken (W.seen sink.new).taken bytes.now) }
    ensures first { IfErr result
        (λ fault. Appends (W.seen sink.old).taken (W.seen sink.new).taken (take fault.written bytes.now)) }
    ensures short { IfErr result (λ fault. fault.written < length bytes.now) }

    // It fails only by a fault of the sink.
    ensures fault { OnErr result (Rises (W.seen sink.old).faults (W.seen sink.new).faults) }
    ensures no_fault { OnOk result ((W.seen sink.new).faults ≡ (W.seen sink.old).faults) }
{
    let mut written = 0;
    while written < bytes.len() {
        match sink.put(&bytes[written..]) {
            Ok(0) => return Err(WriteFault { written }),
            Ok(count) => written += count,
            Err(PutFault) => return Err(WriteFault { written }),
        }
    }
    Ok(())
}

/// A writer of the standard library as a sink, for example standard output. A write that a signal
/// interrupts is a fault like any other; none is interrupted, since the program installs no
/// handler.
#[derive(Drop)]
pub struct Stream<W: Write + Drop> {
    pub writer: W,
    /// The number of puts that were faults.
    pub faults: u64,
    /// True if the writer writes to a terminal.
    pub is_terminal: bool,
}

impl<W: Write + Drop> Stream<W> {
    /// A stream with no faults so far, which is a terminal or isn't.
    pub fn new(writer: W, is_terminal: bool) -> Stream<W>
        ensures writer { result.writer ≡ writer }
        ensures no_fault { result.faults ≡ 0 }
        ensures terminal { result.is_terminal ≡ is_terminal }
    {
        Stream {
            writer,
            faults: 0,
            is_terminal,
        }
    }
}

impl<W: Write + Drop> Sink for Stream<W> {
    ghost seen = { λ stream. record { taken = W.contents stream.writer; faults = stream.faults } };

    ghost terminal = { λ stream. stream.is_terminal };

    fn is_terminal(&self) -> bool {
        self.is_terminal
    }

    fn put(&mut self, piece: &[u8]) -> Result<usize, PutFault> {
        match self.writer.write(piece) {
            Ok(count) => {
                if count == 0 && !piece.is_empty() {
                    self.faults = self.faults.saturating_add(1);
                }
                Ok(count)
            }
            Err(_) => {
                self.faults = self.faults.saturating_add(1);
                Err(PutFault)
            }
        }
    }
}
