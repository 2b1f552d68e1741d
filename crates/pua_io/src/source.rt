//! Reading to the end.

mod refused;

ghost use Rattle.std.specs.Prelude.{◌≡◌, ◌≢◌, ◌≤◌, ◌+◌, ℕ, List, Option, Err, IfOk, OnOk, OnErr};
ghost use Rattle.std.specs.Prelude.{IfSome, length};
ghost use Rattle.std.specs.Io.KnownBytes.{ReadConsumes};
ghost use Rattle.pua_io.specs.Sinks.{next_count};
ghost use Rattle.pua_io.specs.Sources.{CantBeRead};

use crate::inputs::InputFault;
use std::alloc::Global;
use std::io::Read;
use std::marker::Model;

/// A read failed, and took nothing.
#[derive(Clone, Copy, PartialEq, Eq)]
pub struct ReadFault;

/// A reader that counts how often it was read, and how often that failed, which
/// [`std::io::Read`] doesn't. [`ReadSource`] makes one of any reader.
pub trait Source {
    /// The bytes that are left, where they are known.
    ghost remaining: { Self → Option (List ℕ) };

    /// How many reads were asked for; at 2^64 - 1 it stays there.
    ghost reads: { Self → ℕ };

    /// How many of them failed; at 2^64 - 1 it stays there.
    ghost failures: { Self → ℕ };

    /// Takes bytes into the front of the buffer, and answers how many: none only at the end, or
    /// where the buffer has no room. A read that fails takes none.
    fn read(&mut self, buffer: &mut [u8]) -> Result<usize, ReadFault>
        ensures bound { IfOk result (λ n. n ≤ length buffer.new) }
        ensures bytes { ReadConsumes (remaining self.old) (remaining self.new) result buffer.new }
        ensures reads { reads self.new ≡ next_count (reads self.old) }
        ensures unfailed { OnOk result (failures self.new ≡ failures self.old) }
        ensures rises { OnErr result (failures self.new ≡ next_count (failures self.old)) };
}

/// A reader with the counts of its reads and of their failures. Every error of the reader is a read
/// that failed. Contracts see the reader, how many reads were asked for, and how many failed.
#[derive(Drop)]
pub struct ReadSource<R: Read + Drop> {
    reader: R,
    reads: u64,
    failures: u64,
}

impl<R: Read + Drop> Model for ReadSource<R> {
    ghost use Rattle.std.specs.Prelude.{ℕ};

    ghost Value = { R × ℕ × ℕ };

    ghost view = { λ s. (s.reader, s.reads, s.failures) };
}

impl<R: Read + Drop> ReadSource<R> {
    /// This reader, not read yet.
    pub fn new(reader: R) -> ReadSource<R>
        ensures { result ≡ (reader, 0, 0) }
    {
        ReadSource {
            reader,
            reads: 0,
            failures: 0,
        }
    }
}

impl<R: Read + Drop> Source for ReadSource<R> {
    ghost remaining = { λ source. R.remaining source.0 };

    ghost reads = { λ source. source.1 };

    ghost failures = { λ source. source.2 };

    fn read(&mut self, buffer: &mut [u8]) -> Result<usize, ReadFault> {
        self.reads = self.reads.saturating_add(1);
        match self.reader.read(buffer) {
            Ok(count) => Ok(count),
            Err(_) => {
                self.failures = self.failures.saturating_add(1);
                Err(ReadFault)
            }
        }
    }
}

/// An input has at most so many bytes.
pub const MOST_INPUT_BYTES: usize = 67_108_864;

/// All bytes that a source has left, by at most 67,108,865 reads. `Unreadable` is answered where a
/// read failed, which ends the reading, and where more than 67,108,864 bytes were left; how far it
/// has read is then not said.
pub fn read_bytes<R: Source>(alloc: Global, source: &mut R) -> Result<Vec<u8>, InputFault>
    ensures whole { IfOk result (λ all. IfSome (R.remaining source.old) (λ left. all.items
        ≡ left)) }
    ensures short { IfOk result (λ all. length all.items ≤ MOST_INPUT_BYTES) }
    ensures unreadable { result ≡ Err InputFault.Unreadable →
        CantBeRead (R.remaining source.old) (R.failures source.old) (R.failures source.new) }
    ensures readable { result ≢ Err InputFault.Unreadable →
        R.failures source.new ≡ R.failures source.old }
    ensures reads { R.reads source.new ≤ R.reads source.old + (MOST_INPUT_BYTES + 1) }
{
    let mut all = Vec::new(alloc);
    let mut buffer = [0u8; 65_536];
    loop {
        let Ok(count) = source.read(&mut buffer) else {
            return Err(InputFault::Unreadable);
        };
        if count == 0 {
            return Ok(all);
        }
        if count > MOST_INPUT_BYTES - all.len() {
            return Err(InputFault::Unreadable);
        }
        if all.extend_from_slice(&buffer[..count]).is_err() {
            return Err(InputFault::OutOfMemory);
        }
    }
}
