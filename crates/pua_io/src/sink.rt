//! Where texts are written.

mod refused;

ghost use Rattle.std.specs.Prelude.{◌≡◌, ◌↔◌, ◌<◌, ◌≤◌, ◌-◌, ℕ, List, [], Option, Some, IfOk};
ghost use Rattle.std.specs.Prelude.{IsErr, OnOk, OnErr, length, min};
ghost use Rattle.std.specs.Io.Buffered.{writer_buffer, writer_contents};
ghost use Rattle.std.specs.Io.KnownBytes.{Keeps};
ghost use Rattle.pua_io.specs.Sinks.{Adds, AddsFront, HasFailed, Puts, Memory, next_count};

use pua_tree::OutOfMemory;
use std::alloc::Global;
use std::io::{BufWriter, Write};
use std::marker::Model;

/// A put failed, and added nothing.
#[derive(Clone, Copy, PartialEq, Eq)]
pub struct PutFault;

/// Where a text is written, a piece at a time.
pub trait Sink {
    /// The bytes so far, where they are known.
    ghost written: { Self → Option (List ℕ) };

    /// How many puts failed; at 2^64 - 1 it stays there.
    ghost failed: { Self → ℕ };

    /// Adds the first bytes of these, and answers how many: at least one, where there is one. A put
    /// that fails adds none, and is counted.
    fn put(&mut self, bytes: &[u8]) -> Result<usize, PutFault>
        ensures adds { IfOk result (λ n. Puts bytes.now n (written self.old) (written self.new)) }
        ensures unfailed { OnOk result (failed self.new ≡ failed self.old) }
        ensures nothing { OnErr result (Keeps (written self.old) (written self.new)) }
        ensures rises { OnErr result (failed self.new ≡ next_count (failed self.old)) };
}

/// Puts bytes until all of them are written. After the fault, which is that of the first put that
/// failed, the bytes that were put before it are written, and no others.
pub fn put_all<S: Sink>(sink: &mut S, bytes: &[u8]) -> Result<(), PutFault>
    ensures whole { OnOk result (Adds bytes.now (S.written sink.old) (S.written sink.new)) }
    ensures unfailed { OnOk result (S.failed sink.new ≡ S.failed sink.old) }
    ensures front { OnErr result (AddsFront bytes.now (S.written sink.old) (S.written sink.new)) }
    ensures failed { OnErr result (HasFailed (S.failed sink.old) (S.failed sink.new)) }
{
    let mut rest = bytes;
    while !rest.is_empty() {
        let count = sink.put(rest)?;
        rest = &rest[count..];
    }
    Ok(())
}

/// A sink in memory. Its room is reserved when it is made, so no put takes memory. Contracts see
/// its bytes, its room in bytes, and how many puts failed.
#[derive(Drop)]
pub struct MemorySink {
    bytes: Vec<u8>,
    room: usize,
    failed: u64,
}

impl Model for MemorySink {
    ghost use Rattle.std.specs.Prelude.{◌≤◌, vec_len, vec_capacity};
    ghost use Rattle.pua_io.specs.Sinks.{Memory};

    ghost Value = { Memory };

    ghost view = { λ s. record { bytes = s.bytes.items; room = s.room; failed = s.failed } };

    ghost invariant = { λ s. (vec_len s.bytes ≤ s.room) × (s.room ≤ vec_capacity s.bytes) };
}

impl MemorySink {
    /// An empty sink with room for so many bytes. The only fault is want of memory.
    pub fn new(alloc: Global, room: usize) -> Result<MemorySink, OutOfMemory>
        ensures { IfOk result (λ sink. sink ≡ record { bytes = []; room = room; failed = 0 }) }
    {
        let bytes = Vec::with_capacity(alloc, room)?;
        Ok(MemorySink {
            bytes,
            room,
            failed: 0,
        })
    }

    /// What was written.
    pub fn bytes(&self) -> &[u8]
        ensures bytes { result.now ≡ self.now.bytes }
        ensures room { length self.now.bytes ≤ self.now.room }
    {
        self.bytes.as_slice()
    }
}

impl Sink for MemorySink {
    ghost written = { λ sink. Some sink.bytes };

    ghost failed = { λ sink. sink.failed };

    /// Adds as many bytes as there is room for. It fails exactly where no room is left and there
    /// are bytes to put.
    fn put(&mut self, bytes: &[u8]) -> Result<usize, PutFault>
        ensures adds { IfOk result (λ n. Puts bytes.now n (Some self.old.bytes)
            (Some self.new.bytes)) }
        ensures unfailed { OnOk result (self.new.failed ≡ self.old.failed) }
        ensures nothing { OnErr result (Keeps (Some self.old.bytes) (Some self.new.bytes)) }
        ensures rises { OnErr result (self.new.failed ≡ next_count self.old.failed) }
        ensures fits { IfOk result (λ n. n
            ≡ min (self.old.room - length self.old.bytes) (length bytes.now)) }
        ensures full { IsErr result
            ↔ ((length self.old.bytes ≡ self.old.room) × (0 < length bytes.now)) }
        ensures room { self.new.room ≡ self.old.room }
    {
        let left = self.room - self.bytes.len();
        if left == 0 && !bytes.is_empty() {
            self.failed = self.failed.saturating_add(1);
            return Err(PutFault);
        }
        let count = left.min(bytes.len());
        self.bytes.extend_from_slice(&bytes[..count]).unwrap();
        Ok(count)
    }
}

/// A sink over a writer. Its bytes are known where the writer's are. A write of no bytes, of a text
/// that has some, is a put that failed. Contracts see the writer, and how many puts failed.
#[derive(Drop)]
pub struct StreamSink<W: Write + Drop> {
    writer: W,
    failed: u64,
}

impl<W: Write + Drop> Model for StreamSink<W> {
    ghost use Rattle.std.specs.Prelude.{ℕ};

    ghost Value = { W × ℕ };

    ghost view = { λ s. (s.writer, s.failed) };
}

impl<W: Write + Drop> StreamSink<W> {
    /// A sink over this writer, no put of which failed yet.
    pub fn new(writer: W) -> StreamSink<W>
        ensures { result ≡ (writer, 0) }
    {
        StreamSink { writer, failed: 0 }
    }

    fn fault(&mut self) -> PutFault
        ensures { self.new ≡ (self.old.0, next_count self.old.1) }
    {
        self.failed = self.failed.saturating_add(1);
        PutFault
    }
}

impl<W: Write + Drop> StreamSink<BufWriter<W>> {
    /// Hands on what the writer still holds back: after it nothing is, and all that was put was
    /// written to the writer below. A flush that fails counts as a put that failed; what couldn't
    /// be handed on is still held back.
    pub fn flush(&mut self) -> Result<(), PutFault>
        ensures handed { OnOk result (writer_buffer self.new.0 ≡ []) }
        ensures bytes { Keeps (writer_contents W.contents self.old.0)
            (writer_contents W.contents self.new.0) }
        ensures unfailed { OnOk result (self.new.1 ≡ self.old.1) }
        ensures rises { OnErr result (self.new.1 ≡ next_count self.old.1) }
    {
        match self.writer.flush() {
            Ok(()) => Ok(()),
            Err(_) => Err(self.fault()),
        }
    }
}

impl<W: Write + Drop> Sink for StreamSink<W> {
    ghost written = { λ sink. W.contents sink.0 };

    ghost failed = { λ sink. sink.1 };

    fn put(&mut self, bytes: &[u8]) -> Result<usize, PutFault> {
        match self.writer.write(bytes) {
            Ok(count) if count > 0 || bytes.is_empty() => Ok(count),
            _ => Err(self.fault()),
        }
    }
}
