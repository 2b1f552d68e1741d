//! Wrong bodies of `pua_io`.

use pua_io::{
    InputFault, Inputs, MOST_INPUT_BYTES, MemoryInputs, MemorySink, PutFault, ReadFault, Sink,
    Source, StreamSink, put_all, read_bytes, read_file,
};
use std::alloc::Global;
use std::io::Write;
use std::rt::Files;

/// The bytes taken of an input are all that are kept under its name.
fn bytes_of_no_input(alloc: Global) {
    let mut inputs = MemoryInputs::new(&[("T", b"ab")]);
    let Ok(bytes) = inputs.take(alloc, "T") else {
        return;
    };
    if bytes.as_slice() != b"ab".as_slice() {
        unreachable!()
    }
}

/// An input that is there can be read.
fn no_inputs(alloc: Global) {
    let mut inputs = MemoryInputs::new(&[("T", b"ab")]);
    if let Err(InputFault::Unreadable) = inputs.take(alloc, "T") {
        unreachable!()
    }
}

/// A file of more than 67,108,864 bytes is not read.
fn longer_file_read<R: Files>(alloc: Global, rt: &R, name: &str) {
    let Ok(bytes) = read_file(alloc, rt, name) else {
        return;
    };
    if bytes.len() > MOST_INPUT_BYTES {
        unreachable!()
    }
}

/// A source of these bytes, no read of which fails.
#[derive(Drop)]
struct Lent<'b> {
    left: &'b [u8],
    reads: u64,
}

impl Source for Lent<'_> {
    ghost use Rattle.std.specs.Prelude.{Some};

    ghost remaining = { λ source. Some source.left.now };

    ghost reads = { λ source. source.reads };

    ghost failures = { λ _. 0 };

    fn read(&mut self, buffer: &mut [u8]) -> Result<usize, ReadFault> {
        self.reads = self.reads.saturating_add(1);
        let count = self.left.len().min(buffer.len());
        let (front, rest) = self.left.split_at(count);
        buffer[..count].copy_from_slice(front);
        self.left = rest;
        Ok(count)
    }
}

/// An input of 67,108,864 bytes, no read of which fails, can be read.
fn longest_input_refused(alloc: Global, bytes: &[u8]) {
    if bytes.len() != MOST_INPUT_BYTES {
        return;
    }
    let mut source = Lent {
        left: bytes,
        reads: 0,
    };
    if let Err(InputFault::Unreadable) = read_bytes(alloc, &mut source) {
        unreachable!()
    }
}

/// A sink in memory that takes one byte of a put.
#[derive(Drop)]
struct Dripping {
    inner: MemorySink,
}

impl Sink for Dripping {
    ghost use Rattle.std.specs.Prelude.{Some};

    ghost written = { λ sink. Some sink.inner.bytes };

    ghost failed = { λ sink. sink.inner.failed };

    fn put(&mut self, bytes: &[u8]) -> Result<usize, PutFault> {
        let front = &bytes[..bytes.len().min(1)];
        self.inner.put(front)
    }
}

/// After a put that took a front, what it took is not put again.
fn repeats_after_short_put(alloc: Global) {
    let Ok(inner) = MemorySink::new(alloc, 9) else {
        return;
    };
    let mut sink = Dripping { inner };
    let Ok(()) = put_all(&mut sink, b"ab") else {
        return;
    };
    if sink.inner.bytes() != b"ab".as_slice() {
        unreachable!()
    }
}

/// A sink in memory shows the bytes that it took.
fn sink_bytes_hidden(alloc: Global) {
    let Ok(mut sink) = MemorySink::new(alloc, 2) else {
        return;
    };
    let Ok(2) = sink.put(b"ab") else {
        return;
    };
    if sink.bytes() != b"ab".as_slice() {
        unreachable!()
    }
}

/// A sink in memory has the room that it was made with.
fn sink_without_room(alloc: Global) {
    let Ok(mut sink) = MemorySink::new(alloc, 2) else {
        return;
    };
    if sink.put(b"ab") != Ok(2) {
        unreachable!()
    }
}

/// A put of bytes that took none of them failed.
fn write_of_no_bytes<W: Write + Drop>(sink: &mut StreamSink<W>) {
    if let Ok(0) = sink.put(b"a") {
        unreachable!()
    }
}
