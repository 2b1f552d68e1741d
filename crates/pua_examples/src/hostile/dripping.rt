//! Sinks and readers that go a byte at a time, and break.

ghost use Rattle.std.specs.Prelude.{Some};

use pua_tool::{PutFault, Sink};
use std::alloc::Global;
use std::io::{self, Read};

/// Takes so many bytes a put and no more, and fails from the put of a number on, which counts
/// from 1. So does a put for which a growth was refused.
#[derive(Drop)]
pub(crate) struct DrippingSink {
    bytes: Vec<u8>,
    most: usize,
    puts: usize,
    fails_from: usize,
    failed: u64,
}

impl DrippingSink {
    /// A sink that takes at most so many bytes a put, but at least one, and whose puts fail from
    /// this one on.
    pub(crate) fn new(alloc: Global, most: usize, fails_from: usize) -> DrippingSink {
        DrippingSink {
            bytes: Vec::new(alloc),
            most,
            puts: 0,
            fails_from,
            failed: 0,
        }
    }

    /// What was written.
    pub(crate) fn bytes(&self) -> &[u8] {
        self.bytes.as_slice()
    }

    /// How many puts there were.
    pub(crate) fn puts(&self) -> usize {
        self.puts
    }
}

impl Sink for DrippingSink {
    ghost written = { λ sink. Some sink.bytes.items };

    ghost failed = { λ sink. sink.failed };

    fn put(&mut self, bytes: &[u8]) -> Result<usize, PutFault> {
        self.puts = self.puts.saturating_add(1);
        let count = bytes.len().min(self.most.max(1));
        if self.puts < self.fails_from && self.bytes.extend_from_slice(&bytes[..count]).is_ok() {
            return Ok(count);
        }
        self.failed = self.failed.saturating_add(1);
        Err(PutFault)
    }
}

/// Gives one byte a read, and fails at the read of a number, which counts from 1.
#[derive(Drop)]
pub(crate) struct DrippingReader<'a> {
    rest: &'a [u8],
    reads: usize,
    fails_at: usize,
}

impl<'a> DrippingReader<'a> {
    /// A reader of these bytes, whose read of this number fails.
    pub(crate) fn new(bytes: &'a [u8], fails_at: usize) -> DrippingReader<'a> {
        DrippingReader {
            rest: bytes,
            reads: 0,
            fails_at,
        }
    }
}

impl Read for DrippingReader<'_> {
    fn read(&mut self, buffer: &mut [u8]) -> io::Result<usize> {
        self.reads = self.reads.saturating_add(1);
        if self.reads == self.fails_at {
            return Err(io::Error::from(io::ErrorKind::Other));
        }
        if self.rest.is_empty() || buffer.is_empty() {
            return Ok(0);
        }
        buffer[0] = self.rest[0];
        self.rest = &self.rest[1..];
        Ok(1)
    }
}
