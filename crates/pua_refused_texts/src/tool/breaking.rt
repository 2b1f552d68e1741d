//! Wrong bodies of `pua_tool` at sinks that fail, and at one that never does.

use pua_tool::{
    DONE, ListWords, MemoryInputs, MemorySink, PutFault, Sink, StreamSink, TableChoice, WriteFault,
    command, list_to, program, run_to,
};
use std::alloc::Global;
use std::io::{self, BufWriter, Write};

/// A sink no put of which fails.
#[derive(Drop)]
struct Taking;

impl Sink for Taking {
    ghost use Rattle.std.specs.Prelude.{None};

    ghost written = { λ _. None };

    ghost failed = { λ _. 0 };

    fn put(&mut self, bytes: &[u8]) -> Result<usize, PutFault> {
        Ok(bytes.len())
    }
}

/// Where no put fails, no list of processes is cut short by a put that failed.
fn spurious_write_fault(alloc: Global, tree: &[u8], script: &[u8], list: &ListWords<'_>) {
    let mut sink = Taking;
    let table = TableChoice::STANDARD;
    let written = list_to(alloc, tree, script, table, list, &mut sink);
    if let Err(WriteFault::Put) = written {
        unreachable!()
    }
}

/// Nor is the text of a run.
fn spurious_write_fault_of_a_run(alloc: Global, tree: &[u8], script: &[u8]) {
    let mut sink = Taking;
    if let Err(WriteFault::Put) = run_to(alloc, tree, script, None, &mut sink) {
        unreachable!()
    }
}

/// Where no input is there, words whose text finds no room are not done.
fn done_after_failed_put(alloc: Global, words: &[&str]) {
    let mut inputs = MemoryInputs::new(&[]);
    let (Ok(mut out), Ok(mut err)) = (MemorySink::new(alloc, 0), MemorySink::new(alloc, 99)) else {
        return;
    };
    let status = command(alloc, words, &mut inputs, &mut out, &mut err);
    if status == DONE && out.bytes().is_empty() {
        unreachable!()
    }
}

/// A writer that takes no byte.
#[derive(Drop)]
struct Refusing;

impl Write for Refusing {
    ghost use Rattle.std.specs.Prelude.{[], Some};

    ghost contents = { λ _. Some [] };

    fn write(&mut self, _bytes: &[u8]) -> io::Result<usize> {
        Err(io::Error::from(io::ErrorKind::Other))
    }

    fn flush(&mut self) -> io::Result<()> {
        Ok(())
    }
}

/// Where no input is there, words whose text can't be handed on are not done.
fn done_after_failed_flush(alloc: Global, words: &[&str]) {
    let mut inputs = MemoryInputs::new(&[]);
    let (Ok(writer), Ok(mut err)) = (BufWriter::new(alloc, Refusing), MemorySink::new(alloc, 99))
    else {
        return;
    };
    let mut out = StreamSink::new(writer);
    if program(alloc, words, &mut inputs, &mut out, &mut err) == DONE {
        unreachable!()
    }
}
