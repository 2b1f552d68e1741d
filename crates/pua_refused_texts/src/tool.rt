//! Wrong bodies of `pua_tool`.

mod breaking;
mod tables;
mod telling;

ghost use Rattle.std.specs.Prelude.{◌≡◌, ◌∷◌, [], codes};
ghost use Rattle.pua_io.specs.Held.{AsksFor};

use pua_calls::Rules;
use pua_tool::{
    Command, DONE, Inputs, MemoryInputs, MemorySink, ReadSource, Sink, Text, command, perform,
    put_all, read_bytes,
};
use std::alloc::Global;
use std::io::{self, Read};

const ROOT: &[u8] = b"tree 1\n0 dir\n";

/// A text of which the last byte was not taken was not put whole.
fn last_byte_put_in_vain(alloc: Global) {
    let Ok(mut sink) = MemorySink::new(alloc, 2) else {
        return;
    };
    let Ok(()) = put_all(&mut sink, b"abc") else {
        return;
    };
    if sink.bytes() != b"abc".as_slice() {
        unreachable!()
    }
}

/// A text of which a put took the front is not put whole by this put.
fn put_count_ignored(alloc: Global) {
    let Ok(mut sink) = MemorySink::new(alloc, 1) else {
        return;
    };
    let Ok(()) = put_all(&mut sink, b"ab") else {
        return;
    };
    if sink.bytes() != b"ab".as_slice() {
        unreachable!()
    }
}

/// A put takes no more bytes than there is room for.
fn put_grows(alloc: Global) {
    let Ok(mut sink) = MemorySink::new(alloc, 1) else {
        return;
    };
    let Ok(count) = sink.put(b"ab") else {
        return;
    };
    if count > 1 {
        unreachable!()
    }
}

/// A reader that has a byte, and gives it to nobody.
#[derive(Drop)]
struct Broken;

impl Read for Broken {
    ghost use Rattle.std.specs.Prelude.{[], ◌∷◌, Some};

    ghost remaining = { λ _. Some (7 ∷ []) };

    fn read(&mut self, _buffer: &mut [u8]) -> io::Result<usize> {
        Err(io::Error::from(io::ErrorKind::Other))
    }
}

/// A read that failed is not the end.
fn read_fault_taken_for_the_end(alloc: Global) {
    let Ok(bytes) = read_bytes(alloc, &mut ReadSource::new(Broken)) else {
        return;
    };
    if bytes.is_empty() {
        unreachable!()
    }
}

/// Nothing is done where the input of the table is missing.
fn table_not_taken(alloc: Global) {
    let entries: [(&str, &[u8]); 2] = [("T", ROOT), ("S", b"")];
    let mut inputs = MemoryInputs::new(&entries);
    let (Ok(mut out), Ok(mut err)) = (MemorySink::new(alloc, 9), MemorySink::new(alloc, 9)) else {
        return;
    };
    let run = Command {
        tree: "T",
        script: "S",
        at: None,
        rules: Rules::Standard,
        table: Some("C"),
        text: Text::Run,
    };
    if perform(alloc, &run, &mut inputs, &mut out, &mut err) == DONE {
        unreachable!()
    }
}

/// A run asks for its listing, then for its script, and for no further input.
fn further_input_taken<I: Inputs, O: Sink, E: Sink>(
    alloc: Global,
    inputs: &mut I,
    out: &mut O,
    err: &mut E,
) -> u8
    ensures { result ≡ DONE →
        AsksFor (I.asked inputs.old) (I.asked inputs.new) (codes "T" ∷ codes "S" ∷ []) }
{
    let run = Command {
        tree: "T",
        script: "S",
        at: None,
        rules: Rules::Standard,
        table: None,
        text: Text::Run,
    };
    perform(alloc, &run, inputs, out, err)
}

/// Where no input is there, words that are done have written something.
fn silent_success(alloc: Global, words: &[&str]) {
    let mut inputs = MemoryInputs::new(&[]);
    let (Ok(mut out), Ok(mut err)) = (MemorySink::new(alloc, 9), MemorySink::new(alloc, 9)) else {
        return;
    };
    let status = command(alloc, words, &mut inputs, &mut out, &mut err);
    if status == DONE && out.bytes().is_empty() {
        unreachable!()
    }
}
