//! Wrong bodies of what `pua_tool` reports of a fault: its status and its line.

use pua_calls::Rules;
use pua_tool::{
    Command, DEVICE, MEMORY, MemoryInputs, MemorySink, Text, WriteFault, command, perform,
};
use std::alloc::Global;

/// A put that failed is a device's fault.
fn fault_statuses_exchanged() {
    if WriteFault::Put.status() != DEVICE {
        unreachable!()
    }
}

/// After a growth that was refused the line is not that of a process that was never made.
fn fault_lines_exchanged(alloc: Global, words: &[&str]) {
    let mut inputs = MemoryInputs::new(&[]);
    let (Ok(mut out), Ok(mut err)) = (MemorySink::new(alloc, 9), MemorySink::new(alloc, 99)) else {
        return;
    };
    let status = command(alloc, words, &mut inputs, &mut out, &mut err);
    if status == MEMORY && err.bytes() == b"pua: no such process\n".as_slice() {
        unreachable!()
    }
}

/// Where no input is there, that of the tree is reported, and not that of the script.
fn inputs_taken_in_other_order(alloc: Global) {
    let mut inputs = MemoryInputs::new(&[]);
    let (Ok(mut out), Ok(mut err)) = (MemorySink::new(alloc, 9), MemorySink::new(alloc, 99)) else {
        return;
    };
    let run = Command {
        tree: "T",
        script: "S",
        at: None,
        rules: Rules::Standard,
        table: None,
        text: Text::Run,
    };
    let status = perform(alloc, &run, &mut inputs, &mut out, &mut err);
    if status == DEVICE && err.bytes() == b"pua: cannot read S\n".as_slice() {
        unreachable!()
    }
}
