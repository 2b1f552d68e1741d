//! Calls of functions whose contracts are long to load. Each is cited here alone, and nothing of it
//! is promised on: what they do is compared with what is written.

use pua_tool::{Inputs, Job, Sink, WriteFault, audit_to, command};
use std::alloc::Global;

/// Does what the words of a command ask for, and answers its status.
pub(crate) fn command_done<I: Inputs, O: Sink, E: Sink>(
    alloc: Global,
    words: &[&str],
    inputs: &mut I,
    out: &mut O,
    err: &mut E,
) -> u8 {
    command(alloc, words, inputs, out, err)
}

/// Writes the text of an audit over a listing and a script.
pub(crate) fn audit_done<S: Sink>(
    alloc: Global,
    tree: &[u8],
    script: &[u8],
    job: &Job<'_>,
    sink: &mut S,
) -> Result<(), WriteFault> {
    audit_to(alloc, tree, script, job, sink)
}
