//! The program `pua`: what a process, sandboxed by pledge(2) and unveil(2), may still do to a tree
//! of files.
#![tactic(auto)]

ghost use Rattle.std.specs.Prelude.{◌≡◌};

use pua_tool::{DiskInputs, MEMORY, StreamSink, ToolFault, USAGE, UsageLine, program};
use std::alloc::AllocError;
use std::io::BufWriter;
use std::process::ExitCode;
use std::{env, io};

fn main(rt: HostRuntime) -> ExitCode {
    ExitCode::from(match answered(&rt) {
        Ok(status) => status,
        Err(AllocError) => out_of_memory(&rt),
    })
}

/// Runs the program over the machine's files, and answers the status. The error is that a growth
/// was refused before the words were read.
fn answered(rt: &HostRuntime) -> Result<u8, AllocError> {
    let Some(args) = words_given(rt)? else {
        let _ = eprintln!(rt; "{}", UsageLine::Program.text());
        return Ok(USAGE);
    };
    let words: Vec<&str> = args.iter().map(String::as_str).collect(rt.alloc())?;
    let Ok(writer) = BufWriter::new(rt.alloc(), io::writer(rt)) else {
        return Err(AllocError);
    };
    Ok(program(
        rt.alloc(),
        words.as_slice(),
        &mut DiskInputs::new(rt),
        &mut StreamSink::new(writer),
        &mut StreamSink::new(rt.stderr()),
    ))
}

/// The words after the program's name; None where one is no text.
fn words_given(rt: &HostRuntime) -> Result<Option<Vec<String>>, AllocError> {
    match env::args(rt) {
        Ok(args) => Ok(Some(args.skip(1).collect(rt.alloc())?)),
        Err(error) if error.kind() == io::ErrorKind::OutOfMemory => Err(AllocError),
        Err(_) => Ok(None),
    }
}

/// Reports that a growth was refused before the words were read, and answers the status.
fn out_of_memory(rt: &HostRuntime) -> u8
    ensures { result ≡ MEMORY }
{
    let _ = eprintln!(rt; "{}", ToolFault::OutOfMemory);
    MEMORY
}
