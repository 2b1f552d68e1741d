//! Help, the version and the lines of faults, on outputs that take a few bytes a put: each is
//! written whole. The same commands with outputs in memory say what it is, and of the lines also a
//! table.

use crate::hostile::called::command_done;
use crate::hostile::dripping::DrippingSink;
use anyhow::Result;
use pua_examples_trees::told::{count, tell_unless};
use pua_tool::{DEVICE, DONE, MemoryInputs, MemorySink, REFUSED};
use std::alloc::Global;

/// A command, what it is about, its status, and the line that it reports.
#[derive(Clone, Copy)]
struct Told<'a> {
    what: &'a str,
    words: &'a [&'a str],
    status: u8,
    line: &'a str,
}

/// Commands that are refused, and commands that write a text of their own.
const TOLD: [Told<'static>; 7] = [
    Told {
        what: "help",
        words: &["--help"],
        status: DONE,
        line: "",
    },
    Told {
        what: "the help of audits",
        words: &["audit", "--help"],
        status: DONE,
        line: "",
    },
    Told {
        what: "the version",
        words: &["--version"],
        status: DONE,
        line: "",
    },
    Told {
        what: "no script",
        words: &["run", "T", "none"],
        status: DEVICE,
        line: "pua: cannot read none\n",
    },
    Told {
        what: "no listing",
        words: &["run", "S", "S"],
        status: REFUSED,
        line: "pua: listing: bad header\n",
    },
    Told {
        what: "a bad script",
        words: &["run", "T", "T"],
        status: REFUSED,
        line: "pua: script: line 1: bad line\n",
    },
    Told {
        what: "a large limit",
        words: &["audit", "--limit", "17", "T", "S"],
        status: REFUSED,
        line: "pua: audit: limit too large\n",
    },
];

const ENTRIES: [(&str, &[u8]); 2] = [("T", b"tree 1\n0 dir\n"), ("S", b"")];

/// How many bytes the outputs take a put, and from which put on the one for faults takes none.
const DRIPS: [(usize, usize); 4] = [(1, usize::MAX), (7, usize::MAX), (64, usize::MAX), (64, 1)];

/// The name of an input, so long that no file has it.
const LONG_NAME: [u8; 300] = [b'n'; 300];

/// Prints a line for each command that is answered otherwise, and how many there are.
pub(crate) fn run(rt: &HostRuntime) -> Result<()> {
    for told in &TOLD {
        tell_unless(rt, is_told(rt.alloc(), told), told.what, "wrong in drips")?;
    }
    let holds = is_long_name_told(rt.alloc());
    tell_unless(rt, holds, "a name of 300 bytes", "wrong in drips")?;
    count(rt, "in drips", TOLD.len() + 1, "commands")
}

/// Whether a command over an input with the long name is answered as the others are.
fn is_long_name_told(alloc: Global) -> Result<bool> {
    let name = str::from_utf8(&LONG_NAME)?;
    let line = format!(in alloc; "pua: cannot read {name}\n")?;
    let words = ["run", "T", name];
    let told = Told {
        what: "a name of 300 bytes",
        words: &words,
        status: DEVICE,
        line: line.as_str(),
    };
    is_told(alloc, &told)
}

/// Whether a command ends with this status, reports this line, and writes a text where it is done
/// and none where it isn't: into memory, and the same bytes in drips.
fn is_told(alloc: Global, told: &Told<'_>) -> Result<bool> {
    let mut out = MemorySink::new(alloc, 65_536)?;
    let mut err = MemorySink::new(alloc, 1_024)?;
    let holds = is_kept(alloc, told, &mut out, &mut err);
    Ok(holds && are_dripped(alloc, told, out.bytes()))
}

/// Whether a command ends so with outputs in memory.
fn is_kept(alloc: Global, told: &Told<'_>, out: &mut MemorySink, err: &mut MemorySink) -> bool {
    let mut inputs = MemoryInputs::new(&ENTRIES);
    let status = command_done(alloc, told.words, &mut inputs, out, err);
    let is_text = out.bytes().is_empty() == (told.status != DONE);
    status == told.status && is_text && err.bytes() == told.line.as_bytes()
}

/// Whether a command ends so with each of the outputs.
fn are_dripped(alloc: Global, told: &Told<'_>, text: &[u8]) -> bool {
    let mut holds = true;
    for (most, fails_from) in &DRIPS {
        holds = is_dripped(alloc, told, text, *most, *fails_from) && holds;
    }
    holds
}

/// Whether a command ends so where its outputs take so many bytes a put, and the one for faults
/// fails from this put on. A line that can't be written is dropped, and changes nothing else.
fn is_dripped(alloc: Global, told: &Told<'_>, text: &[u8], most: usize, fails_from: usize) -> bool {
    let mut inputs = MemoryInputs::new(&ENTRIES);
    let mut out = DrippingSink::new(alloc, most, usize::MAX);
    let mut err = DrippingSink::new(alloc, most, fails_from);
    let status = command_done(alloc, told.words, &mut inputs, &mut out, &mut err);
    let line = if fails_from == 1 { "" } else { told.line };
    status == told.status && out.bytes() == text && err.bytes() == line.as_bytes()
}
