//! Sinks that break at each of their puts, and readers that fail at each of their reads.

use crate::hostile::called::{audit_done, command_done};
use crate::hostile::dripping::{DrippingReader, DrippingSink};
use anyhow::Result;
use pua_audit::Base;
use pua_examples_trees::LISTING;
use pua_examples_trees::told::{count, wrong_unless};
use pua_tool::{
    DEVICE, DONE, InputFault, Job, MemoryInputs, MemorySink, ReadSource, Sink, WriteFault,
    read_bytes,
};
use std::alloc::Global;
use std::ops::Range;

/// A listing, a script, and the audit of process 1 with them.
#[derive(Clone, Copy)]
struct Audited<'a> {
    tree: &'a [u8],
    script: &'a [u8],
    job: Job<'a>,
}

/// An audit with a text of 59 bytes.
const SHORT: Audited<'static> = Audited {
    tree: b"tree 1\n0 dir\n",
    script: b"1 pledge stdio,cpath -\n",
    job: Job {
        limit: 2,
        process: 1,
        base: Base::Root,
        after: None,
        table: None,
        candidates: &[b"a"],
    },
};

/// The text of the short audit.
const SHORT_TEXT: &[u8] = b"1 ok\nreach 1\n/../a mkdir\n/../a symlink\n/a mkdir\n/a symlink\n";

/// How many sinks break under it: at each of its bytes, and after the last one.
const BREAKS: usize = 60;

/// An audit whose lines take more than one block of 65,536 bytes: of a new process, over a
/// directory in which nothing stands.
const LONG: Audited<'static> = Audited {
    tree: b"tree 1\n0 dir\n1 dir 0 d\n",
    script: b"",
    job: Job {
        limit: 10,
        process: 1,
        base: Base::Root,
        after: None,
        table: None,
        candidates: &[],
    },
};

/// How many bytes the text of the long audit has.
const LONG_BYTES: usize = 68_027;

/// From which puts on the sinks fail that break about the ends of the first block and of the text:
/// from two puts before each of them to three puts after it. There stand 8 bytes before the lines
/// of the long audit, and 61,430 bytes of these in the first block.
const CUTS: [usize; 24] = [
    6, 7, 8, 9, 10, 11, 61_428, 61_429, 61_430, 61_431, 61_432, 61_433, 61_436, 61_437, 61_438,
    61_439, 61_440, 61_441, 68_025, 68_026, 68_027, 68_028, 68_029, 68_030,
];

/// How many bytes the sinks take a put that never fail.
const PUTS: [usize; 7] = [1, 2, 7, 4_096, 65_535, 65_536, 65_537];

/// How many bytes a put the sinks take whose puts are counted.
const WIDE: [usize; 3] = [65_536, 65_537, usize::MAX];

/// Room for the longest of the texts.
const ROOM: usize = 131_072;

/// How many readers there are: one for each byte of the listing, one that fails at its end, and one
/// that doesn't fail.
const READERS: usize = 120;

/// What is tried with each of some numbers.
#[derive(Clone, Copy)]
enum Trial {
    /// The short audit, with a sink that fails from this put on, ..
    ShortAudit,
    /// .. its command, with such a sink, ..
    ShortCommand,
    /// .. and with a sink in memory that has so much room: too little, or just enough.
    SmallRoom,
    /// The long audit, with a sink that fails from the put in this row of `CUTS` on, ..
    LongAudit,
    /// .. with a sink that takes as much a put as this row of `PUTS` says, and never fails, ..
    ShortPuts,
    /// .. and with one that takes as much as this row of `WIDE` says, which is a block or more.
    FewPuts,
    /// The listing, read by a reader that fails at this read.
    Reading,
}

impl Trial {
    /// Whether it ends with this number as it has to. `long` is the text of the long audit.
    fn holds(self, alloc: Global, number: usize, long: &[u8]) -> Result<bool> {
        match self {
            Trial::ShortAudit => Ok(is_cut(alloc, &SHORT, SHORT_TEXT, 1, number)),
            Trial::ShortCommand => is_cut_command(alloc, number),
            Trial::SmallRoom => is_filled(alloc, number),
            Trial::LongAudit => Ok(is_long_cut(alloc, long, Some(&1), CUTS.get(number))),
            Trial::ShortPuts => Ok(is_long_cut(alloc, long, PUTS.get(number), Some(&usize::MAX))),
            Trial::FewPuts => Ok(are_puts_few(alloc, long, WIDE.get(number))),
            Trial::Reading => Ok(is_read(alloc, number)),
        }
    }
}

/// A trial, what it is of, the first number, how many there are, and of what.
type Trials = (Trial, &'static str, usize, usize, &'static str);

/// All trials.
const TRIALS: [Trials; 7] = [
    (Trial::ShortAudit, "short audit", 1, BREAKS, "sinks"),
    (Trial::ShortCommand, "short command", 1, BREAKS, "sinks"),
    (Trial::SmallRoom, "short command", 0, BREAKS, "rooms"),
    (Trial::LongAudit, "long audit", 0, CUTS.len(), "sinks"),
    (Trial::ShortPuts, "short puts", 0, PUTS.len(), "sinks"),
    (Trial::FewPuts, "few puts", 0, WIDE.len(), "sinks"),
    (Trial::Reading, "readings", 1, READERS, "readers"),
];

/// Prints a line for each case that is not as it has to be, and how many cases each table has.
pub(crate) fn run(rt: &HostRuntime) -> Result<()> {
    let long = long_text(rt)?;
    try_all(rt, long.bytes())
}

/// Goes through all trials.
fn try_all(rt: &HostRuntime, long: &[u8]) -> Result<()> {
    for (trial, what, first, number, of) in &TRIALS {
        let numbers = *first..first.saturating_add(*number);
        try_each(rt, *trial, what, numbers, long)?;
        count(rt, what, *number, of)?;
    }
    Ok(())
}

/// Tries each number.
fn try_each(
    rt: &HostRuntime,
    trial: Trial,
    what: &str,
    numbers: Range<usize>,
    long: &[u8],
) -> Result<()> {
    for number in numbers {
        wrong_unless(rt, trial.holds(rt.alloc(), number, long), what, number)?;
    }
    Ok(())
}

/// The first bytes of a text, at most so many.
fn front(text: &[u8], count: usize) -> &[u8] {
    text.get(..count).unwrap_or(text)
}

/// Whether an audit, with a sink that takes so many bytes a put and fails from this put on, leaves
/// in it the bytes of the puts before, and answers that it can't write unless these are the whole
/// text. Of a sink that fails at last the bytes go one by one.
fn is_cut(
    alloc: Global,
    audited: &Audited<'_>,
    text: &[u8],
    most: usize,
    fails_from: usize,
) -> bool {
    let mut sink = DrippingSink::new(alloc, most, fails_from);
    let answer = audit_done(alloc, audited.tree, audited.script, &audited.job, &mut sink);
    let held = front(text, fails_from.saturating_sub(1));
    let wanted = if held.len() == text.len() {
        Ok(())
    } else {
        Err(WriteFault::Put)
    };
    answer == wanted && sink.bytes() == held
}

/// Whether the long audit is cut as it has to be by a sink with such numbers, if both are given.
fn is_long_cut(
    alloc: Global,
    text: &[u8],
    most: Option<&usize>,
    fails_from: Option<&usize>,
) -> bool {
    let (Some(most), Some(fails_from)) = (most, fails_from) else {
        return false;
    };
    is_cut(alloc, &LONG, text, *most, *fails_from)
}

/// Whether the long audit is put in blocks, with a sink that takes so many bytes a put, if that is
/// given: in a put for each 60,000 bytes, and three more at most.
fn are_puts_few(alloc: Global, text: &[u8], most: Option<&usize>) -> bool {
    let Some(most) = most else {
        return false;
    };
    let mut sink = DrippingSink::new(alloc, *most, usize::MAX);
    let answer = audit_done(alloc, LONG.tree, LONG.script, &LONG.job, &mut sink);
    let few = (text.len() / 60_000).saturating_add(3);
    answer == Ok(()) && sink.bytes() == text && sink.puts() <= few
}

/// Whether the command of the short audit writes so many bytes of its text to this output, which
/// leaves them there, and has the status and the line of one that wrote them.
fn is_reported<O: Sink>(alloc: Global, out: &mut O, wanted: &[u8]) -> Result<bool> {
    let words = ["audit", "--limit", "2", "T", "S", "a"];
    let entries = [("T", SHORT.tree), ("S", SHORT.script)];
    let mut inputs = MemoryInputs::new(&entries);
    let mut err = MemorySink::new(alloc, 1_024)?;
    let status = command_done(alloc, &words, &mut inputs, out, &mut err);
    Ok(is_told(status, err.bytes(), wanted))
}

/// Whether that is the status and the line of a command that wrote this of the short text.
fn is_told(status: u8, line: &[u8], written: &[u8]) -> bool {
    if written.len() == SHORT_TEXT.len() {
        status == DONE && line.is_empty()
    } else {
        status == DEVICE && line == b"pua: cannot write\n".as_slice()
    }
}

/// Whether the command of the short audit leaves the same in such a sink, with its status and line.
fn is_cut_command(alloc: Global, fails_from: usize) -> Result<bool> {
    let wanted = front(SHORT_TEXT, fails_from.saturating_sub(1));
    let mut out = DrippingSink::new(alloc, 1, fails_from);
    Ok(is_reported(alloc, &mut out, wanted)? && out.bytes() == wanted)
}

/// Whether the command of the short audit fills a sink in memory that has so much room.
fn is_filled(alloc: Global, room: usize) -> Result<bool> {
    let wanted = front(SHORT_TEXT, room);
    let mut out = MemorySink::new(alloc, room)?;
    Ok(is_reported(alloc, &mut out, wanted)? && out.bytes() == wanted)
}

/// The text of the long audit.
fn long_text(rt: &HostRuntime) -> Result<MemorySink> {
    let mut whole = MemorySink::new(rt.alloc(), ROOM)?;
    let answer = audit_done(rt.alloc(), LONG.tree, LONG.script, &LONG.job, &mut whole);
    if answer.is_err() || whole.bytes().len() != LONG_BYTES {
        count(rt, "long audit", whole.bytes().len(), "bytes")?;
    }
    Ok(whole)
}

/// Whether the listing is read by a reader that fails at this read, if it comes so far.
fn is_read(alloc: Global, fails_at: usize) -> bool {
    let mut source = ReadSource::new(DrippingReader::new(LISTING, fails_at));
    match read_bytes(alloc, &mut source) {
        Ok(all) => fails_at == READERS && all.as_slice() == LISTING,
        Err(fault) => fails_at < READERS && fault == InputFault::Unreadable,
    }
}
