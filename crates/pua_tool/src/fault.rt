//! Why runs, audits, lists of objects, ways, tightened scripts and trees are refused or not written,
//! each with the line that reports it.

ghost use Rattle.std.specs.Prelude.{◌≡◌, ◌++◌, codes};
ghost use Rattle.pua_tool.specs.FaultTexts.{blame_line, fault_line, place_line, row_line};
ghost use Rattle.pua_tool.specs.Pieces.{line_of};
ghost use Rattle.pua_tool.specs.Statuses.{status_of, write_status};
ghost use Rattle.pua_tool.specs.TightTexts.{tight_fault};
ghost use Rattle.pua_tool.specs.TreeTexts.{list_fault};
ghost use Rattle.pua_tool.specs.declared.fault.ToolFault.TheVariants as tool_fault;
ghost use Rattle.pua_tool.specs.declared.fault.WriteFault.TheVariants as write_fault;

use crate::line::Piece::{Number, Text};
use crate::line::{Pieces, five, one, three};
use crate::status::{DEVICE, MEMORY, REFUSED};
use pua_audit::AuditFault;
use pua_calls::{Call, TableFault};
use pua_io::PutFault;
use pua_listing::ListFault;
use pua_script::ScriptFault;
use pua_tight::TightFault;
use pua_tree::{ListingFault, OutOfMemory};
use std::alloc::{AllocError, AllocFailed};
use std::fmt;

/// Why there is no text of a run, of an audit, of a list of objects, of now or for ever, of a way,
/// of a tightened script or of a tree. It is displayed as the line that the program prints.
#[derive(Clone, Copy, Debug, PartialEq, Eq)]
pub enum ToolFault {
    /// The tree's bytes are no listing.
    Listing(ListingFault),
    /// The script's bytes are no script.
    Script(ScriptFault),
    /// The fields of a request that is asked about are no line of a script.
    Request(ScriptFault),
    /// The process was never made.
    NoProcess,
    /// The audit can't begin.
    Audit(AuditFault),
    /// A growth of memory was refused.
    OutOfMemory,
    /// The table's bytes give no table of calls.
    Table(TableFault),
    /// There is no list for ever of the process with this number, which can still put veils: it is
    /// not locked, and has the promise `unveil`.
    CanUnveil(u32),
    /// There is no list for ever by a table by which this call, one that makes a name or takes one
    /// away, does not need `c`.
    LacksC(Call),
    /// The same of rename(2), by one of its two names.
    RenameLacksC,
    /// The same of link(2), by its new name.
    LinkLacksC,
    /// There is no list of what the processes with these numbers can ever touch together: the
    /// second has a veil on another place than the first, or other letters at one.
    OtherVeils(u32, u32),
    /// There is no list for ever of several processes with what lets calls through: each has its
    /// own promises, and put its veils by lines of its own.
    SeveralWhy,
    /// There is no list of now with ways: each of its calls comes in one step.
    NowHow,
    /// There is no list for ever of several processes with ways, since a way is of one.
    SeveralHow,
    /// There is no list for ever with what processes were before each program that they started:
    /// then they could mostly put veils still.
    EverImages,
    /// There is no list with reasons and with what processes were.
    WhyImages,
    /// There is no list of now with the help of others.
    NowBeside,
    /// There is no list with the help of others and with what lets calls through.
    WhyBeside,
    /// There is no list with the help of others and with ways, since a way is of one.
    HowBeside,
    /// There is no list with the help of others and with what processes were.
    ImagesBeside,
    /// There is no list of what is at or below a path but for ever, with ways.
    PlainBelow,
    /// At or below what lines are asked for is no path as a list for ever prints it.
    BelowPath,
    /// Nothing stands at the path at or below which lines are asked for, and the name there has no
    /// veil of its own.
    BelowThing,
    /// The tree that the script leaves has more names than a listing has lines: over 1,000,000, the
    /// root counted as one.
    TooManyNames,
    /// The script ends before this line, after which it was asked how things stood.
    NoLine(u32),
    /// What a way is asked for is none of the calls on one path.
    HowCall,
    /// Where it is to lead is no path as a list for ever prints it.
    HowPath,
    /// A name before the last one of the path is no directory's, or nothing there is of the kind
    /// that was asked for.
    HowThing,
    /// A link is meant, and this call is on what a link leads to, never on the link.
    HowLink(Call),
}

impl From<AllocError> for ToolFault {
    ghost from_gives = { λ _ fault. fault ≡ tool_fault.OutOfMemory };

    fn from(_refused: AllocError) -> ToolFault {
        ToolFault::OutOfMemory
    }
}

impl<T: Drop> From<AllocFailed<T>> for ToolFault {
    ghost from_gives = { λ _ fault. fault ≡ tool_fault.OutOfMemory };

    fn from(_refused: AllocFailed<T>) -> ToolFault {
        ToolFault::OutOfMemory
    }
}

impl From<OutOfMemory> for ToolFault {
    ghost from_gives = { λ _ fault. fault ≡ tool_fault.OutOfMemory };

    fn from(_refused: OutOfMemory) -> ToolFault {
        ToolFault::OutOfMemory
    }
}

impl From<TightFault> for ToolFault {
    ghost from_gives = { λ refused fault. fault ≡ tight_fault refused };

    fn from(refused: TightFault) -> ToolFault {
        match refused {
            TightFault::Listing(fault) => ToolFault::Listing(fault),
            TightFault::Script(fault) => ToolFault::Script(fault),
            TightFault::OutOfMemory => ToolFault::OutOfMemory,
        }
    }
}

impl From<ListFault> for ToolFault {
    ghost from_gives = { λ refused fault. fault ≡ list_fault refused };

    fn from(refused: ListFault) -> ToolFault {
        match refused {
            ListFault::TooManyNames => ToolFault::TooManyNames,
            ListFault::OutOfMemory => ToolFault::OutOfMemory,
        }
    }
}

impl ToolFault {
    /// The status with which the program ends after this fault.
    pub(crate) fn status(&self) -> u8
        ensures { result ≡ status_of self.now }
    {
        match self {
            ToolFault::OutOfMemory => MEMORY,
            _ => REFUSED,
        }
    }

    /// The line that reports it, in pieces, without its end.
    pub(crate) fn line(&self) -> Pieces
        ensures { line_of result ≡ fault_line self.now }
    {
        match *self {
            ToolFault::Listing(fault) => blamed("pua: listing: ", fault.told()),
            ToolFault::Script(fault) => blamed("pua: script: ", fault.told()),
            ToolFault::Request(fault) => blamed("pua: request: ", fault.told()),
            ToolFault::NoProcess => one("pua: no such process"),
            ToolFault::Audit(fault) => placed(fault.told()),
            ToolFault::OutOfMemory => one("pua: out of memory"),
            ToolFault::Table(fault) => in_row(fault.told()),
            ToolFault::CanUnveil(process) => {
                three("pua: process ", Number(process), " can still unveil")
            }
            ToolFault::LacksC(call) => three("pua: table: ", Text(call.name()), ": no c"),
            ToolFault::RenameLacksC => one("pua: table: rename: no c"),
            ToolFault::LinkLacksC => one("pua: table: link: no c"),
            ToolFault::OtherVeils(first, other) => {
                let (first, other) = (Number(first), Number(other));
                let rest = " have other veils: ask with --beside";
                five("pua: processes ", first, " and ", other, rest)
            }
            ToolFault::TooManyNames => one("pua: tree: too many names"),
            ToolFault::SeveralWhy => one("pua: objects: no list for ever of several with --why"),
            ToolFault::NowHow => one("pua: objects: no list of now with --how"),
            ToolFault::SeveralHow => one("pua: objects: no list of several with --how"),
            ToolFault::EverImages => one("pua: objects: no list for ever with --images"),
            ToolFault::WhyImages => one("pua: objects: no list with --why and --images"),
            ToolFault::NowBeside => one("pua: objects: no list of now with --beside"),
            ToolFault::WhyBeside => one("pua: objects: no list with --why and --beside"),
            ToolFault::HowBeside => one("pua: objects: no list with --how and --beside"),
            ToolFault::ImagesBeside => one("pua: objects: no list with --images and --beside"),
            ToolFault::PlainBelow => one("pua: objects: no list with --below without --ever --how"),
            ToolFault::BelowPath => one("pua: objects: bad path"),
            ToolFault::BelowThing => one("pua: objects: no such path"),
            ToolFault::NoLine(line) => blamed("pua: script: ", (Some(line), "no such line")),
            ToolFault::HowCall => one("pua: how: bad call"),
            ToolFault::HowPath => one("pua: how: bad path"),
            ToolFault::HowThing => one("pua: how: no such thing"),
            ToolFault::HowLink(call) => {
                let rest = " follows: ask about what it leads to";
                three("pua: how: a link, which ", Text(call.name()), rest)
            }
        }
    }
}

/// Why a text was not written, or not whole. It is displayed as the line that the program prints.
#[derive(Clone, Copy, Debug, PartialEq, Eq)]
pub enum WriteFault {
    /// There is no text, and nothing was written.
    NoText(ToolFault),
    /// A put failed. What was written is a front of the text.
    Put,
}

impl From<ToolFault> for WriteFault {
    ghost from_gives = { λ refused fault. fault ≡ write_fault.NoText refused };

    fn from(refused: ToolFault) -> WriteFault {
        WriteFault::NoText(refused)
    }
}

impl From<AllocError> for WriteFault {
    ghost from_gives = { λ _ fault. fault ≡ write_fault.NoText tool_fault.OutOfMemory };

    fn from(_refused: AllocError) -> WriteFault {
        WriteFault::NoText(ToolFault::OutOfMemory)
    }
}

impl From<OutOfMemory> for WriteFault {
    ghost from_gives = { λ _ fault. fault ≡ write_fault.NoText tool_fault.OutOfMemory };

    fn from(_refused: OutOfMemory) -> WriteFault {
        WriteFault::NoText(ToolFault::OutOfMemory)
    }
}

impl From<PutFault> for WriteFault {
    ghost from_gives = { λ _ fault. fault ≡ write_fault.Put };

    fn from(_failed: PutFault) -> WriteFault {
        WriteFault::Put
    }
}

impl WriteFault {
    /// The status with which the program ends after this fault.
    pub fn status(&self) -> u8
        ensures { result ≡ write_status self.now }
    {
        match self {
            WriteFault::NoText(fault) => fault.status(),
            WriteFault::Put => DEVICE,
        }
    }
}

/// What is wrong with an input, and the number of its line that is to blame, if one is.
fn blamed(input: &'static str, told: (Option<u32>, &'static str)) -> Pieces
    ensures { line_of result ≡ input.now ++ blame_line told.entry.0 told.entry.1.now }
{
    let (line, wrong) = told;
    match line {
        Some(line) => [
            Text(input),
            Text("line "),
            Number(line),
            Text(": "),
            Text(wrong),
        ],
        None => three(input, Text(wrong), ""),
    }
}

/// What is wrong with an audit, and the place of a candidate, if one is to blame.
fn placed(told: (&'static str, Option<u32>)) -> Pieces
    ensures { line_of result ≡ codes "pua: audit: " ++ place_line told.entry.0.now told.entry.1 }
{
    let (wrong, place) = told;
    match place {
        Some(place) => five("pua: audit: ", Text(wrong), " ", Number(place), ""),
        None => three("pua: audit: ", Text(wrong), ""),
    }
}

/// What is wrong with a table, and the call that is to blame, if one is.
fn in_row(told: (Option<Call>, &'static str)) -> Pieces
    ensures { line_of result ≡ codes "pua: table: " ++ row_line told.entry.0 told.entry.1.now }
{
    let (call, wrong) = told;
    match call {
        Some(call) => five("pua: table: ", Text(call.name()), ": ", Text(wrong), ""),
        None => three("pua: table: ", Text(wrong), ""),
    }
}

impl fmt::Display for ToolFault {
    fn fmt<W: fmt::Write>(&self, f: &mut fmt::Formatter<W>) -> fmt::Result {
        for piece in &self.line() {
            write!(f, "{piece}")?;
        }
        Ok(())
    }
}

impl std::error::Error for ToolFault {}

impl fmt::Display for WriteFault {
    fn fmt<W: fmt::Write>(&self, f: &mut fmt::Formatter<W>) -> fmt::Result {
        match self {
            WriteFault::NoText(fault) => write!(f, "{fault}"),
            WriteFault::Put => write!(f, "pua: cannot write"),
        }
    }
}

impl std::error::Error for WriteFault {}
