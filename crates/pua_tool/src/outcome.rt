//! How a command ends: with which line, and with which status.

ghost use Rattle.std.specs.Prelude.{◌≡◌, IfErr, OnOk};
ghost use Rattle.pua_tool.specs.Statuses.{fault_status, status_after};
ghost use Rattle.pua_tool.specs.Told.{IsFaultTold, TellsFault};

use crate::fault::ToolFault;
use crate::line::{Piece, put_line};
use crate::status::{DEVICE, DONE, USAGE};
use pua_io::{PutFault, Sink};
use pua_words::UsageLine;

/// Why a command was not done, or not whole.
#[derive(Clone, Copy)]
pub(crate) enum CommandFault<'a> {
    /// The words are no command; the line says how they could be one.
    Usage(UsageLine),
    /// The input of this name can't be read.
    Unreadable(&'a str),
    /// The inputs' bytes or the memory stopped it.
    Tool(ToolFault),
    /// A put failed.
    Put,
}

impl CommandFault<'_> {
    fn status(&self) -> u8
        ensures { result ≡ fault_status self.now }
    {
        match self {
            CommandFault::Usage(_) => USAGE,
            CommandFault::Unreadable(_) => DEVICE,
            CommandFault::Tool(fault) => fault.status(),
            CommandFault::Put => DEVICE,
        }
    }

    /// Writes the line of the fault.
    fn tell<E: Sink>(&self, err: &mut E) -> Result<(), PutFault>
        ensures { TellsFault self.now result (E.written err.old) (E.written err.new)
            (E.failed err.old) (E.failed err.new) }
    {
        match self {
            CommandFault::Usage(line) => put_line(err, &[Piece::Text(line.text())]),
            CommandFault::Unreadable(name) => {
                put_line(err, &[Piece::Text("pua: cannot read "), Piece::Text(name)])
            }
            CommandFault::Tool(fault) => put_line(err, &fault.line()),
            CommandFault::Put => put_line(err, &[Piece::Text("pua: cannot write")]),
        }
    }
}

/// Reports a fault, and answers the status. What is left of the fault's line is dropped where it
/// can't be written.
pub(crate) fn finish<E: Sink>(done: Result<(), CommandFault<'_>>, err: &mut E) -> u8
    ensures status { result ≡ status_after done.entry }
    ensures quiet { OnOk done.entry (err.new ≡ err.old) }
    ensures told { IfErr done.entry (λ fault. IsFaultTold fault (E.written err.old)
        (E.written err.new) (E.failed err.old) (E.failed err.new)) }
{
    match done {
        Ok(()) => DONE,
        Err(fault) => {
            let _ = fault.tell(err);
            fault.status()
        }
    }
}
