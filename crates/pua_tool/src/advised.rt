//! The report of a fault of the inputs: its line and, by OpenBSD's rules, what is wrong with the
//! line of the script, or with the request, that is to blame.

ghost use Rattle.std.specs.Prelude.{◌≡◌, ◌++◌, ℕ, List, IfOk, option_map};
ghost use Rattle.pua_words.specs.declared.command.Text.{Text};
ghost use Rattle.pua_advice.specs.Advice.{advice_seen};
ghost use Rattle.pua_io.specs.Sinks.{Writes};
ghost use Rattle.pua_tool.specs.Advised.{advice_line, request_in};
ghost use Rattle.pua_tool.specs.Ended.{IsAdvisedAs, IsEndOf, IsEndedAs};
ghost use Rattle.pua_tool.specs.FaultTexts.{fault_line};
ghost use Rattle.pua_tool.specs.Statuses.{status_of};
ghost use Rattle.pua_tool.specs.Told.{IsLineTold};

use crate::fault::ToolFault;
use crate::line::{Piece, put_line};
use crate::outcome::{CommandFault, finish};
use crate::why::line_of;
use pua_advice::{Advice, advise, advise_script};
use pua_calls::Rules;
use pua_io::{PutFault, Sink, put_all};
use pua_script::ScriptFault;
use pua_tree::OutOfMemory;
use pua_words::{Command, Text};
use std::alloc::{AllocError, Global};

/// What stopped a command.
#[derive(Drop)]
pub(crate) enum Halt<'a> {
    /// An input was not taken.
    Untaken(CommandFault<'a>),
    /// There is no text. These are the bytes of the script.
    Unwritten(ToolFault, Vec<u8>),
    /// A put failed.
    Put,
}

/// Reports what stopped a command, and answers the status.
pub(crate) fn end<E: Sink>(alloc: Global, command: &Command<'_>, halt: Halt<'_>, err: &mut E) -> u8
    ensures { IsEndOf command.now halt.entry result (E.written err.old) (E.written err.new)
        (E.failed err.old) (E.failed err.new) }
{
    match halt {
        Halt::Untaken(fault) => finish(Err(fault), err),
        Halt::Unwritten(fault, script) => {
            end_unwritten(alloc, command, script.as_slice(), fault, err)
        }
        Halt::Put => finish(Err(CommandFault::Put), err),
    }
}

/// Reports why there is no text of a command, and answers the status. By OpenBSD's rules a second
/// line says what is wrong with the script, of which these are the bytes, or with the request that
/// is asked about. Where memory for this is refused, that is reported in the place of the fault.
/// What is left of both lines is dropped where it can't be written.
fn end_unwritten<E: Sink>(
    alloc: Global,
    command: &Command<'_>,
    script: &[u8],
    fault: ToolFault,
    err: &mut E,
) -> u8
    ensures { IsEndedAs command.now script.now fault result (E.written err.old) (E.written err.new)
        (E.failed err.old) (E.failed err.new) }
{
    match command.rules {
        Rules::Standard => tell(fault, None, err),
        Rules::Openbsd => end_advised(alloc, &command.text, script, fault, err),
    }
}

/// The same by OpenBSD's rules, of a command that asks for this text.
fn end_advised<E: Sink>(
    alloc: Global,
    text: &Text<'_>,
    script: &[u8],
    fault: ToolFault,
    err: &mut E,
) -> u8
    ensures { IsAdvisedAs text.now script.now fault result (E.written err.old) (E.written err.new)
        (E.failed err.old) (E.failed err.new) }
{
    match fault {
        ToolFault::Script(blamed) => end_script(alloc, script, blamed, err),
        ToolFault::Request(blamed) => end_request(alloc, text, blamed, err),
        _ => tell(fault, None, err),
    }
}

/// The same of a script that is refused.
fn end_script<E: Sink>(alloc: Global, script: &[u8], blamed: ScriptFault, err: &mut E) -> u8
    ensures { (text : Text) → IsAdvisedAs text script.now (ToolFault.Script blamed) result
        (E.written err.old) (E.written err.new) (E.failed err.old) (E.failed err.new) }
{
    match advise_script(alloc, Rules::Openbsd, script, blamed) {
        Ok(advice) => tell(ToolFault::Script(blamed), advice, err),
        Err(OutOfMemory) => tell(ToolFault::OutOfMemory, None, err),
    }
}

/// The same of a request that is refused.
fn end_request<E: Sink>(alloc: Global, text: &Text<'_>, blamed: ScriptFault, err: &mut E) -> u8
    ensures { (script : List ℕ) → IsAdvisedAs text.now script (ToolFault.Request blamed) result
        (E.written err.old) (E.written err.new) (E.failed err.old) (E.failed err.new) }
{
    match request_in(alloc, text) {
        Ok(line) => end_line(alloc, line.as_slice(), blamed, err),
        Err(AllocError) => tell(ToolFault::OutOfMemory, None, err),
    }
}

/// The same of a request that is refused, whose line this is.
fn end_line<E: Sink>(alloc: Global, line: &[u8], blamed: ScriptFault, err: &mut E) -> u8
    ensures { (text : Text) (script : List ℕ) → line.now ≡ request_in text →
        IsAdvisedAs text script (ToolFault.Request blamed) result
        (E.written err.old) (E.written err.new) (E.failed err.old) (E.failed err.new) }
{
    match advise(alloc, Rules::Openbsd, line) {
        Ok(advice) => tell(ToolFault::Request(blamed), advice, err),
        Err(OutOfMemory) => tell(ToolFault::OutOfMemory, None, err),
    }
}

/// The line of the request that is asked about, no bytes where none is. The only error is that a
/// growth was refused.
fn request_in(alloc: Global, text: &Text<'_>) -> Result<Vec<u8>, AllocError>
    ensures { IfOk result (λ line. line.items ≡ request_in text.now) }
{
    match text {
        Text::Why(words) => line_of(alloc, words.process, words.fields.as_slice()),
        _ => Ok(Vec::new(alloc)),
    }
}

/// Reports a fault, with what there is to say after its line, and answers the status.
fn tell<E: Sink>(fault: ToolFault, advice: Option<Advice<'_>>, err: &mut E) -> u8
    ensures status { result ≡ status_of fault }
    ensures told { IsLineTold (fault_line fault ++ advice_line (option_map advice_seen advice.entry))
        (E.written err.old) (E.written err.new) (E.failed err.old) (E.failed err.new) }
{
    let _ = put_told(fault, advice, err);
    fault.status()
}

/// Writes the line of a fault, and that of what there is to say after it.
fn put_told<E: Sink>(
    fault: ToolFault,
    advice: Option<Advice<'_>>,
    err: &mut E,
) -> Result<(), PutFault>
    ensures { Writes (fault_line fault ++ advice_line (option_map advice_seen advice.entry)) result
        (E.written err.old) (E.written err.new) (E.failed err.old) (E.failed err.new) }
{
    put_line(err, &fault.line())?;
    put_advice(advice, err)
}

/// Writes the line of an advice, or nothing.
fn put_advice<E: Sink>(advice: Option<Advice<'_>>, err: &mut E) -> Result<(), PutFault>
    ensures { Writes (advice_line (option_map advice_seen advice.entry)) result
        (E.written err.old) (E.written err.new) (E.failed err.old) (E.failed err.new) }
{
    let Some(advice) = advice else {
        return put_all(err, &[]);
    };
    let (before, behind) = advice.texts();
    put_line(
        err,
        &[
            Piece::Text("pua: "),
            Piece::Text(before),
            Piece::About(advice.wrong_part()),
            Piece::Text(behind),
        ],
    )
}
