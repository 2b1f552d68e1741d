//! The whole program, as a function over its inputs and outputs.

ghost use Rattle.std.specs.Prelude.{◌≡◌, ◌≢◌, ◌≤◌, [], OnErr, OnOk, codes, map};
ghost use Rattle.std.specs.Io.Buffered.{writer_buffer, writer_contents};
ghost use Rattle.std.specs.Io.KnownBytes.{Keeps};
ghost use Rattle.pua_words.specs.Usages.{line_for, usage_line_text};
ghost use Rattle.pua_words.specs.declared.command.Command.{Command};
ghost use Rattle.pua_tool.specs.Performed.{HasAnswered, HasAsked, HasEnded, HasHalted, IsAskedBy};
ghost use Rattle.pua_tool.specs.Performed.{IsRefused};
ghost use Rattle.pua_tool.specs.Advised.{HasTold};
ghost use Rattle.pua_io.specs.Sinks.{Adds, AddsFront, HasFailed};
ghost use Rattle.pua_texts.specs.Lines.{with_end};
ghost use Rattle.pua_tool.specs.Told.{IsLineTold, Shows, ShowsFront, TellsStatus, TellsUsage};

use crate::fault::ToolFault;
use crate::outcome::{CommandFault, finish};
use crate::service::perform;
use crate::status::{DEVICE, DONE, MEMORY, REFUSED, USAGE};
use pua_io::{Inputs, PutFault, Sink, StreamSink, put_all};
use pua_words::{Stop, read_words};
use std::alloc::Global;
use std::io::{BufWriter, Write};

/// [`command`], with an output that holds bytes back, which are handed on at the end: after
/// [`DONE`] nothing is held back. Where they can't be handed on, the report is that of a text that
/// can't be written. After [`REFUSED`], [`USAGE`] and [`MEMORY`] nothing was written.
pub fn program<I: Inputs, W: Write + Drop, E: Sink>(
    alloc: Global,
    words: &[&str],
    inputs: &mut I,
    out: &mut StreamSink<BufWriter<W>>,
    err: &mut E,
) -> u8
    ensures done { result ≡ DONE →
        HasAnswered (map (λ word. word.now) words.now) (I.holds inputs.old)
        (writer_contents W.contents out.old.0) (writer_contents W.contents out.new.0) }
    ensures refused { result ≡ REFUSED → (c : Command)
        × IsAskedBy (map (λ word. word.now) words.now) c × IsRefused (I.holds inputs.old) c }
    ensures usage { result ≡ USAGE →
        IsLineTold (with_end (usage_line_text (line_for (map (λ word. word.now) words.now))))
        (E.written err.old) (E.written err.new) (E.failed err.old) (E.failed err.new) }
    ensures device { result ≡ DEVICE →
        HasEnded (map (λ word. word.now) words.now) (I.holds inputs.old)
        (writer_contents W.contents out.old.0)
        (writer_contents W.contents out.new.0) out.old.1 out.new.1 }
    ensures told { result ≢ DONE → HasTold (map (λ word. word.now) words.now)
        (I.holds inputs.old) result
        (E.written err.old) (E.written err.new) (E.failed err.old) (E.failed err.new) }
    ensures handed { result ≡ DONE → writer_buffer out.new.0 ≡ [] }
    ensures unwritten { result ≢ DONE → result ≢ DEVICE →
        Keeps (writer_contents W.contents out.old.0) (writer_contents W.contents out.new.0) }
    ensures unfailed { result ≡ DONE → out.new.1 ≡ out.old.1 }
    ensures quiet { result ≡ DONE → err.new ≡ err.old }
    ensures statuses { result ≤ MEMORY }
    ensures asks { HasAsked (map (λ word. word.now) words.now) (I.asked inputs.old)
        (I.asked inputs.new) }
{
    let status = command(alloc, words, inputs, out, err);
    let flushed = out.flush();
    at_end(status, flushed, err)
}

/// The status after a command whose output was flushed at its end. A flush that failed after
/// [`DONE`] is reported on `err`; after every other status a fault was reported already.
fn at_end<E: Sink>(status: u8, flushed: Result<(), PutFault>, err: &mut E) -> u8
    ensures kept { OnOk flushed (result ≡ status) }
    ensures stopped { status ≢ DONE → result ≡ status }
    ensures device { OnErr flushed (status ≡ DONE → result ≡ DEVICE) }
    ensures told { OnErr flushed (status ≡ DONE →
        IsLineTold (with_end (codes "pua: cannot write")) (E.written err.old) (E.written err.new)
        (E.failed err.old) (E.failed err.new)) }
    ensures reported { result ≢ status → TellsStatus result
        (E.written err.old) (E.written err.new) (E.failed err.old) (E.failed err.new) }
    ensures quiet { OnOk flushed (err.new ≡ err.old) }
    ensures untold { status ≢ DONE → err.new ≡ err.old }
{
    if flushed.is_err() && status == DONE {
        return finish(Err(CommandFault::Put), err);
    }
    status
}

/// Does what the words after the program's name ask for: [`perform`], of the command that they say,
/// or a text about the program, for words alone of which one asks for that. Of words in a plain
/// form ([`read_words`] says which) the command is the one that they name; which other words are
/// one, and which are none, is `clap`'s to say and in no contract.
///
/// It answers the status: [`DONE`] where it is done, [`REFUSED`] where an input was refused,
/// [`USAGE`] where the words are no command, [`DEVICE`] where a file can't be read or the text
/// can't be written, and [`MEMORY`] where a growth of memory was refused. Help is asked for by
/// `--help`, `-h` or `help`, and the version of the program and of its toolchain by `--version` or
/// `-V`; both go to `out`.
pub fn command<I: Inputs, O: Sink, E: Sink>(
    alloc: Global,
    words: &[&str],
    inputs: &mut I,
    out: &mut O,
    err: &mut E,
) -> u8
    ensures done { result ≡ DONE →
        HasAnswered (map (λ word. word.now) words.now) (I.holds inputs.old)
        (O.written out.old) (O.written out.new) }
    ensures refused { result ≡ REFUSED → (c : Command)
        × IsAskedBy (map (λ word. word.now) words.now) c × IsRefused (I.holds inputs.old) c }
    ensures usage { result ≡ USAGE →
        IsLineTold (with_end (usage_line_text (line_for (map (λ word. word.now) words.now))))
        (E.written err.old) (E.written err.new) (E.failed err.old) (E.failed err.new) }
    ensures device { result ≡ DEVICE →
        HasHalted (map (λ word. word.now) words.now) (I.holds inputs.old)
        (O.written out.old) (O.written out.new) (O.failed out.old) (O.failed out.new) }
    ensures told { result ≢ DONE → HasTold (map (λ word. word.now) words.now)
        (I.holds inputs.old) result
        (E.written err.old) (E.written err.new) (E.failed err.old) (E.failed err.new) }
    ensures status { result ≤ MEMORY }
    ensures unwritten { result ≢ DONE → result ≢ DEVICE → O.written out.new ≡ O.written out.old }
    ensures unfailed { result ≡ DONE → O.failed out.new ≡ O.failed out.old }
    ensures quiet { result ≡ DONE → err.new ≡ err.old }
    ensures asks { HasAsked (map (λ word. word.now) words.now) (I.asked inputs.old)
        (I.asked inputs.new) }
{
    match read_words(alloc, words) {
        Ok(command) => perform(alloc, &command, inputs, out, err),
        Err(stop) => stopped(&stop, out, err),
    }
}

/// Writes the text about the program that the words ask for, or reports why there is nothing to do.
fn stopped<O: Sink, E: Sink>(stop: &Stop, out: &mut O, err: &mut E) -> u8
    ensures shown { result ≡ DONE → Shows stop.now (O.written out.old) (O.written out.new) }
    ensures cut { result ≡ DEVICE →
        ShowsFront stop.now (O.written out.old) (O.written out.new) (O.failed out.old)
        (O.failed out.new) }
    ensures usage { result ≡ USAGE →
        TellsUsage stop.now (E.written err.old) (E.written err.new) (E.failed err.old)
        (E.failed err.new) }
    ensures memory { stop.now ≡ Stop.OutOfMemory → result ≡ MEMORY }
    ensures told { result ≢ DONE →
        TellsStatus result (E.written err.old) (E.written err.new) (E.failed err.old)
        (E.failed err.new) }
    ensures unrefused { result ≢ REFUSED }
    ensures statuses { result ≤ MEMORY }
    ensures unwritten { result ≢ DONE → result ≢ DEVICE → O.written out.new ≡ O.written out.old }
    ensures unfailed { result ≡ DONE → O.failed out.new ≡ O.failed out.old }
    ensures quiet { result ≡ DONE → err.new ≡ err.old }
{
    match stop {
        Stop::Display(text) => show(text.as_str(), out, err),
        Stop::Usage(line) => finish(Err(CommandFault::Usage(*line)), err),
        Stop::OutOfMemory => finish(Err(CommandFault::Tool(ToolFault::OutOfMemory)), err),
    }
}

/// Writes a text that the words ask for.
fn show<O: Sink, E: Sink>(text: &str, out: &mut O, err: &mut E) -> u8
    ensures whole { result ≡ DONE → Adds text.now (O.written out.old) (O.written out.new) }
    ensures front { result ≢ DONE → AddsFront text.now (O.written out.old) (O.written out.new) }
    ensures failed { result ≢ DONE → HasFailed (O.failed out.old) (O.failed out.new) }
    ensures told { result ≢ DONE →
        TellsStatus result (E.written err.old) (E.written err.new) (E.failed err.old)
        (E.failed err.new) }
    ensures status { result ≢ DONE → result ≡ DEVICE }
    ensures unfailed { result ≡ DONE → O.failed out.new ≡ O.failed out.old }
    ensures quiet { result ≡ DONE → err.new ≡ err.old }
{
    match put_all(out, text.as_bytes()) {
        Ok(()) => DONE,
        Err(PutFault) => finish(Err(CommandFault::Put), err),
    }
}
