//! What a command asks for, done: its inputs are taken, and its text is written.

ghost use Rattle.std.specs.Prelude.{◌≡◌, ◌≢◌, ◌≤◌, ◌⊎◌, ◌∷◌, [], ℕ, List, Result, OnOk, IfOk};
ghost use Rattle.std.specs.Prelude.{IfErr, option_map};
ghost use Rattle.pua_io.specs.Held.{AsksFor, AsksForFront, Holds};
ghost use Rattle.pua_tool.specs.Answers.{AnswersTo};
ghost use Rattle.pua_tool.specs.Performed.{HoldsTable, IsCutShort, IsDone, IsRefused, IsStopped};
ghost use Rattle.pua_tool.specs.Performed.{IsTableUnheld, IsUnheld, IsUntaken, LacksInput};
ghost use Rattle.pua_tool.specs.Performed.{IsTextAsked, IsTextAt, inputs_of, table_names};
ghost use Rattle.pua_tool.specs.Statuses.{fault_status};
ghost use Rattle.pua_tool.specs.Texts.{given_bytes};
ghost use Rattle.pua_tool.specs.Advised.{IsToldOf};
ghost use Rattle.pua_tool.specs.Ended.{IsHalted};
ghost use Rattle.pua_tool.specs.declared.outcome.CommandFault.{CommandFault};

use crate::advised::{Halt, end};
use crate::audit::audit_by;
use crate::fault::ToolFault;
use crate::fault::WriteFault::{self, NoText};
use crate::front::script_at;
use crate::how::how_to;
use crate::job::job_of;
use crate::lists::list_to;
use crate::outcome::CommandFault;
use crate::run::run_by;
use crate::run_why::run_why_to;
use crate::status::{DEVICE, DONE, MEMORY, REFUSED, USAGE};
use crate::table::TableChoice;
use crate::tight::tight_to;
use crate::tight_why::tight_why_to;
use crate::tree::tree_to;
use crate::why::why_to;
use pua_calls::Rules;
use pua_io::{InputFault, Inputs, Sink};
use pua_words::{Command, Text};
use std::alloc::Global;

/// Does what a command asks for: the text of a run, of an audit, of a list of objects, of now or
/// for ever, of a way, of a tightened script or of a tree goes to `out`, and of a fault a line or
/// two go to `err`, which are dropped where they can't be written. The inputs are taken, first the
/// tree's, then the script's, then the table's where one is named, before any of them is read as a
/// listing, a script or a table; none after one that can't be taken, and no others. Where the
/// command names a line of the script, the text is that of the script's lines up to this one;
/// [`REFUSED`] also where there is no such line.
///
/// It answers the status. [`DONE`]: the text that is asked for, of the bytes that the inputs hold
/// under the command's names, was written, and nothing to `err`; for `how` the text is one of
/// several allowed ones, since no contract says which way is found. [`REFUSED`]: these bytes, or
/// what the audit or the way is asked for, are refused. [`DEVICE`]: an input is missing, and
/// nothing was written; or a put failed, and a front of the text was written. [`MEMORY`]: a growth
/// of memory was refused. After [`REFUSED`] and [`MEMORY`] nothing was written. After each but
/// [`DONE`] the line of what stopped it went to `err`: all of it, or a front of it before a put
/// that failed. Of an input that is refused this is the line with what is wrong, and with which
/// line, candidate or call, if with one. After that line of a script, or of a request that is
/// asked about, a second one says by OpenBSD's rules what is wrong with it
/// ([`advise`](pua_advice::advise)).
pub fn perform<I: Inputs, O: Sink, E: Sink>(
    alloc: Global,
    command: &Command<'_>,
    inputs: &mut I,
    out: &mut O,
    err: &mut E,
) -> u8
    ensures done { result ≡ DONE →
        IsDone (I.holds inputs.old) command.now (O.written out.old) (O.written out.new) }
    ensures unfailed { result ≡ DONE → O.failed out.new ≡ O.failed out.old }
    ensures quiet { result ≡ DONE → err.new ≡ err.old }
    ensures refused { result ≡ REFUSED → IsRefused (I.holds inputs.old) command.now }
    ensures device { result ≡ DEVICE →
        (LacksInput (I.holds inputs.old) command.now × (O.written out.new ≡ O.written out.old))
        ⊎ IsCutShort (I.holds inputs.old) command.now (O.written out.old) (O.written out.new)
        (O.failed out.old) (O.failed out.new) }
    ensures unwritten { result ≢ DONE → result ≢ DEVICE → O.written out.new ≡ O.written out.old }
    ensures told { result ≢ DONE → (fault : CommandFault) × (fault_status fault ≡ result)
        × IsStopped (I.holds inputs.old) command.now fault
        (O.written out.old) (O.written out.new) (O.failed out.old) (O.failed out.new)
        × IsToldOf (I.holds inputs.old) command.now fault
        (E.written err.old) (E.written err.new) (E.failed err.old) (E.failed err.new) }
    ensures statuses { result ≤ MEMORY }
    ensures words { result ≢ USAGE }
    ensures inputs { result ≡ DONE →
        AsksFor (I.asked inputs.old) (I.asked inputs.new) (inputs_of command.now) }
    ensures asks { AsksForFront (I.asked inputs.old) (I.asked inputs.new) (inputs_of command.now) }
{
    match serve(alloc, command, inputs, out) {
        Ok(()) => DONE,
        Err(halt) => end(alloc, command, halt, err),
    }
}

/// Takes the inputs, and writes the text that is asked for.
fn serve<'c, I: Inputs, O: Sink>(
    alloc: Global,
    command: &Command<'c>,
    inputs: &mut I,
    out: &mut O,
) -> Result<(), Halt<'c>>
    ensures done { OnOk result
        (IsDone (I.holds inputs.old) command.now (O.written out.old) (O.written out.new)) }
    ensures unfailed { OnOk result (O.failed out.new ≡ O.failed out.old) }
    ensures stopped { IfErr result (λ halt. IsHalted (I.holds inputs.old) command.now halt
        (O.written out.old) (O.written out.new) (O.failed out.old) (O.failed out.new)) }
    ensures inputs { OnOk result
        (AsksFor (I.asked inputs.old) (I.asked inputs.new) (inputs_of command.now)) }
    ensures asks { AsksForFront (I.asked inputs.old) (I.asked inputs.new) (inputs_of command.now) }
{
    let taken = match take_all(alloc, command, inputs) {
        Ok(taken) => taken,
        Err(fault) => return Err(Halt::Untaken(fault)),
    };
    match write_at(alloc, command, &taken, out) {
        Ok(()) => Ok(()),
        Err(NoText(fault)) => Err(Halt::Unwritten(fault, taken.script)),
        Err(WriteFault::Put) => Err(Halt::Put),
    }
}

/// The bytes of the inputs.
#[derive(Drop)]
pub(crate) struct Taken {
    tree: Vec<u8>,
    script: Vec<u8>,
    table: Option<Vec<u8>>,
}

/// Takes the inputs, the tree's first and the table's last.
fn take_all<'c, I: Inputs>(
    alloc: Global,
    command: &Command<'c>,
    inputs: &mut I,
) -> Result<Taken, CommandFault<'c>>
    ensures tree { IfOk result (λ taken.
        Holds (I.holds inputs.old) command.now.tree.now taken.tree.items) }
    ensures script { IfOk result (λ taken.
        Holds (I.holds inputs.old) command.now.script.now taken.script.items) }
    ensures table { IfOk result (λ taken. HoldsTable (I.holds inputs.old) command.now.table
        (option_map (λ bytes. bytes.items) taken.table)) }
    ensures untaken { IfErr result (λ fault. IsUntaken (I.holds inputs.old) command.now fault) }
    ensures inputs { OnOk result
        (AsksFor (I.asked inputs.old) (I.asked inputs.new) (inputs_of command.now)) }
    ensures asks { AsksForFront (I.asked inputs.old) (I.asked inputs.new) (inputs_of command.now) }
{
    let tree = take_named(alloc, command.tree, inputs)?;
    let script = take_named(alloc, command.script, inputs)?;
    let table = take_table(alloc, command.table, inputs)?;
    Ok(Taken {
        tree,
        script,
        table,
    })
}

/// Takes the input of the table's name, where one is named.
fn take_table<'c, I: Inputs>(
    alloc: Global,
    name: Option<&'c str>,
    inputs: &mut I,
) -> Result<Option<Vec<u8>>, CommandFault<'c>>
    ensures held { IfOk result (λ bytes. HoldsTable (I.holds inputs.old) name.entry (option_map
        (λ bytes. bytes.items) bytes)) }
    ensures unheld { IfErr result (λ fault. IsTableUnheld (I.holds inputs.old)
        (given_bytes name.entry) fault) }
    ensures asks { AsksFor (I.asked inputs.old) (I.asked inputs.new) (table_names name.entry) }
{
    match name {
        Some(name) => Ok(Some(take_named(alloc, name, inputs)?)),
        None => Ok(None),
    }
}

/// Takes the input of this name.
fn take_named<'c, I: Inputs>(
    alloc: Global,
    name: &'c str,
    inputs: &mut I,
) -> Result<Vec<u8>, CommandFault<'c>>
    ensures held { IfOk result (λ bytes. Holds (I.holds inputs.old) name.now bytes.items) }
    ensures unheld { IfErr result (λ fault. IsUnheld (I.holds inputs.old) name.now fault) }
    ensures unchanged { I.holds inputs.new ≡ I.holds inputs.old }
    ensures asks { AsksFor (I.asked inputs.old) (I.asked inputs.new) (name.now ∷ []) }
{
    match inputs.take(alloc, name) {
        Ok(bytes) => Ok(bytes),
        Err(InputFault::Unreadable) => Err(CommandFault::Unreadable(name)),
        Err(InputFault::OutOfMemory) => Err(CommandFault::Tool(ToolFault::OutOfMemory)),
    }
}

/// Writes the text that is asked for, of the lines of the script up to the one that is named.
fn write_at<O: Sink>(
    alloc: Global,
    command: &Command<'_>,
    taken: &Taken,
    out: &mut O,
) -> Result<(), WriteFault>
    ensures { (answer : Result (List ℕ) ToolFault)
        × IsTextAt command.now.at command.now.text (record {
          rules = command.now.rules;
          rows = option_map (λ bytes. bytes.items) taken.now.table;
        }) taken.now.tree.items taken.now.script.items answer
        × AnswersTo O.written O.failed answer result out.old out.new }
{
    let script = script_at(taken.script.as_slice(), command.at)?;
    write_text(alloc, command.rules, taken, script, &command.text, out)
}

/// Writes the text that is asked for, by these rules, of these bytes of a listing, a script and a
/// table.
fn write_text<O: Sink>(
    alloc: Global,
    rules: Rules,
    taken: &Taken,
    script: &[u8],
    text: &Text<'_>,
    out: &mut O,
) -> Result<(), WriteFault>
    ensures { (answer : Result (List ℕ) ToolFault) × IsTextAsked text.now (record {
      rules = rules;
      rows = option_map (λ bytes. bytes.items) taken.now.table;
    }) taken.now.tree.items script.now answer
        × AnswersTo O.written O.failed answer result out.old out.new }
{
    let tree = taken.tree.as_slice();
    let rows = taken.table.as_ref().map(|bytes| bytes.as_slice());
    let table = TableChoice { rules, rows };
    match text {
        Text::Run => run_by(alloc, tree, script, table, out),
        Text::RunWhy => run_why_to(alloc, tree, script, table, out),
        Text::Why(words) => {
            let fields = words.fields.as_slice();
            why_to(alloc, tree, script, table, words.process, fields, out)
        }
        Text::Audit(words) => audit_by(alloc, tree, script, rules, &job_of(words, rows), out),
        Text::List(words) => list_to(alloc, tree, script, table, words, out),
        Text::How(words) => how_to(alloc, tree, script, table, words, out),
        Text::Tree => tree_to(alloc, tree, script, table, out),
        Text::Tight => tight_to(alloc, tree, script, table, out),
        Text::TightWhy => tight_why_to(alloc, tree, script, table, out),
    }
}
