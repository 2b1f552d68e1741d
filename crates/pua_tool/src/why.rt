//! The text of what decides one request.

ghost use Rattle.std.specs.Prelude.{◌≡◌, ◌≢◌, ◌++◌, ◌∷◌, Ok, Err, IfErr, IfOk, OnOk, map};
ghost use Rattle.std.specs.Prelude.{string_bytes};
ghost use Rattle.pua_script.specs.Requests.{Asked};
ghost use Rattle.pua_script.specs.Scripts.{request_by};
ghost use Rattle.pua_tool.specs.TwoWorlds.{IsTwoWorlds, as_served};
ghost use Rattle.pua_tool.specs.Answers.{AnswersTo};
ghost use Rattle.pua_tool.specs.Texts.{choice_of};
ghost use Rattle.pua_tool.specs.WhyTexts.{as_request, chain_lines, request_line};
ghost use Rattle.pua_tool.specs.WhyTexts.{why_text};

use crate::fault::{ToolFault, WriteFault};
use crate::objects::put_text;
use crate::table::TableChoice;
use crate::two_worlds::{TwoWorlds, two_worlds};
use pua_calls::Rules;
use pua_io::Sink;
use pua_script::{Request, ScriptFault, read_request_by};
use pua_since::chain_text;
use pua_tree::OutOfMemory;
use std::alloc::{AllocError, Global};
use std::fmt::Write;

/// Writes what decides a request of this process, given by the fields of a script's line after the
/// number, where the script has been served: a line for the promises that let it through, or for the
/// promise that opens it, for each link that its paths follow, for what they name and for the veil
/// that covers that, in the order of the checks and as far as it passes them; and as the last line
/// its answer, with the reason and since which line that is so, or with what opened it, as
/// [`run_why_to`](crate::run_why_to) would write it of the script's next line.
///
/// The first that holds of `Table`, `Listing`, `Script` and `Request` is answered before anything
/// is written. So is `OutOfMemory`, wherever a growth was refused. `Put` is answered only where a
/// put failed in this call, and a front of the text is then written.
#[tactic(auto, unfolding(crate::specs::WhyTexts::why_text))]
pub fn why_to<S: Sink>(
    alloc: Global,
    tree_bytes: &[u8],
    script_bytes: &[u8],
    table: TableChoice<'_>,
    process: u32,
    fields: &[&[u8]],
    sink: &mut S,
) -> Result<(), WriteFault>
    ensures text { AnswersTo S.written S.failed
        (why_text (choice_of table.entry) tree_bytes.now script_bytes.now process
        (map (λ field. field.now) fields.now)) result sink.old sink.new }
{
    let mut worlds = two_worlds(alloc, tree_bytes, script_bytes, table)?;
    let text = asked_text(alloc, &mut worlds, table.rules, process, fields);
    worlds.release();
    put_text(text?.as_str(), sink)
}

/// The lines of what the request passes after a script, or the fault of its fields. `OutOfMemory`
/// where a growth was refused.
fn asked_text(
    alloc: Global,
    worlds: &mut TwoWorlds,
    rules: Rules,
    process: u32,
    fields: &[&[u8]],
) -> Result<String, ToolFault>
    ensures done { IfOk result (λ text. IsTwoWorlds worlds.old → (ask : Asked)
        × (as_request (request_by rules 1 (request_line process
        (map (λ field. field.now) fields.now))) ≡ Ok ask) × (string_bytes text
        ≡ chain_lines (as_served worlds.old) ask)) }
    ensures refused { IfErr result (λ fault. fault ≢ ToolFault.OutOfMemory →
        as_request (request_by rules 1 (request_line process
        (map (λ field. field.now) fields.now))) ≡ Err fault) }
{
    let request = read_asked(alloc, rules, process, fields)?;
    Ok(text_of(alloc, worlds, &request)?)
}

/// The request of a process, by the fields after its number, which are read by these rules.
fn read_asked(
    alloc: Global,
    rules: Rules,
    process: u32,
    fields: &[&[u8]],
) -> Result<Request, ToolFault>
    ensures read { IfOk result (λ request. as_request (request_by rules 1 (request_line process
        (map (λ field. field.now) fields.now))) ≡ Ok request) }
    ensures refused { IfErr result (λ fault. fault ≢ ToolFault.OutOfMemory →
        as_request (request_by rules 1 (request_line process
        (map (λ field. field.now) fields.now))) ≡ Err fault) }
{
    let line = line_of(alloc, process, fields)?;
    match read_request_by(alloc, rules, 1, line.as_slice()) {
        Ok(request) => Ok(request),
        Err(ScriptFault::OutOfMemory) => Err(ToolFault::OutOfMemory),
        Err(fault) => Err(ToolFault::Request(fault)),
    }
}

/// The line of a script with this process and these fields after it. The only error is that a
/// growth was refused.
pub(crate) fn line_of(alloc: Global, process: u32, fields: &[&[u8]]) -> Result<Vec<u8>, AllocError>
    ensures { IfOk result (λ line. line.items ≡ request_line process
        (map (λ field. field.now) fields.now)) }
{
    let mut text = String::new(alloc);
    write!(text, "{process}")?;
    let mut line = Vec::new(alloc);
    line.extend_from_slice(text.as_bytes())?;
    for field in fields {
        push_field(&mut line, field)?;
    }
    Ok(line)
}

/// Adds a blank and a field.
fn push_field(line: &mut Vec<u8>, field: &[u8]) -> Result<(), AllocError>
    ensures { OnOk result (line.new.items ≡ line.old.items ++ 32 ∷ field.now) }
{
    line.push(b' ')?;
    line.extend_from_slice(field)
}

/// The lines of what a request passes after a script, and of its answer.
fn text_of(alloc: Global, worlds: &mut TwoWorlds, request: &Request) -> Result<String, OutOfMemory>
    ensures { IfOk result (λ text. IsTwoWorlds worlds.old →
        string_bytes text ≡ chain_lines (as_served worlds.old) request.now) }
{
    let (requests, answers) = (worlds.script.requests(), worlds.answers.as_slice());
    let (before, after) = (&mut worlds.before, &mut worlds.after);
    chain_text(alloc, before, after, requests, answers, request)
}
