//! The text of a run with reasons.

ghost use Rattle.std.specs.Prelude.{◌≡◌, Ok, IfOk, string_bytes};
ghost use Rattle.pua_calls.specs.declared.rules.Rules.{Rules};
ghost use Rattle.pua_script.specs.Scripts.{script_by};
ghost use Rattle.pua_tool.specs.Answers.{AnswersTo};
ghost use Rattle.pua_tool.specs.Texts.{choice_of};
ghost use Rattle.pua_tool.specs.TwoWorlds.{IsTwoWorlds, as_served};
ghost use Rattle.pua_tool.specs.WhyTexts.{reason_lines, run_why_text};

use crate::fault::WriteFault;
use crate::objects::put_text;
use crate::table::TableChoice;
use crate::two_worlds::{TwoWorlds, two_worlds};
use pua_io::Sink;
use pua_since::reason_text;
use pua_tree::OutOfMemory;
use std::alloc::Global;

/// Writes the text of a run with reasons: what [`run_by`](crate::run_by) writes, and in each line
/// whose answer is not `ok` after it a blank and the reason, and then ` since line M`, if it was
/// not so from the start: before line M of the script the same request would have had another
/// reason, after it and after each later line before this one it would have had this one. A process
/// asked by its parent before the fork that made it. What a promise opened is told as
/// [`run_to`](crate::run_to) tells it.
///
/// The first that holds of `Table`, `Listing` and `Script` is answered before anything is written.
/// So is `OutOfMemory`, wherever a growth was refused. `Put` is answered only where a put failed in
/// this call, and a front of the text is then written.
pub fn run_why_to<S: Sink>(
    alloc: Global,
    tree_bytes: &[u8],
    script_bytes: &[u8],
    table: TableChoice<'_>,
    sink: &mut S,
) -> Result<(), WriteFault>
    ensures text { AnswersTo S.written S.failed
        (run_why_text (choice_of table.entry) tree_bytes.now script_bytes.now)
        result sink.old sink.new }
{
    let mut worlds = two_worlds(alloc, tree_bytes, script_bytes, table)?;
    let text = text_of(alloc, script_bytes, &mut worlds);
    worlds.release();
    put_text(text?.as_str(), sink)
}

/// The lines of a script that was read from these bytes, with reasons.
fn text_of(
    alloc: Global,
    script_bytes: &[u8],
    worlds: &mut TwoWorlds,
) -> Result<String, OutOfMemory>
    ensures { IfOk result (λ text. (rules : Rules) →
        script_by rules script_bytes.now ≡ Ok worlds.old.script → IsTwoWorlds worlds.old →
        string_bytes text ≡ reason_lines (as_served worlds.old)) }
{
    let (requests, answers) = (worlds.script.requests(), worlds.answers.as_slice());
    reason_text(alloc, &mut worlds.before, script_bytes, requests, answers)
}
