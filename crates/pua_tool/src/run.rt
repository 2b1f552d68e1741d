//! The text of a run.

ghost use Rattle.std.specs.Prelude.{◌≡◌, ◌≢◌, Ok, Err, IfErr, IfOk, string_bytes};
ghost use Rattle.pua_tool.specs.Answers.{AnswersTo};
ghost use Rattle.pua_tool.specs.Texts.{by_profile, choice_of, given_bytes, run_text};

use crate::fault::{ToolFault, WriteFault};
use crate::objects::put_text;
use crate::script::replay_script;
use crate::table::TableChoice;
use pua_calls::Rules;
use pua_io::Sink;
use pua_texts::answer_text;
use std::alloc::Global;

/// Writes the text of a run by the standard rules, where a text with rows may stand in the place
/// of some. It answers what `run_by` does.
pub fn run_to<S: Sink>(
    alloc: Global,
    tree_bytes: &[u8],
    script_bytes: &[u8],
    table: Option<&[u8]>,
    sink: &mut S,
) -> Result<(), WriteFault>
    ensures text { AnswersTo S.written S.failed
        (run_text (by_profile (given_bytes table.entry)) tree_bytes.now script_bytes.now)
        result sink.old sink.new }
{
    let choice = TableChoice {
        rules: Rules::Standard,
        rows: table,
    };
    run_by(alloc, tree_bytes, script_bytes, choice, sink)
}

/// Writes the text of a run: for each line of the script its number and what it was answered, where
/// all lines are served one after another over the tree of the listing. What a call needs is said
/// by the table of calls that is chosen. By OpenBSD's rules ` by PROMISE` stands behind an `ok`
/// where the process is refused the call but for this promise, which opens the path by itself.
///
/// The first that holds of `Table`, `Listing` and `Script` is answered before anything is written.
/// So is `OutOfMemory`, wherever a growth was refused. `Put` is answered only where a put failed in
/// this call, and a front of the text is then written.
pub fn run_by<S: Sink>(
    alloc: Global,
    tree_bytes: &[u8],
    script_bytes: &[u8],
    table: TableChoice<'_>,
    sink: &mut S,
) -> Result<(), WriteFault>
    ensures text { AnswersTo S.written S.failed
        (run_text (choice_of table.entry) tree_bytes.now script_bytes.now)
        result sink.old sink.new }
{
    let text = text_of(alloc, tree_bytes, script_bytes, table)?;
    put_text(text.as_str(), sink)
}

/// The text of a run, or the first fault: the table's, the listing's, or the script's.
/// `OutOfMemory` where a growth was refused.
fn text_of(
    alloc: Global,
    tree_bytes: &[u8],
    script_bytes: &[u8],
    table: TableChoice<'_>,
) -> Result<String, ToolFault>
    ensures done { IfOk result (λ text. run_text (choice_of table.entry) tree_bytes.now
        script_bytes.now ≡ Ok (string_bytes text)) }
    ensures refused { IfErr result (λ fault. fault ≢ ToolFault.OutOfMemory →
        (run_text (choice_of table.entry) tree_bytes.now script_bytes.now ≡ Err fault)) }
{
    let replay = replay_script(alloc, tree_bytes, script_bytes, table)?;
    let text = answer_text(alloc, replay.answers.as_slice());
    replay.release();
    Ok(text?)
}
