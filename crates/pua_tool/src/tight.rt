//! The text of a tightened script.

ghost use Rattle.std.specs.Prelude.{◌≡◌, ◌≢◌, Err, IfErr, IfOk, Ok};
ghost use Rattle.pua_tool.specs.Answers.{AnswersTo};
ghost use Rattle.pua_tool.specs.Texts.{choice_of};
ghost use Rattle.pua_tool.specs.TightTexts.{tight_text};

use crate::fault::{ToolFault, WriteFault};
use crate::objects::put_bytes;
use crate::script::read_table;
use crate::table::TableChoice;
use pua_io::Sink;
use std::alloc::Global;

/// Writes a script without the promises and letters that none of its answers needs. From the last
/// line to the first, and in a line in the order of keywords and of the letters r, w, x, c, each is
/// left out without which every line is answered as before; of lines that are answered `ok` alone,
/// and of promises those that some call asks for, but `error`. All other bytes of the script stay,
/// and where nothing is left of an argument it is `=`. Which calls there are is said by the rules
/// that are chosen, and what a call needs by the table of calls.
///
/// The first that holds of `Table`, `Listing` and `Script` is answered before anything is written.
/// So is `OutOfMemory`, wherever a growth was refused. `Put` is answered only where a put failed in
/// this call, and a front of the text is then written.
pub fn tight_to<S: Sink>(
    alloc: Global,
    tree_bytes: &[u8],
    script_bytes: &[u8],
    table: TableChoice<'_>,
    sink: &mut S,
) -> Result<(), WriteFault>
    ensures text { AnswersTo S.written S.failed
        (tight_text (choice_of table.entry) tree_bytes.now script_bytes.now)
        result sink.old sink.new }
{
    let text = text_of(alloc, tree_bytes, script_bytes, table)?;
    put_bytes(text.as_slice(), sink)
}

/// The tightened script, or the first fault: the table's, the listing's, or the script's.
/// `OutOfMemory` where a growth was refused.
fn text_of(
    alloc: Global,
    tree_bytes: &[u8],
    script_bytes: &[u8],
    table: TableChoice<'_>,
) -> Result<Vec<u8>, ToolFault>
    ensures done { IfOk result (λ text. tight_text (choice_of table.entry) tree_bytes.now
        script_bytes.now ≡ Ok text.items) }
    ensures refused { IfErr result (λ fault. fault ≢ ToolFault.OutOfMemory →
        (tight_text (choice_of table.entry) tree_bytes.now script_bytes.now ≡ Err fault)) }
{
    let rules = table.rules;
    let table = read_table(alloc, table)?;
    Ok(pua_tight::tight_text(alloc, tree_bytes, script_bytes, rules, &table)?)
}
