//! The listing of the tree that a script leaves.

ghost use Rattle.std.specs.Prelude.{◌≡◌, ◌≢◌, Err, IfErr, IfOk, Ok};
ghost use Rattle.pua_tool.specs.Answers.{AnswersTo};
ghost use Rattle.pua_tool.specs.Texts.{choice_of};
ghost use Rattle.pua_tool.specs.TreeTexts.{tree_text};

use crate::fault::{ToolFault, WriteFault};
use crate::objects::put_bytes;
use crate::script::replay_script;
use crate::table::TableChoice;
use pua_io::Sink;
use pua_listing::list_tree;
use std::alloc::Global;

/// Writes the listing of the tree that a script leaves: all lines are served one after another over
/// the tree of the listing that is given. What is written is read as the tree that is left, under
/// new numbers of nodes ([`crate::tree_text_law`]). Which calls there are is said by the rules that are chosen, and what a
/// call needs by the table of calls.
///
/// The first that holds of `Table`, `Listing`, `Script` and `TooManyNames` is answered before
/// anything is written. So is `OutOfMemory`, wherever a growth was refused. `Put` is answered only
/// where a put failed in this call, and a front of the text is then written.
pub fn tree_to<S: Sink>(
    alloc: Global,
    tree_bytes: &[u8],
    script_bytes: &[u8],
    table: TableChoice<'_>,
    sink: &mut S,
) -> Result<(), WriteFault>
    ensures text { AnswersTo S.written S.failed
        (tree_text (choice_of table.entry) tree_bytes.now script_bytes.now)
        result sink.old sink.new }
{
    let text = text_of(alloc, tree_bytes, script_bytes, table)?;
    put_bytes(text.as_slice(), sink)
}

/// The listing of the tree that a script leaves, or the first fault: the table's, the listing's,
/// the script's, or that the tree has more names than a listing has lines. `OutOfMemory` where a
/// growth was refused.
fn text_of(
    alloc: Global,
    tree_bytes: &[u8],
    script_bytes: &[u8],
    table: TableChoice<'_>,
) -> Result<Vec<u8>, ToolFault>
    ensures done { IfOk result (λ text. tree_text (choice_of table.entry) tree_bytes.now
        script_bytes.now ≡ Ok text.items) }
    ensures refused { IfErr result (λ fault. fault ≢ ToolFault.OutOfMemory →
        (tree_text (choice_of table.entry) tree_bytes.now script_bytes.now ≡ Err fault)) }
{
    let replay = replay_script(alloc, tree_bytes, script_bytes, table)?;
    let text = list_tree(alloc, replay.world.tree());
    replay.release();
    Ok(text?)
}
