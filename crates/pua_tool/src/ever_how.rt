//! The text of the list for ever of a process with the number of steps of ways.

ghost use Rattle.std.specs.Prelude.{ℕ, List, Ok, Result};
ghost use Rattle.pua_tool.specs.Answers.{AnswersTo};
ghost use Rattle.pua_tool.specs.EverHowTexts.{IsEverHowAfter, IsEverHowText};
ghost use Rattle.pua_tool.specs.RowColumns.{done_behind};
ghost use Rattle.pua_tool.specs.Texts.{choice_of, given_bytes};

use crate::below::keep_below;
use crate::columns::{Behind, columns_of};
use crate::ever_fault::fault_of;
use crate::fault::ToolFault;
use crate::fault::WriteFault::{self, NoText};
use crate::objects::put_lists;
use crate::script::replay_script;
use crate::table::TableChoice;
use pua_ever::{bounded_exec, list_lasting};
use pua_io::Sink;
use pua_texts::{answer_text, begin_ever_with};
use pua_tree::FileTree;
use std::alloc::Global;

/// Writes the list for ever of a process with the number of steps of ways, or its lines at or below
/// a path.
pub(crate) fn ever_how_to<S: Sink>(
    alloc: Global,
    tree_bytes: &[u8],
    script_bytes: &[u8],
    table: TableChoice<'_>,
    process: u32,
    path: Option<&[u8]>,
    sink: &mut S,
) -> Result<(), WriteFault>
    ensures text { (answer : Result (List ℕ) ToolFault)
        × IsEverHowText (choice_of table.entry) tree_bytes.now script_bytes.now process
        (given_bytes path.entry) answer
        × AnswersTo S.written S.failed answer result sink.old sink.new }
{
    let replay = replay_script(alloc, tree_bytes, script_bytes, table)?;
    let behind = Behind {
        replay: &replay,
        rules: table.rules,
        number: process,
    };
    let written = list_to(alloc, &behind, path, sink);
    replay.release();
    written
}

/// Writes the answers of a script, and then the list for ever of the process where the script ends,
/// or its lines at or below a path, with its columns. The list goes by the table with tmppath. Ways
/// are looked for to the calls of these lines alone.
fn list_to<S: Sink>(
    alloc: Global,
    behind: &Behind<'_>,
    path: Option<&[u8]>,
    sink: &mut S,
) -> Result<(), WriteFault>
    ensures { (answer : Result (List ℕ) ToolFault)
        × IsEverHowAfter behind.now.rules (done_behind behind.now) behind.now.number
        (given_bytes path.entry) answer
        × AnswersTo S.written S.failed answer result sink.old sink.new }
{
    let (number, world) = (behind.number, &behind.replay.world);
    let Some(process) = world.process(number) else {
        return Err(NoText(ToolFault::NoProcess));
    };
    let tree = world.tree();
    tree.known();
    let wide = world.table().with_tmppath();
    let both = bounded_exec(alloc, process, &wide)?;
    let list = match list_lasting(alloc, tree, process, both.as_ref(), &wide) {
        Ok(list) => list,
        Err(fault) => return Err(NoText(fault_of(number, fault))),
    };
    let list = keep_below(alloc, tree, process, path, list)?;
    let columns = columns_of(alloc, behind, process, list.rows.as_slice())?;
    let front = answer_text(alloc, behind.replay.answers.as_slice())?;
    let lists = begin_ever_with(alloc, tree, behind.rules, number, process, &list, columns)?;
    put_lists(alloc, tree, front.as_str(), lists, sink)
}
