//! The text of the list for ever of a process.

ghost use Rattle.pua_tool.specs.Begun.{as_replayed};
ghost use Rattle.pua_tool.specs.Answers.{AnswersTo};
ghost use Rattle.pua_tool.specs.EverTexts.{ever_after, ever_text};
ghost use Rattle.pua_tool.specs.Texts.{choice_of};

use crate::ever_fault::fault_of;
use crate::fault::ToolFault;
use crate::fault::WriteFault::{self, NoText};
use crate::objects::put_lists;
use crate::script::{Replay, replay_script};
use crate::table::TableChoice;
use pua_calls::Rules;
use pua_ever::{bounded_exec, list_lasting};
use pua_io::Sink;
use pua_texts::{answer_text, begin_ever};
use std::alloc::Global;

/// Writes the list for ever of a process.
#[tactic(auto, unfolding(crate::specs::EverTexts::ever_text))]
pub(crate) fn ever_to<S: Sink>(
    alloc: Global,
    tree_bytes: &[u8],
    script_bytes: &[u8],
    table: TableChoice<'_>,
    process: u32,
    sink: &mut S,
) -> Result<(), WriteFault>
    ensures text { AnswersTo S.written S.failed
        (ever_text (choice_of table.entry) tree_bytes.now script_bytes.now process)
        result sink.old sink.new }
{
    let replay = replay_script(alloc, tree_bytes, script_bytes, table)?;
    let written = list_to(alloc, &replay, table.rules, process, sink);
    replay.release();
    written
}

/// Writes the answers of a script, and then the list for ever of the process with this number where
/// the script ends. The list goes by the table with tmppath.
fn list_to<S: Sink>(
    alloc: Global,
    replay: &Replay,
    rules: Rules,
    number: u32,
    sink: &mut S,
) -> Result<(), WriteFault>
    ensures { AnswersTo S.written S.failed (ever_after rules (as_replayed replay.now) number)
        result sink.old sink.new }
{
    let world = &replay.world;
    let Some(process) = world.process(number) else {
        return Err(NoText(ToolFault::NoProcess));
    };
    let tree = world.tree();
    let wide = world.table().with_tmppath();
    let both = bounded_exec(alloc, process, &wide)?;
    let list = match list_lasting(alloc, tree, process, both.as_ref(), &wide) {
        Ok(list) => list,
        Err(fault) => return Err(NoText(fault_of(number, fault))),
    };
    let front = answer_text(alloc, replay.answers.as_slice())?;
    let lists = begin_ever(alloc, tree, rules, number, process, &list)?;
    put_lists(alloc, tree, front.as_str(), lists, sink)
}
