//! The text of the lists of processes.

ghost use Rattle.std.specs.Prelude.{◌≡◌, ◌≢◌, ◌++◌, ℕ, List, Option, Ok, Err, IfOk, IfErr, is_some};
ghost use Rattle.std.specs.List.{list_all};
ghost use Rattle.pua_script.specs.Replay.{kept_at};
ghost use Rattle.pua_script.specs.Worlds.{world_of};
ghost use Rattle.pua_texts.specs.ListLines.{lists_text};
ghost use Rattle.pua_texts.specs.Tells.{Tells};
ghost use Rattle.pua_tool.specs.ObjectTexts.{lists_asked, numbers_asked, numbers_made, objects_text};
ghost use Rattle.pua_tool.specs.Begun.{as_replayed};
ghost use Rattle.pua_tool.specs.Answers.{Answers, AnswersTo};
ghost use Rattle.pua_tool.specs.Texts.{choice_of};

use crate::fault::ToolFault;
use crate::fault::WriteFault::{self, NoText};
use crate::script::{Replay, replay_script};
use crate::table::TableChoice;
use pua_calls::Rules;
use pua_io::{Sink, put_all};
use pua_script::World;
use pua_texts::{ProcessList, TextFault, answer_text, begin_objects, write_lists};
use pua_tree::FileTree;
use pua_words::Processes;
use std::alloc::Global;
use std::collections::VecDeque;

/// Writes the lists of processes, of one, of several, or of all that were ever made, one after
/// another.
#[tactic(auto, unfolding(crate::specs::ObjectTexts::objects_text))]
pub(crate) fn objects_to<S: Sink>(
    alloc: Global,
    tree_bytes: &[u8],
    script_bytes: &[u8],
    table: TableChoice<'_>,
    whose: &Processes,
    sink: &mut S,
) -> Result<(), WriteFault>
    ensures text { AnswersTo S.written S.failed
        (objects_text (choice_of table.entry) tree_bytes.now script_bytes.now whose.now)
        result sink.old sink.new }
{
    let replay = replay_script(alloc, tree_bytes, script_bytes, table)?;
    let written = asked_to(alloc, &replay, table.rules, whose, sink);
    replay.release();
    written
}

/// Writes the answers of a script, and then the lists of the processes that are asked for, where
/// the script ends.
fn asked_to<S: Sink>(
    alloc: Global,
    replay: &Replay,
    rules: Rules,
    whose: &Processes,
    sink: &mut S,
) -> Result<(), WriteFault>
    ensures { AnswersTo S.written S.failed
        (lists_asked rules (as_replayed replay.now) whose.now) result sink.old sink.new }
{
    let world = &replay.world;
    let numbers = numbers_of(alloc, world, whose)?;
    let front = answer_text(alloc, replay.answers.as_slice())?;
    let lists = begin_objects(alloc, world, rules, numbers.as_slice())?;
    put_lists(alloc, world.tree(), front.as_str(), lists, sink)
}

/// The numbers of the processes that are asked for: `NoProcess` where one that is named was never
/// made. The only other fault is `OutOfMemory`, where a growth was refused.
pub(crate) fn numbers_of<T: FileTree>(
    alloc: Global,
    world: &World<T>,
    whose: &Processes,
) -> Result<Vec<u32>, ToolFault>
    ensures asked { IfOk result (λ numbers.
        numbers_asked (world_of world.now) whose.now ≡ Ok numbers.items) }
    ensures refused { IfErr result (λ fault. fault ≢ ToolFault.OutOfMemory →
        numbers_asked (world_of world.now) whose.now ≡ Err fault) }
{
    match whose {
        Processes::One(number) => numbers_made(alloc, world, &[*number]),
        Processes::Named(numbers) => numbers_made(alloc, world, numbers.as_slice()),
        Processes::All => Ok(world.numbers(alloc)?),
    }
}

/// These numbers, where all were made.
fn numbers_made<T: FileTree>(
    alloc: Global,
    world: &World<T>,
    numbers: &[u32],
) -> Result<Vec<u32>, ToolFault>
    ensures asked { IfOk result (λ made.
        numbers_made (world_of world.now) numbers.now ≡ Ok made.items) }
    ensures refused { IfErr result (λ fault. fault ≢ ToolFault.OutOfMemory →
        numbers_made (world_of world.now) numbers.now ≡ Err fault) }
{
    if !are_made(world, numbers) {
        return Err(ToolFault::NoProcess);
    }
    let mut made = Vec::new(alloc);
    made.extend_from_slice(numbers)?;
    Ok(made)
}

/// Whether the processes with these numbers were all made.
fn are_made<T: FileTree>(world: &World<T>, numbers: &[u32]) -> bool
    ensures { result ≡ list_all (λ n. is_some (kept_at (world_of world.now) n)) numbers.now }
{
    numbers
        .iter()
        .all(|number| world.process(*number).is_some())
}

/// What the writing of a text left, as the tool reports it.
pub(crate) fn told(written: Result<(), TextFault>) -> Result<(), WriteFault>
    ensures { (text : List ℕ) (a b : Option (List ℕ)) (n m : ℕ) → Tells text written a b n m →
        Answers (Ok text) result a b n m }
{
    match written {
        Ok(()) => Ok(()),
        Err(TextFault::Write) => Err(WriteFault::Put),
        Err(TextFault::OutOfMemory) => Err(NoText(ToolFault::OutOfMemory)),
    }
}

/// Puts the front of a text, and then lists, as the tool reports it.
pub(crate) fn put_lists<'t, T: FileTree, S: Sink>(
    alloc: Global,
    tree: &'t T,
    front: &str,
    lists: VecDeque<ProcessList<'t>>,
    sink: &mut S,
) -> Result<(), WriteFault>
    ensures { AnswersTo S.written S.failed
        (Ok (front.now ++ lists_text (T.content tree.now) lists.entry.items))
        result sink.old sink.new }
{
    put_behind(alloc, tree, front.as_bytes(), lists, sink)
}

/// Puts the bytes of a text's front, and then lists, as the tool reports it.
pub(crate) fn put_behind<'t, T: FileTree, S: Sink>(
    alloc: Global,
    tree: &'t T,
    front: &[u8],
    lists: VecDeque<ProcessList<'t>>,
    sink: &mut S,
) -> Result<(), WriteFault>
    ensures { AnswersTo S.written S.failed
        (Ok (front.now ++ lists_text (T.content tree.now) lists.entry.items))
        result sink.old sink.new }
{
    told(write_lists(alloc, tree, front, lists, sink))
}

/// Puts a text, as the tool reports it.
pub(crate) fn put_text<S: Sink>(text: &str, sink: &mut S) -> Result<(), WriteFault>
    ensures { AnswersTo S.written S.failed (Ok text.now) result sink.old sink.new }
{
    put_bytes(text.as_bytes(), sink)
}

/// Puts the bytes of a text, as the tool reports it.
pub(crate) fn put_bytes<S: Sink>(bytes: &[u8], sink: &mut S) -> Result<(), WriteFault>
    ensures { AnswersTo S.written S.failed (Ok bytes.now) result sink.old sink.new }
{
    Ok(put_all(sink, bytes)?)
}
