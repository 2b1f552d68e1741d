//! The text of what several processes can ever touch together.

ghost use Rattle.std.specs.Prelude.{◌≡◌, ◌∷◌, ◌++◌, None, Some, Ok, IfOk};
ghost use Rattle.pua_calls.specs.TmpTable.{tmp_table};
ghost use Rattle.pua_texts.specs.Members.{named_by};
ghost use Rattle.pua_texts.specs.TogetherLines.{living, one_for, together_list};
ghost use Rattle.pua_tool.specs.Answers.{AnswersTo};
ghost use Rattle.pua_tool.specs.Begun.{as_replayed};
ghost use Rattle.pua_tool.specs.Texts.{choice_of};
ghost use Rattle.pua_tool.specs.TogetherTexts.{first_refused, together_after, together_of};
ghost use Rattle.pua_tool.specs.TogetherTexts.{together_text};

use crate::acting::{check_members, check_veils, living_of, members_of};
use crate::ever_fault::fault_of;
use crate::fault::WriteFault::{self, NoText};
use crate::objects::put_lists;
use crate::script::{ProgramTree, Replay, replay_script};
use crate::table::TableChoice;
use pua_calls::{CallTable, Rules};
use pua_ever::{bounded_exec, join, list_lasting};
use pua_io::Sink;
use pua_policy::Process;
use pua_script::World;
use pua_texts::{Joined, Member, answer_text, begin_together};
use pua_tree::OutOfMemory;
use pua_words::Processes;
use std::alloc::Global;

/// Writes the list for ever of several processes together, of those of some numbers, in their
/// order, or of all that were ever made.
#[tactic(auto, unfolding(crate::specs::TogetherTexts::together_text))]
pub(crate) fn together_to<S: Sink>(
    alloc: Global,
    tree_bytes: &[u8],
    script_bytes: &[u8],
    table: TableChoice<'_>,
    whose: &Processes,
    sink: &mut S,
) -> Result<(), WriteFault>
    ensures text { AnswersTo S.written S.failed
        (together_text (choice_of table.entry) tree_bytes.now script_bytes.now whose.now)
        result sink.old sink.new }
{
    let replay = replay_script(alloc, tree_bytes, script_bytes, table)?;
    let written = members_to(alloc, &replay, table.rules, whose, sink);
    replay.release();
    written
}

/// Writes the answers of a script, and then the list of the processes that are asked for where the
/// script ends.
fn members_to<S: Sink>(
    alloc: Global,
    replay: &Replay,
    rules: Rules,
    whose: &Processes,
    sink: &mut S,
) -> Result<(), WriteFault>
    ensures { AnswersTo S.written S.failed
        (together_after rules (as_replayed replay.now) whose.now) result sink.old sink.new }
{
    let members = members_of(alloc, &replay.world, whose)?;
    list_to(alloc, replay, rules, members.as_slice(), sink)
}

/// Writes the answers of a script, and then the list of these processes where the script ends.
fn list_to<S: Sink>(
    alloc: Global,
    replay: &Replay,
    rules: Rules,
    members: &[Member<'_>],
    sink: &mut S,
) -> Result<(), WriteFault>
    ensures { AnswersTo S.written S.failed
        (together_of rules (as_replayed replay.now) (named_by members.now))
        result sink.old sink.new }
{
    check_members(members, replay.world.table())?;
    let living = living_of(alloc, members)?;
    check_veils(alloc, living.as_slice())?;
    let front = answer_text(alloc, replay.answers.as_slice())?;
    let front = front.as_str();
    match living.as_slice().split_first() {
        Some((first, more)) => {
            joint_to(
                alloc,
                &replay.world,
                rules,
                members,
                first,
                more,
                front,
                sink,
            )
        }
        None => {
            let tree = replay.world.tree();
            let lists = begin_together(alloc, tree, rules, members, None)?;
            put_lists(alloc, tree, front, lists, sink)
        }
    }
}

/// Writes the front of a text, and then the list of these processes, of which the first that lives
/// and the others that do are given. The list goes by the table with tmppath.
fn joint_to<S: Sink>(
    alloc: Global,
    world: &World<ProgramTree>,
    rules: Rules,
    members: &[Member<'_>],
    first: &Member<'_>,
    more: &[Member<'_>],
    front: &str,
    sink: &mut S,
) -> Result<(), WriteFault>
    ensures { named_by (first.now ∷ more.now) ≡ living (named_by members.now) →
        first_refused world.now.table (named_by members.now) ≡ None →
        AnswersTo S.written S.failed (Ok (front.now
        ++ together_list rules (tmp_table world.now.table) world.now.tree
        (named_by members.now)))
        result sink.old sink.new }
{
    let tree = world.tree();
    let wide = world.table().with_tmppath();
    let one = join_all(alloc, first, more, &wide)?;
    let both = bounded_exec(alloc, &one, &wide)?;
    let list = match list_lasting(alloc, tree, &one, both.as_ref(), &wide) {
        Ok(list) => list,
        Err(fault) => return Err(NoText(fault_of(first.number, fault))),
    };
    let joint = Some(Joined {
        one: &one,
        list: &list,
    });
    let lists = begin_together(alloc, tree, rules, members, joint)?;
    put_lists(alloc, tree, front, lists, sink)
}

/// Makes the process that stands for these. The only error is that a growth was refused.
fn join_all(
    alloc: Global,
    first: &Member<'_>,
    more: &[Member<'_>],
    table: &CallTable,
) -> Result<Process, OutOfMemory>
    ensures { IfOk result (λ one.
        one_for table.now (named_by (first.now ∷ more.now)) ≡ Some one) }
{
    let mut others = Vec::new(alloc);
    for member in more {
        others.push(member.process)?;
    }
    join(alloc, first.process, others.as_slice(), table)
}
