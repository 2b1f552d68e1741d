//! The text of what processes can ever touch with the help of others.

ghost use Rattle.std.specs.Prelude.{◌≡◌, ◌++◌, ℕ, List, Result, None, Some};
ghost use Rattle.std.specs.Prelude.{IfOk, IfErr, OnOk, map};
ghost use Rattle.pua_policy.specs.States.{is_ended};
ghost use Rattle.pua_texts.specs.ListLines.{list_text};
ghost use Rattle.pua_texts.specs.Members.{named_by};
ghost use Rattle.pua_tool.specs.Answers.{AnswersTo};
ghost use Rattle.pua_tool.specs.Begun.{as_replayed};
ghost use Rattle.pua_tool.specs.BesideTexts.{AreBesideLists, IsBesideAfter, IsBesideBy};
ghost use Rattle.pua_tool.specs.BesideTexts.{IsBesideList, IsBesideOf, IsBesideText, OrMemory};
ghost use Rattle.pua_tool.specs.BesideTexts.{others_than};
ghost use Rattle.pua_tool.specs.Texts.{choice_of};
ghost use Rattle.pua_tool.specs.TogetherTexts.{first_refused};

use crate::acting::{check_members, members_of};
use crate::fault::{ToolFault, WriteFault};
use crate::helped::find_beside;
use crate::objects::put_lists;
use crate::script::{Replay, replay_script};
use crate::table::TableChoice;
use pua_calls::{CallTable, Rules};
use pua_io::Sink;
use pua_texts::{Helped, Member, ProcessList, answer_text, begin_beside};
use pua_tree::{FileTree, OutOfMemory};
use pua_words::Processes;
use std::alloc::Global;
use std::collections::VecDeque;

/// Writes the lists for ever of processes, one after another, each with the help of these others.
pub(crate) fn beside_to<S: Sink>(
    alloc: Global,
    tree_bytes: &[u8],
    script_bytes: &[u8],
    table: TableChoice<'_>,
    whose: &Processes,
    helping: &Processes,
    sink: &mut S,
) -> Result<(), WriteFault>
    ensures text { (answer : Result (List ℕ) ToolFault)
        × IsBesideText (choice_of table.entry) tree_bytes.now script_bytes.now
        whose.now helping.now answer
        × AnswersTo S.written S.failed answer result sink.old sink.new }
{
    let replay = replay_script(alloc, tree_bytes, script_bytes, table)?;
    let written = members_to(alloc, &replay, table.rules, whose, helping, sink);
    replay.release();
    written
}

/// Writes the answers of a script, and then the lists of the processes that are asked for where the
/// script ends.
fn members_to<S: Sink>(
    alloc: Global,
    replay: &Replay,
    rules: Rules,
    whose: &Processes,
    helping: &Processes,
    sink: &mut S,
) -> Result<(), WriteFault>
    ensures { (answer : Result (List ℕ) ToolFault)
        × OrMemory (IsBesideAfter rules (as_replayed replay.now) whose.now helping.now) answer
        × AnswersTo S.written S.failed answer result sink.old sink.new }
{
    let members = members_of(alloc, &replay.world, whose)?;
    let helpers = members_of(alloc, &replay.world, helping)?;
    lists_to(
        alloc,
        replay,
        rules,
        members.as_slice(),
        helpers.as_slice(),
        sink,
    )
}

/// Writes the answers of a script, and then the lists of these processes where the script ends,
/// each with the help of these others. The lists go by the table with tmppath.
fn lists_to<S: Sink>(
    alloc: Global,
    replay: &Replay,
    rules: Rules,
    members: &[Member<'_>],
    helpers: &[Member<'_>],
    sink: &mut S,
) -> Result<(), WriteFault>
    ensures { (answer : Result (List ℕ) ToolFault)
        × OrMemory (IsBesideOf rules (as_replayed replay.now) (named_by members.now)
        (named_by helpers.now)) answer
        × AnswersTo S.written S.failed answer result sink.old sink.new }
{
    let world = &replay.world;
    check_all(members, helpers, world.table())?;
    let tree = world.tree();
    let wide = world.table().with_tmppath();
    let lists = lists_of(alloc, tree, &wide, rules, members, helpers)?;
    let front = answer_text(alloc, replay.answers.as_slice())?;
    put_lists(alloc, tree, front.as_str(), lists, sink)
}

/// Answers why there is no list of the first of these processes, or else of these others, of which
/// there is none.
fn check_all(
    members: &[Member<'_>],
    helpers: &[Member<'_>],
    table: &CallTable,
) -> Result<(), ToolFault>
    ensures listed { OnOk result (first_refused table.now
        (named_by members.now ++ named_by helpers.now) ≡ None) }
    ensures refused { IfErr result (λ fault. first_refused table.now
        (named_by members.now ++ named_by helpers.now) ≡ Some fault) }
{
    check_members(members, table)?;
    check_members(helpers, table)
}

/// The lists of these processes, one after another, each with the help of these others, by a table.
/// The only error is that a growth was refused, or that a table of facts would have more words than
/// can be numbered.
fn lists_of<'t, T: FileTree>(
    alloc: Global,
    tree: &'t T,
    table: &CallTable,
    rules: Rules,
    members: &[Member<'t>],
    helpers: &[Member<'t>],
) -> Result<VecDeque<ProcessList<'t>>, OutOfMemory>
    ensures { IfOk result (λ lists. AreBesideLists rules table.now (T.content tree.now)
        (named_by helpers.now) (named_by members.now)
        (map (list_text (T.content tree.now)) lists.items)) }
{
    let mut lists = VecDeque::new(alloc);
    for member in members {
        let list = list_of(alloc, tree, table, rules, member, helpers)?;
        lists.push_back(list)?;
    }
    Ok(lists)
}

/// The list of a process with the help of these, but for the process itself.
fn list_of<'t, T: FileTree>(
    alloc: Global,
    tree: &'t T,
    table: &CallTable,
    rules: Rules,
    member: &Member<'t>,
    helpers: &[Member<'t>],
) -> Result<ProcessList<'t>, OutOfMemory>
    ensures { IfOk result (λ list. IsBesideList rules table.now (T.content tree.now)
        (named_by helpers.now) (member.now.number, member.now.process.now)
        (list_text (T.content tree.now) list)) }
{
    let others = others_of(alloc, member.number, helpers)?;
    list_with(alloc, tree, table, rules, member, others.as_slice())
}

/// The list of a process with the help of these others.
fn list_with<'t, T: FileTree>(
    alloc: Global,
    tree: &'t T,
    table: &CallTable,
    rules: Rules,
    member: &Member<'t>,
    others: &[Member<'t>],
) -> Result<ProcessList<'t>, OutOfMemory>
    ensures { IfOk result (λ list. IsBesideBy rules table.now (T.content tree.now)
        (is_ended member.now.process.now) (named_by others.now)
        (member.now.number, member.now.process.now) (list_text (T.content tree.now) list)) }
{
    let found = find_beside(alloc, tree, table, member.process, others)?;
    let helped = Helped {
        member: *member,
        others,
        own: found.own,
        execs: found.execs,
    };
    begin_beside(alloc, tree, rules, &helped, found.rows.as_slice())
}

/// The others than the process with this number. The only error is that a growth was refused.
fn others_of<'t>(
    alloc: Global,
    number: u32,
    members: &[Member<'t>],
) -> Result<Vec<Member<'t>>, OutOfMemory>
    ensures { IfOk result (λ others.
        named_by others.items ≡ others_than number (named_by members.now)) }
{
    let mut others = Vec::new(alloc);
    for member in members {
        let is_own = member.number == number;
        if is_own {
            continue;
        }
        let Ok(()) = others.push(*member) else {
            return Err(OutOfMemory);
        };
    }
    Ok(others)
}
