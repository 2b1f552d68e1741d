//! What one of several processes can ever touch with the help of all, as a vector.

ghost use Rattle.std.specs.Prelude.{◌≡◌, ◌≤◌, ◌∷◌, ◌++◌, [], ℕ, Bool, List, None, Option, Some, IfOk, true};
ghost use Rattle.std.specs.Prelude.{IfSome, MatchOption, OnOk, length, option_map};
ghost use Rattle.std.specs.List.{AllByRecursion, Contains};
ghost use Rattle.pua_tree.specs.Tree.{Tree, WellFormed};
ghost use Rattle.pua_calls.specs.declared.call.Call.{Call as AnyCall};
ghost use Rattle.pua_policy.specs.States.{ProcessState};
ghost use Rattle.pua_objects.specs.Items.{subject_given};
ghost use Rattle.pua_objects.specs.ListItems.{AreNear, IsToldIn, last_word};
ghost use Rattle.pua_objects.specs.declared.list.ListItem.{ListItem as Listed};
ghost use Rattle.pua_ever.specs.Ever.{Comes, Stands, Thing};
ghost use Rattle.pua_ever.specs.EverLines.{IsThing, new_of};
ghost use Rattle.pua_ever.specs.EverList.{AreEverTold, IsFreedRow, IsOwnInside, IsRowAt, IsRowOn};
ghost use Rattle.pua_ever.specs.EverList.{thing_of};
ghost use Rattle.pua_ever.specs.Prospects.{own_given};
ghost use Rattle.pua_jointly.specs.JointCalls.{AreCallsOfOne, AreOwnCallsOfOne, HasAgents};
ghost use Rattle.pua_jointly.specs.JointCalls.{IsAgentIn, IsGroupIn};
ghost use Rattle.pua_jointly.specs.JointFound.{AreFacts};
ghost use Rattle.pua_jointly.specs.JointList.{AreJointBut, AreJointSoFar};
ghost use Rattle.pua_jointly.specs.JointPrograms.{TellsOfOne, now_of};
ghost use Rattle.pua_jointly.specs.JointSetting.{IsEntryOf};
ghost use Rattle.pua_jointly.specs.Jointly.{agents_of, as_started, joint_lines};

use crate::agent::Agent;
use crate::crew::{Entry, Group};
use crate::facts::Facts;
use crate::members::is_equal;
use pua_calls::CallTable;
use pua_ever::{
    EverAbout, EverLine, EverRow, EverThing, Made, kind_of, own_inside, own_name, place_of,
};
use pua_objects::{ListItem, ObjectKind, list_items};
use pua_policy::Process;
use pua_tree::{FileTree, OutOfMemory};
use std::alloc::{AllocError, Global};

/// Lists what one of several processes can ever touch in a tree by doing of their own, all of them
/// together: in the form and the order of `list_ever`. With it goes what it starts, if that counts:
/// then a row has the calls of both. The facts are those of the processes in this tree, by this
/// table, and the process is one of them, and so is what it starts; of others there are no rows. A
/// name at which an item stands has calls where it has a veil of the process and can come to be
/// free. The only error is that a growth was refused.
pub fn list_jointly<'t, T: FileTree>(
    alloc: Global,
    tree: &'t T,
    facts: &Facts<'_>,
    process: &'t Process,
    program: Option<&Process>,
    table: &CallTable,
) -> Result<Vec<EverRow<'t>>, OutOfMemory>
    ensures rows { (crew : List ProcessState) (given : Option ℕ) →
        AreFacts (T.content tree.now) table.now crew facts.now →
        now_of program.entry ≡ option_map (as_started process.now) given →
        ((agent : ProcessState) → Contains (agents_of (process.now, given)) agent →
        Contains crew agent) → IfOk result (λ rows. (test : Thing → AnyCall → Bool)
        × TellsOfOne (T.content tree.now) table.now crew (agents_of (process.now, given)) test
        × AreEverTold (T.content tree.now) [] rows.items
        (joint_lines (T.content tree.now) process.now test) []) }
    ensures items { IfOk result (λ rows.
        AllByRecursion (IsRowOn (T.content tree.now) process.now) rows.items) }
{
    tree.known();
    let Some(of) = group_of(alloc, &facts.crew.agents, process, program)? else {
        return Ok(Vec::new(alloc));
    };
    let Ok(items) = list_items(alloc, tree, process) else {
        return Err(OutOfMemory);
    };
    let Ok(mut rows) = rows_of(alloc, facts, &of, process, table, &items) else {
        return Err(OutOfMemory);
    };
    let Ok(()) = add_made(facts, &of, table, &mut rows) else {
        return Err(OutOfMemory);
    };
    Ok(rows)
}

/// What is asked of a process and of what it starts, if they are among these. The only error is
/// that a growth was refused.
fn group_of<'a, 'c>(
    alloc: Global,
    agents: &'a [Agent<'c>],
    process: &Process,
    program: Option<&Process>,
) -> Result<Option<Group<'a, 'c>>, OutOfMemory>
    ensures { IfOk result (IsGroupIn agents.now process.now (now_of program.entry)) }
{
    let Some(own) = agent_of(alloc, agents, process)? else {
        return Ok(None);
    };
    let Some(started) = program else {
        return Ok(Some(Group { own, program: None }));
    };
    let Some(program) = agent_of(alloc, agents, started)? else {
        return Ok(None);
    };
    Ok(Some(Group {
        own,
        program: Some(program),
    }))
}

/// What is asked of a process, if it is one of these. The only error is that a growth was refused.
pub(crate) fn agent_of<'a, 'c>(
    alloc: Global,
    agents: &'a [Agent<'c>],
    process: &Process,
) -> Result<Option<&'a Agent<'c>>, OutOfMemory>
    ensures { IfOk result (IsAgentIn agents.now process.now) }
{
    for agent in agents {
        if is_equal(alloc, agent.process, process)? {
            return Ok(Some(agent));
        }
    }
    Ok(None)
}

/// The rows of all items. The only error is that a growth was refused.
fn rows_of<'t>(
    alloc: Global,
    facts: &Facts<'_>,
    of: &Group<'_, '_>,
    process: &Process,
    table: &CallTable,
    items: &[ListItem<'t>],
) -> Result<Vec<EverRow<'t>>, AllocError>
    ensures told { IfOk result (λ rows. (t : Tree) (crew : List ProcessState) (a : ProcessState)
        (given : Option ℕ) (test : Thing → AnyCall → Bool) → WellFormed t →
        HasAgents t table.now crew facts.now a given of.now →
        TellsOfOne t table.now crew (agents_of (a, given)) test →
        AllByRecursion (IsToldIn t a) items.now →
        AreNear [] items.now → AreJointBut t a test items.now rows.items (Some Made.Dir)) }
    ensures items { IfOk result (λ rows. (t : Tree) → WellFormed t →
        AllByRecursion (IsToldIn t process.now) items.now →
        AllByRecursion (IsRowOn t process.now) rows.items) }
{
    let mut rows = Vec::new(alloc);
    let mut next = 0;
    for item in items {
        let entry = facts.entry_of(&item.item, &mut next);
        add_rows(facts, of, process, table, item, entry, &mut rows)?;
    }
    Ok(rows)
}

/// Adds the rows of an item, by what stands at its name. The only error is that a growth was
/// refused.
fn add_rows<'t>(
    facts: &Facts<'_>,
    of: &Group<'_, '_>,
    process: &Process,
    table: &CallTable,
    item: &ListItem<'t>,
    entry: Option<&Entry<'_>>,
    rows: &mut Vec<EverRow<'t>>,
) -> Result<(), AllocError>
    ensures told { OnOk result ((t : Tree) (crew : List ProcessState) (a : ProcessState)
        (given : Option ℕ) (test : Thing → AnyCall → Bool) (items so_far left : List Listed) →
        WellFormed t →
        HasAgents t table.now crew facts.now a given of.now →
        TellsOfOne t table.now crew (agents_of (a, given)) test →
        IsEntryOf facts.now.crew.entries.items item.now.item.subject entry.entry →
        IsToldIn t a item.now → item.now.depth ≤ length (last_word [] so_far) →
        AreJointSoFar t a test items so_far (item.now ∷ left) rows.old.items →
        AreJointSoFar t a test items (so_far ++ item.now ∷ []) left rows.new.items) }
    ensures items { OnOk result ((t : Tree) → WellFormed t → IsToldIn t process.now item.now →
        AllByRecursion (IsRowOn t process.now) rows.old.items →
        AllByRecursion (IsRowOn t process.now) rows.new.items) }
{
    let stands = stands_row(facts, of, table, item, entry);
    let Ok(()) = rows.push(stands) else {
        return Err(AllocError);
    };
    let Some(freed) = freed_row(facts, of, process, table, item) else {
        return Ok(());
    };
    let Ok(()) = rows.push(freed) else {
        return Err(AllocError);
    };
    Ok(())
}

/// Adds the rows of what can be made. The only error is that a growth was refused.
fn add_made(
    facts: &Facts<'_>,
    of: &Group<'_, '_>,
    table: &CallTable,
    rows: &mut Vec<EverRow<'_>>,
) -> Result<(), AllocError>
    ensures told { OnOk result ((t : Tree) (crew : List ProcessState) (a : ProcessState)
        (given : Option ℕ) (test : Thing → AnyCall → Bool) (items : List Listed) →
        HasAgents t table.now crew facts.now a given of.now →
        TellsOfOne t table.now crew (agents_of (a, given)) test →
        AreJointBut t a test items rows.old.items (Some Made.Dir) →
        AreJointBut t a test items rows.new.items None) }
    ensures items { OnOk result ((t : Tree) (a : ProcessState) →
        AllByRecursion (IsRowOn t a) rows.old.items → AllByRecursion (IsRowOn t a) rows.new.items) }
{
    let mut coming = Some(Made::Dir);
    while let Some(made) = coming {
        let Ok(()) = rows.push(made_row(facts, of, table, made)) else {
            return Err(AllocError);
        };
        coming = made.after();
    }
    Ok(())
}

/// The row of what an item is about.
fn stands_row<'t>(
    facts: &Facts<'_>,
    of: &Group<'_, '_>,
    table: &CallTable,
    item: &ListItem<'t>,
    entry: Option<&Entry<'_>>,
) -> EverRow<'t>
    ensures at { IsRowAt item.now result }
    ensures about { (t : Tree) → thing_of t result
        ≡ Some (Stands (subject_given t item.now.item.subject)) }
    ensures on { (t : Tree) (h : ProcessState) → IsToldIn t h item.now → IsRowOn t h result }
    ensures kind { (t : Tree) (h : ProcessState) → IsToldIn t h item.now →
        IsThing t (Stands (subject_given t item.now.item.subject)) result.line.thing }
    ensures calls { (t : Tree) (crew : List ProcessState) (a : ProcessState)
        (given : Option ℕ) → HasAgents t table.now crew facts.now a given of.now →
        IsToldIn t a item.now →
        IsEntryOf facts.now.crew.entries.items item.now.item.subject entry.entry →
        AreCallsOfOne t table.now crew (agents_of (a, given))
        (Stands (subject_given t item.now.item.subject)) result.line.calls }
{
    let own = &item.item;
    EverRow {
        depth: item.depth,
        name: item.name(),
        about: EverAbout::Stands(place_of(own), own.object, own.cover),
        line: EverLine {
            thing: EverThing::Stands(kind_of(own)),
            calls: facts.all_calls_on(of, table, own, entry),
        },
        inside: item.inside,
    }
}

/// The row of the name at which an item stands, once that is taken away; None where it has none.
fn freed_row<'t>(
    facts: &Facts<'_>,
    of: &Group<'_, '_>,
    process: &Process,
    table: &CallTable,
    item: &ListItem<'t>,
) -> Option<EverRow<'t>>
    ensures own { MatchOption result (own_given item.now.item.subject item.now.item.object ≡ None)
        (IsFreedRow item.now (own_given item.now.item.subject item.now.item.object)) }
    ensures calls { IfSome result (λ row. (t : Tree) (crew : List ProcessState) (a : ProcessState)
        (given : Option ℕ) → HasAgents t table.now crew facts.now a given of.now →
        IsToldIn t a item.now →
        AreOwnCallsOfOne t table.now crew (agents_of (a, given))
        (own_given item.now.item.subject item.now.item.object) row.line.calls) }
    ensures inside { IfSome result (λ row. (t : Tree) → WellFormed t →
        IsToldIn t process.now item.now → IsOwnInside t process.now item.now row.inside) }
{
    let Some(own) = own_name(&item.item) else {
        return None;
    };
    Some(EverRow {
        depth: item.depth,
        name: Some(own.1),
        about: EverAbout::Freed(own.0),
        line: EverLine {
            thing: EverThing::Stands(ObjectKind::Missing),
            calls: facts.all_calls_on_freed(of, table, &item.item),
        },
        inside: own_inside(process, item),
    })
}

/// The row of what can be made.
fn made_row<'t>(facts: &Facts<'_>, of: &Group<'_, '_>, table: &CallTable, made: Made) -> EverRow<'t>
    ensures at { (result.depth ≡ 0) × (result.name ≡ None) }
    ensures about { (result.about ≡ EverAbout.Comes made) × (result.inside ≡ true) }
    ensures thing { (t : Tree) → IsThing t (Comes (new_of made)) result.line.thing }
    ensures calls { (t : Tree) (crew : List ProcessState) (a : ProcessState)
        (given : Option ℕ) → HasAgents t table.now crew facts.now a given of.now →
        AreCallsOfOne t table.now crew (agents_of (a, given))
        (Comes (new_of made)) result.line.calls }
{
    EverRow {
        depth: 0,
        name: None,
        about: EverAbout::Comes(made),
        line: EverLine {
            thing: EverThing::Comes(made.kind()),
            calls: facts.all_calls_on_made(of, table, made),
        },
        inside: true,
    }
}
