//! The lines of the objects of a process, one for each item.

ghost use Rattle.std.specs.Prelude.{◌≡◌, ℕ, [], IfOk, flat_map};
ghost use Rattle.std.specs.List.{AllByRecursion};
ghost use Rattle.pua_calls.specs.Calls.{rule_of};
ghost use Rattle.pua_calls.specs.CallSets.{calls_in};
ghost use Rattle.pua_policy.specs.Reasons.{promising};
ghost use Rattle.pua_objects.specs.Lines.{shown_lines};
ghost use Rattle.pua_objects.specs.Roots.{IsByRoot};
ghost use Rattle.pua_tree.specs.Tree.{Tree};
ghost use Rattle.pua_why.specs.Columns.{let_by, resting_on};
ghost use Rattle.pua_texts.specs.EndingsState.{plain};
ghost use Rattle.pua_objects.specs.ListItems.{IsToldIn, items_told};
ghost use Rattle.pua_texts.specs.ListLines.{lines_text};
ghost use Rattle.pua_texts.specs.ObjectLines.{object_lines};
ghost use Rattle.pua_texts.specs.WhyLines.{ServedScript, why_line, world_left};
ghost use Rattle.pua_texts.specs.WhyLists.{AreColumnsOf};

use crate::endings::Endings;
use crate::list_line::ListLine;
use pua_calls::{Call, CallTable, Calls, Promises};
use pua_ever::EverThing;
use pua_objects::{ListItem, Shown, shown_line};
use pua_policy::{AllowedCalls, Process, Promising};
use pua_tree::OutOfMemory;
use std::alloc::Global;

/// The lines of those of these items of a tree that are shown, after which stands LF. The only
/// error is that a growth was refused.
pub(crate) fn object_lines<'t>(
    alloc: Global,
    shown: &Shown,
    process: &Process,
    table: &CallTable,
    items: &[ListItem<'t>],
) -> Result<Vec<ListLine<'t>>, OutOfMemory>
    ensures { IfOk result (λ lines. (t : Tree) → IsByRoot process.now shown.now →
        AllByRecursion (IsToldIn t process.now) items.now →
        lines_text plain [] lines.items ≡ object_lines t
        (shown_lines t table.now process.now shown.now (items_told t [] items.now))) }
{
    let allowed = AllowedCalls::new(process, table);
    let mut lines = Vec::with_capacity(alloc, items.len())?;
    for item in items {
        let line = shown_line(shown, &allowed, item);
        let Ok(()) = lines.push(ListLine {
            depth: item.depth,
            name: item.name(),
            thing: EverThing::Stands(line.kind),
            calls: line.calls,
            resting: 0,
            veil: None,
        }) else {
            return Err(OutOfMemory);
        };
    }
    Ok(lines)
}

/// The lines of those of these items of a tree that are shown, with the promises on which their
/// calls rest, whose columns are added, and the veils that cover them. The only error is that a
/// growth was refused.
pub(crate) fn why_lines<'t>(
    alloc: Global,
    shown: &Shown,
    process: &Process,
    table: &CallTable,
    items: &[ListItem<'t>],
    columns: &mut Endings,
) -> Result<Vec<ListLine<'t>>, OutOfMemory>
    ensures { IfOk result (λ lines. (p : ServedScript) (number : ℕ) →
        table.now ≡ p.table → IsByRoot process.now shown.now →
        AllByRecursion (IsToldIn (world_left p).tree process.now) items.now →
        AreColumnsOf p number process.now.veils columns.old →
        lines_text columns.new [] lines.items ≡ flat_map (why_line p number process.now)
        (shown_lines (world_left p).tree p.table process.now shown.now
        (items_told (world_left p).tree [] items.now))) }
{
    let allowed = AllowedCalls::new(process, table);
    let mut lines = Vec::with_capacity(alloc, items.len())?;
    for item in items {
        let line = shown_line(shown, &allowed, item);
        let resting = columns.number_of(alloc, resting_on(process, table, line.calls))?;
        let Ok(()) = lines.push(ListLine {
            depth: item.depth,
            name: item.name(),
            thing: EverThing::Stands(line.kind),
            calls: line.calls,
            resting,
            veil: item.veil,
        }) else {
            return Err(OutOfMemory);
        };
    }
    Ok(lines)
}

/// The promises on which calls rest: of each call the first set that is held.
fn resting_on(process: &Process, table: &CallTable, calls: Calls) -> Promises
    ensures { result ≡ resting_on table.now process.now (calls_in calls) }
{
    let mut resting = Promises::NONE;
    for call in Call::ALL {
        if calls.contains(call) {
            resting = resting.union(let_by(process, table, call));
        }
    }
    resting
}

/// The set of promises that lets a call through, and none where there is none.
fn let_by(process: &Process, table: &CallTable, call: Call) -> Promises
    ensures { result ≡ let_by (promising process.now (rule_of table.now call).alternatives) }
{
    match process.promising(table.alternatives(call)) {
        Promising::Holds(set) => set,
        Promising::HasEnded | Promising::Lacks { .. } => Promises::NONE,
    }
}
