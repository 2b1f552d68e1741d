//! The list for ever of a process: its heading, its state, and what it can ever touch; alone, or
//! with a text after the calls of each line.

ghost use Rattle.std.specs.Prelude.{◌≡◌, ◌++◌, [], ℕ, IfOk, List, map, string_bytes};
ghost use Rattle.pua_calls.specs.Calls.{CallTable};
ghost use Rattle.pua_tree.specs.Tree.{Tree};
ghost use Rattle.pua_ever.specs.Ever.{EverLine as Told};
ghost use Rattle.pua_ever.specs.EverList.{AreEverTold};
ghost use Rattle.pua_ever.specs.LastingList.{IsLasting};
ghost use Rattle.pua_ever.specs.ShownForEver.{execs_shown};
ghost use Rattle.pua_texts.specs.EndingsState.{plain};
ghost use Rattle.pua_texts.specs.EverHowLines.{AreToldWith, ever_list_with, lines_numbered};
ghost use Rattle.pua_texts.specs.EverLines.{ever_lines, ever_list, heading_ever};
ghost use Rattle.pua_texts.specs.ListLines.{lines_text, lists_text};
ghost use Rattle.pua_texts.specs.States.{head_lines};

use crate::endings::Endings;
use crate::list_line::ListLine;
use crate::lists::alone;
use crate::process_head::ProcessHead;
use crate::process_list::ProcessList;
use crate::state::{Heading, Time};
use pua_calls::Rules;
use pua_ever::{EverRow, LastingList};
use pua_policy::Process;
use pua_tree::{FileTree, OutOfMemory};
use std::alloc::Global;
use std::collections::VecDeque;

/// This list, which is that of the process with this number over a tree, alone; its state says whose
/// rules the table of calls is by. The only error is that a growth was refused.
pub fn begin_ever<'t, T: FileTree>(
    alloc: Global,
    tree: &T,
    rules: Rules,
    number: u32,
    process: &'t Process,
    list: &LastingList<'t>,
) -> Result<VecDeque<ProcessList<'t>>, OutOfMemory>
    ensures { IfOk result (λ lists. (table : CallTable) →
        IsLasting (T.content tree.now) table process.now list.now →
        lists_text (T.content tree.now) lists.items
        ≡ ever_list rules table (T.content tree.now) number process.now) }
{
    let lines = ever_lines(alloc, list.rows.as_slice())?;
    let columns = Endings::plain(alloc);
    list_with(alloc, tree, rules, number, process, list, lines, columns)
}

/// The same list with a text after the calls of each row, which ends the line. The only error is
/// that a growth was refused.
pub fn begin_ever_with<'t, T: FileTree>(
    alloc: Global,
    tree: &T,
    rules: Rules,
    number: u32,
    process: &'t Process,
    list: &LastingList<'t>,
    texts: Vec<String>,
) -> Result<VecDeque<ProcessList<'t>>, OutOfMemory>
    ensures { IfOk result (λ lists. (table : CallTable) (lines : List (Told × List ℕ)) →
        list.now.execs ≡ execs_shown (T.content tree.now) table process.now →
        AreToldWith (T.content tree.now) [] list.now.rows.items (map string_bytes texts.items)
        lines → lists_text (T.content tree.now) lists.items
        ≡ ever_list_with rules table (T.content tree.now) number process.now lines) }
{
    let lines = numbered_lines(alloc, list.rows.as_slice())?;
    let columns = Endings::of_lines(alloc, texts);
    list_with(alloc, tree, rules, number, process, list, lines, columns)
}

/// The list of a process with these lines and columns, alone. The only error is that a growth was
/// refused.
fn list_with<'t, T: FileTree>(
    alloc: Global,
    tree: &T,
    rules: Rules,
    number: u32,
    process: &'t Process,
    list: &LastingList<'t>,
    lines: Vec<ListLine<'t>>,
    columns: Endings,
) -> Result<VecDeque<ProcessList<'t>>, OutOfMemory>
    ensures { IfOk result (λ lists. lists_text (T.content tree.now) lists.items
        ≡ head_lines (T.content tree.now) (heading_ever rules list.now.execs number) process.now
        ++ lines_text columns [] lines.entry.items) }
{
    let heading = Heading {
        time: Time::Ever(list.execs),
        rules,
        number,
    };
    let head = ProcessHead::begin(alloc, tree, heading, process)?;
    alone(alloc, ProcessList::new(alloc, head, lines, columns)?)
}

/// The lines of these rows. The only error is that a growth was refused.
pub(crate) fn ever_lines<'t>(
    alloc: Global,
    rows: &[EverRow<'t>],
) -> Result<Vec<ListLine<'t>>, OutOfMemory>
    ensures { IfOk result (λ lines. (t : Tree) (told : List Told) →
        AreEverTold t [] rows.now told [] → lines_text plain [] lines.items ≡ ever_lines t told) }
{
    let mut lines = Vec::new(alloc);
    for row in rows {
        let Ok(()) = lines.push(ListLine {
            depth: row.depth,
            name: row.name,
            thing: row.line.thing,
            calls: row.line.calls,
            resting: 0,
            veil: None,
        }) else {
            return Err(OutOfMemory);
        };
    }
    Ok(lines)
}

/// The lines of these rows, each with its number among them. The only error is that a growth was
/// refused.
fn numbered_lines<'t>(alloc: Global, rows: &[EverRow<'t>]) -> Result<Vec<ListLine<'t>>, OutOfMemory>
    ensures { IfOk result (λ lines. lines.items ≡ lines_numbered 0 rows.now) }
{
    let mut lines = Vec::with_capacity(alloc, rows.len())?;
    for row in rows {
        let number = lines.len();
        let Ok(()) = lines.push(ListLine {
            depth: row.depth,
            name: row.name,
            thing: row.line.thing,
            calls: row.line.calls,
            resting: 0,
            veil: Some(number),
        }) else {
            return Err(OutOfMemory);
        };
    }
    Ok(lines)
}
