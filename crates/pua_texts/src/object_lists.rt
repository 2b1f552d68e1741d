//! The lists of the objects of processes.

ghost use Rattle.std.specs.Prelude.{◌≡◌, IfOk};
ghost use Rattle.pua_script.specs.Worlds.{world_of};
ghost use Rattle.pua_texts.specs.ListLines.{list_text, lists_text};
ghost use Rattle.pua_texts.specs.ObjectLines.{image_list_of, lists_of, process_list};

use crate::endings::Endings;
use crate::lists::alone;
use crate::object_lines::object_lines;
use crate::process_head::ProcessHead;
use crate::process_list::ProcessList;
use crate::state::{Heading, Time};
use pua_calls::{CallTable, Rules};
use pua_objects::{Shown, list_items};
use pua_policy::Process;
use pua_script::World;
use pua_tree::{FileTree, OutOfMemory};
use std::alloc::Global;
use std::collections::VecDeque;

/// The lists of these processes, one after another, of which those are left out that were never
/// made; their states say whose rules the table of calls is by. The only error is that a growth was
/// refused.
pub fn begin_objects<'t, T: FileTree>(
    alloc: Global,
    world: &'t World<T>,
    rules: Rules,
    numbers: &[u32],
) -> Result<VecDeque<ProcessList<'t>>, OutOfMemory>
    ensures { IfOk result (λ lists. lists_text world.now.tree lists.items
        ≡ lists_of rules world.now.table (world_of world.now) numbers.now) }
{
    let mut lists = VecDeque::new(alloc);
    for number in numbers {
        let Some(process) = world.process(*number) else {
            continue;
        };
        let heading = Heading {
            time: Time::Now,
            rules,
            number: *number,
        };
        let list = begin_list(alloc, world.tree(), world.table(), heading, process)?;
        lists.push_back(list)?;
    }
    Ok(lists)
}

/// The list of a process as it is before the line of a script with this number: it alone, or none
/// where it was never made. The only error is that a growth was refused.
pub fn begin_image<'t, T: FileTree>(
    alloc: Global,
    world: &'t World<T>,
    rules: Rules,
    number: u32,
    line: usize,
) -> Result<VecDeque<ProcessList<'t>>, OutOfMemory>
    ensures { IfOk result (λ lists. lists_text world.now.tree lists.items
        ≡ image_list_of line rules world.now.table (world_of world.now) number) }
{
    let Some(process) = world.process(number) else {
        return Ok(VecDeque::new(alloc));
    };
    let heading = Heading {
        time: Time::Before(line),
        rules,
        number,
    };
    let list = begin_list(alloc, world.tree(), world.table(), heading, process)?;
    alone(alloc, list)
}

/// The list of a process with this heading. The only error is that a growth was refused.
fn begin_list<'t, T: FileTree>(
    alloc: Global,
    tree: &'t T,
    table: &CallTable,
    heading: Heading,
    process: &'t Process,
) -> Result<ProcessList<'t>, OutOfMemory>
    ensures { IfOk result (λ list. list_text (T.content tree.now) list
        ≡ process_list heading table.now (T.content tree.now) process.now) }
{
    let head = ProcessHead::begin(alloc, tree, heading, process)?;
    let items = list_items(alloc, tree, process)?;
    let shown = Shown::of(alloc, tree, process)?;
    let lines = object_lines(alloc, &shown, process, table, items.as_slice())?;
    ProcessList::new(alloc, head, lines, Endings::plain(alloc))
}
