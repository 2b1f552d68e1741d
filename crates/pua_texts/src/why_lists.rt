//! The lists of the objects of processes with reasons.

ghost use Rattle.std.specs.Prelude.{◌≡◌, ◌++◌, ℕ, List, Option, IfOk};
ghost use Rattle.std.specs.Prelude.{flat_map, length, map};
ghost use Rattle.pua_script.specs.Worlds.{world_of};
ghost use Rattle.pua_since.specs.Dates.{veil_date, veils_at};
ghost use Rattle.pua_texts.specs.ListLines.{list_text, lists_text};
ghost use Rattle.pua_texts.specs.VeilDates.{veil_dates};
ghost use Rattle.pua_texts.specs.WhyLines.{ServedScript, why_list, why_lists_of, world_left};

use crate::object_lines::why_lines;
use crate::process_head::ProcessHead;
use crate::process_list::ProcessList;
use crate::state::{Heading, Time};
use crate::veil_columns::veil_columns;
use pua_calls::{CallTable, Rules};
use pua_objects::{Shown, list_items};
use pua_policy::Process;
use pua_script::World;
use pua_tree::{FileTree, OutOfMemory};
use std::alloc::Global;
use std::collections::VecDeque;

/// The lists of these processes with reasons, one after another, of which those are left out that
/// were never made; their veils have their letters since these lines; their states say whose rules
/// the table of calls is by. The only error is that a growth was refused.
pub fn begin_reasons<'t, T: FileTree>(
    alloc: Global,
    world: &'t World<T>,
    rules: Rules,
    numbers: &[u32],
    lines: &[Option<usize>],
) -> Result<VecDeque<ProcessList<'t>>, OutOfMemory>
    ensures { IfOk result (λ lists. (p : ServedScript) → world_of world.now ≡ world_left p →
        world.now.table ≡ p.table → lines.now
        ≡ map (veil_date p.table p.world p.asks) (flat_map (veils_at world.now) numbers.now) →
        lists_text (world_left p).tree lists.items ≡ why_lists_of rules p numbers.now) }
{
    let mut lists = VecDeque::new(alloc);
    let mut left = lines;
    for number in numbers {
        let Some(process) = world.process(*number) else {
            continue;
        };
        process.known();
        let (own, more) = split_lines(alloc, process, left)?;
        let heading = Heading {
            time: Time::Now,
            rules,
            number: *number,
        };
        let list = begin_list(alloc, world.tree(), world.table(), heading, process, own)?;
        lists.push_back(list)?;
        left = more;
    }
    Ok(lists)
}

/// Splits the lines that are left after those of the veils of a process. The only error is that a
/// growth was refused.
fn split_lines<'l>(
    alloc: Global,
    process: &Process,
    left: &'l [Option<usize>],
) -> Result<(&'l [Option<usize>], &'l [Option<usize>]), OutOfMemory>
    ensures { IfOk result (λ parts. (own rest : List (Option ℕ)) →
        length own ≡ length process.now.veils → left.now ≡ own ++ rest →
        (parts.0.now ≡ own) × (parts.1.now ≡ rest)) }
{
    let places = process.places(alloc)?;
    Ok(left.split_at(places.len().min(left.len())))
}

/// The list of a process with this heading, whose veils are so since these lines. The only error is
/// that a growth was refused.
fn begin_list<'t, T: FileTree>(
    alloc: Global,
    tree: &'t T,
    table: &CallTable,
    heading: Heading,
    process: &'t Process,
    lines: &[Option<usize>],
) -> Result<ProcessList<'t>, OutOfMemory>
    ensures { IfOk result (λ list. (p : ServedScript) →
        T.content tree.now ≡ (world_left p).tree → table.now ≡ p.table →
        lines.now ≡ veil_dates p heading.number process.now.veils →
        list_text (world_left p).tree list ≡ why_list heading p process.now) }
{
    let head = ProcessHead::begin(alloc, tree, heading, process)?;
    let items = list_items(alloc, tree, process)?;
    let mut columns = veil_columns(alloc, tree, process, lines)?;
    let shown = Shown::of(alloc, tree, process)?;
    let items = items.as_slice();
    let lines = why_lines(alloc, &shown, process, table, items, &mut columns)?;
    ProcessList::new(alloc, head, lines, columns)
}
