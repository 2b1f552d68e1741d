//! The text of the list for ever of a process with what lets the calls of each line through.

ghost use Rattle.std.specs.Prelude.{◌≡◌, ℕ, Ok, IfOk, map, option_copied, string_bytes};
ghost use Rattle.std.specs.List.{AllByRecursion};
ghost use Rattle.pua_calls.specs.Calls.{CallTable as Table};
ghost use Rattle.pua_calls.specs.TmpTable.{tmp_table};
ghost use Rattle.pua_script.specs.Scripts.{script_by};
ghost use Rattle.pua_since.specs.Dates.{veil_date, veils_at};
ghost use Rattle.pua_ever.specs.EverList.{IsRowOn};
ghost use Rattle.pua_ever.specs.LastingList.{IsBoundedExecOf};
ghost use Rattle.pua_texts.specs.VeilDates.{veil_dates};
ghost use Rattle.pua_texts.specs.WhyLines.{ServedScript, world_left};
ghost use Rattle.pua_tool.specs.Answers.{AnswersTo};
ghost use Rattle.pua_tool.specs.EverColumns.{AreTexts};
ghost use Rattle.pua_tool.specs.EverWhyTexts.{ever_why_after, ever_why_text, holder_by};
ghost use Rattle.pua_tool.specs.TwoWorlds.{IsTwoWorlds, as_served};
ghost use Rattle.pua_tool.specs.Texts.{choice_of};
ghost use Rattle.pua_tool.specs.WhyTexts.{reason_lines};

use crate::ever_columns::{Reasons, columns_of};
use crate::ever_fault::fault_of;
use crate::fault::ToolFault;
use crate::fault::WriteFault::{self, NoText};
use crate::objects::put_lists;
use crate::table::TableChoice;
use crate::two_worlds::{TwoWorlds, two_worlds};
use pua_calls::{CallTable, Rules};
use pua_ever::{BoundedExec, ExecBound, LastingList, bounded_exec, list_lasting};
use pua_io::Sink;
use pua_policy::Process;
use pua_since::{dated_text, veils_of};
use pua_texts::begin_ever_with;
use pua_tree::{FileTree, OutOfMemory};
use std::alloc::Global;

/// Writes the list for ever of a process with what lets the calls of each line through.
#[tactic(auto, unfolding(crate::specs::EverWhyTexts::ever_why_text))]
pub(crate) fn ever_why_to<S: Sink>(
    alloc: Global,
    tree_bytes: &[u8],
    script_bytes: &[u8],
    table: TableChoice<'_>,
    process: u32,
    sink: &mut S,
) -> Result<(), WriteFault>
    ensures text { AnswersTo S.written S.failed
        (ever_why_text (choice_of table.entry) tree_bytes.now script_bytes.now process)
        result sink.old sink.new }
{
    let mut worlds = two_worlds(alloc, tree_bytes, script_bytes, table)?;
    let written = list_to(alloc, script_bytes, &mut worlds, table.rules, process, sink);
    worlds.release();
    written
}

/// Writes the lines of a script with reasons, and then the list for ever of the process with its
/// columns. The list goes by the table with tmppath.
fn list_to<S: Sink>(
    alloc: Global,
    script_bytes: &[u8],
    worlds: &mut TwoWorlds,
    rules: Rules,
    number: u32,
    sink: &mut S,
) -> Result<(), WriteFault>
    ensures { script_by rules script_bytes.now ≡ Ok worlds.old.script → IsTwoWorlds worlds.old →
        AnswersTo S.written S.failed (ever_why_after rules (as_served worlds.old) number)
        result sink.old sink.new }
{
    let (front, dates) = dated_front(alloc, script_bytes, worlds, rules, number)?;
    let Some(process) = worlds.after.process(number) else {
        return Err(NoText(ToolFault::NoProcess));
    };
    process.known();
    let tree = worlds.after.tree();
    let wide = worlds.after.table().with_tmppath();
    let both = bounded_exec(alloc, process, &wide)?;
    let list = match list_lasting(alloc, tree, process, both.as_ref(), &wide) {
        Ok(list) => list,
        Err(fault) => return Err(NoText(fault_of(number, fault))),
    };
    let dates = dates.as_slice();
    let columns = columns_by(alloc, tree, process, both.as_ref(), &wide, &list, dates)?;
    let lists = begin_ever_with(alloc, tree, rules, number, process, &list, columns)?;
    put_lists(alloc, tree, front.as_str(), lists, sink)
}

/// The lines of a script with reasons, and since which lines the veils of the process with this
/// number have their letters. The only error is that a growth was refused.
fn dated_front(
    alloc: Global,
    script_bytes: &[u8],
    worlds: &mut TwoWorlds,
    rules: Rules,
    number: u32,
) -> Result<(String, Vec<Option<usize>>), OutOfMemory>
    ensures dated { IfOk result (λ dated. script_by rules script_bytes.now ≡ Ok worlds.old.script →
        IsTwoWorlds worlds.old →
        (string_bytes dated.0 ≡ reason_lines (as_served worlds.old))
        × (dated.1.items ≡ map
        (veil_date worlds.old.before.table (as_served worlds.old).world worlds.old.script)
        (veils_at worlds.old.after number))) }
    ensures after { worlds.new.after ≡ worlds.old.after }
{
    let (requests, answers) = (worlds.script.requests(), worlds.answers.as_slice());
    let veils = veils_of(alloc, &worlds.after, &[number])?;
    let veils = veils.as_slice();
    dated_text(
        alloc,
        &mut worlds.before,
        script_bytes,
        requests,
        answers,
        veils,
    )
}

/// The columns of the lines of a process's list, which goes by this table, and whose veils are so
/// since these lines. The only error is that a growth was refused.
fn columns_by<T: FileTree>(
    alloc: Global,
    tree: &T,
    process: &Process,
    both: Option<&BoundedExec>,
    table: &CallTable,
    list: &LastingList<'_>,
    dates: &[Option<usize>],
) -> Result<Vec<String>, OutOfMemory>
    ensures { IfOk result (λ columns. (p : ServedScript) (number : ℕ) →
        T.content tree.now ≡ (world_left p).tree → table.now ≡ tmp_table p.table →
        IsBoundedExecOf (tmp_table p.table) process.now (option_copied both.entry) →
        AllByRecursion (IsRowOn (world_left p).tree process.now) list.now.rows.items →
        dates.now ≡ veil_dates p number process.now.veils →
        AreTexts p number process.now (holder_by (tmp_table p.table) process.now list.now.execs)
        list.now.execs list.now.rows.items (map string_bytes columns.items)) }
{
    let holder = holder_by(process, both, list.execs);
    let reasons = Reasons::new(alloc, tree, process, holder, table, list.execs, dates)?;
    columns_of(alloc, tree, holder, table, &reasons, list.rows.as_slice())
}

/// Who holds what a list for ever rests on: where that is one through execs, who holds what the
/// process holds and what programs do that it starts; else the process.
fn holder_by<'p>(
    process: &'p Process,
    both: Option<&'p BoundedExec>,
    execs: ExecBound,
) -> &'p Process
    ensures { (table : Table) → IsBoundedExecOf table process.now (option_copied both.entry) →
        result.now ≡ holder_by table process.now execs }
{
    match (both, execs) {
        (Some(both), ExecBound::Bounded) => &both.process,
        _ => process,
    }
}
