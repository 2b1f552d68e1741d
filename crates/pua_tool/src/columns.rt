//! What stands after the calls of a line of a list for ever: how many steps a way has to each call
//! that the list of now lacks.

ghost use Rattle.std.specs.Prelude.{◌≡◌, ◌&&◌, ◌++◌, ◌∷◌, [], IfErr, IfOk, OnOk, map, not};
ghost use Rattle.std.specs.Prelude.{string_bytes};
ghost use Rattle.std.specs.List.{AllByRecursion};
ghost use Rattle.pua_calls.specs.CallSets.{calls_in, has};
ghost use Rattle.pua_calls.specs.declared.call.Call.{Call as AnyCall};
ghost use Rattle.pua_ever.specs.EverList.{IsRowOn};
ghost use Rattle.pua_how.specs.Steps.{NoneComes};
ghost use Rattle.pua_how.specs.Targets.{IsLast};
ghost use Rattle.pua_script.specs.Worlds.{world_of};
ghost use Rattle.pua_texts.specs.Lines.{with_end};
ghost use Rattle.pua_tool.specs.RowColumns.{AreColumns, AreStepsTo, IsColumnAt, IsCountTo};
ghost use Rattle.pua_tool.specs.RowColumns.{done_behind, tried_behind};
ghost use Rattle.pua_tool.specs.declared.columns.Behind.{Behind as AnyBehind};
ghost use Rattle.pua_tool.specs.EverHowTexts.{count_text, counts_text};

use crate::row::calls_now;
use crate::script::{ProgramTree, Replay};
use pua_calls::{Call, Calls, Rules};
use pua_ever::EverRow;
use pua_how::{Meant, NoWay, Planner, Target, Trials, last_number, target_of};
use pua_policy::Process;
use pua_tree::{NodeId, OutOfMemory};
use std::alloc::{AllocError, Global};

/// What a script left, the rules by which its lines are read, and the number of the process whose
/// list it is.
#[derive(Clone, Copy)]
pub(crate) struct Behind<'a> {
    pub(crate) replay: &'a Replay,
    pub(crate) rules: Rules,
    pub(crate) number: u32,
}

/// The columns of rows, each with the LF at the end of its line. Plans for each call in them are
/// served in copies of the world that the script left. The only error is that a growth was refused,
/// as of all here.
pub(crate) fn columns_of(
    alloc: Global,
    behind: &Behind<'_>,
    process: &Process,
    rows: &[EverRow<'_>],
) -> Result<Vec<String>, OutOfMemory>
    ensures { IfOk result (λ columns.
        AllByRecursion (IsRowOn (done_behind behind.now).world.tree process.now) rows.now →
        AreColumns behind.now.rules (done_behind behind.now) behind.now.number process.now rows.now
        (map string_bytes columns.items)) }
{
    let world = &behind.replay.world;
    let last = last_number(alloc, world.tree())?;
    let planner = Planner::new(alloc, world.tree(), process, world.table())?;
    let mut columns = Vec::new(alloc);
    for row in rows {
        let column = column_of(alloc, behind, process, &planner, last, row)?;
        columns.push(column)?;
    }
    Ok(columns)
}

/// The column of a row, by the last number of the nodes that live.
fn column_of(
    alloc: Global,
    behind: &Behind<'_>,
    process: &Process,
    planner: &Planner<'_>,
    last: NodeId,
    row: &EverRow<'_>,
) -> Result<String, OutOfMemory>
    ensures { IfOk result (λ text. IsLast (done_behind behind.now).world.tree last →
        IsRowOn (done_behind behind.now).world.tree process.now row.now →
        IsColumnAt behind.now.rules (done_behind behind.now) behind.now.number process.now row.now
        (string_bytes text)) }
{
    let world = &behind.replay.world;
    let now = calls_now(process, world.table(), row);
    let lacking = without(row.line.calls, now);
    let Some(target) = target_of(world.tree(), last, row) else {
        return Ok(text_of(alloc, &[])?);
    };
    let counts = counts_on(alloc, behind, planner, &target, lacking)?;
    Ok(text_of(alloc, counts.as_slice())?)
}

/// Its calls but for the others.
fn without(calls: Calls, others: Calls) -> Calls
    ensures { (call : AnyCall) → has result call ≡ (has calls call && not (has others call)) }
{
    let mut left = Calls::NONE;
    for call in Call::ALL {
        if is_left(calls, others, call) {
            left = left.with(call);
        }
    }
    left
}

/// Whether a call is among these, and not among the others.
fn is_left(calls: Calls, others: Calls, call: Call) -> bool
    ensures { result ≡ (has calls call && not (has others call)) }
{
    calls.contains(call) && !others.contains(call)
}

/// These calls on a thing, in their order, each with the number of steps of a way to it, or with
/// plans of which none comes to one.
fn counts_on(
    alloc: Global,
    behind: &Behind<'_>,
    planner: &Planner<'_>,
    target: &Target,
    calls: Calls,
) -> Result<Vec<(Call, Result<usize, NoWay>)>, OutOfMemory>
    ensures counts { IfOk result (λ counts. AllByRecursion
        (IsCountTo behind.now.rules (done_behind behind.now) behind.now.number target.now)
        counts.items) }
    ensures calls { IfOk result (λ counts. map (λ count. count.0) counts.items ≡ calls_in calls) }
{
    if calls.is_empty() {
        return Ok(Vec::new(alloc));
    }
    let meant = meant_by(alloc, target)?;
    let mut trials = trials_behind(alloc, behind);
    let mut counts = Vec::new(alloc);
    for call in Call::ALL {
        if calls.contains(call) {
            let steps = steps_to(&mut trials, planner, call, &meant)?;
            counts.push((call, steps))?;
        }
    }
    Ok(counts)
}

/// A thing alone, as a way is asked for to it. The only error is that a growth was refused.
fn meant_by(alloc: Global, target: &Target) -> Result<Meant, AllocError>
    ensures { IfOk result (λ meant. meant.targets.items ≡ target.now ∷ []) }
{
    let mut targets = Vec::with_capacity(alloc, 1)?;
    targets.push(*target)?;
    Ok(Meant {
        targets,
        name: None,
    })
}

/// Trials of plans for the process whose list it is.
pub(crate) fn trials_behind<'a>(alloc: Global, behind: &Behind<'a>) -> Trials<'a, ProgramTree>
    ensures { result ≡ tried_behind behind.now }
{
    Trials::new(alloc, behind.rules, &behind.replay.world, behind.number)
}

/// The number of steps of a way to a call on something that is meant; [`NoWay`] exactly where none
/// of the plans that are laid comes to one.
pub(crate) fn steps_to(
    trials: &mut Trials<'_, ProgramTree>,
    planner: &Planner<'_>,
    call: Call,
    meant: &Meant,
) -> Result<Result<usize, NoWay>, OutOfMemory>
    ensures steps { (behind : AnyBehind) → trials.old ≡ tried_behind behind →
        IfOk result (λ found. IfOk found (AreStepsTo (done_behind behind)
        behind.number meant.now.targets.items call)) }
    ensures none { IfOk result (λ found. IfErr found (NoneComes trials.old.rules
        trials.old.world.table trials.old.process call meant.now.targets.items
        (world_of trials.old.world))) }
    ensures same { trials.new ≡ trials.old }
{
    let plans = planner.find_plans(call, meant)?;
    Ok(trials.count(plans, call, meant)?)
}

/// What stands after the calls of a line: a blank, and calls with the numbers of steps, with
/// commas between them; and LF. The only error is that a growth was refused.
fn text_of(alloc: Global, counts: &[(Call, Result<usize, NoWay>)]) -> Result<String, AllocError>
    ensures { IfOk result (λ text. string_bytes text
        ≡ with_end (counts_text 32 counts.now)) }
{
    let mut text = String::new(alloc);
    if let Some((first, more)) = counts.split_first() {
        text.push(' ')?;
        push_count(&mut text, first)?;
        push_others(&mut text, more)?;
    }
    text.push('\n')?;
    Ok(text)
}

/// Adds further calls with their numbers of steps, each after a comma.
fn push_others(text: &mut String, counts: &[(Call, Result<usize, NoWay>)]) -> Result<(), AllocError>
    ensures { OnOk result (string_bytes text.new ≡ string_bytes text.old
        ++ counts_text 44 counts.now) }
{
    for count in counts {
        text.push(',')?;
        push_count(text, count)?;
    }
    Ok(())
}

/// Adds a call, and its number of steps, or `?` without one.
fn push_count(text: &mut String, count: &(Call, Result<usize, NoWay>)) -> Result<(), AllocError>
    ensures { OnOk result (string_bytes text.new ≡ string_bytes text.old
        ++ count_text count.now) }
{
    text.push_str(count.0.name())?;
    text.push(' ')?;
    match &count.1 {
        Ok(steps) => write!(text, "{steps}"),
        Err(_) => text.push('?'),
    }
}
