//! Trials of several words at once: a script that is answered as before without all of some words
//! is answered as before without each of them.

ghost use Rattle.std.specs.Prelude.{◌≡◌, ◌≤◌, ◌<◌, IfOk, List, OnOk, if◌then◌else◌, length};
ghost use Rattle.pua_script.specs.Replay.{answers_to, new_world};
ghost use Rattle.pua_tight.specs.Tight.{same_answers};
ghost use Rattle.pua_script.specs.declared.answer.Answer.{Answer};
ghost use Rattle.pua_tight.specs.Several.{AreDone, AreFrom, Descend, IsToTry, all_back, all_left};
ghost use Rattle.pua_tight.specs.Starts.{IsStart};
ghost use Rattle.pua_tight.specs.Trials.{all_tried};

use crate::arguments::Arguments;
use crate::start::Start;
use crate::trial::{Trial, leave_out, put_back};
use crate::wanted::Wanted;
use pua_script::Request;
use pua_tree::OutOfMemory;
use std::alloc::{AllocError, Global};

/// The arguments that a line had.
#[derive(Clone, Copy)]
pub(crate) struct Kept {
    pub(crate) line: usize,
    pub(crate) arguments: Arguments,
}

/// Leaves out of a script one piece after another, where all of it is then answered as is wanted:
/// the last line's first, of lines that are answered ok.
pub(crate) fn try_all(
    wanted: &Wanted<'_>,
    trials: &[Trial],
    requests: &mut Vec<Request>,
) -> Result<(), OutOfMemory>
    ensures { IfOk result (λ _. IsToTry wanted.now.table.now (new_world wanted.now.tree)
        wanted.now.answers.items trials.now requests.old.items → requests.new.items
        ≡ all_tried wanted.now.table.now (new_world wanted.now.tree) wanted.now.answers.items
        trials.now requests.old.items) }
{
    let mut start = Start::first(wanted)?;
    let mut done = 0;
    while done < trials.len() {
        done += try_front(wanted, &mut start, &trials[done..], requests)?;
    }
    start.end();
    Ok(())
}

/// Tries the first pieces, up to the first that can't be left out, and answers how many were tried.
/// Of those that can, it tries at most twice as many at once as it has left out.
fn try_front(
    wanted: &Wanted<'_>,
    start: &mut Start,
    trials: &[Trial],
    requests: &mut Vec<Request>,
) -> Result<usize, OutOfMemory>
    ensures done { IfOk result (λ done. IsToTry wanted.now.table.now (new_world wanted.now.tree)
        wanted.now.answers.items trials.now requests.old.items →
        IsStart wanted.now.table.now (new_world wanted.now.tree) requests.old.items
        start.old →
        AreDone wanted.now.table.now (new_world wanted.now.tree) wanted.now.answers.items
        trials.now done requests.old.items requests.new.items) }
    ensures start { OnOk result (IsToTry wanted.now.table.now (new_world wanted.now.tree)
        wanted.now.answers.items trials.now requests.old.items →
        IsStart wanted.now.table.now (new_world wanted.now.tree) requests.old.items
        start.old → IsStart wanted.now.table.now (new_world wanted.now.tree)
        requests.new.items start.new) }
    ensures some { IfOk result (λ done. 0 < length trials.now → 0 < done) }
    ensures within { IfOk result (λ done. done ≤ length trials.now) }
{
    let mut spare = 0;
    let mut most = trials.len();
    while spare < most {
        let more = 1 + spare.min((most - spare - 1) / 2);
        if try_together(wanted, start, &trials[spare..spare + more], requests)? {
            spare += more;
        } else {
            most = spare + more - 1;
        }
    }
    Ok(trials.len().min(spare + 1))
}

/// Leaves pieces out of a script, if all of it is then answered as is wanted, and answers whether.
fn try_together(
    wanted: &Wanted<'_>,
    start: &mut Start,
    trials: &[Trial],
    requests: &mut Vec<Request>,
) -> Result<bool, OutOfMemory>
    ensures told { IfOk result (λ spare. IsToTry wanted.now.table.now (new_world wanted.now.tree)
        wanted.now.answers.items trials.now requests.old.items →
        IsStart wanted.now.table.now (new_world wanted.now.tree) requests.old.items
        start.old → spare ≡ same_answers
        (answers_to wanted.now.table.now (new_world wanted.now.tree)
        (all_left trials.now requests.old.items)) wanted.now.answers.items) }
    ensures start { OnOk result (IsToTry wanted.now.table.now (new_world wanted.now.tree)
        wanted.now.answers.items trials.now requests.old.items →
        IsStart wanted.now.table.now (new_world wanted.now.tree) requests.old.items
        start.old → IsStart wanted.now.table.now (new_world wanted.now.tree)
        requests.new.items start.new) }
    ensures left { IfOk result (λ spare. requests.new.items
        ≡ (if spare then all_left trials.now requests.old.items else requests.old.items)) }
{
    start.go_near(wanted, requests.as_slice(), first_line(trials))?;
    let kept = leave_all(wanted.alloc, trials, requests)?;
    if start.first_other(wanted, requests.as_slice())?.is_none() {
        return Ok(true);
    }
    put_all_back(kept.as_slice(), requests);
    Ok(false)
}

/// The first line of trials of the last line first; 0 where there is none.
fn first_line(trials: &[Trial]) -> usize
    ensures { (want : List Answer) → Descend want trials.now → AreFrom result trials.now }
{
    match trials.last() {
        Some(trial) => trial.line,
        None => 0,
    }
}

/// Leaves pieces out of a script, and answers what the arguments of their lines were.
fn leave_all(
    alloc: Global,
    trials: &[Trial],
    requests: &mut Vec<Request>,
) -> Result<Vec<Kept>, AllocError>
    ensures left { IfOk result (λ _. requests.new.items
        ≡ all_left trials.now requests.old.items) }
    ensures back { IfOk result (λ kept. all_back kept.items requests.new.items
        ≡ requests.old.items) }
{
    let mut kept = Vec::new(alloc);
    for trial in trials {
        let line = trial.line;
        let arguments = leave_out(trial, requests);
        kept.push(Kept { line, arguments })?;
    }
    Ok(kept)
}

/// Gives lines the arguments that were kept, the last ones first.
fn put_all_back(kept: &[Kept], requests: &mut Vec<Request>)
    ensures { requests.new.items ≡ all_back kept.now requests.old.items }
{
    for index in (0..kept.len()).rev() {
        let kept = kept[index];
        put_back(kept.line, kept.arguments, requests);
    }
}
