//! Requests that change the process that asks, and nothing else, and what a refused one leaves of
//! it.

ghost use Rattle.std.specs.Prelude.{◌≡◌};
ghost use Rattle.pua_tree.specs.Tree.{Tree};
ghost use Rattle.pua_policy.specs.States.{ProcessState};
ghost use Rattle.pua_script.specs.Decide.{Requester, asker_of, decide_lock, decide_pledge};
ghost use Rattle.pua_script.specs.Decide.{decide_uses, given_set, is_unknown};
ghost use Rattle.pua_script.specs.Judged.{decision_for};
ghost use Rattle.pua_script.specs.Replay.{refusal_effect};
ghost use Rattle.pua_script.specs.Worlds.{Does};

use crate::answer::Answer;
use crate::granted::Granted;
use crate::request::Given;
use pua_calls::{Promises, Rules};
use pua_path::Errno;
use pua_policy::judge::{promised, promised_any};
use pua_policy::{Process, Refusal};

/// What a process is answered that does not get what it asks for. It ends where it did what it did
/// not promise, and else lives on as it was.
pub(crate) fn refuse(process: &mut Process, refusal: Refusal) -> Answer
    ensures { (t : Tree) → Does t process.old (refusal_effect refusal) result t process.new }
{
    match refusal {
        Refusal::Failed(errno) => Answer::Failed(errno),
        Refusal::Killed => {
            process.end();
            Answer::Killed
        }
    }
}

/// What a pledge is to change. An unknown keyword in either argument is judged before what is held.
pub(crate) fn decide_pledge<'a>(
    rules: Rules,
    promises: &Given,
    execpromises: &Given,
) -> Result<Granted<'a>, Refusal>
    ensures { (asker : Requester) →
        decision_for asker result ≡ decide_pledge asker rules promises.now execpromises.now }
{
    if is_unknown(promises) || is_unknown(execpromises) {
        return Err(Refusal::Failed(Errno::EINVAL));
    }
    Ok(Granted::Pledge(rules, given_set(promises), given_set(execpromises)))
}

fn is_unknown(given: &Given) -> bool
    ensures { result ≡ is_unknown given.now }
{
    matches!(given, Given::Unknown)
}

fn given_set(given: &Given) -> Option<Promises>
    ensures { result ≡ given_set given.now }
{
    match *given {
        Given::Good(promises) => Some(promises),
        Given::Null | Given::Unknown => None,
    }
}

/// What an unveil with two NULLs is to change.
pub(crate) fn decide_lock<'a>(process: &Process) -> Result<Granted<'a>, Refusal>
    ensures { decision_for (asker_of process.now) result ≡ decide_lock (asker_of process.now) }
{
    promised(process, Promises::UNVEIL)?;
    Ok(Granted::Lock)
}

/// What a call without a path is to change that asks for one of these promises: nothing.
pub(crate) fn decide_uses<'a>(process: &Process, sets: &[Promises]) -> Result<Granted<'a>, Refusal>
    ensures { decision_for (asker_of process.now) result
        ≡ decide_uses (asker_of process.now) sets.now }
{
    promised_any(process, sets)?;
    Ok(Granted::NoChange)
}
