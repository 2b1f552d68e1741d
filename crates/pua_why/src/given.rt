//! The checks of pledges and of locks, and of a further process.

ghost use Rattle.std.specs.Prelude.{◌≡◌, ℕ, IfOk, option_map};
ghost use Rattle.pua_policy.specs.States.{ProcessState};
ghost use Rattle.pua_script.specs.Decide.{CopyAs, fork_by, given_set, is_unknown};
ghost use Rattle.pua_script.specs.Decide.{lock_by, pledge_by, uses_by};
ghost use Rattle.pua_script.specs.Worlds.{world_of};
ghost use Rattle.pua_why.specs.Checked.{process_fault, refused_by};
ghost use Rattle.pua_why.specs.Reasons.{asks_beyond, faults, faults_of, pledge_beyond};
ghost use Rattle.pua_why.specs.Seen.{fault_seen};

use crate::checks::{promise_fault, promises_fault};
use crate::told::Fault;
use pua_calls::{Promises, Rules};
use pua_policy::{Process, error_frees_exec};
use pua_script::{Given, MOST_PROCESSES, World};
use pua_tree::{FileTree, OutOfMemory};
use std::alloc::Global;

/// The fault of a pledge: an unknown word in either argument, and then what asks for more, the
/// promises first each time.
pub(crate) fn pledge_fault<'s>(
    rules: Rules,
    process: &Process,
    promises: &Given,
    execpromises: &Given,
) -> Option<Fault<'s>>
    ensures { option_map fault_seen result
        ≡ refused_by (pledge_by faults (faults_of process.now) rules promises.now execpromises.now) }
{
    if is_unknown(promises) {
        return Some(Fault::UnknownPromise { of_exec: false });
    }
    if is_unknown(execpromises) {
        return Some(Fault::UnknownPromise { of_exec: true });
    }
    beyond_given(rules, process, given_set(promises), given_set(execpromises))
}

/// The fault of a pledge that asks for more than was given, where `error` doesn't let it.
fn beyond_given<'s>(
    rules: Rules,
    process: &Process,
    promises: Option<Promises>,
    execpromises: Option<Promises>,
) -> Option<Fault<'s>>
    ensures { option_map fault_seen result ≡ pledge_beyond rules process.now promises
        execpromises }
{
    let error = process.held().contains(Promises::ERROR);
    if !error {
        let fault = asks_beyond(false, promises, process.promises());
        if fault.is_some() {
            return fault;
        }
    }
    if error_frees_exec(rules, error) {
        return None;
    }
    asks_beyond(true, execpromises, process.execpromises())
}

/// The fault of an argument of pledge that asks for more than was given.
fn asks_beyond<'s>(
    of_exec: bool,
    request: Option<Promises>,
    given: Option<Promises>,
) -> Option<Fault<'s>>
    ensures { option_map fault_seen result ≡ asks_beyond of_exec request given }
{
    match (request, given) {
        (Some(request), Some(given)) if !given.contains(request) => Some(Fault::AsksPromises {
            of_exec,
            lacks: request.without(given),
        }),
        _ => None,
    }
}

/// The fault of an unveil with two NULLs.
pub(crate) fn lock_fault<'s>(process: &Process) -> Option<Fault<'s>>
    ensures { option_map fault_seen result ≡ refused_by (lock_by (faults_of process.now)) }
{
    promise_fault(process, Promises::UNVEIL)
}

/// The fault of a call without a path: the promises.
pub(crate) fn uses_fault<'s>(process: &Process, sets: &'s [Promises]) -> Option<Fault<'s>>
    ensures { option_map fault_seen result
        ≡ refused_by (uses_by (faults_of process.now) sets.now) }
{
    promises_fault(process, sets)
}

/// The fault of a fork: the promise.
pub(crate) fn fork_fault<'s>(process: &Process) -> Option<Fault<'s>>
    ensures { (new : ℕ) →
        option_map fault_seen result ≡ refused_by (fork_by (faults_of process.now) new) }
{
    promise_fault(process, Promises::PROC)
}

/// The fault of a further process: its number, and how many processes were made.
pub(crate) fn process_fault<'s, T: FileTree>(
    alloc: Global,
    world: &World<T>,
    new: u32,
) -> Result<Option<Fault<'s>>, OutOfMemory>
    ensures { IfOk result (λ fault. (asker : ProcessState) →
        option_map fault_seen fault ≡ process_fault (world_of world.now) asker (CopyAs new)) }
{
    if world.process(new).is_some() {
        return Ok(Some(Fault::NumberTaken(new)));
    }
    if world.numbers(alloc)?.len() < MOST_PROCESSES {
        Ok(None)
    } else {
        Ok(Some(Fault::NoProcessLeft))
    }
}

fn is_unknown(given: &Given) -> bool
    ensures { result ≡ is_unknown given.now }
{
    matches!(given, Given::Unknown)
}

fn given_set(given: &Given) -> Option<Promises>
    ensures { result ≡ given_set given.now }
{
    match *given {
        Given::Good(promises) => Some(promises),
        Given::Null | Given::Unknown => None,
    }
}
