//! Execs: by what all that a process starts is bounded, and which calls it and they have.

ghost use Rattle.std.specs.Prelude.{◌≡◌, ◌||◌, None, IfOk, MatchOption};
ghost use Rattle.pua_calls.specs.CallSets.{has};
ghost use Rattle.pua_calls.specs.declared.call.Call.{Call as AnyCall};
ghost use Rattle.pua_ever.specs.BoundedExec.{IsBoundedExec};
ghost use Rattle.pua_ever.specs.Through.{bound_of, is_promised_by};
ghost use Rattle.pua_ever.specs.Through.{is_promised_by_one as promised_by_either};
ghost use Rattle.pua_ever.specs.Through.{is_bounded as bounds, is_confined_through};

use pua_calls::{Call, CallTable, Calls, ExecPromises, Promises};
use pua_policy::Process;
use pua_tree::OutOfMemory;
use std::alloc::Global;

/// Whose list is the one through execs: a process with the same veils, locked, that holds what the
/// process held and what it hands down; and the calls that one of both sets lets through, with
/// which its lines are let through.
#[derive(Drop)]
pub struct BoundedExec {
    /// The process that holds both sets.
    pub process: Process,
    /// The calls that one of both sets lets through.
    pub passes: Calls,
}

/// Finds whose list holds through execs, where all that a process starts is bounded; None where it
/// isn't. The only error is that a growth was refused.
pub fn bounded_exec(
    alloc: Global,
    process: &Process,
    table: &CallTable,
) -> Result<Option<BoundedExec>, OutOfMemory>
    ensures { IfOk result (λ found. MatchOption found (bound_of table.now process.now
        ≡ None) (IsBoundedExec table.now process.now)) }
{
    let Some(given) = bound(process, table) else {
        return Ok(None);
    };
    let mut both = process.with_both(alloc, given)?;
    both.lock();
    Ok(Some(BoundedExec {
        process: both,
        passes: promised_by_one(process, table, given),
    }))
}

/// The execpromises by which all that a process starts is bounded, whatever the programs do; None
/// where it isn't: none were given, or by the table they are unset and such a program may start
/// another, or the process isn't locked and such a program may unveil.
pub fn bound(process: &Process, table: &CallTable) -> Option<Promises>
    ensures { result ≡ bound_of table.now process.now }
{
    let Some(given) = process.execpromises() else {
        return None;
    };
    if is_bounded(table, given) && is_confined(process, given) {
        Some(given)
    } else {
        None
    }
}

/// Whether a program that is started with these promises keeps its execpromises, or can start none.
fn is_bounded(table: &CallTable, given: Promises) -> bool
    ensures { result ≡ bounds table.now given }
{
    match table.execpromises() {
        ExecPromises::Stay => true,
        ExecPromises::Unset => !is_promised(table, given, Call::Exec),
    }
}

/// Whether neither a process nor a program that it starts can put a veil.
fn is_confined(process: &Process, given: Promises) -> bool
    ensures { result ≡ is_confined_through process.now given }
{
    process.locked()
        || !process.held().contains(Promises::UNVEIL) && !given.contains(Promises::UNVEIL)
}

/// Whether a set of promises lets a call through.
pub(crate) fn is_promised(table: &CallTable, set: Promises, call: Call) -> bool
    ensures { result ≡ is_promised_by table.now set call }
{
    table
        .alternatives(call)
        .iter()
        .any(|needed| set.contains(*needed))
}

/// Whether one of two sets of promises lets a call through.
fn is_promised_by_one(table: &CallTable, held: Promises, given: Promises, call: Call) -> bool
    ensures { result ≡ (is_promised_by table.now held call || is_promised_by table.now given call) }
{
    is_promised(table, held, call) || is_promised(table, given, call)
}

/// The calls that one of two sets of promises lets through.
fn promised(table: &CallTable, held: Promises, given: Promises) -> Calls
    ensures { (call : AnyCall) → has result call
        ≡ (is_promised_by table.now held call || is_promised_by table.now given call) }
{
    let mut calls = Calls::NONE;
    for call in Call::ALL {
        if is_promised_by_one(table, held, given, call) {
            calls = calls.with(call);
        }
    }
    calls
}

/// The calls that are let through by what a process holds, or by what it hands down.
fn promised_by_one(process: &Process, table: &CallTable, given: Promises) -> Calls
    ensures { (call : AnyCall) → has result call
        ≡ promised_by_either table.now process.now given call }
{
    promised(table, process.held(), given)
}
