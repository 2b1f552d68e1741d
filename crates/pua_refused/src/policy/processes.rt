//! What a process is from its beginning to its end.

use pua_calls::Promises;
use pua_policy::Process;
use std::alloc::Global;

/// A new process holds every promise but `error`.
fn held_without_a_pledge_is_none(alloc: Global) {
    let Ok(process) = Process::new(alloc) else {
        return;
    };
    if process.held() != Promises::ALL_BUT_ERROR {
        unreachable!()
    }
}

/// A new process has no execpromises, rather than an empty set of them.
fn unset_execpromises_empty(alloc: Global) {
    let Ok(process) = Process::new(alloc) else {
        return;
    };
    if process.execpromises().is_some() {
        unreachable!()
    }
}

/// A new process has no veil.
fn veil_taken_for_none(alloc: Global) {
    let Ok(process) = Process::new(alloc) else {
        return;
    };
    if process.is_veiled() {
        unreachable!()
    }
}

/// A new process is not locked.
fn new_process_locked(alloc: Global) {
    let Ok(process) = Process::new(alloc) else {
        return;
    };
    if process.locked() {
        unreachable!()
    }
}

/// A new process has not ended.
fn ended_turned(alloc: Global) {
    let Ok(process) = Process::new(alloc) else {
        return;
    };
    if process.ended() {
        unreachable!()
    }
}

/// A process that was ended has ended.
fn end_forgotten(alloc: Global) {
    let Ok(mut process) = Process::new(alloc) else {
        return;
    };
    process.end();
    if !process.ended() {
        unreachable!()
    }
}
