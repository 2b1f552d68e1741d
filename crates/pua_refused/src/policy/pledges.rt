//! What pledges leave to a process.

use pua_calls::{Promises, Rules};
use pua_policy::{May, Process};
use std::alloc::Global;

/// With `error`, a call without its promises fails, and the process lives.
fn death_for_enosys(alloc: Global) {
    let Ok(mut process) = Process::new(alloc) else {
        return;
    };
    let Ok(()) = process.pledge(Rules::Standard, Some(Promises::ERROR), None) else {
        unreachable!()
    };
    if process.may_any(&[Promises::WPATH]) != May::Enosys {
        unreachable!()
    }
}

/// A new process doesn't hold `error`.
fn error_held_before_it_is_named(alloc: Global) {
    let Ok(process) = Process::new(alloc) else {
        return;
    };
    if process.may(Promises::ERROR) != May::Death {
        unreachable!()
    }
}

/// A process may do what needs one of two sets of promises, of which it holds one.
fn asks_for_all_alternatives(alloc: Global) {
    let Ok(process) = Process::new(alloc) else {
        return;
    };
    if process.may_any(&[Promises::RPATH, Promises::ERROR]) != May::Yes {
        unreachable!()
    }
}

/// The promises that are held may be pledged again.
fn equal_promises_refused(alloc: Global) {
    let Ok(mut process) = Process::new(alloc) else {
        return;
    };
    let Ok(()) = process.pledge(Rules::Standard, Some(Promises::RPATH), None) else {
        unreachable!()
    };
    let Ok(()) = process.pledge(Rules::Standard, Some(Promises::RPATH), None) else {
        unreachable!()
    };
}

/// A pledge of promises leaves promises, whatever the execpromises are.
fn promises_are_execpromises(alloc: Global) {
    let Ok(mut process) = Process::new(alloc) else {
        return;
    };
    let Ok(()) = process.pledge(Rules::Standard, Some(Promises::RPATH), None) else {
        unreachable!()
    };
    if process.promises().is_none() {
        unreachable!()
    }
}

/// A refused pledge changes nothing, also where one of its arguments is within bounds.
fn refused_pledge_narrows(alloc: Global) {
    let Ok(mut process) = Process::new(alloc) else {
        return;
    };
    let Ok(()) = process.pledge(Rules::Standard, Some(Promises::RPATH), None) else {
        unreachable!()
    };
    let Err(_) = process.pledge(Rules::Standard, Some(Promises::WPATH), Some(Promises::NONE)) else {
        unreachable!()
    };
    if process.execpromises().is_some() {
        unreachable!()
    }
}

/// `error` among the execpromises lets no request for more of them through.
fn execpromises_error_decides(alloc: Global) {
    let Ok(mut process) = Process::new(alloc) else {
        return;
    };
    let Ok(()) = process.pledge(Rules::Standard, None, Some(Promises::ERROR)) else {
        unreachable!()
    };
    if let Ok(()) = process.pledge(Rules::Standard, None, Some(Promises::RPATH)) {
        unreachable!()
    }
}

/// With `error`, a pledge of what was not held gives nothing back.
fn error_takes_request_as_it_stands(alloc: Global) {
    let Ok(mut process) = Process::new(alloc) else {
        return;
    };
    let Ok(()) = process.pledge(Rules::Standard, Some(Promises::ERROR), None) else {
        unreachable!()
    };
    let Ok(()) = process.pledge(Rules::Standard, Some(Promises::WPATH), None) else {
        unreachable!()
    };
    if process.may(Promises::WPATH) == May::Yes {
        unreachable!()
    }
}
