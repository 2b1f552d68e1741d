//! What an exec and a fork keep of a process.

use pua_calls::{ExecPromises, Perms, Promises, Rules};
use pua_policy::{May, Place, Process};
use pua_tree::NodeId;
use std::alloc::Global;

/// An exec without execpromises drops the veils.
fn exec_keeps_veils(alloc: Global) {
    let Ok(mut process) = Process::new(alloc) else {
        return;
    };
    let place = Place::Dir(NodeId::ROOT);
    let Ok(()) = process.unveil_at(place, Perms::READ) else {
        return;
    };
    process.exec_into();
    if process.kept(&place).is_some() {
        unreachable!()
    }
}

/// The working directory stays in an exec.
fn exec_loses_directory(alloc: Global) {
    let Ok(mut process) = Process::new(alloc) else {
        return;
    };
    process.set_dir(NodeId::new(7));
    process.exec_into();
    if process.start().dir.number() != 7 {
        unreachable!()
    }
}

/// Where the execpromises name `error`, it is held after an exec.
fn exec_drops_error(alloc: Global) {
    let Ok(mut process) = Process::new(alloc) else {
        return;
    };
    let Ok(()) = process.pledge(Rules::Standard, None, Some(Promises::ERROR)) else {
        unreachable!()
    };
    process.exec_into();
    if process.may(Promises::RPATH) != May::Enosys {
        unreachable!()
    }
}

/// Execpromises are unset by the exec that takes them.
fn exec_leaves_execpromises(alloc: Global) {
    let Ok(mut process) = Process::new(alloc) else {
        return;
    };
    let Ok(()) = process.pledge(Rules::Standard, None, Some(Promises::RPATH)) else {
        unreachable!()
    };
    process.exec_into();
    if process.execpromises().is_some() {
        unreachable!()
    }
}

/// Execpromises that stay are those of the program that is started.
fn execpromises_unset(alloc: Global) {
    let Ok(mut process) = Process::new(alloc) else {
        return;
    };
    let Ok(()) = process.pledge(Rules::Standard, None, Some(Promises::RPATH)) else {
        unreachable!()
    };
    process.exec_by(ExecPromises::Stay);
    if process.execpromises() != Some(Promises::RPATH) {
        unreachable!()
    }
}

/// A fork's copy keeps the lock.
fn fork_loses_lock(alloc: Global) {
    let Ok(mut process) = Process::new(alloc) else {
        return;
    };
    process.lock();
    let Ok(copy) = process.fork(alloc) else {
        return;
    };
    if !copy.locked() {
        unreachable!()
    }
}

/// A process that holds both sets holds what was handed down too.
fn handed_down_forgotten(alloc: Global) {
    let Ok(mut process) = Process::new(alloc) else {
        return;
    };
    let Ok(()) = process.pledge(Rules::Standard, Some(Promises::RPATH), None) else {
        unreachable!()
    };
    let Ok(both) = process.with_both(alloc, Promises::CPATH) else {
        return;
    };
    if both.may(Promises::CPATH) != May::Yes {
        unreachable!()
    }
}
