//! Whether a process holds what is needed.

use pua_calls::{Call, CallTable, Promises};
use pua_policy::Process;
use pua_policy::judge::{promised, promised_for};
use std::alloc::Global;

/// A process that has ended holds no promise.
fn death_refuses_nothing(alloc: Global) {
    let Ok(mut process) = Process::new(alloc) else {
        return;
    };
    process.end();
    if let Ok(()) = promised(&process, Promises::RPATH) {
        unreachable!()
    }
    if let Ok(()) = promised_for(&process, &CallTable::standard(), Call::Stat) {
        unreachable!()
    }
}

/// A new process is refused what needs `error`.
fn promised_without_promises(alloc: Global) {
    let Ok(process) = Process::new(alloc) else {
        return;
    };
    if let Ok(()) = promised(&process, Promises::ERROR) {
        unreachable!()
    }
}

/// A new process holds what stat needs: all promises of one of its alternatives.
fn promised_by_no_alternative(alloc: Global) {
    let Ok(process) = Process::new(alloc) else {
        return;
    };
    if let Err(_) = promised_for(&process, &CallTable::standard(), Call::Stat) {
        unreachable!()
    }
}
