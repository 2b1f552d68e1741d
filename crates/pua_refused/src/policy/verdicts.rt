//! Verdicts.

use pua_calls::{Call, CallTable};
use pua_path::{Errno, Found, Probe, Way};
use pua_policy::judge::{verdict, verdict_of};
use pua_policy::{Process, Verdict};
use pua_tree::NodeId;
use std::alloc::Global;

/// The root, as a path without parts names it.
const ROOT: Found = Found::Whole {
    dir: NodeId::ROOT,
    way: Way::Top,
};

/// A call that is allowed does not end the process.
fn allowed_call_kills<'t, P: Probe<'t>>(alloc: Global, probe: &mut P) {
    let Ok(process) = Process::new(alloc) else {
        return;
    };
    probe.known();
    let table = CallTable::standard();
    if let Verdict::Death = verdict(probe, &process, &table, Call::Stat, &ROOT) {
        unreachable!()
    }
}

/// A call of a process that has ended is answered by its end, and by no error.
fn killed_is_a_failure<'t, P: Probe<'t>>(alloc: Global, probe: &mut P) {
    let Ok(mut process) = Process::new(alloc) else {
        return;
    };
    process.end();
    probe.known();
    let table = CallTable::standard();
    if let Verdict::Failed(_) = verdict(probe, &process, &table, Call::Stat, &ROOT) {
        unreachable!()
    }
}

/// A call whose path failed fails by the error of its path.
fn path_fault_is_enoent<'t, P: Probe<'t>>(alloc: Global, probe: &mut P) {
    let Ok(process) = Process::new(alloc) else {
        return;
    };
    let table = CallTable::standard();
    let fault = Err(Errno::ENOTDIR);
    if let Verdict::Failed(Errno::ENOENT) = verdict_of(probe, &process, &table, Call::Stat, fault) {
        unreachable!()
    }
}

/// A directory isn't opened for writing.
fn open_for_writing_of_directory_allowed<'t, P: Probe<'t>>(alloc: Global, probe: &mut P) {
    let Ok(process) = Process::new(alloc) else {
        return;
    };
    probe.known();
    let table = CallTable::standard();
    if let Verdict::Allowed = verdict(probe, &process, &table, Call::OpenWrite, &ROOT) {
        unreachable!()
    }
}

/// Unlink removes no directory.
fn unlink_of_directory_allowed<'t, P: Probe<'t>>(alloc: Global, probe: &mut P) {
    let Ok(process) = Process::new(alloc) else {
        return;
    };
    probe.known();
    let table = CallTable::standard();
    if let Verdict::Allowed = verdict(probe, &process, &table, Call::Unlink, &ROOT) {
        unreachable!()
    }
}

/// A directory isn't removed by the name `.`.
fn rmdir_of_dot_allowed<'t, P: Probe<'t>>(alloc: Global, probe: &mut P) {
    let Ok(process) = Process::new(alloc) else {
        return;
    };
    probe.known();
    let found = Found::Whole {
        dir: NodeId::ROOT,
        way: Way::Dot,
    };
    let table = CallTable::standard();
    if let Verdict::Allowed = verdict(probe, &process, &table, Call::Rmdir, &found) {
        unreachable!()
    }
}
