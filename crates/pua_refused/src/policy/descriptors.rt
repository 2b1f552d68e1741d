//! What a process has open.

use pua_calls::{ExecPromises, Perms, Promises, Rules};
use pua_policy::{OpenFile, Process};
use pua_tree::{Kind, NodeId};
use std::alloc::Global;

/// A file that was opened to read.
const READ: OpenFile = OpenFile {
    node: NodeId::ROOT,
    kind: Kind::File,
    letters: Perms::READ,
};

/// The same file, opened to write.
const WRITTEN: OpenFile = OpenFile {
    node: NodeId::ROOT,
    kind: Kind::File,
    letters: Perms::WRITE,
};

/// What is open stays so in an exec.
fn exec_closes_files(alloc: Global) {
    let Ok(mut process) = Process::new(alloc) else {
        return;
    };
    let Ok(()) = process.open_at(3, READ) else {
        return;
    };
    process.exec_into();
    if process.file(3).is_none() {
        unreachable!()
    }
}

/// So it does where execpromises were given.
fn exec_with_execpromises_closes_files(alloc: Global) {
    let Ok(mut process) = Process::new(alloc) else {
        return;
    };
    let Ok(()) = process.pledge(Rules::Openbsd, None, Some(Promises::RPATH)) else {
        unreachable!()
    };
    let Ok(()) = process.open_at(3, READ) else {
        return;
    };
    process.exec_by(ExecPromises::Stay);
    if process.file(3).is_none() {
        unreachable!()
    }
}

/// A fork's copy has open what was.
fn fork_closes_files(alloc: Global) {
    let Ok(mut process) = Process::new(alloc) else {
        return;
    };
    let Ok(()) = process.open_at(3, READ) else {
        return;
    };
    let Ok(copy) = process.fork(alloc) else {
        return;
    };
    if copy.file(3).is_none() {
        unreachable!()
    }
}

/// A descriptor stands for what was opened last.
fn first_file_stays(alloc: Global) {
    let Ok(mut process) = Process::new(alloc) else {
        return;
    };
    let Ok(()) = process.open_at(3, READ) else {
        return;
    };
    let Ok(()) = process.open_at(3, WRITTEN) else {
        return;
    };
    let Some(file) = process.file(3) else {
        unreachable!()
    };
    if file.letters != Perms::WRITE {
        unreachable!()
    }
}

/// Where memory is refused each descriptor stays what it was.
fn refused_open_closes(process: &mut Process, number: u32, other: u32) {
    let before = process.file(other).is_some();
    let Err(_refused) = process.open_at(number, READ) else {
        return;
    };
    if process.file(other).is_some() != before {
        unreachable!()
    }
}

/// What was opened as one descriptor is not open as another.
fn file_of_another_number(alloc: Global) {
    let Ok(mut process) = Process::new(alloc) else {
        return;
    };
    let Ok(()) = process.open_at(3, READ) else {
        return;
    };
    if process.file(4).is_some() {
        unreachable!()
    }
}

/// A descriptor that was closed stands for nothing.
fn closed_file_stays(alloc: Global) {
    let Ok(mut process) = Process::new(alloc) else {
        return;
    };
    let Ok(()) = process.open_at(3, READ) else {
        return;
    };
    process.close(3);
    if process.file(3).is_some() {
        unreachable!()
    }
}

/// A close is of one descriptor, and not of all that stand for the node, nor of the lowest one.
fn close_closes_others(alloc: Global) {
    let Ok(mut process) = Process::new(alloc) else {
        return;
    };
    let Ok(()) = process.open_at(3, READ) else {
        return;
    };
    let Ok(()) = process.open_at(4, READ) else {
        return;
    };
    process.close(4);
    if process.file(3).is_none() {
        unreachable!()
    }
}

/// What is open is lent.
fn no_files_lent(alloc: Global) {
    let Ok(mut process) = Process::new(alloc) else {
        return;
    };
    let Ok(()) = process.open_at(3, READ) else {
        return;
    };
    let Ok(files) = process.files(alloc) else {
        return;
    };
    if files.is_empty() {
        unreachable!()
    }
}

/// Promises are given by a pledge of promises alone, and not by one of execpromises.
fn pledged_before_promises(alloc: Global) {
    let Ok(mut process) = Process::new(alloc) else {
        return;
    };
    if process.is_pledged() {
        unreachable!()
    }
    let Ok(()) = process.pledge(Rules::Openbsd, None, Some(Promises::RPATH)) else {
        unreachable!()
    };
    if process.is_pledged() {
        unreachable!()
    }
    let Ok(()) = process.pledge(Rules::Openbsd, Some(Promises::NONE), None) else {
        unreachable!()
    };
    if !process.is_pledged() {
        unreachable!()
    }
}

/// A file is no directory.
fn file_is_a_directory() {
    if READ.is_directory() {
        unreachable!()
    }
}
