//! The calls that are allowed.

use pua_calls::{Call, CallTable, Perms, table_examples};
use pua_policy::judge::allowed;
use pua_policy::{AllowedCalls, Cover, Object, Process};
use pua_tree::{FileType, Kind};
use std::alloc::Global;

/// Of the calls that are allowed on a file the first is among them, as the last is.
fn allowed_calls_forgotten(alloc: Global) {
    let Ok(process) = Process::new(alloc) else {
        return;
    };
    let calls = allowed(
        &process,
        &CallTable::standard(),
        Cover::All,
        Object::Node(Kind::File),
    );
    if !calls.contains(Call::Stat) {
        unreachable!()
    }
}

/// A call isn't allowed where the veils leave no permission that it needs.
fn allowed_without_permissions(alloc: Global) {
    let Ok(process) = Process::new(alloc) else {
        return;
    };
    let calls = allowed(
        &process,
        &CallTable::standard(),
        Cover::Only(Perms::NONE),
        Object::Node(Kind::File),
    );
    if calls.contains(Call::Stat) {
        unreachable!()
    }
}

/// A process that has ended is allowed no call.
fn allowed_without_promises(alloc: Global) {
    let Ok(mut process) = Process::new(alloc) else {
        return;
    };
    process.end();
    let calls = allowed(
        &process,
        &CallTable::standard(),
        Cover::All,
        Object::Node(Kind::File),
    );
    if calls.contains(Call::Stat) {
        unreachable!()
    }
}

/// Nothing connects to what is known to be a plain file.
fn connected_to_plain_file(alloc: Global) {
    let Ok(process) = Process::new(alloc) else {
        return;
    };
    let calls = allowed(
        &process,
        &CallTable::openbsd(),
        Cover::All,
        Object::Node(Kind::Known(FileType::Plain)),
    );
    if calls.contains(Call::Connect) {
        unreachable!()
    }
}

/// A fifo isn't started.
fn fifo_started(alloc: Global) {
    let Ok(process) = Process::new(alloc) else {
        return;
    };
    let calls = allowed(
        &process,
        &CallTable::standard(),
        Cover::All,
        Object::Node(Kind::Known(FileType::Fifo)),
    );
    if calls.contains(Call::Exec) {
        unreachable!()
    }
}

/// A directory that has rows isn't removed.
fn full_directory_removed(alloc: Global) {
    let Ok(process) = Process::new(alloc) else {
        return;
    };
    let calls = allowed(
        &process,
        &CallTable::standard(),
        Cover::All,
        Object::Node(Kind::Dir),
    );
    if calls.contains(Call::Rmdir) {
        unreachable!()
    }
}

/// The permissions that a call needs are those of the table that is given.
fn permissions_of_another_table(alloc: Global) {
    let Ok(process) = Process::new(alloc) else {
        return;
    };
    table_examples();
    let text = b"[stat]\npromises = [\"\"]\nveil = \"\"\n";
    let Ok(table) = CallTable::read(alloc, text) else {
        return;
    };
    let calls = AllowedCalls::new(&process, &table).on(
        Cover::Only(Perms::NONE),
        Object::Node(Kind::File),
    );
    if !calls.contains(Call::Stat) {
        unreachable!()
    }
}

/// No call opens a socket.
fn socket_opened(alloc: Global) {
    let Ok(process) = Process::new(alloc) else {
        return;
    };
    let allowed = AllowedCalls::new(&process, &CallTable::standard());
    if allowed
        .on(Cover::All, Object::Node(Kind::Known(FileType::Sock)))
        .contains(Call::OpenRead)
    {
        unreachable!()
    }
}

/// On what no veil covers stat is not allowed.
fn uncovered_allowed_all(alloc: Global) {
    let Ok(process) = Process::new(alloc) else {
        return;
    };
    let allowed = AllowedCalls::new(&process, &CallTable::standard());
    if allowed
        .on(Cover::Nothing, Object::Node(Kind::File))
        .contains(Call::Stat)
    {
        unreachable!()
    }
}
