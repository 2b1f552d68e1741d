//! Of worlds: their processes, their table, and what a refused growth leaves of them.

use pua_calls::{CallTable, ExecPromises};
use pua_script::{Action, Answer, MOST_PROCESSES, Request, World, read_script};
use pua_tree::{FileTree, ListTree, Name, NodeId, SlabTree};
use std::alloc::Global;

/// A world keeps the table that it is given.
fn always_the_standard_table(alloc: Global, tree: ListTree) {
    let Ok(world) = World::new(alloc, tree, CallTable::openbsd()) else {
        return;
    };
    if let ExecPromises::Unset = world.table().execpromises() {
        unreachable!()
    }
}

/// A new world has process 1.
fn first_process_is_two(alloc: Global, tree: ListTree) {
    let Ok(world) = World::new(alloc, tree, CallTable::standard()) else {
        return;
    };
    if world.process(1).is_none() {
        unreachable!()
    }
}

/// A copy has the processes that the world has.
fn copy_without_processes(world: &World<SlabTree>, number: u32) {
    let Ok(copy) = world.copy() else {
        return;
    };
    if copy.process(number).is_some() != world.process(number).is_some() {
        unreachable!()
    }
}

/// Where memory is refused no process is made.
fn fork_counted_before_its_copy(world: &mut World<ListTree>, request: &Request, number: u32) {
    let before = world.process(number).is_some();
    let Err(_refused) = world.apply(request) else {
        return;
    };
    if world.process(number).is_some() != before {
        unreachable!()
    }
}

/// Where memory is refused each row stays.
fn refused_rename_takes_row(
    world: &mut World<ListTree>,
    request: &Request,
    dir: NodeId,
    name: &Name,
) {
    let before = world.tree().look(dir, name);
    let Err(_refused) = world.apply(request) else {
        return;
    };
    if world.tree().look(dir, name) != before {
        unreachable!()
    }
}

/// Where memory is refused no process is locked.
fn refused_unveil_locks(world: &mut World<ListTree>, request: &Request, number: u32) {
    let before = match world.process(number) {
        Some(process) => process.locked(),
        None => return,
    };
    let Err(_refused) = world.apply(request) else {
        return;
    };
    let Some(process) = world.process(number) else {
        unreachable!()
    };
    if process.locked() != before {
        unreachable!()
    }
}

/// Where memory is refused no descriptor stands for what it didn't.
fn refused_hold_opens(world: &mut World<ListTree>, request: &Request, process: u32, number: u32) {
    let before = match world.process(process) {
        Some(process) => process.file(number).is_some(),
        None => return,
    };
    let Err(_refused) = world.apply(request) else {
        return;
    };
    let Some(process) = world.process(process) else {
        unreachable!()
    };
    if process.file(number).is_some() != before {
        unreachable!()
    }
}

/// The numbers of a new world are not none: process 1 is made.
fn last_number_left_out(alloc: Global, tree: ListTree) {
    let Ok(world) = World::new(alloc, tree, CallTable::standard()) else {
        return;
    };
    let Ok(numbers) = world.numbers(alloc) else {
        return;
    };
    if numbers.is_empty() {
        unreachable!()
    }
}

/// Each request of a script is answered.
fn nothing_told(alloc: Global, tree: ListTree) {
    let Ok(script) = read_script(alloc, b"1 exit\n") else {
        return;
    };
    let Ok(mut world) = World::new(alloc, tree, CallTable::standard()) else {
        return;
    };
    let Ok(answers) = world.run(alloc, &script) else {
        return;
    };
    if answers.is_empty() {
        unreachable!()
    }
}

/// Where 256 processes were made, no other one is.
fn process_257_made(alloc: Global, world: &mut World<ListTree>, request: &Request) {
    let Ok(numbers) = world.numbers(alloc) else {
        return;
    };
    if numbers.len() < MOST_PROCESSES {
        return;
    }
    let Action::Fork(_) = request.action() else {
        return;
    };
    if let Ok(Answer::Okay) = world.apply(request) {
        unreachable!()
    }
}
