//! The functions of `calling`, over a small site.

use crate::calling::{Served, ask, can_ever_start, can_touch, is_reached, list, read, replay};
use anyhow::Result;
use pua_calls::{Call, CallTable};
use pua_examples_trees::told::tell_expected;
use pua_path::Errno;
use pua_policy::{Process, Verdict};
use pua_script::Answer;
use pua_tool::{Processes, ToolFault, WriteFault};
use pua_tree::SlabTree;
use std::alloc::Global;

/// A site, and a key beside it.
const SITE: &[u8] = b"tree 1\n0 dir\n1 dir 0 www\n2 dir 1 site\n3 file 2 index\n4 file 1 key\n";

/// A server that reads the site, and a child that has ended.
const SERVER: &[u8] =
    b"1 unveil /www/site r\n1 unveil - -\n1 pledge stdio,rpath,proc -\n1 fork 2\n2 exit\n";

/// How the list of process 2 begins.
const FRONT: &[u8] = b"1 ok\n2 ok\n3 ok\n4 ok\n5 ok\nobjects 2\n";

/// Prints whether a caller of each library is answered as expected.
pub(crate) fn run(rt: &HostRuntime) -> Result<()> {
    let is_called = is_replay_asked(rt.alloc())? && is_list_written(rt.alloc())?;
    tell_expected(rt, "a caller of each library", is_called)?;
    let is_told = are_faults_told(rt.alloc())?;
    tell_expected(rt, "faults that no text of a table brings", is_told)
}

/// Whether these are reported for the faults of a table whose calls no text of a table can name.
fn are_faults_told(alloc: Global) -> Result<bool> {
    let rename = format!(in alloc; "{}", ToolFault::RenameLacksC)?;
    let link = format!(in alloc; "{}", ToolFault::LinkLacksC)?;
    Ok(rename.as_str() == "pua: table: rename: no c" && link.as_str() == "pua: table: link: no c")
}

/// Whether the answers to a server and its child say what they may do.
fn is_replay_asked(alloc: Global) -> Result<bool> {
    let (tree, script) = read(alloc, SITE, SERVER)?;
    let served = replay(alloc, tree, &script)?;
    are_told(alloc, &served)
}

/// Whether both are there, and so is the answer.
fn are_told(alloc: Global, served: &Served) -> Result<bool> {
    let (Some(server), Some(child)) = (served.world.process(1), served.world.process(2)) else {
        return Ok(false);
    };
    let is_server_told = is_server_told(alloc, served, server)?;
    let touches = can_touch(alloc, served.world.tree(), child, served.world.table())?;
    let are_okay = served.answers.as_slice() == [Answer::Okay; 5].as_slice();
    Ok(are_okay && is_server_told && !touches)
}

/// Whether the server may read the site, and neither read the key nor write.
fn is_server_told(alloc: Global, served: &Served, server: &Process) -> Result<bool> {
    let (tree, table) = (served.world.tree(), served.world.table());
    let index = ask(tree, server, table, Call::OpenRead, b"/www/site/index");
    let key = ask(tree, server, table, Call::OpenRead, b"/www/key");
    let are_asked = index == Verdict::Allowed && key == Verdict::Failed(Errno::ENOENT);
    let starts = can_ever_start(alloc, tree, server, table).ok() == Some(false);
    Ok(may_only_read(alloc, tree, server, table)? && are_asked && starts)
}

/// Whether a process can touch something, and may read and not write.
fn may_only_read(
    alloc: Global,
    tree: &SlabTree,
    process: &Process,
    table: &CallTable,
) -> Result<bool> {
    let may_read = is_reached(alloc, tree, process, table, 3, Call::OpenRead)?;
    let may_write = is_reached(alloc, tree, process, table, 3, Call::OpenWrite)?;
    Ok(can_touch(alloc, tree, process, table)? && may_read && !may_write)
}

/// Whether the child's list is written, and none of a process that was never made.
fn is_list_written(alloc: Global) -> Result<bool> {
    let sink = list(alloc, SITE, SERVER, Processes::One(2), 1000)?;
    Ok(sink.bytes().starts_with(FRONT) && is_none_written(alloc))
}

fn is_none_written(alloc: Global) -> bool {
    let none = list(alloc, SITE, SERVER, Processes::One(3), 1000);
    none.err() == Some(WriteFault::NoText(ToolFault::NoProcess))
}
