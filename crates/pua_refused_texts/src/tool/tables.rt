//! Wrong bodies of `pua_tool` by the text of a table that is none.

use pua_calls::table_examples;
use pua_tool::{MemorySink, ToolFault, WriteFault, run_to};
use std::alloc::Global;

/// A script is not served by a text of a table that is no TOML.
fn table_ignored(alloc: Global, tree: &[u8], script: &[u8]) {
    table_examples();
    let Ok(mut sink) = MemorySink::new(alloc, 9) else {
        return;
    };
    if run_to(alloc, tree, script, Some(b"[stat\n"), &mut sink).is_ok() {
        unreachable!()
    }
}

/// The table's fault is answered before that of the listing.
fn table_judged_after_listing(alloc: Global, tree: &[u8], script: &[u8]) {
    table_examples();
    let Ok(mut sink) = MemorySink::new(alloc, 9) else {
        return;
    };
    let Err(fault) = run_to(alloc, tree, script, Some(b"[stat\n"), &mut sink) else {
        return;
    };
    let WriteFault::NoText(fault) = fault else {
        return;
    };
    if let ToolFault::Listing(_) = fault {
        unreachable!()
    }
}
