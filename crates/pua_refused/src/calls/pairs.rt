//! What rename and link need of their names.

use pua_calls::{CallTable, Perms};
use pua_path::Last;

/// The old name of link needs some promise.
fn name_needs_no_promise() {
    let table = CallTable::standard();
    if table.link().old_name().alternatives().is_empty() {
        unreachable!()
    }
}

/// By the standard table link keeps a link at its old path's end.
fn links_at_names_turned() {
    let table = CallTable::standard();
    if table.link().old_name().last() != Last::Kept {
        unreachable!()
    }
}

/// By OpenBSD's rules the new name of link is made, and not read.
fn new_name_needs_what_old_does() {
    let table = CallTable::openbsd();
    if table.link().new_name().perms() != Perms::CREATE {
        unreachable!()
    }
}

/// By OpenBSD's rules the old name of link is only read.
fn openbsd_link_takes_away() {
    let table = CallTable::openbsd();
    if table.link().old_name().perms() != Perms::READ {
        unreachable!()
    }
}

/// By OpenBSD's rules the old name of rename is read and taken away.
fn rename_needs_what_link_does() {
    let table = CallTable::openbsd();
    if table.rename().old_name().perms() != Perms::READ.union(Perms::CREATE) {
        unreachable!()
    }
}
