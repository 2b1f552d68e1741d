//! How tables of calls are read. The texts are those of the library's worked examples, which are
//! its contract's word on what a text gives.

use pua_calls::{Call, CallTable, Perms, TableFault, table_examples};
use std::alloc::Global;

/// Calls that a text doesn't name need what the standard table says.
fn unnamed_calls_need_nothing(alloc: Global) {
    table_examples();
    let Ok(table) = CallTable::read(alloc, b"") else {
        return;
    };
    if table.perms(Call::Stat) != Perms::READ {
        unreachable!()
    }
}

/// A row that has two alternatives gives both.
fn first_alternative_alone(alloc: Global) {
    table_examples();
    let text = b"[mkdir]\npromises = [\"cpath\", \"\"]\nveil = \"c\"\n";
    let Ok(table) = CallTable::read(alloc, text) else {
        return;
    };
    if table.alternatives(Call::Mkdir).len() != 2 {
        unreachable!()
    }
}

/// An alternative with `error` is refused.
fn error_among_alternatives(alloc: Global) {
    table_examples();
    let text = b"[stat]\npromises = [\"rpath,error\"]\nveil = \"r\"\n";
    if let Ok(_) = CallTable::read(alloc, text) {
        unreachable!()
    }
}

/// A row has 8 alternatives at most.
fn nine_alternatives_taken(alloc: Global) {
    table_examples();
    let text = b"[stat]\npromises = ['','','','','','','','','']\nveil = ''\n";
    if let Ok(_) = CallTable::read(alloc, text) {
        unreachable!()
    }
}

/// A row has an alternative.
fn no_alternatives_taken(alloc: Global) {
    table_examples();
    if let Ok(_) = CallTable::read(alloc, b"[stat]\npromises = []\nveil = ''\n") {
        unreachable!()
    }
}

/// A row has no key but `promises` and `veil`.
fn row_with_further_keys(alloc: Global) {
    table_examples();
    let text = b"[stat]\npromises = ['']\nveil = ''\nx = 1\n";
    if let Ok(_) = CallTable::read(alloc, text) {
        unreachable!()
    }
}

/// The fault of an earlier row comes before that of a later key.
fn keys_before_rows(alloc: Global) {
    table_examples();
    if let Err(TableFault::BadKey) = CallTable::read(alloc, b"unknown = 1\nstat = 1\n") {
        unreachable!()
    }
}

/// Where memory is refused, the text isn't called bad.
fn full_memory_is_bad_toml(alloc: Global) {
    table_examples();
    if let Err(TableFault::BadToml) = CallTable::read(alloc, b"unknown = 1\nstat = 1\n") {
        unreachable!()
    }
}

/// The fault of a row's promises comes before that of its veil.
fn veil_before_promises(alloc: Global) {
    table_examples();
    let text = b"[stat]\npromises = [\"zpath\"]\nveil = \"q\"\n";
    if let Err(TableFault::BadVeil(_)) = CallTable::read(alloc, text) {
        unreachable!()
    }
}
