//! Promises.

use pua_calls::Promises;
use std::alloc::Global;

/// The fourth keyword, `cpath`, has the fourth bit of a number.
fn promises_bits_shifted() {
    if Promises::CPATH.bits() != 8 {
        unreachable!()
    }
}

/// Promises contain others only where they have each of them.
fn promises_contain_some() {
    if Promises::RPATH.contains(Promises::RPATH.union(Promises::WPATH)) {
        unreachable!()
    }
}

/// A union of promises has those of either.
fn promises_union_forgets_the_others() {
    if Promises::NONE.union(Promises::RPATH) != Promises::RPATH {
        unreachable!()
    }
}

/// An intersection of promises has none that only one of the sets has.
fn promises_meet_takes_the_others() {
    if Promises::NONE.intersection(Promises::RPATH) != Promises::NONE {
        unreachable!()
    }
}

/// The empty set of promises stays empty without those of another.
fn lacking_promises_turned() {
    if Promises::NONE.without(Promises::RPATH) != Promises::NONE {
        unreachable!()
    }
}

/// The empty set of promises has not even the first keyword.
fn promises_keyword_of_others() {
    if Promises::NONE.keyword(0).is_some() {
        unreachable!()
    }
}

/// The empty set of promises has no keywords.
fn names_of_others(alloc: Global) {
    let Ok(names) = Promises::NONE.names(alloc) else {
        return;
    };
    if !names.is_empty() {
        unreachable!()
    }
}
