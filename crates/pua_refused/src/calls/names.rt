//! Names and numbers of calls.

use pua_calls::{Call, MOST_CALL_LINE};

/// To open for writing alone has its own name.
fn names_swapped() {
    if Call::OpenWrite.name() != "open-w" {
        unreachable!()
    }
}

/// A word that is no name of a call is read as none.
fn call_read_by_length() {
    if Call::read(b"abcd").is_some() {
        unreachable!()
    }
}

/// Stat is the first of the calls.
fn numbers_swapped() {
    if Call::Stat.number() != 1 {
        unreachable!()
    }
}

/// The line of a call has its name after a blank, and is as long as each other one.
fn line_of_a_longer_name() {
    let line = Call::Stat.line();
    if line.len() != MOST_CALL_LINE || line[1] != b's' {
        unreachable!()
    }
}
