//! What calls are on, and what they do.

use pua_calls::{Call, Effect, Misfit};
use pua_path::Errno;
use pua_tree::Kind;

/// A directory is made by mkdir.
fn mkdir_makes_nothing() {
    if !Call::Mkdir.effect().makes() {
        unreachable!()
    }
}

/// What makes a name doesn't take it away.
fn maker_removes() {
    if Effect::Makes(Kind::File).removes() {
        unreachable!()
    }
}

/// What only looks makes no name.
fn look_makes() {
    if Effect::Looks.makes() {
        unreachable!()
    }
}

/// To take a name away is an edit.
fn removal_is_no_edit() {
    if !Effect::Removes.edits() {
        unreachable!()
    }
}

/// What is wrong with a file for chdir is that it is no directory.
fn files_suit_as_directories() {
    if Call::Chdir.fits().file.is_none() {
        unreachable!()
    }
}

/// A file that is only looked at becomes no program by it.
fn stat_turns() {
    if Call::Stat.turns() {
        unreachable!()
    }
}

/// Where nothing has a name, that is ENOENT.
fn missing_as_no_directory() {
    if Misfit::Missing.errno() != Errno::ENOENT {
        unreachable!()
    }
}
