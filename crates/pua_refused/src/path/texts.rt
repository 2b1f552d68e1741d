//! Of texts, of errors, and of what is lent of what a path names.

use pua_path::{Ending, Errno, Found, LentFound, LentWay, PathText, Way, text_fault};
use pua_tree::NodeId;
use std::alloc::Global;

/// A path has 1,023 bytes at most.
fn path_of_1024_bytes() {
    if text_fault(&[b'/'; 1024]).is_none() {
        unreachable!()
    }
}

/// The bytes of a path are all of its bytes, the slash at its front too.
fn text_begins_behind_its_slash() {
    let Ok(text) = PathText::read(b"/a", Ending::Dot) else {
        unreachable!()
    };
    if text.bytes().len() != 2 {
        unreachable!()
    }
}

/// What was named by `.` is lent as named by `.`.
fn dot_lent_as_top() {
    if let LentWay::Top = Way::Dot.lent() {
        unreachable!()
    }
}

/// What is lent as named by `.` is copied as named by `.`.
fn dot_copied_as_dot_dot(dir: NodeId) {
    let way = LentWay::Dot;
    let Found::Whole { way, .. } = (LentFound::Whole { dir, way }).found() else {
        unreachable!()
    };
    if let Way::DotDot = way {
        unreachable!()
    }
}

/// An error has its own name.
fn errno_misnamed(alloc: Global) {
    let Ok(name) = Errno::ENOTDIR.to_string(alloc) else {
        return;
    };
    if name.as_bytes() != b"ENOTDIR".as_slice() {
        unreachable!()
    }
}
