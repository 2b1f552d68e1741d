//! Wrong bodies of `pua_ever`.

use pua_ever::may_start;
use pua_tree::{FileType, Kind};

/// A fifo is not made a program.
fn fifo_made_a_program() {
    if may_start(Kind::Known(FileType::Fifo)) {
        unreachable!()
    }
}

/// What is known to be a plain file can be made one.
fn plain_file_never_a_program() {
    if !may_start(Kind::Known(FileType::Plain)) {
        unreachable!()
    }
}
