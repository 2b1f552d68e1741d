//! What calls need by the standard table, and how they take their paths.

use pua_calls::{Call, CallTable, Perms, needs};
use pua_path::{Ending, Last};

/// By the standard table chmod needs `w`.
fn chmod_needs_r() {
    if needs::need(Call::Chmod).perms != Perms::WRITE {
        unreachable!()
    }
}

/// By the standard table mkdir needs `c`.
fn standard_table_of_read_alone() {
    if CallTable::standard().perms(Call::Mkdir) != Perms::CREATE {
        unreachable!()
    }
}

/// Mkdir follows no link at the end of its path.
fn mkdir_follows_final_link() {
    if Call::Mkdir.last() != Last::Kept {
        unreachable!()
    }
}

/// A slash at the end of a symlink's path is not dropped.
fn symlink_drops_slash() {
    if let Ending::Dropped = needs::ending(Call::Symlink) {
        unreachable!()
    }
}
