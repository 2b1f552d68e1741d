//! Permissions.

use pua_calls::Perms;
use pua_path::Errno;

/// A byte that is no letter of a permission is refused.
fn unknown_letter_accepted() {
    if Perms::read(b"q") != Err(Errno::EINVAL) {
        unreachable!()
    }
}

/// The letters of permissions come in the order r, w, x, c.
fn letters_in_other_order() {
    if Perms::READ.union(Perms::WRITE).letters() != "rw" {
        unreachable!()
    }
}

/// `c` has the fourth bit of a number.
fn perms_bits_masked() {
    if Perms::CREATE.bits() != 8 {
        unreachable!()
    }
}

/// Permissions contain others only where they have each of them.
fn perms_contain_some() {
    if Perms::READ.contains(Perms::READ.union(Perms::WRITE)) {
        unreachable!()
    }
}

/// A union of permissions has those of either.
fn perms_union_forgets_the_others() {
    if Perms::NONE.union(Perms::READ) != Perms::READ {
        unreachable!()
    }
}

/// The empty set of permissions stays empty without those of another.
fn lacking_letters_turned() {
    if Perms::NONE.without(Perms::READ) != Perms::NONE {
        unreachable!()
    }
}
