//! Wrong bodies of `pua_objects`.

use pua_objects::ObjectKind;
use pua_policy::Object;
use pua_tree::Kind;

/// The line of an empty directory is about a directory.
fn empty_directory_is_missing() {
    if ObjectKind::of(Object::Removable) != ObjectKind::Node(Kind::Dir) {
        unreachable!()
    }
}
