//! What a call is on, by what stands there.

ghost use Rattle.std.specs.Prelude.{◌≡◌, ℕ, List};
ghost use Rattle.pua_tree.specs.Tree.{is_dir_kind};
ghost use Rattle.pua_path.specs.declared.found.Way.TheVariants as way;
ghost use Rattle.pua_policy.specs.Objects.{object_seen};
ghost use Rattle.pua_policy.specs.Verdict.{IsDir};

use pua_policy::Object;
use pua_tree::{FileTree, Kind, NodeId};

/// What a call is on, of a directory that was found by a name.
pub(crate) fn directory<T: FileTree>(tree: &T, id: NodeId) -> Object
    ensures { (dir : ℕ) (name : List ℕ) →
        result ≡ object_seen (T.content tree.now) (IsDir id (way.Named dir name)) }
{
    if tree.is_mount(id) {
        return Object::Node(Kind::Dir);
    }
    if tree.is_empty(id) {
        Object::Removable
    } else {
        Object::Node(Kind::Dir)
    }
}

/// Whether it is the kind of a directory.
pub(crate) fn is_directory(kind: Option<Kind>) -> bool
    ensures { result ≡ is_dir_kind kind }
{
    matches!(kind, Some(Kind::Dir))
}
