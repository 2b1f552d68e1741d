//! What a call is on.

ghost use Rattle.std.specs.Prelude.{◌≡◌};
ghost use Rattle.pua_tree.specs.Tree.{Tree};
ghost use Rattle.pua_policy.specs.Objects.{object_seen};
ghost use Rattle.pua_policy.specs.Verdict.{object_of_kind};

use pua_tree::Kind;

/// What a path named, as far as it decides which calls are allowed on it, the veils aside.
#[derive(Clone, Copy, PartialEq, Eq, Hash)]
pub enum Object {
    /// A name where nothing stands.
    Missing,
    /// A node of this kind: a link that was not followed, and a directory that rmdir leaves, which
    /// has rows or was not found by a name in its parent.
    Node(Kind),
    /// An empty directory, found by its name.
    Removable,
}

impl Object {
    /// What a call is on at a name, by the kind of what stands there. (A directory is found by
    /// itself.)
    pub fn at_name(kind: Option<Kind>) -> Object
        ensures { (t : Tree) → result ≡ object_seen t (object_of_kind kind) }
    {
        match kind {
            Some(kind) => Object::Node(kind),
            None => Object::Missing,
        }
    }
}
