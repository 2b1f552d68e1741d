//! What a line of the list is about.

ghost use Rattle.std.specs.Prelude.{◌≡◌};
ghost use Rattle.pua_objects.specs.Lines.{kind_seen};

use pua_policy::Object;
use pua_tree::Kind;

/// What a line is about.
#[derive(Clone, Copy, PartialEq, Eq, Hash)]
pub enum ObjectKind {
    /// A node of this kind: a link itself, and not what it leads to.
    Node(Kind),
    /// A name where nothing stands, and that has a veil of its own.
    Missing,
    /// All further names of a directory: those where nothing stands, without veils of their own.
    Other,
}

impl ObjectKind {
    /// What the line of an object is about.
    pub fn of(object: Object) -> ObjectKind
        ensures { result ≡ kind_seen object }
    {
        match object {
            Object::Missing => ObjectKind::Missing,
            Object::Node(kind) => ObjectKind::Node(kind),
            Object::Removable => ObjectKind::Node(Kind::Dir),
        }
    }
}
