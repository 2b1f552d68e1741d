//! What a process holds open.

use pua_calls::Perms;
use pua_tree::{Kind, NodeId};

/// An open file, for which a descriptor stands: its node, which stays that of a renamed file and of
/// one without a name, and what it was opened for.
#[derive(Clone, Copy)]
pub struct OpenFile {
    /// The node that was opened. It may have lost its last name, and be in the tree no more.
    pub node: NodeId,
    /// What the node is, which never changes.
    pub kind: Kind,
    /// `r` where it was opened to read, and `w` where it was opened to write.
    pub letters: Perms,
}

impl OpenFile {
    ghost use Rattle.std.specs.Prelude.{◌≡◌};
    ghost use Rattle.pua_policy.specs.States.{is_directory};

    /// Whether it is a directory.
    pub fn is_directory(&self) -> bool
        ensures { result ≡ is_directory self.now }
    {
        matches!(self.kind, Kind::Dir)
    }
}
