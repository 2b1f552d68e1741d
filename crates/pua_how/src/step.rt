//! Steps of a plan: requests whose paths are not yet written.

use pua_calls::Call;
use pua_tree::{Name, NodeId};

/// A directory in which a step is.
#[derive(Clone, Copy, PartialEq, Eq)]
pub enum Dir {
    /// One that stands in the tree, wherever it is then.
    Standing(NodeId),
    /// The one that a step before has made, the last one of several.
    Made,
}

/// What a step's path leads to.
#[derive(Clone, Copy, PartialEq, Eq)]
pub enum At {
    /// A directory, wherever it is then.
    Directory(NodeId),
    /// A name in a directory.
    Name(Dir, Name),
}

/// A request whose paths are written when it is served: by then its directories may have been
/// moved.
#[derive(Clone, Copy, PartialEq, Eq)]
pub enum Step {
    /// A call; the target of a symlink is `target`.
    On(Call, At),
    /// The old name, and then the new one.
    Rename(At, At),
    /// The name of a node, and then its further name.
    Link(At, At),
}
