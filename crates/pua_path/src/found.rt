//! Parts of paths, where these start, and what they name.

ghost use Rattle.std.specs.Prelude.{◌≡◌};
ghost use Rattle.pua_path.specs.Resolution.{from_top};

use pua_tree::{Name, NodeId};

/// A part of a path.
#[derive(Clone, Copy, PartialEq, Eq)]
pub enum Part {
    /// The directory itself.
    Dot,
    /// The directory above, by its row; at the root the root.
    DotDot,
    /// A name in the directory.
    Name(Name),
}

/// Where paths start: those that begin with a slash at the root, the others at the directory.
#[derive(Clone, Copy, PartialEq, Eq)]
pub struct Start {
    pub root: NodeId,
    pub dir: NodeId,
}

impl Start {
    /// From this directory, where the root is that of the whole tree.
    pub fn from_top(dir: NodeId) -> Start
        ensures { result ≡ from_top dir }
    {
        let root = NodeId::ROOT;
        Start { root, dir }
    }
}

/// What becomes of a link that the last part names.
#[derive(Clone, Copy, PartialEq, Eq)]
pub enum Last {
    /// It is followed, as any link before the last part is.
    Followed,
    /// It is what the path names.
    Kept,
}

/// How a directory was named: by the last part resolved, in a link's target too.
#[derive(Clone, Copy, PartialEq, Eq)]
pub enum Way {
    /// By a name in its parent.
    Named { parent: NodeId, name: Name },
    /// By `.`.
    Dot,
    /// By `..`.
    DotDot,
    /// No part was left.
    Top,
}

/// What a path names.
#[derive(Clone, Copy, PartialEq, Eq)]
pub enum Found {
    /// A directory, and how it was named.
    Whole {
        dir: NodeId,
        way: Way,
    },
    /// A name in a directory, and the node there, which is no directory; or nothing.
    Slot {
        dir: NodeId,
        name: Name,
        node: Option<NodeId>,
    },
}
