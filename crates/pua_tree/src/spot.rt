//! Where a row stands, and what stands there.

use crate::name::Name;
use crate::node::{Kind, NodeId};

/// A directory, and a name in it.
#[derive(Clone, Copy, PartialEq, Eq, Hash)]
pub(crate) struct Spot {
    pub(crate) dir: NodeId,
    pub(crate) name: Name,
}

/// A directory, and the place of a name among the names that are kept.
#[derive(Clone, Copy, PartialEq, Eq, Hash)]
pub(crate) struct RowKey {
    pub(crate) dir: NodeId,
    pub(crate) name: usize,
}

/// What stands in a row: a node, and what it is.
#[derive(Clone, Copy)]
pub(crate) struct RowNode {
    pub(crate) node: NodeId,
    pub(crate) kind: Kind,
}
