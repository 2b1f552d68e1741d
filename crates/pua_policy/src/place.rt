//! Where veils are kept.

use pua_tree::{Name, NodeId};

/// Where a veil is kept: at a directory by its node, and at anything else, missing or there, by its
/// directory and its name (unveil(2)).
#[derive(Clone, Copy, PartialEq, Eq, Hash)]
pub enum Place {
    Dir(NodeId),
    Slot(NodeId, Name),
}
