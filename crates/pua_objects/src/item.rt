//! Something that a line may be about.

use pua_policy::{Cover, Object};
use pua_tree::{Name, NodeId};

/// What an item is about.
#[derive(Clone, Copy)]
pub enum Subject<'t> {
    /// The root.
    Root,
    /// A directory, then the directory in which it stands, and its name there.
    Dir(NodeId, NodeId, &'t Name),
    /// All further names of a directory: those where nothing stands, without veils of their own.
    Others(NodeId),
    /// A directory, and a name in it at which no directory stands.
    Name(NodeId, &'t Name),
}

/// Something that a line may be about, but for the names that lead there.
#[derive(Clone, Copy)]
pub struct Item<'t> {
    /// What it is about.
    pub subject: Subject<'t>,
    /// What a call is on; `Missing` for further names.
    pub object: Object,
    /// What the veils leave of it.
    pub cover: Cover,
}
