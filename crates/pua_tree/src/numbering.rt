//! What a tree keeps beside its rows and nodes.

/// The number of the next node, and how many names the tree may have, the root counted as one.
#[derive(Clone, Copy)]
pub(crate) struct Numbering {
    pub(crate) next: u32,
    pub(crate) room: u32,
}
