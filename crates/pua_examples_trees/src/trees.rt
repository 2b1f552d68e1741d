//! Both kinds of trees, read from listings.

use pua_tree::{FileTree, ListTree, ListingFault, SlabTree, read_listing, read_listing_slab};
use std::alloc::Global;

/// A tree that is read from a listing.
pub(crate) trait ListedTree: FileTree + Drop {
    /// The tree of a listing, or why it has none.
    fn read(alloc: Global, listing: &[u8]) -> Result<Self, ListingFault>;
}

impl ListedTree for ListTree {
    fn read(alloc: Global, listing: &[u8]) -> Result<ListTree, ListingFault> {
        read_listing(alloc, listing)
    }
}

impl ListedTree for SlabTree {
    fn read(alloc: Global, listing: &[u8]) -> Result<SlabTree, ListingFault> {
        read_listing_slab(alloc, listing)
    }
}
