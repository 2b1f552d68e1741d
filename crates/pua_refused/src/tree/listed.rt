//! Of the listings of trees.

use pua_listing::{ListFault, list_tree};
use pua_tree::{FileTree, ListingFault, MOST_WIDE, SlabTree, read_listing_slab};
use std::alloc::Global;

/// What lists a tree is a listing.
fn listed_tree_is_no_listing(alloc: Global, tree: &SlabTree) {
    let Ok(text) = list_tree(alloc, tree) else {
        return;
    };
    match read_listing_slab(alloc, text.as_slice()) {
        Ok(_) | Err(ListingFault::OutOfMemory) => (),
        Err(_) => unreachable!(),
    }
}

/// A tree of more names than a listing has lines is not listed.
fn too_many_names_listed(alloc: Global, tree: &SlabTree) {
    if tree.row_count() >= MOST_WIDE as usize && list_tree(alloc, tree).is_ok() {
        unreachable!()
    }
}

/// A tree of as many names as a listing has lines has not too many.
fn most_names_are_too_many(alloc: Global, tree: &SlabTree) {
    if tree.row_count() < MOST_WIDE as usize {
        if let Err(ListFault::TooManyNames) = list_tree(alloc, tree) {
            unreachable!()
        }
    }
}
