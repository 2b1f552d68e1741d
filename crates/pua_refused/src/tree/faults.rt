//! Of faults that memory makes.

use pua_tree::{ListingFault, OutOfMemory, TreeFault};
use std::alloc::AllocError;

/// A growth that was refused does not say that a tree is full.
fn refused_growth_is_full(refused: AllocError) {
    if let TreeFault::Full = TreeFault::from(refused) {
        unreachable!()
    }
}

/// Memory that was refused does not say that a tree is full.
fn refused_memory_is_full(refused: OutOfMemory) {
    if let TreeFault::Full = TreeFault::from(refused) {
        unreachable!()
    }
}

/// Memory that was refused does not say that a listing's header is bad.
fn refused_memory_is_bad_header(refused: OutOfMemory) {
    if let ListingFault::BadHeader = ListingFault::from(refused) {
        unreachable!()
    }
}
