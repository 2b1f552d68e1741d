//! Names, trees of files, and listings of trees.
#![tactic(auto)]

mod fault;
mod field;
mod form;
mod gathered;
mod judgement;
mod laws;
mod limits;
mod line;
mod link_target;
mod list;
mod list_edits;
mod listing;
mod name;
mod named_rows;
mod node;
mod numbering;
mod slab_tree;
mod slots;
mod spelling;
mod spot;
mod tree;

pub use fault::{ListingFault, NameFault, OutOfMemory, TreeFault};
pub use field::{Fields, number_within};
pub use form::Form;
pub use laws::{
    edit_examples, edits_keep_devices, edits_keep_trees, fault_order_examples, limits_law,
    listing_examples, listing_law, spelling_law, tree_law,
};
pub use limits::{MOST_LISTED, MOST_WIDE};
pub use link_target::{MOST_TARGET, has_short_components, is_target};
pub use list::ListTree;
pub use listing::{HIGHEST_LISTED, read_listing, read_listing_slab};
pub use name::{LentName, Name};
pub use node::{FileType, Kind, NodeId};
pub use slab_tree::SlabTree;
pub use spelling::{SpelledByte, are_plain, byte_spelling, unspelled};
pub use tree::{CopiedTree, FileTree, LentRow, LentSpot, MOST_NAMES, MOST_WIDE_NAMES, NUMBER_END};
