//! Wrong bodies of `pua_tree`.

mod answers;
mod edits;
mod faults;
mod fields;
mod listed;
mod listings;
mod names;
mod slab_edits;
mod texts;
