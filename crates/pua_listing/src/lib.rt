//! The listing of a tree: a text that is read back as the same tree.
#![tactic(auto)]

mod fault;
mod form;
mod laws;
mod line;
mod listing;
mod numbers;
mod order;

pub use fault::ListFault;
pub use laws::{listed_examples, read_back_law};
pub use listing::list_tree;
