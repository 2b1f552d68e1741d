//! Reasons of answers.
#![tactic(auto)]

mod checks;
mod given;
mod keys;
mod laws;
mod opened;
mod opens;
mod pairs;
mod passed;
mod reasons;
mod texts;
mod told;
mod tree_paths;

pub use keys::Key;
pub use laws::{
    answer_law, chain_law, checks_law, fault_law, line_law, since_law, told_law, truth_law,
    unknown_law, verdict_law, why_examples,
};
pub use opened::{ToldAnswer, opener, push_opener, push_told, run_told, serve_told};
pub use passed::facts;
pub use reasons::{checked, reason};
pub use texts::{letters, push_fact, push_place, push_promises, push_reason, push_since};
pub use told::{Fact, Fault, FileFault, Reason, Side};
pub use tree_paths::TreePaths;
