//! The reach of a process: the pairs of path and call that it is allowed.
#![tactic(auto)]

mod alphabet;
mod audit;
mod base;
mod beginning;
mod candidates;
mod component;
mod content;
mod fault;
mod later_calls;
mod laws;
mod limits;
mod line;
mod pairs;
mod path;
mod path_lines;
mod resume_text;
mod table;
mod terms;

pub use audit::Audit;
pub use base::Base;
pub use fault::AuditFault;
pub use later_calls::LaterCalls;
pub use laws::{
    graph_laws, limits_law, live_law, reach_examples, reach_laws, resume_text_law, rows_law,
    walk_laws, within_law,
};
pub use limits::{MOST_CANDIDATES, MOST_LETTERS};
pub use line::Line;
pub use path_lines::PathLines;
