//! The words over an alphabet by a table of steps: which calls are allowed on them, which states
//! are live, and a walk through them in their order.
//!
//! Letters, directories and calls are numbers here: a letter is its place in the alphabet, a
//! directory its place among the rows of the table, a call the place of its bit in a set.
#![tactic(auto)]

mod call_set;
mod calls;
mod counted;
mod forward;
mod frame;
mod laws;
mod limits;
mod lists;
mod live;
mod refused;
mod resumed;
mod search;
mod seek;
mod state;
mod steps;
mod tables;
mod visit;
mod walk;

pub use call_set::CallSet;
pub use laws::{steps_examples, steps_laws};
pub use state::State;
pub use steps::{Entry, Row, Steps};
pub use tables::Tables;
pub use visit::Visit;
pub use walk::Walk;
