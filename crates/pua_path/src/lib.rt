//! Path texts, and what they name in a tree.
#![tactic(auto)]

mod errno;
mod found;
mod laws;
mod lent;
mod limits;
mod piece;
mod probe;
mod refused;
mod resolver;
mod rest;
mod text;
mod traced;

pub use errno::Errno;
pub use found::{Found, Last, Part, Start, Way};
pub use laws::{
    fitting_law, going_law, limits_law, links_law, resolution_examples, resolution_law, steps_law,
    stop_law, trace_law,
};
pub use lent::{LentFound, LentWay};
pub use limits::{MOST_LINKS, MOST_PATH};
pub use probe::{Counted, Probe, Vacancy};
pub use resolver::{follow, last, resolve, resolve_lent, step, trace};
pub use text::{Ending, PathText, text_fault};
pub use traced::{Links, PathFault, PathTextFault, Spot, Stop};
