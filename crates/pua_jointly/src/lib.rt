//! What several processes with veils and promises of their own can ever touch together.
#![tactic(auto)]

mod agent;
mod closing;
mod counting;
mod crew;
mod doing;
mod entries;
mod facts;
mod fault;
mod finding;
mod joint_calls;
mod joint_list;
mod laws;
mod made;
mod marks;
mod members;
mod mover;
mod old;
mod parts;
mod rounds;
mod setup;
mod shape;
mod size;
mod starting;
mod watching;
mod words;

pub use counting::{Actor, Counted, find_counted, worst};
pub use facts::Facts;
pub use fault::FactsFault;
pub use finding::find_facts;
pub use joint_list::list_jointly;
pub use laws::{crew_table_law, jointly_examples, jointly_law};
pub use starting::started;
