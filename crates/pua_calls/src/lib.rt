//! Promises, permissions, the calls with one path, and tables of what they need.
#![tactic(auto)]

mod call;
mod calls;
mod effect;
mod fits;
mod laws;
pub mod needs;
mod neighbour;
mod perms;
mod promises;
mod rules;
mod table;

pub use call::{Call, MOST_CALL_LINE, Need};
pub use calls::Calls;
pub use effect::Effect;
pub use fits::{Fits, Misfit};
pub use laws::{
    limits_law, permission_constants, promise_bounds, promise_constants, table_examples,
};
pub use perms::Perms;
pub use promises::Promises;
pub use rules::{ExecPromises, Rules};
pub use table::{CallTable, MOST_ALTERNATIVES, NameNeed, PairNeed, TableFault};
