//! Processes, veils and the verdict on a call.
#![tactic(auto)]

mod allowed_calls;
mod answer;
mod cover;
pub mod judge;
mod laws;
mod object;
mod open_file;
mod place;
mod process;
mod promising;
mod reason;

pub use allowed_calls::AllowedCalls;
pub use answer::{Cover, May, Refusal, UnveilFault, Verdict};
pub use laws::{
    cover_examples, cover_laws, covering_law, descent_law, lacking_law, limits_law, misfit_law,
    promise_laws, standing_law, verdict_examples,
};
pub use object::Object;
pub use open_file::OpenFile;
pub use place::Place;
pub use process::{MOST_PLACES, Process, error_frees_exec};
pub use pua_calls::Misfit;
pub use reason::{Covering, Promising};
