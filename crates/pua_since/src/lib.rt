//! Since which line of a script something holds, and the texts with that line: those of a run with
//! reasons, and the chain of what decides one request.
//!
//! A script is served once more, and each question is asked again after each line that may have
//! changed its answer.
#![tactic(auto)]

mod chain;
mod change;
mod laws;
mod reason_line;
mod reason_lines;
mod touched;
mod veils;
mod watch;
mod watches;

pub use chain::chain_text;
pub use laws::since_examples;
pub use reason_lines::reason_text;
pub use veils::{dated_text, veils_of};
