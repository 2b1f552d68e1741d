//! What to say of a line of a script that is refused, beside its fault.
#![tactic(auto)]

mod advice;
mod arguments;
mod laws;
mod line;
mod promises;
mod wrong_part;

pub use advice::Advice;
pub use arguments::Arguments;
pub use laws::{advice_examples, advice_law, calls_law};
pub use line::{advise, advise_script, line_at};
pub use wrong_part::WrongPart;
