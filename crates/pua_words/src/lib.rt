//! The words of the command line, and the help and the version that they can ask for: the one crate
//! that calls `clap`.
#![tactic(auto)]

mod command;
mod help;
mod usage;
mod version;
mod words;

pub use command::{
    AuditWords, Columns, Command, HowWords, ListWords, Processes, Text, Time, WhyWords,
};
pub use usage::UsageLine;
pub use words::{Stop, read_words};
