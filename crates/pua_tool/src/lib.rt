//! Whole texts of runs, of audits, of lists of objects, of now and for ever, of ways, of tightened
//! scripts and of trees, or what refuses them, and the whole program as a function over its inputs.
#![tactic(auto)]

mod acting;
mod advised;
mod audit;
mod below;
mod beside;
mod cli;
mod columns;
mod ever;
mod ever_columns;
mod ever_fault;
mod ever_how;
mod ever_why;
mod fault;
mod front;
mod helped;
mod how;
mod images;
mod job;
mod kept_text;
mod laws;
mod line;
mod lists;
mod objects;
mod objects_why;
mod outcome;
mod pathless;
mod refused;
mod row;
mod run;
mod run_why;
mod script;
mod service;
mod status;
mod table;
mod tight;
mod tight_why;
mod together;
mod tree;
mod two_worlds;
mod why;

pub use audit::{audit_by, audit_to};
pub use cli::{command, program};
pub use fault::{ToolFault, WriteFault};
pub use how::how_to;
pub use job::Job;
pub use laws::{
    beside_text_law, column_examples, confined, ever_text_law, front_law, headline_law,
    images_text_law, narrowing, never_text_law, objects_text_law, reasons_text_law, text_examples,
    tight_text_law, together_text_law, tree_examples, tree_text_law, trees_alike,
};
pub use lists::list_to;
pub use pua_io::{
    DiskInputs, InputFault, Inputs, MOST_INPUT_BYTES, MemoryInputs, MemorySink, PutFault,
    ReadFault, ReadSource, Sink, Source, StreamSink, put_all, read_bytes, read_file,
};
pub use pua_texts::state_law;
pub use pua_words::{
    AuditWords, Columns, Command, HowWords, ListWords, Processes, Text, Time, UsageLine, WhyWords,
};
pub use run::{run_by, run_to};
pub use run_why::run_why_to;
pub use service::perform;
pub use status::{DEVICE, DONE, MEMORY, REFUSED, USAGE};
pub use table::TableChoice;
pub use tight::tight_to;
pub use tight_why::tight_why_to;
pub use tree::tree_to;
pub use why::why_to;
