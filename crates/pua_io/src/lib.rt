//! Where texts are written, and where inputs are read: sinks, sources, and inputs by their names.
#![tactic(auto)]

mod inputs;
mod laws;
mod sink;
mod source;

pub use inputs::{DiskInputs, InputFault, Inputs, MemoryInputs, read_file};
pub use laws::io_examples;
pub use sink::{MemorySink, PutFault, Sink, StreamSink, put_all};
pub use source::{MOST_INPUT_BYTES, ReadFault, ReadSource, Source, read_bytes};
