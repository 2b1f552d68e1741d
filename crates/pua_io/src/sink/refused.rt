//! A wrong body of a sink, by a count that no answer shows.

use crate::sink::StreamSink;
use std::io::Write;

/// No put of a new sink failed yet.
fn stream_begins_with_a_failure<W: Write + Drop>(writer: W) {
    if StreamSink::new(writer).failed != 0 {
        unreachable!()
    }
}
