//! A wrong body of a source, by a count that no answer shows.

use crate::source::ReadSource;
use std::io::Read;

/// A new source was not read yet.
fn source_begins_read<R: Read + Drop>(reader: R) {
    if ReadSource::new(reader).reads != 0 {
        unreachable!()
    }
}
