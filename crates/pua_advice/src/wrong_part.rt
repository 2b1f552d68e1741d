//! What of a line an advice is about.

use pua_tree::byte_spelling;
use std::fmt;

/// What of a line an advice is about.
#[derive(Clone, Copy, Debug, PartialEq, Eq)]
pub enum WrongPart<'a> {
    /// The whole line.
    Line,
    /// A word, which is visible ASCII.
    Word(&'a [u8]),
    /// A byte.
    Byte(u8),
}

/// A word is displayed as it stands, a byte as a path has it, and of the whole line nothing is.
impl fmt::Display for WrongPart<'_> {
    fn fmt<W: fmt::Write>(&self, f: &mut fmt::Formatter<W>) -> fmt::Result {
        match self {
            WrongPart::Line => Ok(()),
            WrongPart::Word(word) => write_bytes(word, f),
            WrongPart::Byte(byte) => write_bytes(byte_spelling(*byte).as_bytes(), f),
        }
    }
}

/// Writes visible ASCII.
fn write_bytes<W: fmt::Write>(bytes: &[u8], f: &mut fmt::Formatter<W>) -> fmt::Result {
    for byte in bytes {
        f.write_char(char::from(*byte))?;
    }
    Ok(())
}
