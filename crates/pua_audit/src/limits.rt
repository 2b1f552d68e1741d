//! The limits of audits.

/// A word has at most so many letters.
pub const MOST_LETTERS: u8 = 16;

/// An audit has at most so many candidates.
pub const MOST_CANDIDATES: usize = 1024;
