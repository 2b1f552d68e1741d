//! How long a listing is.

/// The most lines that a listing of the first two forms has after its first, of which the root's is
/// one (this program's format).
pub const MOST_LISTED: u32 = 4096;

/// The most lines of the third form.
pub const MOST_WIDE: u32 = 1_000_000;
