//! A line of the reach.

use pua_calls::Call;

/// A pair of the reach: a path in plain bytes, and a call that the process is allowed on it.
#[derive(Clone, Copy)]
pub struct Line<'a> {
    pub path: &'a [u8],
    pub call: Call,
    /// Whether each byte of the path stands for itself, so that the path is printed as it is.
    pub plain: bool,
}
