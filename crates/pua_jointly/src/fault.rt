//! Why the facts of several processes are not found.

use pua_ever::EverRefusal;

/// Why the facts of several processes are not found.
#[derive(Clone, Copy, PartialEq, Eq)]
pub enum FactsFault {
    /// Nothing is for ever of the process at this place, counted from 0, or by this table.
    Refused(usize, EverRefusal),
    /// A growth of memory was refused, or the table of facts would have more words than can be
    /// numbered.
    OutOfMemory,
}
