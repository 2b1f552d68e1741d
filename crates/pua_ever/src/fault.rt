//! Why a list for ever is not begun.

use crate::refusal::EverRefusal;

/// Why a list for ever is not begun.
#[derive(Clone, Copy, PartialEq, Eq)]
pub enum EverFault {
    /// There is none for this process and this table.
    Refused(EverRefusal),
    /// A growth of memory was refused.
    OutOfMemory,
}
