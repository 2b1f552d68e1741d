//! Why a tree was not listed.

ghost use Rattle.std.specs.Prelude.{◌≡◌};
ghost use Rattle.pua_listing.specs.declared.fault.ListFault.TheVariants as list_fault;

use pua_tree::OutOfMemory;
use thiserror::Error;

/// Why a tree was not listed.
#[derive(Clone, Copy, Debug, PartialEq, Eq, Error)]
pub enum ListFault {
    /// It has more names than a listing has lines: over 1,000,000, the root counted as one.
    #[error("too many names")]
    TooManyNames,
    /// A growth of memory was refused.
    #[error("out of memory")]
    OutOfMemory,
}

impl From<OutOfMemory> for ListFault {
    ghost from_gives = { λ _ fault. fault ≡ list_fault.OutOfMemory };

    fn from(_refused: OutOfMemory) -> ListFault {
        ListFault::OutOfMemory
    }
}
