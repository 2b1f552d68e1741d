//! Why a script was not tightened.

ghost use Rattle.std.specs.Prelude.{◌≡◌};
ghost use Rattle.pua_tight.specs.declared.fault.TightFault.TheVariants as tight_fault;

use pua_script::ScriptFault;
use pua_tree::{ListingFault, OutOfMemory};
use std::alloc::AllocError;

/// Why a script was not tightened.
#[derive(Clone, Copy, PartialEq, Eq, Drop)]
pub enum TightFault {
    /// The tree's bytes are no listing.
    Listing(ListingFault),
    /// The script's bytes are no script.
    Script(ScriptFault),
    /// A growth of memory was refused.
    OutOfMemory,
}

impl From<OutOfMemory> for TightFault {
    ghost from_gives = { λ _ fault. fault ≡ tight_fault.OutOfMemory };

    fn from(_refused: OutOfMemory) -> TightFault {
        TightFault::OutOfMemory
    }
}

impl From<AllocError> for TightFault {
    ghost from_gives = { λ _ fault. fault ≡ tight_fault.OutOfMemory };

    fn from(_refused: AllocError) -> TightFault {
        TightFault::OutOfMemory
    }
}
