//! Why a text is not written, or not whole.

use pua_tree::OutOfMemory;

/// Why a text was not written, or not whole.
#[derive(Clone, Copy, Debug, PartialEq, Eq)]
pub enum TextFault {
    /// A growth of memory was refused, and nothing was written.
    OutOfMemory,
    /// A put failed. What was written is a front of the text.
    Write,
}

impl From<OutOfMemory> for TextFault {
    ghost use Rattle.std.specs.Prelude.{◌≡◌};
    ghost use Rattle.pua_texts.specs.declared.fault.TextFault.TheVariants as text_fault;

    ghost from_gives = { λ _ fault. fault ≡ text_fault.OutOfMemory };

    fn from(_refused: OutOfMemory) -> TextFault {
        TextFault::OutOfMemory
    }
}
