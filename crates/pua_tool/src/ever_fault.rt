//! Why the list for ever of a process is not begun, as the tool reports it.

ghost use Rattle.std.specs.Prelude.{◌≡◌, ◌≢◌, ℕ, List, Err};
ghost use Rattle.pua_ever.specs.Refusals.{refusal_in};
ghost use Rattle.pua_tool.specs.EverTexts.{ever_fault, unless_reason};

use crate::fault::ToolFault;
use pua_ever::{EverFault, EverRefusal};

/// Why the list for ever of the process with this number was not begun, as the tool reports it.
pub(crate) fn fault_of(number: u32, fault: EverFault) -> ToolFault
    ensures { (text : List ℕ) → result ≢ ToolFault.OutOfMemory →
        unless_reason number (refusal_in fault) text ≡ Err result }
{
    match fault {
        EverFault::Refused(reason) => reason_of(number, reason),
        EverFault::OutOfMemory => ToolFault::OutOfMemory,
    }
}

/// Why there is no list for ever of the process with this number, as the tool reports it.
pub(crate) fn reason_of(number: u32, reason: EverRefusal) -> ToolFault
    ensures { result ≡ ever_fault number reason }
{
    match reason {
        EverRefusal::CanUnveil => ToolFault::CanUnveil(number),
        EverRefusal::LacksC(call) => ToolFault::LacksC(call),
        EverRefusal::RenameLacksC => ToolFault::RenameLacksC,
        EverRefusal::LinkLacksC => ToolFault::LinkLacksC,
    }
}
