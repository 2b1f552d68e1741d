//! Why audits can't begin.

ghost use Rattle.std.specs.Prelude.{◌≡◌};
ghost use Rattle.pua_audit.specs.FaultTexts.{audit_told};
ghost use Rattle.pua_audit.specs.declared.fault.AuditFault.TheVariants as audit_fault;

use pua_tree::OutOfMemory;
use std::fmt;

/// Why an audit can't begin: the first of these that holds, but for want of memory, in the order
/// `LimitTooLarge`, `TooManyNames`, `BadCandidate`, `TooLong`, `BadResume`.
#[derive(Clone, Copy, Debug, PartialEq, Eq)]
pub enum AuditFault {
    /// The limit is over 16 letters.
    LimitTooLarge,
    /// The limit times one more than the bytes of the longest letter is over 1,023.
    TooLong,
    /// There are more than 1,024 candidates.
    TooManyNames,
    /// The place, from 1, of the first candidate that is not spelled as a name.
    BadCandidate(u32),
    /// The text to resume after names no pair of a word within the limit and a call that the table
    /// has.
    BadResume,
    /// A growth of memory was refused.
    OutOfMemory,
}

impl AuditFault {
    /// What is wrong, and with which candidate, if with one.
    pub fn told(&self) -> (&'static str, Option<u32>)
        ensures wrong { result.0.now ≡ (audit_told self.now).0 }
        ensures place { result.1 ≡ (audit_told self.now).1 }
    {
        match self {
            AuditFault::LimitTooLarge => ("limit too large", None),
            AuditFault::TooLong => ("paths too long", None),
            AuditFault::TooManyNames => ("too many names", None),
            AuditFault::BadCandidate(place) => ("bad candidate", Some(*place)),
            AuditFault::BadResume => ("bad resume", None),
            AuditFault::OutOfMemory => ("out of memory", None),
        }
    }
}

impl fmt::Display for AuditFault {
    fn fmt<W: fmt::Write>(&self, f: &mut fmt::Formatter<W>) -> fmt::Result {
        match self.told() {
            (wrong, Some(place)) => write!(f, "{wrong} {place}"),
            (wrong, None) => f.write_str(wrong),
        }
    }
}

impl std::error::Error for AuditFault {}

impl From<OutOfMemory> for AuditFault {
    ghost from_gives = { λ _ fault. fault ≡ audit_fault.OutOfMemory };

    fn from(_refused: OutOfMemory) -> AuditFault {
        AuditFault::OutOfMemory
    }
}
