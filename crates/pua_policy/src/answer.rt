//! What a process and the verdict on its calls answer.

ghost use Rattle.std.specs.Prelude.{◌≡◌};
ghost use Rattle.pua_policy.specs.Verdict.{refusal_verdict};

use pua_calls::Perms;
use pua_path::Errno;
use thiserror::Error;

/// Whether promises allow a call.
#[derive(Clone, Copy, PartialEq, Eq)]
pub enum May {
    /// They are held.
    Yes,
    /// The call fails with ENOSYS, and the process lives.
    Enosys,
    /// The process is killed, or has ended before.
    Death,
}

/// What the veils leave of an object.
#[derive(Clone, Copy, PartialEq, Eq)]
pub enum Cover {
    /// Everything: no veil is kept.
    All,
    /// Nothing: veils are kept, and none of them covers it.
    Nothing,
    /// The permissions of the nearest veil.
    Only(Perms),
}

/// What becomes of a call.
#[derive(Clone, Copy, PartialEq, Eq)]
pub enum Verdict {
    /// It is allowed.
    Allowed,
    /// It fails with this error, and the process lives.
    Failed(Errno),
    /// The process is killed, or has ended before.
    Death,
}

/// Why a process does not get what it asks for.
#[derive(Clone, Copy, PartialEq, Eq)]
pub enum Refusal {
    /// The call fails with this error, and the process lives.
    Failed(Errno),
    /// The process is killed, or has ended before.
    Killed,
}

impl Refusal {
    /// The verdict on a call that is refused so.
    pub(crate) fn verdict(self) -> Verdict
        ensures { result ≡ refusal_verdict self }
    {
        match self {
            Refusal::Failed(errno) => Verdict::Failed(errno),
            Refusal::Killed => Verdict::Death,
        }
    }
}

/// Why an unveil was refused.
#[derive(Clone, Copy, Debug, PartialEq, Eq, Error)]
pub enum UnveilFault {
    /// The process is locked, or the permissions at the place would increase: unveil(2)'s EPERM.
    #[error("not permitted")]
    NotPermitted,
    /// The place is new, and 128 places are kept: unveil(2)'s E2BIG.
    #[error("too many places")]
    TooManyPlaces,
    /// The place is new, and a growth of memory was refused.
    #[error("out of memory")]
    OutOfMemory,
}
