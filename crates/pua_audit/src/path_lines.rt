//! The lines of one path.

ghost use Rattle.std.specs.Prelude.{◌≡◌};
ghost use Rattle.pua_audit.specs.Coming.{calls_at};

use crate::later_calls::LaterCalls;
use pua_calls::Call;
use pua_steps::CallSet;

/// Pairs of the reach that have one path, in plain bytes: one for each of these calls, which the
/// process is allowed on it.
#[derive(Clone, Copy)]
pub struct PathLines<'a> {
    pub path: &'a [u8],
    /// The first call.
    pub call: Call,
    /// The calls after it: a bit for each, that of the call with number n at bit n - 1.
    pub later: u32,
    /// Whether each byte of the path stands for itself, so that the path is printed as it is.
    pub plain: bool,
}

impl PathLines<'_> {
    /// The calls after the first, to be taken one by one.
    #[inline(always)]
    pub fn later_calls(&self) -> LaterCalls
        ensures { calls_at result ≡ calls_at self.now.later }
    {
        LaterCalls {
            numbers: CallSet::of(self.later),
        }
    }
}
