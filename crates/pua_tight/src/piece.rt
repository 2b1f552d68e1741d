//! What may be left out of a line.

use pua_calls::{Perms, Promises};

/// What may be left out of a line: a keyword of one of the arguments of a pledge, or a letter of an
/// unveil.
#[derive(Clone, Copy)]
pub enum Piece {
    /// Of the promises of a pledge.
    InPromises(Promises),
    /// Of its execpromises.
    InExecpromises(Promises),
    /// Of the letters of an unveil.
    InVeil(Perms),
}
