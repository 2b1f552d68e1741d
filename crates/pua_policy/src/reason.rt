//! Why a process may do something or not: of promises, of veils and of what a path named.

use crate::place::Place;
use pua_calls::{Perms, Promises};

/// By what a process may do what needs one of some sets of promises, or why it may not.
#[derive(Clone, Copy)]
pub enum Promising<'s> {
    /// It holds this set, the first of them that it holds.
    Holds(Promises),
    /// It has ended.
    HasEnded,
    /// It holds none of the sets. What it holds has `error` among it, or has not.
    Lacks {
        error: bool,
        held: Promises,
        sets: &'s [Promises],
    },
}

/// What covers an object: the nearest veil, or none.
#[derive(Clone, Copy)]
pub enum Covering {
    /// No veil is kept, so everything is in view.
    InView,
    /// Veils are kept, and none of them at the object's place or at a directory over it.
    NoneOver,
    /// The nearest veil: where it is kept, and its permissions.
    By(Place, Perms),
}
