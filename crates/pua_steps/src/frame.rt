//! An open state of a walk.

use crate::state::State;

/// An open state: the letters from `next` on, and the entries of its list from `place` on and
/// before `end`, are still to be tried.
#[derive(Clone, Copy)]
pub(crate) struct Frame {
    pub(crate) state: State,
    pub(crate) next: usize,
    pub(crate) place: usize,
    pub(crate) end: usize,
}
