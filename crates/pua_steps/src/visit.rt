//! What a letter leads to.

use crate::state::State;

/// A letter in a state: the calls that are allowed on the word that it ends, a bit for each, and in
/// `behind` the state to which that word leads, if words go on from there.
#[derive(Clone, Copy)]
pub struct Visit {
    pub letter: usize,
    pub calls: u32,
    pub behind: Option<State>,
}
