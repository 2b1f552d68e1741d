//! The table of live states.

ghost use Rattle.std.specs.Prelude.{◌≡◌, ◌≢◌, ◌≤◌, ◌<◌, ◌+◌, ◌-◌, ◌*◌, ◌^◌, ℕ, suc, true, false};
ghost use Rattle.std.specs.Prelude.{length, get_or, IfSome, IfOk};
ghost use Rattle.pua_steps.specs.Limits.{most_letters, most_links};
ghost use Rattle.pua_steps.specs.Table.{IsTable, graph_of};
ghost use Rattle.pua_steps.specs.Live.{live_of, entrance, bound_of, IsBound, IsFilled, IsSized};

use crate::limits::MOST_LINKS;
use crate::state::State;
use crate::steps::{Entry, Steps};
use std::alloc::{AllocError, Global};

/// Which states are live: those from which words go on on which a call is allowed. For each number
/// of letters that may still come, from none on, `bounds` has a number for each of the `dirs`
/// directories: a state is live just where it has followed fewer links than that number, which is
/// at most 33.
#[derive(Drop)]
pub(crate) struct Live {
    pub(crate) dirs: usize,
    pub(crate) bounds: Vec<u8>,
}

impl Live {
    /// Whether a call is allowed on a word that goes on from a state by at most `left` letters.
    pub(crate) fn is_live(&self, left: usize, state: State) -> bool
        requires layer { left * self.now.dirs + self.now.dirs ≤ length self.now.bounds.items }
        requires state { state.dir < self.now.dirs }
        ensures { result ≡ live_of self.now left state }
    {
        state.used < self.bounds[left * self.dirs + state.dir as usize]
    }

    /// The state, if it is live where at most `left` letters may come.
    pub(crate) fn entrance(&self, left: usize, state: Option<State>) -> Option<State>
        requires layer { left * self.now.dirs + self.now.dirs ≤ length self.now.bounds.items }
        requires state { IfSome state (λ s. s.dir < self.now.dirs) }
        ensures { result ≡ entrance (live_of self.now) left state }
    {
        let state = state?;
        if self.is_live(left, state) {
            return Some(state);
        }
        None
    }

    /// Whether the bounds where `left` letters may come are those where one letter fewer may.
    pub(crate) fn repeats(&self, left: usize) -> bool
        requires some { 0 < left }
        requires layer { left * self.now.dirs + self.now.dirs ≤ length self.now.bounds.items }
        ensures same { result ≡ true → (d : ℕ) → d < self.now.dirs →
            get_or self.now.bounds.items (left * self.now.dirs + d) 0
            ≡ get_or self.now.bounds.items ((left - 1) * self.now.dirs + d) 0 }
        ensures other { result ≡ false → (d : ℕ) × ((d < self.now.dirs)
            × (get_or self.now.bounds.items (left * self.now.dirs + d) 0
            ≢ get_or self.now.bounds.items ((left - 1) * self.now.dirs + d) 0)) }
    {
        for dir in 0..self.dirs {
            if self.bounds[left * self.dirs + dir] != self.bounds[(left - 1) * self.dirs + dir] {
                return false;
            }
        }
        true
    }
}

/// The greatest bound: a directory that is live whatever number of links was followed before.
const MOST_BOUND: u8 = MOST_LINKS + 1;

impl Entry {
    /// The bound by which this letter alone makes its directory live, where at most `left` letters
    /// come after it, by the bounds for so many: 33 where a call is allowed with the final link
    /// kept.
    pub(crate) fn bound(&self, bounds: &[u8], dirs: usize, left: usize) -> u8
        requires links { self.now.links ≤ most_links }
        requires layer { left * dirs + dirs ≤ length bounds.now }
        requires to { IfSome self.now.to (λ d. d < dirs) }
        ensures { result ≡ bound_of bounds.now dirs left self.now }
    {
        if self.kept != 0 {
            return MOST_BOUND;
        }
        let own = if self.all == 0 {
            0
        } else {
            MOST_BOUND - self.links
        };
        let Some(to) = self.to else {
            return own;
        };
        let behind = bounds[left * dirs + to as usize];
        own.max(behind.saturating_sub(self.links))
    }
}

/// The bound of a directory where at most `left` letters may come, by the bounds for fewer.
fn bound(steps: &Steps, bounds: &[u8], left: usize, dir: usize) -> u8
    requires table { IsTable steps.now }
    requires dir { dir < length steps.now.rows.items }
    requires filled { IsFilled (graph_of steps.now) (length steps.now.rows.items) bounds.now }
    requires layer { left * length steps.now.rows.items ≤ length bounds.now }
    ensures { IsBound (graph_of steps.now) left dir result }
{
    if left == 0 {
        return 0;
    }
    behind(steps, bounds, left - 1, dir)
}

/// The bound of a directory where one letter may come, and at most `left` after it.
fn behind(steps: &Steps, bounds: &[u8], left: usize, dir: usize) -> u8
    requires table { IsTable steps.now }
    requires dir { dir < length steps.now.rows.items }
    requires filled { IsFilled (graph_of steps.now) (length steps.now.rows.items) bounds.now }
    requires layer { left * length steps.now.rows.items + length steps.now.rows.items
        ≤ length bounds.now }
    ensures { IsBound (graph_of steps.now) (suc left) dir result }
{
    let row = &steps.rows[dir];
    let mut most = 0;
    let mut next = 0;
    for entry in &row.entries {
        if row.has_gap(next, entry.letter) {
            return MOST_BOUND;
        }
        most = entry.bound(bounds, steps.rows.len(), left).max(most);
        next = entry.letter + 1;
    }
    if row.has_gap(next, steps.letters) {
        return MOST_BOUND;
    }
    most
}

impl Live {
    /// The live states of a table of steps, for words of at most `limit` letters. The only error is
    /// that a growth was refused, after which nothing is kept.
    pub(crate) fn fill(alloc: Global, steps: &Steps, limit: usize) -> Result<Live, AllocError>
        requires table { IsTable steps.now }
        requires limit { limit ≤ most_letters }
        requires fits { suc limit * length steps.now.rows.items < 2 ^ 64 }
        ensures sized { IfOk result (λ v. IsSized steps.now v limit) }
    {
        let dirs = steps.rows.len();
        let mut bounds = Vec::with_capacity(alloc, (limit + 1) * dirs)?;
        for left in 0..limit + 1 {
            for dir in 0..dirs {
                let bound = bound(steps, &bounds, left, dir);
                bounds.push(bound).unwrap();
            }
        }
        Ok(Live { dirs, bounds })
    }
}
