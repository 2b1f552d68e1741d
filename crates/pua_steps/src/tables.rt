//! The tables of a walk: no other module sees them, or reads what they were made of.

ghost use Rattle.std.specs.Prelude.{◌≡◌, ◌<◌, ◌≤◌, ◌+◌, ◌*◌, ◌^◌, ℕ, suc, length, get_or};
ghost use Rattle.std.specs.Prelude.{IfOk, IfSome};
ghost use Rattle.pua_steps.specs.Limits.{most_letters};
ghost use Rattle.pua_steps.specs.Live.{IsSized, entrance, live_of};
ghost use Rattle.pua_steps.specs.Lists.{AreListsOf, span_of};
ghost use Rattle.pua_steps.specs.Reached.{live_count};
ghost use Rattle.pua_steps.specs.Table.{IsState, IsTable, graph_of, missing_at};

use crate::counted::CountedLists;
use crate::frame::Frame;
use crate::lists::{Lists, Span};
use crate::live::Live;
use crate::state::State;
use crate::steps::Steps;
use std::alloc::{AllocError, Global};

/// The tables that a walk reads, and how many of their letters were read. They are made of a table
/// of steps, which they keep: nothing gives it back, and what it has for a letter is read by
/// `counted` alone.
#[derive(Drop)]
pub struct Tables {
    steps: Steps,
    live: Live,
    pub(crate) counted: CountedLists,
}

impl Tables {
    /// The tables of a table of steps, for words of at most `limit` letters: none of their letters
    /// was read. The only error is that a growth was refused, after which nothing is kept.
    pub fn fill(alloc: Global, steps: Steps, limit: usize) -> Result<Tables, AllocError>
        requires table { IsTable steps }
        requires limit { limit ≤ most_letters }
        requires fits { suc limit * length steps.rows.items < 2 ^ 64 }
        ensures steps { IfOk result (λ tables. tables.steps ≡ steps) }
        ensures sized { IfOk result (λ tables. IsSized steps tables.live limit) }
        ensures listed { IfOk result
            (λ tables. AreListsOf steps tables.live limit tables.counted.lists) }
        ensures reads { IfOk result (λ tables. tables.counted.reads ≡ 0) }
    {
        let live = Live::fill(alloc, &steps, limit)?;
        let lists = Lists::fill(alloc, &steps, &live, limit)?;
        Ok(Tables {
            steps,
            live,
            counted: CountedLists::new(lists),
        })
    }

    /// How many letters were read so far. It stays at its greatest value once there.
    pub(crate) fn reads(&self) -> u64
        ensures { result ≡ self.now.counted.reads }
    {
        self.counted.reads()
    }

    /// How many states are live, as `Live::count` says. It goes through the table of steps once for
    /// each letter of the limit, which is not counted: it is no part of a line.
    pub fn count(
        &self,
        alloc: Global,
        base: Option<State>,
        limit: usize,
    ) -> Result<usize, AllocError>
        requires table { IsTable self.now.steps }
        requires sized { IsSized self.now.steps self.now.live limit }
        requires base { IfSome base (λ s. IsState self.now.steps s) }
        requires limit { limit ≤ most_letters }
        requires small { self.now.live.dirs * 1088 < 2 ^ 64 }
        ensures { IfOk result (λ count. count ≡ live_count (graph_of self.now.steps)
            (length self.now.steps.rows.items) limit base limit) }
    {
        self.live.count(alloc, &self.steps, base, limit)
    }

    /// The state, if it is live where at most `left` letters may come. No letter is read.
    pub(crate) fn entrance(&self, left: usize, state: Option<State>) -> Option<State>
        requires layer { left * self.now.live.dirs + self.now.live.dirs
            ≤ length self.now.live.bounds.items }
        requires state { IfSome state (λ s. s.dir < self.now.live.dirs) }
        ensures { result ≡ entrance (live_of self.now.live) left state }
    {
        self.live.entrance(left, state)
    }

    /// A state with all letters of its list still to be tried. No letter is read.
    pub(crate) fn open(&self, left: usize, state: State) -> Frame
        requires layer { left < length self.now.counted.lists.layers.items }
        requires dir { get_or self.now.counted.lists.layers.items left 0 + state.dir
            < length self.now.counted.lists.spans.items }
        ensures { result ≡ record {
          state = state;
          next = 0;
          place = (span_of self.now.counted.lists left state.dir).place;
          end = (span_of self.now.counted.lists left state.dir).end;
        } }
    {
        let Span { place, end } = self.counted.span(left, state.dir);
        Frame {
            state,
            next: 0,
            place,
            end,
        }
    }

    /// How many letters the alphabet has.
    pub(crate) fn letters(&self) -> usize
        ensures { result ≡ self.now.steps.letters }
    {
        self.steps.letters
    }

    /// The calls that are allowed on the letters of a directory that have no entries.
    pub(crate) fn missing(&self, dir: u32) -> u32
        requires { dir < length self.now.steps.rows.items }
        ensures { result ≡ missing_at self.now.steps dir }
    {
        self.steps.rows[dir as usize].missing
    }
}
