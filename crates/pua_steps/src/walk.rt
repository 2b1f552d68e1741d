//! The walk through the words over a table of steps.

ghost use Rattle.std.specs.Prelude.{◌≡◌, ◌≢◌, ◌≤◌, ◌<◌, ◌+◌, ◌∷◌, ◌++◌, [], ℕ, IfSome, ◌*◌, ◌^◌};
ghost use Rattle.std.specs.Prelude.{suc, IfOk, length, vec_capacity, MatchOption};
ghost use Rattle.pua_steps.specs.Limits.{most_letters, call_count};
ghost use Rattle.pua_steps.specs.Calls.{calls_of};
ghost use Rattle.pua_steps.specs.Graph.{graph_reach};
ghost use Rattle.pua_steps.specs.Table.{IsTable, IsState, graph_of};
ghost use Rattle.pua_steps.specs.Live.{IsSized};
ghost use Rattle.pua_steps.specs.Lists.{AreListsOf};
ghost use Rattle.pua_steps.specs.Trail.{on_word, pairs_of};
ghost use Rattle.pua_steps.specs.Ready.{IsReady, IsBetween, IsSameWalk, IsTurned, IsNextPair};
ghost use Rattle.pua_steps.specs.Ready.{IsCounted, IsUnchanged, StaysFront, left_over, trail};

use crate::calls::take_first;
use crate::frame::Frame;
use crate::state::State;
use crate::tables::Tables;
use crate::visit::Visit;
use std::alloc::{AllocError, Global};

/// A walk through the words of a table of steps, in their order: letter by letter, a word before
/// its extensions. It gives the pairs of a word and a call that is allowed on it. It takes no
/// memory beyond what was reserved at its beginning.
#[derive(Drop)]
pub struct Walk {
    pub(crate) tables: Tables,
    /// The most letters of a word.
    pub(crate) limit: usize,
    /// The word, by the places of its letters in the alphabet.
    pub(crate) word: Vec<usize>,
    /// How many letters at the front of the word are as they were before the last `next_call`.
    pub(crate) unchanged: usize,
    /// The calls of the word that are still to be given.
    pub(crate) calls: u32,
    /// The state to which the word leads, where it is live.
    pub(crate) behind: Option<State>,
    /// The states that are open, one for each letter of the word.
    pub(crate) frames: Vec<Frame>,
}

impl Walk {
    /// A walk with all pairs ahead of it, by words of at most `limit` letters: `calls` are the
    /// calls of the empty word, and `base` is the state in which the first letter stands, if there
    /// is one. It reserves all that the walk will need, and counts no letter. The only error is
    /// that a growth was refused, after which nothing is kept.
    pub fn begin(
        alloc: Global,
        tables: Tables,
        calls: u32,
        base: Option<State>,
        limit: usize,
    ) -> Result<Walk, AllocError>
        requires table { IsTable tables.steps }
        requires sized { IsSized tables.steps tables.live limit }
        requires listed { AreListsOf tables.steps tables.live limit tables.counted.lists }
        requires calls { calls < 2 ^ call_count }
        requires base { IfSome base (λ s. IsState tables.steps s) }
        ensures ready { IfOk result (λ walk. IsReady walk) }
        ensures of { IfOk result (λ walk. (walk.tables ≡ tables) × (walk.limit ≡ limit)) }
        ensures fresh { IfOk result (λ walk. (walk.word.items ≡ []) × (walk.frames.items ≡ [])) }
        ensures left { IfOk result (λ walk.
            pairs_of (trail walk) ≡ graph_reach (graph_of tables.steps) limit calls base) }
    {
        let word = Vec::with_capacity(alloc, limit)?;
        let frames = Vec::with_capacity(alloc, limit)?;
        let behind = tables.entrance(limit, base);
        Ok(Walk {
            tables,
            limit,
            word,
            unchanged: 0,
            calls,
            behind,
            frames,
        })
    }

    /// The call of the next pair, whose word is then the walk's. None where no pair is left, now
    /// and from then on. It reads at most `2 * limit * letters` letters, and takes no memory. Of
    /// the word as it was before, the first `unchanged` letters stay.
    pub fn next_call(&mut self) -> Option<u8>
        requires ready { IsReady self.old }
        ensures ready { IsReady self.new }
        ensures same { IsSameWalk self.old self.new }
        ensures line { MatchOption result ((pairs_of (trail self.old) ≡ []) ×
            (pairs_of (trail self.new) ≡ []))
            (λ call. pairs_of (trail self.old) ≡ (
              self.new.word.items,
              call,
            ) ∷ pairs_of (trail self.new)) }
        ensures count { (n : ℕ) × (IsCounted self.old.tables.counted.reads n
            self.new.tables.counted.reads × IsNextPair self.old result self.new n) }
        ensures cost { self.new.tables.counted.reads ≤ self.old.tables.counted.reads
            + 2 * (self.old.limit * self.old.tables.steps.letters) }
        ensures unchanged { IsUnchanged self.old.word.items self.new.unchanged self.new.word.items }
        ensures stays { self.old.calls ≢ 0 →
            (self.new.word ≡ self.old.word) × (self.new.unchanged ≡ length self.old.word.items) }
    {
        self.unchanged = self.word.len();
        self.go_on()
    }

    /// Takes all calls of the walk's word that are still to be given: a bit for each, the first at
    /// bit
    /// 0. The pairs that come after theirs are still to come. It reads no letter.
    pub fn take_calls(&mut self) -> u32
        ensures ready { IsReady self.old → IsReady self.new }
        ensures same { IsSameWalk self.old self.new }
        ensures word { self.new.word ≡ self.old.word }
        ensures unchanged { self.new.unchanged ≡ self.old.unchanged }
        ensures reads { self.new.tables.counted.reads ≡ self.old.tables.counted.reads }
        ensures pairs { pairs_of (trail self.old) ≡ on_word self.old.word.items (calls_of result)
            ++ pairs_of (trail self.new) }
    {
        let calls = self.calls;
        self.calls = 0;
        calls
    }

    /// The word of the pair that was given last, by the places of its letters in the alphabet.
    /// Before the first call it is the word from which the walk goes on.
    pub fn word(&self) -> &[usize]
        ensures { result.now ≡ self.now.word.items }
    {
        &self.word
    }

    /// How many letters at the front of the word the last `next_call` left as they were. What is
    /// made of the word letter by letter has to be made again from there on. Where the call is of
    /// the same word as the one before, it is the length of the word.
    pub fn unchanged(&self) -> usize
        ensures { result ≡ self.now.unchanged }
    {
        self.unchanged
    }

    /// How many letters the walk has read so far. It stays at its greatest value once there.
    pub fn reads(&self) -> u64
        ensures { result ≡ self.now.tables.counted.reads }
    {
        self.tables.reads()
    }

    /// Goes on to the next pair.
    fn go_on(&mut self) -> Option<u8>
        requires { IsReady self.old }
        ensures ready { IsReady self.new }
        ensures same { IsSameWalk self.old self.new }
        ensures next { (n : ℕ) × (IsCounted self.old.tables.counted.reads n
            self.new.tables.counted.reads × IsNextPair self.old result self.new n) }
        ensures unchanged { StaysFront self.old.unchanged self.old.word.items self.new.unchanged
            self.new.word.items }
        ensures stays { self.old.calls ≢ 0 →
            (self.new.word ≡ self.old.word) × (self.new.unchanged ≡ self.old.unchanged) }
    {
        // The proof names the loop by its label.
        'words: loop {
            if let Some(call) = take_first(&mut self.calls) {
                return Some(call);
            }
            if !self.advance() {
                return None;
            }
        }
    }

    /// Goes on to the next word, if there is one.
    fn advance(&mut self) -> bool
        requires ready { IsReady self.old }
        requires given { self.old.calls ≡ 0 }
        ensures ready { IsReady self.new }
        ensures same { IsSameWalk self.old self.new }
        ensures next { (n : ℕ) × (IsCounted self.old.tables.counted.reads n
            self.new.tables.counted.reads × IsTurned (trail self.old) result self.new n) }
        ensures unchanged { StaysFront self.old.unchanged self.old.word.items self.new.unchanged
            self.new.word.items }
    {
        if let Some(state) = self.behind {
            self.behind = None;
            let left = self.limit - self.word.len() - 1;
            let frame = self.tables.open(left, state);
            self.frames.push(frame).unwrap();
            return self.turn();
        }
        let _ = self.word.pop();
        self.turn()
    }

    /// Takes the next letter of the deepest frame that has one left.
    fn turn(&mut self) -> bool
        requires { IsBetween self.old }
        ensures ready { IsReady self.new }
        ensures same { IsSameWalk self.old self.new }
        ensures next { (n : ℕ) × (IsCounted self.old.tables.counted.reads n
            self.new.tables.counted.reads
            × IsTurned (left_over self.old self.old.frames.items) result self.new n) }
        ensures unchanged { StaysFront self.old.unchanged self.old.word.items self.new.unchanged
            self.new.word.items }
    {
        while !self.frames.is_empty() {
            let deepest = self.frames.len() - 1;
            let left = self.limit - deepest - 1;
            if let Some(visit) = self.tables.next_visit(left, &mut self.frames[deepest]) {
                self.unchanged = self.unchanged.min(self.word.len());
                self.go_by(visit);
                return true;
            }
            let _ = self.frames.pop();
            let _ = self.word.pop();
        }
        self.unchanged = 0;
        false
    }

    /// Goes to the word with one letter more, by a frame that is put after the others.
    pub(crate) fn enter(&mut self, frame: Frame, visit: Visit)
        requires words { length self.old.word.items < vec_capacity self.old.word }
        requires frames { length self.old.frames.items < vec_capacity self.old.frames }
        ensures steps { self.new.tables.steps ≡ self.old.tables.steps }
        ensures live { self.new.tables.live ≡ self.old.tables.live }
        ensures lists { self.new.tables.counted.lists ≡ self.old.tables.counted.lists }
        ensures reads { self.new.tables.counted.reads ≡ self.old.tables.counted.reads }
        ensures limit { self.new.limit ≡ self.old.limit }
        ensures unchanged { self.new.unchanged ≡ self.old.unchanged }
        ensures room { (vec_capacity self.old.word ≤ vec_capacity self.new.word)
            × (vec_capacity self.old.frames ≤ vec_capacity self.new.frames) }
        ensures frames { self.new.frames.items ≡ self.old.frames.items ++ frame ∷ [] }
        ensures word { self.new.word.items ≡ self.old.word.items ++ visit.letter ∷ [] }
        ensures calls { self.new.calls ≡ visit.calls }
        ensures behind { self.new.behind ≡ visit.behind }
    {
        self.frames.push(frame).unwrap();
        self.go_by(visit);
    }

    /// Goes to the word with one letter more, by the deepest frame.
    fn go_by(&mut self, visit: Visit)
        requires { length self.old.word.items < vec_capacity self.old.word }
        ensures steps { self.new.tables.steps ≡ self.old.tables.steps }
        ensures live { self.new.tables.live ≡ self.old.tables.live }
        ensures lists { self.new.tables.counted.lists ≡ self.old.tables.counted.lists }
        ensures reads { self.new.tables.counted.reads ≡ self.old.tables.counted.reads }
        ensures limit { self.new.limit ≡ self.old.limit }
        ensures unchanged { self.new.unchanged ≡ self.old.unchanged }
        ensures frames { self.new.frames ≡ self.old.frames }
        ensures room { vec_capacity self.old.word ≤ vec_capacity self.new.word }
        ensures word { self.new.word.items ≡ self.old.word.items ++ visit.letter ∷ [] }
        ensures calls { self.new.calls ≡ visit.calls }
        ensures behind { self.new.behind ≡ visit.behind }
    {
        self.word.push(visit.letter).unwrap();
        self.calls = visit.calls;
        self.behind = visit.behind;
    }
}
