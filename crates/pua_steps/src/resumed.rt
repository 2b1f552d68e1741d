//! A walk that goes on after a pair.

ghost use Rattle.std.specs.Prelude.{◌≡◌, ◌<◌, ◌≤◌, ◌+◌, ◌^◌, ◌*◌, ◌∷◌, [], ℕ, List, suc, length, min};
ghost use Rattle.std.specs.Prelude.{Some, IfOk, IfSome};
ghost use Rattle.std.specs.List.{AllByRecursion};
ghost use Rattle.pua_steps.specs.Limits.{most_letters, call_count};
ghost use Rattle.pua_steps.specs.Graph.{graph_reach};
ghost use Rattle.pua_steps.specs.Order.{pairs_after};
ghost use Rattle.pua_steps.specs.Limits.{search_cost};
ghost use Rattle.pua_steps.specs.Live.{IsSized};
ghost use Rattle.pua_steps.specs.Lists.{AreListsOf};
ghost use Rattle.pua_steps.specs.Table.{IsTable, IsState, graph_of};
ghost use Rattle.pua_steps.specs.Trail.{pairs_of};
ghost use Rattle.pua_steps.specs.Ready.{IsReady, IsSameWalk, trail};
ghost use Rattle.pua_steps.specs.Resuming.{to_give_after};

use crate::calls::calls_after;
use crate::state::State;
use crate::tables::Tables;
use crate::visit::Visit;
use crate::walk::Walk;
use std::alloc::{AllocError, Global};

impl Walk {
    /// A walk with those pairs ahead of it that come after a pair: after the word `word`, given by
    /// the places of its letters, and the call with the number `call`, from 0 on. The word's path
    /// may lead nowhere, the word may be longer than `limit`, and the pair need not be allowed. The
    /// other arguments are those of `begin`, as is the error. It goes to that place by one binary
    /// search a letter, and does not walk there from the first pair: its lists are those that it
    /// was given, so their count went on from what it was.
    pub fn resume(
        alloc: Global,
        tables: Tables,
        calls: u32,
        base: Option<State>,
        limit: usize,
        word: &[usize],
        call: u8,
    ) -> Result<Walk, AllocError>
        requires table { IsTable tables.steps }
        requires sized { IsSized tables.steps tables.live limit }
        requires listed { AreListsOf tables.steps tables.live limit tables.counted.lists }
        requires calls { calls < 2 ^ call_count }
        requires base { IfSome base (λ s. IsState tables.steps s) }
        requires word { AllByRecursion (λ letter. letter < tables.steps.letters) word.now }
        requires call { call < call_count }
        ensures ready { IfOk result (λ walk. IsReady walk) }
        ensures of { IfOk result (λ walk.
            (walk.tables.steps ≡ tables.steps) × (walk.limit ≡ limit)) }
        ensures reads { IfOk result (λ walk.
            walk.tables.counted.reads ≤ tables.counted.reads + search_cost * length word.now) }
        ensures raised { IfOk result (λ walk.
            min tables.counted.reads 18446744073709551615 ≤ walk.tables.counted.reads) }
        ensures lists { IfOk result (λ walk. walk.tables.counted.lists ≡ tables.counted.lists) }
        ensures left { IfOk result (λ walk.
            pairs_of (trail walk) ≡ pairs_after (
              word.now,
              call,
            ) (graph_reach (graph_of tables.steps) limit calls base)) }
    {
        let mut walk = Walk::begin(alloc, tables, calls, base, limit)?;
        walk.go_to(word, call);
        Ok(walk)
    }

    /// Goes from its beginning to the place after a pair: along the pair's word as far as words
    /// with an allowed call go on, and to those of the word's calls that come after the pair's.
    fn go_to(&mut self, word: &[usize], call: u8)
        requires ready { IsReady self.old }
        requires fresh { (self.old.word.items ≡ []) × (self.old.frames.items ≡ []) }
        requires word { AllByRecursion (λ letter. letter < self.old.tables.steps.letters) word.now }
        requires call { call < call_count }
        ensures ready { IsReady self.new }
        ensures same { IsSameWalk self.old self.new }
        ensures reads { self.new.tables.counted.reads ≤ self.old.tables.counted.reads
            + search_cost * length word.now }
        ensures raised { min self.old.tables.counted.reads 18446744073709551615
            ≤ self.new.tables.counted.reads }
        ensures left { pairs_of (trail self.new) ≡ pairs_after (
          word.now,
          call,
        ) (pairs_of (trail self.old)) }
    {
        for letter in word {
            let Some(state) = self.behind else {
                self.calls = 0;
                return;
            };
            self.descend(state, *letter);
        }
        self.calls = calls_after(self.calls, call);
    }

    /// Goes on to the word with this letter more, past the letters before it.
    fn descend(&mut self, state: State, letter: usize)
        requires ready { IsReady self.old }
        requires there { self.old.behind ≡ Some state }
        requires short { length self.old.word.items < self.old.limit }
        requires letter { letter < self.old.tables.steps.letters }
        ensures ready { IsReady self.new }
        ensures same { IsSameWalk self.old self.new }
        ensures reads { self.new.tables.counted.reads
            ≤ self.old.tables.counted.reads + search_cost }
        ensures raised { min self.old.tables.counted.reads 18446744073709551615
            ≤ self.new.tables.counted.reads }
        ensures gives { (way : List ℕ) (call : ℕ) →
            to_give_after self.old (letter ∷ way) call ≡ to_give_after self.new way call }
    {
        let left = self.limit - self.word.len() - 1;
        let found = self.tables.find(left, state, letter);
        let behind = self.tables.entrance(left, found.visit.behind);
        self.enter(
            found.frame,
            Visit {
                letter,
                calls: found.visit.calls,
                behind,
            },
        );
    }
}
