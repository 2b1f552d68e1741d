//! The walk over the table of steps, before its first pair.

ghost use Rattle.std.specs.Prelude.{◌≡◌, ◌<◌, ◌≤◌, ◌+◌, ◌^◌, ◌*◌, true, false, length, Option};
ghost use Rattle.std.specs.Prelude.{option_map, None, IfOk, IfSome, map, []};
ghost use Rattle.pua_tree.specs.LentRows.{lent_entry};
ghost use Rattle.std.specs.List.{AllByRecursion};
ghost use Rattle.pua_path.specs.declared.found.Found.TheVariants.{Whole};
ghost use Rattle.pua_calls.specs.CallSets.{has};
ghost use Rattle.pua_calls.specs.declared.call.Call.{Call};
ghost use Rattle.pua_audit.specs.Bounds.{pairs_cost};
ghost use Rattle.pua_audit.specs.Coming.{pairs_resumed, pairs_at};
ghost use Rattle.pua_audit.specs.Reach.{Pair, rest_after};
ghost use Rattle.pua_audit.specs.Judge.{Start, base_dir, base_way, is_open};
ghost use Rattle.pua_audit.specs.Live.{live_states};
ghost use Rattle.pua_audit.specs.Ready.{judge_in, scope_in};
ghost use Rattle.pua_audit.specs.Starting.{AreLetters, pair_in};
ghost use Rattle.pua_steps.specs.Graph.{graph_reach};
ghost use Rattle.pua_steps.specs.Limits.{call_count, search_cost};
ghost use Rattle.pua_steps.specs.Lists.{AreListsOf};
ghost use Rattle.pua_steps.specs.Live.{IsSized};
ghost use Rattle.pua_steps.specs.Ready.{IsReady, trail};
ghost use Rattle.pua_steps.specs.Table.{IsState, IsTable, graph_of};
ghost use Rattle.pua_steps.specs.Trail.{pairs_of};
ghost use Rattle.pua_steps.specs.Within.{IsPair};

use crate::resume_text::Resumption;
use crate::terms::Terms;
use pua_calls::Calls;
use pua_path::{Found, Probe};
use pua_steps::{State, Steps, Tables, Walk};
use pua_tree::{LentRow, OutOfMemory};
use std::alloc::{AllocError, Global};

/// A walk over the table of steps of what is audited, and how many of its states are live.
#[derive(Drop)]
pub(crate) struct BegunWalk {
    pub(crate) walk: Walk,
    pub(crate) live: usize,
}

impl Terms {
    /// A walk over the table of steps with the whole reach ahead, or with those of its pairs that
    /// come after one, by the places of letters and the numbers of calls from 0 on; and how many
    /// states are live. Where the process has ended, or its base was removed, there is no pair. The
    /// only error is that a growth was refused.
    #[tactic(auto, using(crate::proofs::Begun::table_fits, crate::proofs::Starts::lives))]
    pub(crate) fn begun<'t, P: Probe<'t>>(
        &self,
        alloc: Global,
        probe: &mut P,
        rows: &[LentRow<'_>],
        after: Option<Resumption>,
    ) -> Result<BegunWalk, OutOfMemory>
        requires tree { P.tree probe.old ≡ self.now.seen.tree }
        requires rows { map lent_entry rows.now ≡ self.now.seen.tree.rows }
        requires word { IfSome after (λ r. AreLetters self.now.letters self.now.limit
            r.word.items) }
        ensures ready { IfOk result (λ begun. IsReady begun.walk) }
        ensures limit { IfOk result (λ begun. begun.walk.limit ≡ self.now.limit) }
        ensures letters { IfOk result (λ begun. begun.walk.tables.steps.letters
            ≡ length self.now.letters) }
        ensures pairs { IfOk result
            (λ begun. rest_after (scope_in self.now)
            (option_map (pair_in self.now.letters) after) ≡ pairs_at self.now.letters
            (pairs_of (trail begun.walk))) }
        ensures within { IfOk result
            (λ begun. AllByRecursion (λ p. IsPair (length self.now.letters) p)
            (pairs_of (trail begun.walk))) }
        ensures live { IfOk result (λ begun.
            begun.live ≡ length (live_states (scope_in self.now))) }
        ensures reads { IfOk result (λ begun. begun.walk.tables.counted.reads
            ≤ search_cost * self.now.limit) }
        ensures unread { after ≡ None → IfOk result (λ begun. begun.walk.tables.counted.reads ≡ 0) }
        ensures tree { P.tree probe.new ≡ P.tree probe.old }
        ensures cost { P.count probe.new ≤ P.count probe.old + pairs_cost self.now.seen.tree
            (length self.now.letters) }
    {
        if !self.is_open(probe) {
            return self.begun_closed(alloc);
        }
        let cover = self.process.cover(probe, &self.base_found());
        let calls = self.calls_on(probe, &Ok(self.base_found()), &cover);
        if self.limit == 0 {
            return self.begun_at_base(alloc, calls, after);
        }
        let calls = calls.bits();
        let steps = self.table(alloc, probe, rows, self.base_dir(), cover)?;
        let base = Some(State { dir: 0, used: 0 });
        let tables = Tables::fill(alloc, steps, self.limit)?;
        let live = tables.count(alloc, base, self.limit)?;
        let walk = walk_after(alloc, tables, calls, base, self.limit, after)?;
        Ok(BegunWalk { walk, live })
    }

    /// The same where the empty word is the only one, by its calls: its pairs need no row of the
    /// table, and no state is live.
    fn begun_at_base(
        &self,
        alloc: Global,
        calls: Calls,
        after: Option<Resumption>,
    ) -> Result<BegunWalk, OutOfMemory>
        requires word { IfSome after (λ r. AreLetters self.now.letters self.now.limit
            r.word.items) }
        ensures ready { IfOk result (λ begun. IsReady begun.walk) }
        ensures limit { IfOk result (λ begun. begun.walk.limit ≡ self.now.limit) }
        ensures letters { IfOk result (λ begun. begun.walk.tables.steps.letters
            ≡ length self.now.letters) }
        ensures pairs { is_open (scope_in self.now) ≡ true → self.now.limit ≡ 0 →
            ((call : Call) → has calls call ≡ (judge_in self.now).own Start call) → IfOk result
            (λ begun. rest_after (scope_in self.now)
            (option_map (pair_in self.now.letters) after) ≡ pairs_at self.now.letters
            (pairs_of (trail begun.walk))) }
        ensures within { IfOk result
            (λ begun. AllByRecursion (λ p. IsPair (length self.now.letters) p)
            (pairs_of (trail begun.walk))) }
        ensures live { self.now.limit ≡ 0 → IfOk result (λ begun.
            begun.live ≡ length (live_states (scope_in self.now))) }
        ensures reads { IfOk result (λ begun. begun.walk.tables.counted.reads
            ≤ search_cost * self.now.limit) }
        ensures unread { after ≡ None → IfOk result (λ begun. begun.walk.tables.counted.reads ≡ 0) }
    {
        let calls = calls.bits();
        let tables = Tables::fill(alloc, self.no_rows(alloc), self.limit)?;
        let walk = walk_after(alloc, tables, calls, None, self.limit, after)?;
        Ok(BegunWalk { walk, live: 0 })
    }

    /// The same where nothing is allowed: no pair is ahead, and no state is live.
    fn begun_closed(&self, alloc: Global) -> Result<BegunWalk, OutOfMemory>
        ensures ready { IfOk result (λ begun. IsReady begun.walk) }
        ensures limit { IfOk result (λ begun. begun.walk.limit ≡ self.now.limit) }
        ensures letters { IfOk result (λ begun. begun.walk.tables.steps.letters
            ≡ length self.now.letters) }
        ensures pairs { is_open (scope_in self.now) ≡ false → IfOk result
            (λ begun. (after : Option Pair) →
            rest_after (scope_in self.now) after ≡ pairs_at self.now.letters
            (pairs_of (trail begun.walk))) }
        ensures within { IfOk result
            (λ begun. AllByRecursion (λ p. IsPair (length self.now.letters) p)
            (pairs_of (trail begun.walk))) }
        ensures live { is_open (scope_in self.now) ≡ false → IfOk result (λ begun.
            begun.live ≡ length (live_states (scope_in self.now))) }
        ensures reads { IfOk result (λ begun. begun.walk.tables.counted.reads
            ≤ search_cost * self.now.limit) }
        ensures unread { IfOk result (λ begun. begun.walk.tables.counted.reads ≡ 0) }
    {
        let tables = Tables::fill(alloc, self.no_rows(alloc), self.limit)?;
        let walk = Walk::begin(alloc, tables, 0, None, self.limit)?;
        Ok(BegunWalk { walk, live: 0 })
    }

    /// A table of steps for these letters that has no directory.
    fn no_rows(&self, alloc: Global) -> Steps
        ensures letters { result.letters ≡ length self.now.letters }
        ensures rows { result.rows.items ≡ [] }
    {
        Steps {
            letters: self.letters.len(),
            rows: Vec::new(alloc),
        }
    }

    /// The base itself, as it is found.
    fn base_found(&self) -> Found
        ensures { result
            ≡ Whole (base_dir self.now.base self.now.process) (base_way self.now.base) }
    {
        Found::Whole {
            dir: self.base_dir(),
            way: self.base_way(),
        }
    }
}

/// A walk over a table with all pairs ahead, or with those that come after one. The only error is
/// that a growth was refused.
fn walk_after(
    alloc: Global,
    tables: Tables,
    calls: u32,
    base: Option<State>,
    limit: usize,
    after: Option<Resumption>,
) -> Result<Walk, AllocError>
    requires table { IsTable tables.steps }
    requires sized { IsSized tables.steps tables.live limit }
    requires listed { AreListsOf tables.steps tables.live limit tables.counted.lists }
    requires calls { calls < 2 ^ call_count }
    requires base { IfSome base (λ s. IsState tables.steps s) }
    requires word { IfSome after (λ r. AllByRecursion (λ letter. letter < tables.steps.letters)
        r.word.items) }
    requires few { IfSome after (λ r. length r.word.items ≤ limit) }
    ensures ready { IfOk result (λ walk. IsReady walk) }
    ensures steps { IfOk result (λ walk. walk.tables.steps ≡ tables.steps) }
    ensures limit { IfOk result (λ walk. walk.limit ≡ limit) }
    ensures reads { IfOk result (λ walk.
        walk.tables.counted.reads ≤ tables.counted.reads + search_cost * limit) }
    ensures unread { after ≡ None → IfOk result
        (λ walk. walk.tables.counted.reads ≡ tables.counted.reads) }
    ensures left { IfOk result (λ walk. pairs_of (trail walk)
        ≡ pairs_resumed after (graph_reach (graph_of tables.steps) limit calls base)) }
{
    let Some(after) = after else {
        return Walk::begin(alloc, tables, calls, base, limit);
    };
    let call = after.call.number() - 1;
    Walk::resume(
        alloc,
        tables,
        calls,
        base,
        limit,
        after.word.as_slice(),
        call,
    )
}
