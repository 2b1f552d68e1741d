//! The pairs of an audit, by a walk over its table of steps.

ghost use Rattle.std.specs.Prelude.{◌≡◌, ◌≤◌, ◌<◌, ◌+◌, ◌*◌, ◌++◌, length, option_map, None, IfOk};
ghost use Rattle.std.specs.Prelude.{IfSome, map};
ghost use Rattle.pua_tree.specs.LentRows.{lent_entry};
ghost use Rattle.pua_audit.specs.Bounds.{pairs_cost};
ghost use Rattle.pua_audit.specs.Coming.{AreReady, IsNextCall, call_at, calls_at};
ghost use Rattle.pua_audit.specs.Coming.{to_come, walk_word, with_word};
ghost use Rattle.pua_audit.specs.Live.{live_states};
ghost use Rattle.pua_audit.specs.Reach.{rest_after};
ghost use Rattle.pua_audit.specs.Ready.{scope_in};
ghost use Rattle.pua_audit.specs.Starting.{AreLetters, pair_in};
ghost use Rattle.pua_steps.specs.Limits.{call_count, search_cost};

use crate::path::WordPath;
use crate::resume_text::Resumption;
use crate::table::begun::BegunWalk;
use crate::terms::Terms;
use pua_calls::Call;
use pua_path::Probe;
use pua_steps::Walk;
use pua_tree::{LentRow, OutOfMemory};
use std::alloc::Global;

/// The pairs that are still to come, by a walk that asks the tree nothing. It takes no memory
/// beyond what was reserved at its beginning.
#[derive(Drop)]
pub(crate) struct Pairs {
    pub(crate) terms: Terms,
    pub(crate) walk: Walk,
    /// How many states are live.
    pub(crate) live: usize,
    /// The path of the walk's word, or of the letters at its front.
    pub(crate) path: WordPath,
}

impl Pairs {
    /// All pairs of the reach, or those that come after one. Where the process has ended, or its
    /// base was removed, there is none. The only error is that a growth was refused.
    pub(crate) fn begin<'t, P: Probe<'t>>(
        alloc: Global,
        probe: &mut P,
        rows: &[LentRow<'_>],
        terms: Terms,
        after: Option<Resumption>,
    ) -> Result<Pairs, OutOfMemory>
        requires tree { P.tree probe.old ≡ terms.seen.tree }
        requires rows { map lent_entry rows.now ≡ terms.seen.tree.rows }
        requires word { IfSome after
            (λ r. AreLetters terms.letters terms.limit r.word.items) }
        ensures ready { IfOk result (λ pairs. AreReady pairs) }
        ensures terms { IfOk result (λ pairs. pairs.terms ≡ terms) }
        ensures left { IfOk result (λ pairs. to_come pairs ≡ rest_after (scope_in terms)
            (option_map (pair_in terms.letters) after)) }
        ensures live { IfOk result (λ pairs. pairs.live ≡ length (live_states (scope_in terms))) }
        ensures reads { IfOk result (λ pairs. pairs.walk.tables.counted.reads
            ≤ search_cost * terms.limit) }
        ensures unread { after ≡ None → IfOk result (λ pairs. pairs.walk.tables.counted.reads ≡ 0) }
        ensures tree { P.tree probe.new ≡ P.tree probe.old }
        ensures cost { P.count probe.new ≤ P.count probe.old + pairs_cost terms.seen.tree
            (length terms.letters) }
    {
        let BegunWalk { walk, live } = terms.begun(alloc, probe, rows, after)?;
        let path = WordPath::new(alloc, terms.limit, terms.most_bytes())?;
        Ok(Pairs {
            terms,
            walk,
            live,
            path,
        })
    }

    /// The call of the next line: the path is then that of the walk's word. None where no pair is
    /// left.
    pub(crate) fn next_call(&mut self) -> Option<Call>
        requires ready { AreReady self.old }
        ensures ready { AreReady self.new }
        ensures terms { self.new.terms ≡ self.old.terms }
        ensures live { self.new.live ≡ self.old.live }
        ensures next { IsNextCall self.old result self.new }
        ensures reads { self.new.walk.tables.counted.reads ≤ self.old.walk.tables.counted.reads
            + 2 * (self.old.terms.limit * length self.old.terms.letters) }
    {
        let next = self.walk.next_call();
        self.path.keep(self.walk.unchanged());
        let call = next?;
        // The path has room for each letter of the word, so none is refused.
        while self.path.starts.len() < self.walk.word().len() {
            let letter = self.walk.word()[self.path.starts.len()];
            let terms = &self.terms;
            let letters = terms.letters.as_slice();
            self.path.add(&letters[letter]).unwrap();
        }
        Some(call_at(call))
    }

    /// The calls of the walk's word that come after the one that was given last: a bit for each,
    /// the first at bit 0.
    pub(crate) fn later_calls(&mut self) -> u32
        ensures ready { AreReady self.old → AreReady self.new }
        ensures terms { self.new.terms ≡ self.old.terms }
        ensures live { self.new.live ≡ self.old.live }
        ensures path { self.new.path ≡ self.old.path }
        ensures word { walk_word self.new ≡ walk_word self.old }
        ensures left { AreReady self.old → to_come self.old
            ≡ with_word (walk_word self.old) (calls_at result) ++ to_come self.new }
        ensures reads { self.new.walk.tables.counted.reads ≡ self.old.walk.tables.counted.reads }
    {
        self.walk.take_calls()
    }
}

/// The call with this number, from 0 on.
pub(crate) fn call_at(number: u8) -> Call
    requires { number < call_count }
    ensures { result ≡ call_at number }
{
    // Lent, the table is read where it lies: by value it would be copied for each line.
    let calls: &'static [Call; Call::COUNT] = &Call::ALL;
    calls[number as usize]
}
