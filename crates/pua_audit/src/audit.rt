//! The audit of a process: its reach, pair by pair.

mod refused;

ghost use Rattle.std.specs.Prelude.{◌*◌, ◌≡◌, ◌≢◌, ◌≤◌, ◌+◌, Ok, Err, None, IfOk, IfErr, IfSome};
ghost use Rattle.std.specs.Prelude.{length, map, option_map};
ghost use Rattle.std.specs.Borrow.{sem};
ghost use Rattle.std.specs.List.{list_all};
ghost use Rattle.pua_tree.specs.Spelling.{is_plain};
ghost use Rattle.pua_policy.specs.States.{ProcessState};
ghost use Rattle.pua_audit.specs.Limits.{most_path};
ghost use Rattle.pua_steps.specs.Limits.{search_cost};
ghost use Rattle.pua_audit.specs.Bounds.{begin_cost, letter_count};
ghost use Rattle.pua_audit.specs.Begin.{Beginning, beginning, still_to_come};
ghost use Rattle.pua_audit.specs.Lent.{LendsLine, LendsLines};
ghost use Rattle.pua_audit.specs.Live.{live_states};

use crate::base::Base;
use crate::beginning::{self, Checked};
use crate::fault::AuditFault;
use crate::line::Line;
use crate::pairs::Pairs;
use crate::path::lent_path;
use crate::path_lines::PathLines;
use crate::terms::Terms;
use pua_calls::CallTable;
use pua_path::Probe;
use pua_policy::Process;
use std::alloc::Global;
use std::marker::Model;

/// What a process is allowed in a tree, line by line in order. Contracts see what was asked, and
/// the pairs that are still to come.
#[derive(Drop)]
pub struct Audit {
    pairs: Pairs,
}

impl Model for Audit {
    ghost use Rattle.pua_audit.specs.AuditState.{AuditState};

    ghost Value = { AuditState };

    ghost use Rattle.pua_audit.specs.Coming.{AreReady, to_come};

    ghost view = { λ a. record {
      tree = a.pairs.terms.seen.tree;
      base = a.pairs.terms.base;
      alphabet = a.pairs.terms.letters;
      limit = a.pairs.terms.limit;
      live = a.pairs.live;
      reads = a.pairs.walk.tables.counted.reads;
      left = to_come a.pairs;
    } };

    ghost invariant = { λ a. AreReady a.pairs };
}

impl Audit {
    /// Begins the audit of a process over the tree of a probe: by paths from this base, of at most
    /// `limit` letters, each a name of the tree's rows, `..` or a candidate; from its first line,
    /// or from the one after the pair that a text `CALL:PATH` names. What a call needs, the table
    /// says, and which calls there are. The process and the table are copied, so what becomes of
    /// them later changes nothing.
    ///
    /// The errors come in the order of `AuditFault`'s page, but that `OutOfMemory` comes wherever a
    /// growth was refused. The resume text is judged also where nothing is allowed at all. No
    /// later line is given an allocator.
    ///
    /// With N nodes, A letters and a limit L it makes at most 33 N (L + 1) (A + 1) E looks at the
    /// tree and 2 (L + 1) (A + 1) E more, where E is 16 times what a step and a verdict may cost
    /// together; wherever it resumes, and whether it begins or is refused.
    pub fn begin<'t, P: Probe<'t>>(
        alloc: Global,
        probe: &mut P,
        process: &Process,
        table: &CallTable,
        base: Base,
        candidates: &[&[u8]],
        limit: u8,
        after: Option<&[u8]>,
    ) -> Result<Audit, AuditFault>
        ensures begun { IfOk result (λ audit. (b : Beginning) ×
            ((beginning (P.tree probe.old) table.now process.now base
            (map (λ s. s.now) candidates.now) limit (option_map (λ s. s.now) after.entry) ≡ Ok b) ×
            (audit.left ≡ still_to_come b) × (b.scope.base ≡ base))) }
        ensures of { IfOk result (λ audit. (audit.tree ≡ P.tree probe.old) × (audit.base ≡ base)) }
        ensures refused { IfErr result (λ fault. fault ≢ AuditFault.OutOfMemory →
            (h : ProcessState) → beginning (P.tree probe.old) table.now h base
            (map (λ s. s.now) candidates.now) limit
            (option_map (λ s. s.now) after.entry) ≡ Err fault) }
        ensures letters { IfOk result (λ audit. (h : ProcessState) (b : Beginning) →
            beginning (P.tree probe.old) table.now h base (map (λ s. s.now) candidates.now) limit
            (option_map (λ s. s.now) after.entry) ≡ Ok b → audit.alphabet ≡ b.scope.alphabet) }
        ensures live { IfOk result (λ audit. (b : Beginning) →
            beginning (P.tree probe.old) table.now process.now base
            (map (λ s. s.now) candidates.now) limit (option_map (λ s. s.now) after.entry) ≡ Ok b →
            audit.live ≡ length (live_states b.scope)) }
        ensures reads { IfOk result (λ audit. audit.reads ≤ search_cost * limit) }
        ensures unread { after.entry ≡ None → IfOk result (λ audit. audit.reads ≡ 0) }
        ensures limit { IfOk result (λ audit. audit.limit ≡ limit) }
        ensures tree { P.tree probe.new ≡ P.tree probe.old }
        ensures cost { P.count probe.new ≤ P.count probe.old + begin_cost (P.tree probe.old) limit
            (letter_count (P.tree probe.old) (map (λ s. s.now) candidates.now)) }
    {
        let rows = probe.rows(alloc)?;
        let Checked { letters, after } = beginning::check(
            alloc, &*probe, &rows, table, base, candidates, limit, after,
        )?;
        let terms = Terms::new(alloc, probe, process, table, base, limit, letters)?;
        let pairs = Pairs::begin(alloc, probe, &rows, terms, after)?;
        Ok(Audit { pairs })
    }

    /// How many states are live: those to which words lead, and from which words with an allowed
    /// call go on.
    pub fn table_len(&self) -> usize
        ensures { result ≡ self.now.live }
    {
        self.pairs.live
    }

    /// How many letters were read so far from the tables that the audit made when it began. It
    /// stays at its greatest value once there.
    pub fn reads(&self) -> u64
        ensures { result ≡ self.now.reads }
    {
        self.pairs.walk.reads()
    }

    /// Lends the next line, in the order of the reach: None where no pair is left. The tree is the
    /// one with which the audit began, and it is asked nothing: no look is added to the probe's.
    /// With a limit L and A letters at most 2 (L + 1) (A + 1) letters are read for it. It is given
    /// no allocator, and answers no error.
    pub fn next_line<'t, P: Probe<'t>>(&mut self, probe: &mut P) -> Option<Line<'_>>
        requires { P.tree probe.old ≡ self.old.tree }
        ensures* rest { sem 𝓛 (LendsLine self.entry result) }
        ensures short { IfSome result (λ line. length line.path.now ≤ most_path) }
        ensures plain { IfSome result (λ line. line.plain ≡ list_all is_plain line.path.now) }
        ensures tree { P.tree probe.new ≡ P.tree probe.old }
        ensures asked { P.count probe.new ≡ P.count probe.old }
    {
        let call = self.pairs.next_call()?;
        let plain = self.pairs.path.is_plain();
        let path = lent_path(self.pairs.terms.base, self.pairs.path.bytes.as_slice());
        Some(Line { path, call, plain })
    }

    /// Lends the next line, with all that come after it by the same path, in the order of the
    /// reach: None where no pair is left. Otherwise it is as `next_line`, and either goes on after
    /// what the other lent: this lends what `next_line` left of a path.
    pub fn next_lines<'t, P: Probe<'t>>(&mut self, probe: &mut P) -> Option<PathLines<'_>>
        requires { P.tree probe.old ≡ self.old.tree }
        ensures* rest { sem 𝓛 (LendsLines self.entry result) }
        ensures short { IfSome result (λ lines. length lines.path.now ≤ most_path) }
        ensures plain { IfSome result (λ lines. lines.plain ≡ list_all is_plain lines.path.now) }
        ensures tree { P.tree probe.new ≡ P.tree probe.old }
        ensures asked { P.count probe.new ≡ P.count probe.old }
    {
        let first = self.pairs.next_call()?;
        let later = self.pairs.later_calls();
        let plain = self.pairs.path.is_plain();
        let path = lent_path(self.pairs.terms.base, self.pairs.path.bytes.as_slice());
        Some(PathLines {
            path,
            call: first,
            later,
            plain,
        })
    }
}
