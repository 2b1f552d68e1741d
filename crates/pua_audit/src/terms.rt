//! What was asked of an audit.

ghost use Rattle.std.specs.Prelude.{◌≡◌, ◌≤◌, ◌+◌, ◌*◌, suc, IfOk, IsTrue, if◌then◌else◌};
ghost use Rattle.std.specs.List.{list_all};
ghost use Rattle.pua_tree.specs.Tree.{WellFormed, name_cmp};
ghost use Rattle.std.proofs.Props.{props};
ghost use Rattle.pua_path.specs.Resolution.{has_root};
ghost use Rattle.pua_policy.specs.AllowedCalls.{AreWorkedOut};
ghost use Rattle.pua_audit.specs.Limits.{most_letters, most_path};
ghost use Rattle.pua_audit.specs.Begin.{longest};
ghost use Rattle.pua_audit.specs.Judge.{base_dir, base_way, is_letter, is_open, seen_by};
ghost use Rattle.pua_audit.specs.Laws.{Rises, Rises-prop};

use crate::alphabet::{Alphabet, longest};
use crate::base::Base;
use crate::content::Content;
use pua_calls::CallTable;
use pua_path::{Probe, Way};
use pua_policy::{AllowedCalls, Process};
use pua_tree::{Kind, NodeId, OutOfMemory};
use std::alloc::Global;

/// What was asked of an audit: a process, the table of what calls need, where paths begin, the most
/// letters of a word, and the letters in the order of their bytes. No path of a word is too long.
#[derive(Drop)]
pub(crate) struct Terms {
    pub(crate) seen: Content,
    pub(crate) process: Process,
    pub(crate) table: CallTable,
    pub(crate) base: Base,
    /// The root by which words go on: that of the process, unless it was removed.
    pub(crate) root: NodeId,
    pub(crate) limit: usize,
    pub(crate) letters: Alphabet,
    /// What the process is allowed by the table.
    pub(crate) allowed: AllowedCalls,
    pub(crate) ghost tree: { WellFormed seen.tree },
    pub(crate) ghost by_root: { root ≡ (seen_by seen.tree process).root },
    pub(crate) ghost few: { limit ≤ most_letters },
    pub(crate) ghost known: { IsTrue (list_all is_letter letters) },
    pub(crate) ghost rises: { Rises name_cmp letters } by { Rises-prop name_cmp letters },
    pub(crate) ghost worked_out: { AreWorkedOut process table allowed } by { Prim.hlevel props },
    pub(crate) ghost short: { limit * suc (longest letters) ≤ most_path },
}

impl Terms {
    ghost use Rattle.pua_audit.specs.Ready.{scope_in};
    ghost use Rattle.pua_audit.specs.Starting.{scope_with};

    /// What was asked of an audit of a copy of a process, by a copy of a table, over the tree of a
    /// probe, by words of at most so many of these letters. `OutOfMemory` where the growth for the
    /// process was refused.
    pub(crate) fn new<'t, P: Probe<'t>>(
        alloc: Global,
        probe: &mut P,
        process: &Process,
        table: &CallTable,
        base: Base,
        limit: u8,
        letters: Alphabet,
    ) -> Result<Terms, OutOfMemory>
        requires few { limit ≤ most_letters }
        requires short { limit * suc (longest letters) ≤ most_path }
        ensures scope { IfOk result (λ terms. scope_in terms ≡ scope_with (P.tree probe.old)
            table.now process.now base limit letters) }
        ensures tree { P.tree probe.new ≡ P.tree probe.old }
        ensures cost { P.count probe.new ≤ P.count probe.old + 1 }
        ensures limit { IfOk result (λ terms. terms.limit ≡ limit) }
        ensures letters { IfOk result (λ terms. terms.letters ≡ letters) }
    {
        probe.known();
        letters.known();
        let root = root_seen(probe, process.start().root);
        let process = process.fork(alloc)?;
        let allowed = AllowedCalls::new(&process, table);
        Ok(Terms {
            seen: Content::of(&*probe),
            process,
            table: *table,
            base,
            root,
            limit: usize::from(limit),
            letters,
            allowed,
        })
    }

    /// Whether something may be allowed: the process has not ended, and the directory at the base
    /// was not removed.
    pub(crate) fn is_open<'t, P: Probe<'t>>(&self, probe: &mut P) -> bool
        requires tree { P.tree probe.old ≡ self.now.seen.tree }
        ensures open { result ≡ is_open (scope_in self.now) }
        ensures tree { P.tree probe.new ≡ P.tree probe.old }
        ensures cost { P.count probe.new ≤ P.count probe.old + 1 }
    {
        if self.process.ended() {
            return false;
        }
        matches!(probe.kind(self.base_dir()), Some(Kind::Dir))
    }

    /// How many bytes the letters of a word and their slashes have at most.
    pub(crate) fn most_bytes(&self) -> usize
        ensures { result ≡ self.now.limit * suc (longest self.now.letters) }
    {
        self.limit * (longest(self.letters.as_slice()) + 1)
    }

    /// The directory in which the first letter stands.
    pub(crate) fn base_dir(&self) -> NodeId
        ensures { result ≡ base_dir self.now.base self.now.process }
    {
        match self.base {
            Base::Root => self.process.start().root,
            Base::Cwd => self.process.start().dir,
        }
    }

    /// How the base itself is named.
    pub(crate) fn base_way(&self) -> Way
        ensures { result ≡ base_way self.now.base }
    {
        match self.base {
            Base::Root => Way::Top,
            Base::Cwd => Way::Dot,
        }
    }
}

/// A root, and node 0 where it was removed.
fn root_seen<'t, P: Probe<'t>>(probe: &mut P, root: NodeId) -> NodeId
    ensures root { result ≡ (if has_root (P.tree probe.old) root then root else 0) }
    ensures tree { P.tree probe.new ≡ P.tree probe.old }
    ensures cost { P.count probe.new ≤ P.count probe.old + 1 }
{
    probe.known();
    if root == NodeId::ROOT || matches!(probe.kind(root), Some(Kind::Dir)) {
        return root;
    }
    NodeId::ROOT
}
