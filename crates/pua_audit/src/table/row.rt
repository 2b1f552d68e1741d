//! The row of a directory.

ghost use Rattle.std.specs.Prelude.{◌≡◌, ◌<◌, ◌≤◌, ◌+◌, ℕ, List, [], length, get_or};
ghost use Rattle.std.specs.Prelude.{option_map, Option, None, IfOk, IfSome, IsTrue};
ghost use Rattle.pua_tree.specs.Tree.{Tree, is_dir};
ghost use Rattle.pua_policy.specs.Descent.{cover_in};
ghost use Rattle.pua_policy.specs.States.{ProcessState};
ghost use Rattle.pua_audit.specs.Bounds.{row_cost};
ghost use Rattle.pua_audit.specs.Covers.{AreCovered};
ghost use Rattle.pua_audit.specs.Judge.{Judge};
ghost use Rattle.pua_audit.specs.Ready.{judge_in};
ghost use Rattle.pua_audit.specs.Rows.{AreLiving, IsGrown, IsJudgedRow};
ghost use Rattle.pua_audit.specs.Table.{IsLetter};

use crate::table::directories::Directories;
use crate::table::letter::Letter;
use crate::table::spots::Spots;
use pua_calls::Calls;
use pua_path::Probe;
use pua_policy::Cover;
use pua_steps::{Entry, Row};
use pua_tree::{NodeId, OutOfMemory};
use std::alloc::Global;

impl Spots<'_> {
    /// The row of a living directory, by its cover. Only the letters that it tells apart are looked
    /// up: all others share one set of calls. What a letter leads to is put after the other
    /// directories. The only error is that a growth was refused.
    pub(crate) fn row<'t, P: Probe<'t>>(
        &self,
        alloc: Global,
        probe: &mut P,
        dirs: &mut Directories,
        dir: NodeId,
        over: Cover,
    ) -> Result<Row, OutOfMemory>
        requires tree { P.tree probe.old ≡ self.now.terms.now.seen.tree }
        requires living { IsTrue (is_dir self.now.terms.now.seen.tree dir) }
        ensures row { IfOk result (λ row.
            AreCovered self.now.terms.now.seen.tree self.now.terms.now.process dirs.old →
            over ≡ cover_in self.now.terms.now.seen.tree self.now.terms.now.process dir →
            IsJudgedRow (judge_in self.now.terms.now) self.now.terms.now.letters dirs.new.numbers
            dir (length self.now.terms.now.letters) row.missing row.entries.items) }
        ensures grown { IfOk result (λ _. IsGrown dirs.old.numbers dirs.new.numbers) }
        ensures living { IfOk result
            (λ _. AreLiving self.now.terms.now.seen.tree dirs.old.numbers →
            AreLiving self.now.terms.now.seen.tree dirs.new.numbers) }
        ensures covered { IfOk result (λ _.
            AreCovered self.now.terms.now.seen.tree self.now.terms.now.process dirs.old →
            AreCovered self.now.terms.now.seen.tree self.now.terms.now.process dirs.new) }
        ensures tree { P.tree probe.new ≡ P.tree probe.old }
        ensures cost { P.count probe.new ≤ P.count probe.old
            + row_cost self.now.terms.now.seen.tree (length self.now.terms.now.letters) }
    {
        let veiled = self.has_veil_in(dir);
        let within = self.terms.within(over, veiled);
        let missing = within.missing.bits();
        let letters = self.letters_in(alloc, dir)?;
        let mut entries = Vec::new(alloc);
        for letter in &letters {
            let components = self.terms.letters.as_slice();
            let found = self
                .terms
                .letter(probe, dirs, dir, &components[*letter], &within);
            found.put(*letter, within.missing, dirs, &mut entries)?;
        }
        Ok(Row { entries, missing })
    }
}

impl Letter {
    /// Puts its entry after those of the letters before it, and the directory to which it leads
    /// among the others. It has none where the calls on letters without entries tell it. The only
    /// error is that a growth was refused.
    fn put(
        &self,
        letter: usize,
        missing: Calls,
        dirs: &mut Directories,
        entries: &mut Vec<Entry>,
    ) -> Result<(), OutOfMemory>
        ensures row { IfOk result (λ _. (w : Judge) (letters : List (List ℕ)) (dir : ℕ) →
            IsLetter w dir (get_or letters letter []) self.now.all self.now.kept self.now.links
            self.now.leads
            → IsJudgedRow w letters dirs.old.numbers dir letter missing entries.old.items →
            IsJudgedRow w letters dirs.new.numbers dir (letter + 1) missing entries.new.items) }
        ensures grown { IfOk result (λ _. IsGrown dirs.old.numbers dirs.new.numbers) }
        ensures living { IfOk result (λ _. (t : Tree) →
            IfSome self.now.leads (λ d. IsTrue (is_dir t d)) → AreLiving t dirs.old.numbers →
            AreLiving t dirs.new.numbers) }
        ensures covered { IfOk result (λ _. (t : Tree) (h : ProcessState) →
            IfSome self.now.leads (λ d. self.now.cover ≡ cover_in t h d) → AreCovered t h dirs.old →
            AreCovered t h dirs.new) }
    {
        if self.is_like_missing(missing) {
            return Ok(());
        }
        let to = self.place(dirs)?;
        let entry = Entry {
            letter,
            all: self.all.bits(),
            kept: self.kept.bits(),
            links: self.links,
            to,
        };
        entries.push(entry)?;
        Ok(())
    }

    /// Whether it leads nowhere, and just these calls are allowed on it.
    fn is_like_missing(&self, missing: Calls) -> bool
        ensures { IsTrue result → (self.now.all ≡ missing) × (self.now.kept ≡ missing) ×
            (self.now.leads ≡ None) }
    {
        self.all == missing && self.kept == missing && self.leads.is_none()
    }

    /// The place of the directory to which it leads.
    fn place(&self, dirs: &mut Directories) -> Result<Option<u32>, OutOfMemory>
        ensures to { IfOk result
            (λ to. (option_map (λ d. get_or dirs.new.numbers d 0) to ≡ self.now.leads) ×
            IfSome to (λ d. d < length dirs.new.numbers)) }
        ensures grown { IfOk result (λ _. IsGrown dirs.old.numbers dirs.new.numbers) }
        ensures living { IfOk result (λ _. (t : Tree) →
            IfSome self.now.leads (λ d. IsTrue (is_dir t d)) → AreLiving t dirs.old.numbers →
            AreLiving t dirs.new.numbers) }
        ensures covered { IfOk result (λ _. (t : Tree) (h : ProcessState) →
            IfSome self.now.leads (λ d. self.now.cover ≡ cover_in t h d) → AreCovered t h dirs.old →
            AreCovered t h dirs.new) }
    {
        let Some(dir) = self.leads else {
            return Ok(None);
        };
        Ok(Some(dirs.place(dir, self.cover)?))
    }
}
