//! The making of the table of steps.

ghost use Rattle.std.specs.Prelude.{◌≡◌, ◌<◌, ◌≤◌, ◌+◌, ◌^◌, ℕ, List, length, get_or, IfOk, IsTrue};
ghost use Rattle.std.specs.Prelude.{map};
ghost use Rattle.pua_tree.specs.LentRows.{lent_entry};
ghost use Rattle.pua_tree.specs.Tree.{is_dir};
ghost use Rattle.pua_policy.specs.Descent.{cover_in};
ghost use Rattle.pua_audit.specs.Bounds.{table_cost};
ghost use Rattle.pua_audit.specs.Graphs.{AreApart};
ghost use Rattle.pua_audit.specs.Ready.{judge_in};
ghost use Rattle.pua_audit.specs.Table.{IsTableOf};

pub(crate) mod begun;
mod covers;
mod directories;
mod letter;
mod placed;
mod row;
mod spots;
mod within;

use crate::table::directories::Directories;
use crate::terms::Terms;
use pua_path::Probe;
use pua_policy::Cover;
use pua_steps::Steps;
use pua_tree::{LentRow, NodeId, OutOfMemory};
use std::alloc::Global;

impl Terms {
    /// The table of steps of all directories to which words from a living directory lead. That
    /// directory has the first place, and its cover is given. The only error is that a growth was
    /// refused.
    #[tactic(auto, using(crate::proofs::Moves::all_at_index))]
    pub(crate) fn table<'t, P: Probe<'t>>(
        &self,
        alloc: Global,
        probe: &mut P,
        rows: &[LentRow<'_>],
        base: NodeId,
        cover: Cover,
    ) -> Result<Steps, OutOfMemory>
        requires tree { P.tree probe.old ≡ self.now.seen.tree }
        requires rows { map lent_entry rows.now ≡ self.now.seen.tree.rows }
        requires living { IsTrue (is_dir self.now.seen.tree base) }
        requires covered { cover ≡ cover_in self.now.seen.tree self.now.process base }
        ensures table { IfOk result (λ steps. (names : List ℕ) ×
            (IsTableOf (judge_in self.now) self.now.letters names steps × AreApart names ×
            (0 < length names) × (get_or names 0 0 ≡ base))) }
        ensures few { IfOk result (λ steps. length steps.rows.items ≤ 2 ^ 32) }
        ensures tree { P.tree probe.new ≡ P.tree probe.old }
        ensures cost { P.count probe.new ≤ P.count probe.old + table_cost self.now.seen.tree
            (length self.now.letters) }
    {
        let spots = self.spots(alloc, rows)?;
        let mut dirs = Directories::new(alloc);
        dirs.place(base, cover)?;
        let mut rows = Vec::new(alloc);
        while let Some(dir) = dirs.at(rows.len()) {
            let over = dirs.cover_at(rows.len());
            let row = spots.row(alloc, probe, &mut dirs, dir, over)?;
            rows.push(row)?;
        }
        Ok(Steps {
            letters: spots.terms.letters.len(),
            rows,
        })
    }
}
