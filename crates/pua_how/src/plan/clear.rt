//! Taking away what stands in the way: at a name, and in a directory.

use crate::plan::Search;
use crate::plan::draft::{Draft, DraftFault, is_open};
use crate::plan::planner::{By, Row};
use pua_policy::Object;
use pua_tree::Kind;

impl Search<'_, '_> {
    /// Whether what stands there is needed later: it is followed, or something waits in it.
    fn is_kept(&self, draft: &Draft, row: &Row) -> bool {
        let places = self.planner.extent(row);
        let is_within = draft.kept.is_some_and(|kept| places.contains(&kept));
        row.node.is_some() && (is_within || row.node == self.followed)
    }

    /// Whether what stands there can be removed, once it is empty.
    pub(crate) fn is_removable(&self, draft: &Draft, row: &Row) -> bool {
        let need = self.planner.call(row.remover());
        need.is_met(&row.cover) && !row.is_mount() && !self.is_kept(draft, row)
    }

    /// Whether what stands there can be moved.
    pub(crate) fn is_movable(&self, row: &Row) -> bool {
        let gives = self.planner.gives(By::Rename, false);
        gives.is_met(&row.cover) && !row.is_mount()
    }

    /// Frees a name with a veil of its own for what comes there: a directory or not, and how. What
    /// is moved onto its like replaces that, once it is empty.
    pub(crate) fn free(
        &self,
        draft: &mut Draft,
        row: &Row,
        mover: (bool, By),
    ) -> Result<(), DraftFault> {
        if !is_open(draft.closed.as_slice(), row.place) {
            return Ok(());
        }
        let places = self.planner.extent(row);
        draft.close(self.planner.extent(row))?;
        if !row.is_dir() && row.node.is_some() && row.node == self.followed {
            return Err(DraftFault::NoWay);
        }
        let takes = !row.is_dir() || self.planner.takes(By::Rename).is_met(&row.cover);
        if mover != (row.is_dir(), By::Rename) || !takes || self.is_kept(draft, row) {
            return self.take_away(draft, self.planner.rows_at(places));
        }
        if row.object != Object::Node(Kind::Dir) || self.move_away(draft, row)? {
            return Ok(());
        }
        self.empty(draft, row)
    }

    /// Empties a directory. Nothing is put into it any more.
    pub(crate) fn empty(&self, draft: &mut Draft, dir: &Row) -> Result<(), DraftFault> {
        let places = self.planner.extent(dir);
        let below = places.start.saturating_add(1)..places.end;
        draft.close(places)?;
        self.take_away(draft, self.planner.rows_at(below))
    }

    /// Takes away what stands at rows: it is removed, or moved away with all that is below it. A
    /// directory for which neither is possible is removed once the others are taken out.
    fn take_away(&self, draft: &mut Draft, rows: &[Row]) -> Result<(), DraftFault> {
        let mut emptied = Vec::new(self.planner.alloc);
        let mut next = 0;
        for row in rows {
            if row.node.is_none() || row.place < next {
                continue;
            }
            let is_removable = self.is_removable(draft, row);
            if is_removable && row.object != Object::Node(Kind::Dir) {
                draft.call(row.remover(), &row.at())?;
            } else if self.move_away(draft, row)? {
                next = self.planner.extent(row).end;
            } else if !is_removable {
                return Err(DraftFault::NoWay);
            } else if emptied.push(*row).is_err() {
                return Err(DraftFault::OutOfMemory);
            }
        }
        self.remove(draft, emptied.as_slice())
    }

    /// Removes directories, the last one first.
    fn remove(&self, draft: &mut Draft, rows: &[Row]) -> Result<(), DraftFault> {
        for row in rows.iter().rev() {
            draft.call(row.remover(), &row.at())?;
        }
        Ok(())
    }

    /// Moves what stands at a name to where there is room for it. False where there is none, or
    /// it can't be moved.
    pub(crate) fn move_away(&self, draft: &mut Draft, row: &Row) -> Result<bool, DraftFault> {
        if !self.is_movable(row) {
            return Ok(false);
        }
        let room = match self.room(draft, row.device) {
            Err(DraftFault::NoWay) => return Ok(false),
            room => room?,
        };
        draft.bring(By::Rename, &row.at(), &room)?;
        if row.node == self.followed {
            draft.from = Some(room);
        }
        Ok(true)
    }
}
