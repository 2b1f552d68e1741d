//! The names at which something stands.

ghost use Rattle.std.specs.Prelude.{◌≡◌, ◌<◌, ◌+◌, ◌^◌, None, length, map};
ghost use Rattle.std.specs.Prelude.{IfOk, MatchOption};
ghost use Rattle.pua_tree.specs.LentRows.{lent_entry};
ghost use Rattle.pua_tree.specs.Tree.{kind_at};
ghost use Rattle.pua_jointly.specs.JointMembers.{Each};
ghost use Rattle.pua_jointly.specs.JointSetting.{AreInOrder, IsEntryAt, IsEntryOfRow, entry_of};

use crate::crew::Entry;
use pua_tree::{FileTree, LentRow};
use std::alloc::{AllocError, Global};

/// The names at which something stands, by directory and then by bytes.
#[derive(Drop)]
pub(crate) struct Entries<'t> {
    /// All of them.
    pub(crate) all: Vec<Entry<'t>>,
    ghost in_order: { AreInOrder all.items },
}

/// The rows of a tree, and where the rows of their names begin in the table.
#[derive(Drop)]
pub(crate) struct Rows<'p, 't, T: FileTree> {
    /// The tree.
    pub(crate) tree: &'p T,
    /// Its rows.
    pub(crate) rows: &'p [LentRow<'t>],
    ghost all: { map lent_entry rows.now ≡ (T.content tree.now).rows },
    /// The row of the first name.
    pub(crate) first: usize,
    ghost room: { first + length rows.now < 2 ^ 64 },
}

/// The names at which something stands. The only error is that a growth was refused.
pub(crate) fn find_entries<'t, T: FileTree>(
    alloc: Global,
    rows: &Rows<'_, 't, T>,
) -> Result<Entries<'t>, AllocError>
    ensures rows { IfOk result (λ entries. map entry_of entries.all.items
        ≡ map (λ row. row.0) (T.content rows.now.tree.now).rows) }
    ensures each { IfOk result (λ entries.
        Each (IsEntryAt (T.content rows.now.tree.now) rows.now.first) entries.all.items) }
{
    rows.tree.known();
    let lent = rows.rows;
    let mut all = Vec::new(alloc);
    for (place, row) in lent.iter().enumerate() {
        let Some(entry) = entry(rows.tree, row, rows.first + place) else {
            unreachable!()
        };
        let Ok(()) = all.push(entry) else {
            return Err(AllocError);
        };
    }
    Ok(Entries { all })
}

/// What is asked of a name at which something stands, with its row in the table.
fn entry<'t, T: FileTree>(tree: &T, at: &LentRow<'t>, row: usize) -> Option<Entry<'t>>
    ensures { MatchOption result (kind_at (T.content tree.now) at.now.node ≡ None)
        (IsEntryOfRow (T.content tree.now) at.now row) }
{
    let kind = tree.kind(at.node)?;
    Some(Entry {
        row,
        dir: at.dir,
        name: at.name,
        node: at.node,
        kind,
    })
}
