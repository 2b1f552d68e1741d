//! The rows of a tree in the order of their lines.

ghost use Rattle.std.specs.Prelude.{◌≡◌, ◌++◌, ℕ, suc, IfOk, OnOk, IsTrue, map, reverse};
ghost use Rattle.std.specs.FinMap.{is_sorted};
ghost use Rattle.pua_tree.specs.LentRows.{lent_entry};
ghost use Rattle.pua_tree.specs.Tree.{spot_cmp};
ghost use Rattle.pua_listing.specs.Lent.{row_held, rows_held};
ghost use Rattle.pua_listing.specs.Order.{order_of, rows_from, rows_under};

use pua_tree::{LentRow, Name, NodeId, OutOfMemory};
use std::alloc::Global;

/// A row of a tree: a node that has a name in a directory. The tree lends the name.
#[derive(Clone, Copy)]
pub(crate) struct TreeRow<'t> {
    pub(crate) dir: NodeId,
    pub(crate) name: &'t Name,
    pub(crate) node: NodeId,
}

impl<'t> TreeRow<'t> {
    /// The row that a tree lends.
    fn of(row: &LentRow<'t>) -> TreeRow<'t>
        ensures { row_held result ≡ lent_entry row.now }
    {
        TreeRow {
            dir: row.dir,
            name: row.name,
            node: row.node,
        }
    }
}

/// A tree's rows, which are all given, in the order of their lines: each is followed by those
/// beneath it, and those of one directory come by the bytes of their names. The only error is that
/// a growth was refused.
pub(crate) fn in_order<'t>(
    alloc: Global,
    rows: &[LentRow<'t>],
) -> Result<Vec<TreeRow<'t>>, OutOfMemory>
    ensures { IsTrue (is_sorted spot_cmp (map lent_entry rows.now)) → IfOk result
        (λ order. rows_held order.items ≡ order_of (map lent_entry rows.now)) }
{
    let mut order = Vec::with_capacity(alloc, rows.len())?;
    let mut waiting = Vec::new(alloc);
    push_under(&mut waiting, rows, NodeId::ROOT)?;
    // There are as many lines as rows.
    for _ in 0..rows.len() {
        take_next(&mut order, &mut waiting, rows)?;
    }
    Ok(order)
}

/// Takes the row that waits last, if one waits, which comes next, and lets those beneath it wait.
/// The only error is that a growth was refused.
fn take_next<'t>(
    order: &mut Vec<TreeRow<'t>>,
    waiting: &mut Vec<TreeRow<'t>>,
    rows: &[LentRow<'t>],
) -> Result<(), OutOfMemory>
    ensures { let all = map lent_entry rows.now in IsTrue (is_sorted spot_cmp all) →
        OnOk result ((n : ℕ) → rows_held order.new.items
        ++ rows_from n all (reverse (rows_held waiting.new.items)) ≡ rows_held order.old.items
        ++ rows_from (suc n) all (reverse (rows_held waiting.old.items))) }
{
    let Some(row) = waiting.pop() else {
        return Ok(());
    };
    let node = row.node;
    let Ok(()) = order.push(row) else {
        return Err(OutOfMemory);
    };
    push_under(waiting, rows, node)?;
    Ok(())
}

/// Adds the rows in a directory to those that wait, the first of them last. The only error is that
/// a growth was refused.
fn push_under<'t>(
    waiting: &mut Vec<TreeRow<'t>>,
    rows: &[LentRow<'t>],
    dir: NodeId,
) -> Result<(), OutOfMemory>
    ensures { IsTrue (is_sorted spot_cmp (map lent_entry rows.now)) → OnOk result
        (rows_held waiting.new.items ≡ rows_held waiting.old.items
        ++ reverse (rows_under (map lent_entry rows.now) dir)) }
{
    for row in under(rows, dir).iter().rev() {
        let Ok(()) = waiting.push(TreeRow::of(row)) else {
            return Err(OutOfMemory);
        };
    }
    Ok(())
}

/// The rows in a directory, of rows by directory.
fn under<'r, 't>(rows: &'r [LentRow<'t>], dir: NodeId) -> &'r [LentRow<'t>]
    ensures { IsTrue (is_sorted spot_cmp (map lent_entry rows.now)) →
        map lent_entry result.now ≡ rows_under (map lent_entry rows.now) dir }
{
    let start = rows.partition_point(|row| row.dir < dir);
    let rest = &rows[start..];
    let count = rest.partition_point(|row| row.dir <= dir);
    &rest[..count]
}
