//! The numbers that nodes have in a listing.

ghost use Rattle.std.specs.Prelude.{◌≡◌, ◌==◌, ℕ, IfOk, OnOk, is_some};
ghost use Rattle.std.specs.Prelude.{◌||◌, if◌then◌else◌};
ghost use Rattle.std.specs.Option.{option_or};
ghost use Rattle.indexmap.specs.IndexMap.{get};
ghost use Rattle.pua_listing.specs.Entries.{number_of, has_second_lines};
ghost use Rattle.pua_listing.specs.Lent.{rows_held};
ghost use Rattle.pua_listing.specs.Numbers.{number_in};

use crate::order::TreeRow;
use indexmap::IndexMap;
use pua_tree::{NodeId, OutOfMemory};
use std::alloc::Global;

/// The numbers that nodes have in a listing, by those that they have in the tree, and whether some
/// node has two lines.
#[derive(Drop)]
pub(crate) struct Numbers {
    pub(crate) lines: IndexMap<u32, usize>,
    pub(crate) second_lines: bool,
}

impl Numbers {
    /// The numbers of nodes whose rows have lines in this order: that of a node is that of the
    /// first of its lines. The only error is that a growth was refused.
    pub(crate) fn of(alloc: Global, order: &[TreeRow<'_>]) -> Result<Numbers, OutOfMemory>
        ensures numbers { IfOk result (λ numbers. (x : ℕ) →
            number_in numbers x ≡ number_of (rows_held order.now) x) }
        ensures second { IfOk result (λ numbers.
            numbers.second_lines ≡ has_second_lines (rows_held order.now)) }
    {
        let mut lines = IndexMap::with_capacity(alloc, order.len())?;
        let mut second_lines = false;
        for (place, row) in order.iter().enumerate() {
            let known = add_line(&mut lines, row.node.number(), place + 1)?;
            second_lines = either(second_lines, known);
        }
        Ok(Numbers {
            lines,
            second_lines,
        })
    }

    /// The number of a node: 0 for the root, which has no line among these.
    pub(crate) fn number(&self, node: NodeId) -> usize
        ensures { result ≡ number_in self.now node }
    {
        match self.lines.get(&node.number()) {
            Some(line) => *line,
            None => 0,
        }
    }
}

/// Adds the line of a node that has none so far. Answers whether it has one. The only error is that
/// a growth was refused.
fn add_line(lines: &mut IndexMap<u32, usize>, node: u32, line: usize) -> Result<bool, OutOfMemory>
    ensures known { IfOk result (λ known. known ≡ is_some (get ◌==◌ lines.old node)) }
    ensures lines { OnOk result ((x : ℕ) → get ◌==◌ lines.new x ≡ option_or
        (get ◌==◌ lines.old x) (if node == x then Some line else None)) }
{
    if lines.contains_key(&node) {
        return Ok(true);
    }
    lines.insert(node, line)?;
    Ok(false)
}

/// Whether one of the two is so.
fn either(first: bool, second: bool) -> bool
    ensures { result ≡ (first || second) }
{
    first || second
}
