//! Changes of a list of rows and of a list of nodes, each in the order of its keys.

ghost use Rattle.std.specs.Prelude.{ℕ, ◌≡◌, ◌<◌, ◌++◌, [], IsTrue, IsSome, IfOk, OnOk, not};
ghost use Rattle.std.specs.Prelude.{◌==◌, map, option_map, option_copied, vec_len, vec_capacity};
ghost use Rattle.std.specs.List.{list_any, cons_option};
ghost use Rattle.std.specs.Ordering.{nat_cmp, is_eq};
ghost use Rattle.std.specs.FinMap.{is_sorted, find as find_key, put};
ghost use Rattle.std.specs.FinMap.Entries.{where_key};
ghost use Rattle.pua_tree.specs.Tree.{spot_cmp};
ghost use Rattle.pua_tree.specs.Edits.{without_unnamed};
ghost use Rattle.pua_tree.specs.ListTree.{row_entry, node_entry, held_tree};
ghost use Rattle.pua_tree.specs.declared.numbering.Numbering.{Numbering};
ghost use Rattle.pua_tree.specs.Reading.{said_node};

use crate::gathered::MadeNode;
use crate::list::{ListNode, ListRow, node_place, row_place};
use crate::name::Name;
use crate::node::NodeId;
use std::alloc::{AllocError, Global};

/// Makes room for a further row and a further node.
pub(crate) fn reserve_one(
    rows: &mut Vec<ListRow>,
    nodes: &mut Vec<ListNode>,
) -> Result<(), AllocError>
    ensures rows { rows.new.items ≡ rows.old.items }
    ensures nodes { nodes.new.items ≡ nodes.old.items }
    ensures room { OnOk result ((vec_len rows.new < vec_capacity rows.new) ×
        (vec_len nodes.new < vec_capacity nodes.new)) }
{
    rows.reserve(1)?;
    nodes.reserve(1)
}

/// A copy of a link's target.
pub(crate) fn copied_target(
    alloc: Global,
    target: Option<&[u8]>,
) -> Result<Option<Vec<u8>>, AllocError>
    ensures { IfOk result (λ copy. option_map (λ bytes. bytes.items) copy
        ≡ option_copied target.entry) }
{
    match target {
        Some(bytes) => Ok(Some(Vec::from_slice(alloc, bytes)?)),
        None => Ok(None),
    }
}

/// Puts a row among rows for which there is room; at a spot that has one, it stands in its place.
pub(crate) fn put_row(rows: &mut Vec<ListRow>, row: ListRow)
    requires order { IsTrue (is_sorted spot_cmp (map row_entry rows.old.items)) }
    requires room { vec_len rows.old < vec_capacity rows.old }
    ensures { map row_entry rows.new.items ≡ put spot_cmp (
      row.dir,
      row.name,
    ) row.node (map row_entry rows.old.items) }
{
    match row_place(rows, row.dir, &row.name) {
        Ok(place) => rows[place] = row,
        Err(place) => rows.insert(place, row).unwrap(),
    }
}

/// Takes the row of this spot away.
pub(crate) fn take_row(rows: &mut Vec<ListRow>, dir: NodeId, name: &Name)
    requires order { IsTrue (is_sorted spot_cmp (map row_entry rows.old.items)) }
    requires there { IsSome (find_key spot_cmp (dir, name.now) (map row_entry rows.old.items)) }
    ensures rows { map row_entry rows.new.items
        ≡ where_key spot_cmp (λ spot. not (is_eq (spot_cmp (dir, name.now) spot)))
        (map row_entry rows.old.items) }
    ensures room { vec_len rows.new < vec_capacity rows.new }
{
    let place = row_place(rows, dir, name).unwrap();
    rows.remove(place);
}

/// Puts a node, if one is made, after all others, whose numbers are below; there is room for it.
pub(crate) fn push_made(nodes: &mut Vec<ListNode>, id: NodeId, made: Option<MadeNode>)
    requires { vec_len nodes.old < vec_capacity nodes.old }
    ensures { map node_entry nodes.new.items
        ≡ map node_entry nodes.old.items
        ++ cons_option (option_map (λ node. (id, node)) (option_map said_node made)) [] }
{
    if let Some(
        MadeNode {
            kind,
            target,
            mount,
            ..
        },
    ) = made
    {
        let node = ListNode {
            id,
            kind,
            target,
            mount,
        };
        nodes.push(node).unwrap();
    }
}

/// Takes the node of this number away, if there is one.
fn take_node(nodes: &mut Vec<ListNode>, id: NodeId)
    requires { IsTrue (is_sorted nat_cmp (map node_entry nodes.old.items)) }
    ensures { map node_entry nodes.new.items
        ≡ where_key nat_cmp (λ other. not (is_eq (nat_cmp id other)))
        (map node_entry nodes.old.items) }
{
    if let Ok(place) = node_place(nodes, id) {
        nodes.remove(place);
    }
}

/// Takes the node of this number away, if it stands in no row.
pub(crate) fn take_unnamed(rows: &[ListRow], nodes: &mut Vec<ListNode>, id: NodeId)
    requires { IsTrue (is_sorted nat_cmp (map node_entry nodes.old.items)) }
    ensures { (numbering : Numbering) →
        held_tree rows.now nodes.new.items numbering
        ≡ without_unnamed (held_tree rows.now nodes.old.items numbering) id }
{
    if !has_name(rows, id) {
        take_node(nodes, id);
    }
}

/// Whether this node stands in a row.
fn has_name(rows: &[ListRow], node: NodeId) -> bool
    ensures { result ≡ list_any (λ row. row.node == node) rows.now }
{
    rows.iter().any(|row| row.node == node)
}
