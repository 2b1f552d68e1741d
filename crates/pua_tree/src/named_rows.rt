//! Rows by their spots, with each name kept once.

use crate::name::Name;
use crate::node::NodeId;
use crate::spot::{RowKey, RowNode};
use crate::tree::{LentRow, LentSpot};
use indexmap::{Equivalent, IndexMap, IndexSet};
use std::alloc::{AllocError, Global};
use std::hash::{Hash, Hasher};
use std::marker::Model;

/// Rows, found by their directories and names. A name is kept once, however many rows have it, and
/// stays where no row has it any more.
#[derive(Drop)]
pub(crate) struct NamedRows {
    names: IndexSet<Name>,
    rows: IndexMap<RowKey, RowNode>,
}

impl Model for NamedRows {
    ghost use Rattle.std.specs.Prelude.{map, min};
    ghost use Rattle.std.specs.List.{IsDistinct};
    ghost use Rattle.indexmap.specs.IndexMap.{spare};
    ghost use Rattle.indexmap.specs.IndexSet.{spare as name_spare};
    ghost use Rattle.pua_tree.specs.Names.{same_bytes};
    ghost use Rattle.pua_tree.specs.NamedRows.{HeldRows, AreNamed, spot_entry};

    ghost Value = { HeldRows };

    ghost view = { λ a. record {
      entries = map (spot_entry a.names.keys) a.rows.entries;
      names = a.names.keys;
      room = min (name_spare a.names) (spare a.rows);
    } };

    ghost invariant = { λ a. IsDistinct same_bytes a.names.keys × AreNamed a.names.keys a.rows.entries };
}

ghost use Rattle.std.specs.Prelude.{ℕ, List, ◌≡◌, ◌<◌, ◌≤◌, ◌^◌, ◌++◌, ◌∷◌, [], ◌==◌, length, map};
ghost use Rattle.std.specs.Prelude.{Some, None, IsSome, IfSome, IfNone, IfOk, OnOk, option_map, slice_get};
ghost use Rattle.std.specs.List.{IsDistinct};
ghost use Rattle.std.specs.Map.{keys_of, lookup};
ghost use Rattle.std.proofs.Common.{rules, ap};
ghost use Rattle.std.specs.Cmp.Rules.{hashing};
ghost use Rattle.std.specs.Cmp.Lexicographic.{pointwise, bytes_decides, nat_list_eq_equiv};
ghost use Rattle.indexmap.specs.IndexSet.{spare};
ghost use Rattle.pua_tree.specs.LentRows.{lent_entry, lent_spot};
ghost use Rattle.pua_tree.specs.Names.{same_bytes};
ghost use Rattle.pua_tree.specs.NamedRows.{row_of, spot_at, tree_row, IsPlaceOf};
ghost use Rattle.pua_tree.specs.NamedRows.{ChangesAt, KeepsNames};
ghost use Rattle.pua_tree.specs.contracts.spot.SpotPartialEq.TheImpl.{ghosts as spot_ghosts};

/// The bytes of a name that is looked up.
#[derive(Clone, Copy, PartialEq, Eq)]
struct Sought<'a> {
    bytes: &'a [u8],
}

impl Hash for Sought<'_> {
    ghost hash_input = { λ sought. sought.bytes.now ∷ [] };

    ghost respects_eq = { Prim.search (hashing, rules) };

    fn hash<H: Hasher>(&self, state: &mut H) {
        state.write(self.bytes);
    }
}

impl Equivalent<Name> for Sought<'_> {
    ghost equivalent = { λ sought name. pointwise ◌==◌ sought.bytes.now name };

    ghost respects_hash = { λ sought name same. ap (λ n. n ∷ []) ((bytes_decides sought.bytes.now name).0 same) };

    ghost respects_eq = { λ sought name other. nat_list_eq_equiv.congr sought.bytes.now name other };

    fn equivalent(&self, name: &Name) -> bool {
        self.bytes == name.bytes()
    }
}

impl NamedRows {
    /// No rows, with room for so many, and for the names of a quarter of them, since most names are
    /// those of several rows. The only error is that a growth was refused.
    pub(crate) fn with_capacity(alloc: Global, rows: usize) -> Result<NamedRows, AllocError>
        ensures { IfOk result (λ rows. rows.entries ≡ []) }
    {
        let names = IndexSet::with_capacity(alloc, rows / 4)?;
        let rows = IndexMap::with_capacity(alloc, rows)?;
        Ok(NamedRows { names, rows })
    }

    /// The place of a name among those that are kept.
    #[inline(always)]
    pub(crate) fn place(&self, name: &[u8]) -> Option<usize>
        ensures { IsPlaceOf self.now.names name.now result }
    {
        self.names.get_index_of(Sought { bytes: name })
    }

    /// What stands in the row of this directory and of the name at this place.
    #[inline(always)]
    pub(crate) fn get(&self, dir: NodeId, place: Option<usize>) -> Option<RowNode>
        ensures { (name : List ℕ) → IsPlaceOf self.now.names name place →
            result ≡ row_of self.now (dir, name) }
    {
        // The prover knows the invariant of a value that is read.
        let rows = &self.rows;
        let Some(name) = place else {
            return None;
        };
        rows.get(&RowKey { dir, name }).copied()
    }

    /// The spot of a row's key.
    pub(crate) fn spot(&self, key: RowKey) -> Option<LentSpot<'_>>
        ensures { option_map lent_spot result ≡ spot_at self.now.names key }
    {
        let name = self.names.get_index(key.name)?;
        Some(LentSpot { dir: key.dir, name })
    }

    /// How many rows there are.
    pub(crate) fn len(&self) -> usize
        ensures len { result ≡ length self.now.entries }
        ensures small { result < 2 ^ 63 }
        ensures unique { IsDistinct spot_ghosts.eq (keys_of self.now.entries) }
    {
        self.rows.len()
    }

    /// Puts a row of this directory and name, and answers its key, where there is room for it. The
    /// place of the name may have been looked up.
    pub(crate) fn put(
        &mut self,
        dir: NodeId,
        name: &Name,
        place: Option<usize>,
        row: RowNode,
    ) -> Option<RowKey>
        ensures put { IfSome result (λ _.
            ChangesAt (dir, name.now) (Some row) self.old self.new) }
        ensures key { IfSome result (λ key.
            spot_at self.new.names key ≡ Some (dir, name.now)) }
        ensures names { KeepsNames self.old self.new }
        ensures room { 0 < self.old.room → IsSome result }
    {
        let Some(name) = kept_at(&mut self.names, name, place) else {
            return None;
        };
        match self.rows.insert(RowKey { dir, name }, row) {
            Ok(_) => Some(RowKey { dir, name }),
            Err(_) => None,
        }
    }

    /// Takes away the row of this directory and name, if there is one. The place of the name may
    /// have been looked up.
    pub(crate) fn take(&mut self, dir: NodeId, name: &Name, place: Option<usize>)
        ensures taken { ChangesAt (dir, name.now) None self.old self.new }
        ensures names { self.new.names ≡ self.old.names }
        ensures room { self.old.room ≤ self.new.room }
    {
        if let Some(name) = place_of(&self.names, name, place) {
            self.rows.swap_remove(&RowKey { dir, name });
        }
    }

    /// Makes room for a further row. The only error is that a growth was refused.
    pub(crate) fn reserve(&mut self) -> Result<(), AllocError>
        ensures entries { self.new.entries ≡ self.old.entries }
        ensures names { self.new.names ≡ self.old.names }
        ensures room { OnOk result (0 < self.new.room) }
    {
        self.names.reserve(1)?;
        self.rows.reserve(1)
    }

    /// A copy. The only error is that a growth was refused.
    pub(crate) fn copy(&self) -> Result<NamedRows, AllocError>
        ensures entries { IfOk result (λ copy. copy.entries ≡ self.now.entries) }
        ensures names { IfOk result (λ copy. copy.names ≡ self.now.names) }
    {
        let names = self.names.clone()?;
        let rows = self.rows.clone()?;
        Ok(NamedRows { names, rows })
    }

    /// The rows as a tree lends them, in any order. The only error is that a growth was refused.
    pub(crate) fn lent(&self, alloc: Global) -> Result<Vec<LentRow<'_>>, AllocError>
        ensures rows { IfOk result
            (λ rows. map lent_entry rows.items ≡ map tree_row self.now.entries) }
        ensures unique { OnOk result (IsDistinct spot_ghosts.eq (keys_of self.now.entries)) }
    {
        let mut rows = Vec::with_capacity(alloc, self.rows.len())?;
        for (key, row) in self.rows.iter() {
            if let Some(name) = self.names.get_index(key.name) {
                rows.reserve(1)?;
                rows.push_reserved(LentRow {
                    dir: key.dir,
                    name,
                    node: row.node,
                });
            }
        }
        Ok(rows)
    }

    /// The allocator that rows and names take memory from.
    pub(crate) fn allocator(&self) -> Global {
        *self.rows.allocator()
    }
}

/// The place of a name among those that are kept. It may have been looked up.
fn place_of(names: &IndexSet<Name>, name: &Name, place: Option<usize>) -> Option<usize>
    ensures { IsPlaceOf names.now.keys name.now result }
{
    if let Some(place) = place {
        if names.get_index(place) == Some(name) {
            return Some(place);
        }
    }
    names.get_index_of(name)
}

/// The place of a name, which is kept from now on where there is room for it. It may have been
/// looked up.
fn kept_at(names: &mut IndexSet<Name>, name: &Name, place: Option<usize>) -> Option<usize>
    ensures at { IfSome result (λ place. slice_get names.new.keys place ≡ Some name.now) }
    ensures grown { (more : List (List ℕ)) × (names.new.keys ≡ names.old.keys ++ more) }
    ensures unique { IsDistinct same_bytes names.old.keys →
        IsDistinct same_bytes names.new.keys }
    ensures room { 0 < spare names.old → IsSome result }
{
    if let Some(place) = place {
        if names.get_index(place) == Some(name) {
            return Some(place);
        }
    }
    match names.insert_full(*name) {
        Ok((place, _)) => Some(place),
        Err(_) => None,
    }
}
