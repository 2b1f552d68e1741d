//! The directories of a table of steps, in the order of their places.

ghost use Rattle.std.specs.Prelude.{◌≡◌, ◌<◌, ◌≤◌, ◌^◌, [], length, get_or, nat_eq, IfOk, IfSome};
ghost use Rattle.std.specs.Prelude.{IfNone};
ghost use Rattle.indexmap.specs.IndexSet.{insert_key};
ghost use Rattle.pua_tree.specs.Tree.{Tree};
ghost use Rattle.pua_policy.specs.Descent.{cover_in};
ghost use Rattle.pua_policy.specs.States.{ProcessState};
ghost use Rattle.pua_audit.specs.Covers.{AreCovered};

use indexmap::IndexSet;
use pua_policy::Cover;
use pua_tree::{NodeId, OutOfMemory};
use std::alloc::Global;
use std::marker::Model;

/// The directories of a table of steps, each once: a directory's place is that of its row. With
/// each is kept what the veils leave of the names in it. Contracts see their numbers and covers.
#[derive(Drop)]
pub(crate) struct Directories {
    numbers: IndexSet<u32>,
    covers: Vec<Cover>,
}

impl Model for Directories {
    ghost use Rattle.pua_audit.specs.Covers.{DirectoriesState};
    ghost use Rattle.pua_audit.specs.Rows.{AreNumbers};

    ghost Value = { DirectoriesState };

    ghost view = { λ a. record { numbers = a.numbers.keys; covers = a.covers.items } };

    ghost invariant = { λ a. AreNumbers a.numbers.keys };
}

impl Directories {
    /// No directory yet.
    pub(crate) fn new(alloc: Global) -> Directories
        ensures numbers { result.numbers ≡ [] }
        ensures covers { result.covers ≡ [] }
    {
        Directories {
            numbers: IndexSet::new(alloc),
            covers: Vec::new(alloc),
        }
    }

    /// The place of a directory, which is put after all others with its cover unless it is there.
    /// The only error is that a growth was refused.
    pub(crate) fn place(&mut self, dir: NodeId, cover: Cover) -> Result<u32, OutOfMemory>
        ensures place { IfOk result (λ place. (place < length self.new.numbers) ×
            (get_or self.new.numbers place 0 ≡ dir)) }
        ensures all { IfOk result (λ _. self.new.numbers ≡ insert_key nat_eq self.old.numbers dir) }
        ensures covered { IfOk result (λ _. (t : Tree) (h : ProcessState) →
            cover ≡ cover_in t h dir → AreCovered t h self.old → AreCovered t h self.new) }
    {
        let (place, added) = self.numbers.insert_full(dir.number())?;
        let place = place as u32;
        if !added {
            return Ok(place);
        }
        self.covers.push(cover)?;
        Ok(place)
    }

    /// The directory at a place; None after the last one. There are at most 2^32.
    pub(crate) fn at(&self, place: usize) -> Option<NodeId>
        ensures within { IfSome result (λ dir. place < length self.now.numbers) }
        ensures dir { IfSome result (λ dir. dir ≡ get_or self.now.numbers place 0) }
        ensures none { IfNone result (length self.now.numbers ≤ place) }
        ensures few { length self.now.numbers ≤ 2 ^ 32 }
    {
        let number = self.numbers.get_index(place)?;
        Some(NodeId::new(*number))
    }

    /// The cover of the directory at a place.
    pub(crate) fn cover_at(&self, place: usize) -> Cover
        requires { place < length self.now.covers }
        ensures { (t : Tree) (h : ProcessState) → AreCovered t h self.now →
            result ≡ cover_in t h (get_or self.now.numbers place 0) }
    {
        self.covers[place]
    }

    /// The cover of a directory, if it has a place.
    pub(crate) fn cover_in(&self, dir: NodeId) -> Option<Cover>
        ensures { IfSome result (λ cover. (t : Tree) (h : ProcessState) → AreCovered t h self.now →
            cover ≡ cover_in t h dir) }
    {
        let place = self.numbers.get_index_of(&dir.number())?;
        if place >= self.covers.len() {
            return None;
        }
        Some(self.cover_at(place))
    }
}
