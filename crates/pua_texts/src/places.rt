//! Where the places of veils stand now.

ghost use Rattle.std.specs.Prelude.{◌≡◌, IfOk, map, reverse};
ghost use Rattle.pua_tree.specs.Tree.{is_dir};
ghost use Rattle.pua_texts.specs.States.{place_dir, place_names};

use pua_policy::Place;
use pua_tree::{FileTree, Kind, Name, NodeId, OutOfMemory};
use pua_why::TreePaths;
use std::alloc::Global;
use std::marker::Model;

/// The paths of a tree. Contracts see the tree and the names that lead to the place that was found
/// last.
#[derive(Drop)]
pub(crate) struct VeilPaths<'t, T: FileTree> {
    tree: &'t T,
    paths: TreePaths<'t, T>,
}

impl<'t, T: FileTree> Model for VeilPaths<'t, T> {
    ghost use Rattle.std.specs.Prelude.{◌≡◌};
    ghost use Rattle.pua_why.specs.TreePaths.{PathsState};

    ghost Value = { PathsState };

    ghost view = { λ a. a.paths };

    ghost invariant = { λ a. a.paths.tree ≡ T.content a.tree.now };
}

impl<'t, T: FileTree> VeilPaths<'t, T> {
    /// The places in this tree. The only error is that a growth was refused: later calls take no
    /// memory.
    pub(crate) fn new(alloc: Global, tree: &'t T) -> Result<VeilPaths<'t, T>, OutOfMemory>
        ensures { IfOk result (λ places. places.tree ≡ T.content tree.now) }
    {
        let paths = TreePaths::new(alloc, tree)?;
        Ok(VeilPaths { tree, paths })
    }

    /// Looks for where a place stands now, and keeps the names that lead there from the root.
    /// Whether it stands: its directory may have been removed.
    pub(crate) fn find(&mut self, place: &'t Place) -> bool
        ensures tree { self.new.tree ≡ self.old.tree }
        ensures stands { result ≡ is_dir self.old.tree (place_dir place.now) }
        ensures names { self.new.names ≡ reverse (place_names self.old.tree place.now) }
    {
        let dir = self.seek(place);
        self.tree.kind(dir) == Some(Kind::Dir)
    }

    /// Looks for where a place stands now, and answers its directory.
    fn seek(&mut self, place: &'t Place) -> NodeId
        ensures tree { self.new.tree ≡ self.old.tree }
        ensures dir { result ≡ place_dir place.now }
        ensures names { self.new.names ≡ reverse (place_names self.old.tree place.now) }
    {
        match place {
            Place::Dir(dir) => {
                self.paths.find_dir(*dir);
                *dir
            }
            Place::Slot(dir, name) => {
                self.paths.find_spot(*dir, name);
                *dir
            }
        }
    }

    /// The names that lead from the root to the place that was found last.
    pub(crate) fn names(&self) -> &[&'t Name]
        ensures { map (λ name. name.now) result.now ≡ self.now.names }
    {
        self.paths.names()
    }
}
