//! Counted looks at a tree.

use pua_tree::{FileTree, Kind, LentName, LentRow, Name, NodeId, OutOfMemory, TreeFault};
use std::alloc::Global;
use std::marker::Model;

/// What one look tells of whether a directory may be removed.
#[derive(Clone, Copy)]
pub struct Vacancy {
    /// Another file system is mounted there.
    pub mount: bool,
    /// It is a living directory without rows.
    pub empty: bool,
}

/// A tree that is asked one thing at a time, and counts what it was asked. Targets live as long as
/// the tree.
pub trait Probe<'t> {
    ghost use Rattle.std.specs.Prelude.{◌≡◌, ℕ, IfOk, IfErr, map, option_copied};
    ghost use Rattle.pua_tree.specs.LentRows.{lent_entry};
    ghost use Rattle.pua_tree.specs.Tree.{Tree, WellFormed, kind_at, look, found_at, parent};
    ghost use Rattle.pua_tree.specs.Tree.{target_at, is_empty, is_mount, names};
    ghost use Rattle.pua_path.specs.Counts.{one_more};

    /// The tree that answers.
    ghost tree: { Self → Tree };

    /// How often it was asked; at 2^64 - 1 it stays there.
    ghost count: { Self → ℕ };

    /// Asks nothing. A caller learns from it what is true of every tree.
    fn known(&self)
        ensures { WellFormed (tree self.now) };

    /// How often the tree was asked; once at its greatest value it stays there.
    fn probes(&self) -> u64
        ensures { result ≡ count self.now };

    /// The kind of a living node, and None for any other number.
    fn kind(&mut self, id: NodeId) -> Option<Kind>
        ensures kind { result ≡ kind_at (tree self.old) id }
        ensures tree { tree self.new ≡ tree self.old }
        ensures count { count self.new ≡ one_more (count self.old) };

    /// The node that has this name in this directory, if there is one.
    fn look(&mut self, dir: NodeId, name: &Name) -> Option<NodeId>
        ensures node { result ≡ look (tree self.old) dir name.now }
        ensures tree { tree self.new ≡ tree self.old }
        ensures count { count self.new ≡ one_more (count self.old) };

    /// The node whose name in this directory has these bytes, if there is one, and its kind: what
    /// `look` and `kind` answer for the name. It counts as these two, so the count goes up by two.
    /// Bytes that are no name's are found nowhere.
    fn find(&mut self, dir: NodeId, bytes: &[u8]) -> Option<(NodeId, Kind)>
        ensures found { result ≡ found_at (tree self.old) dir bytes.now }
        ensures tree { tree self.new ≡ tree self.old }
        ensures count { count self.new ≡ one_more (one_more (count self.old)) };

    /// The same for bytes that are known to be a name's, which are not judged again.
    fn find_named(&mut self, dir: NodeId, name: LentName<'_>) -> Option<(NodeId, Kind)>
        ensures found { result ≡ found_at (tree self.old) dir name.entry.bytes.now }
        ensures tree { tree self.new ≡ tree self.old }
        ensures count { count self.new ≡ one_more (one_more (count self.old)) };

    /// The directory above a directory; None for what is no living directory.
    fn parent(&mut self, dir: NodeId) -> Option<NodeId>
        ensures parent { result ≡ parent (tree self.old) dir }
        ensures tree { tree self.new ≡ tree self.old }
        ensures count { count self.new ≡ one_more (count self.old) };

    /// The target of a living link, and None for any other number.
    fn target(&mut self, id: NodeId) -> Option<&'t [u8]>
        ensures target { option_copied result ≡ target_at (tree self.old) id }
        ensures tree { tree self.new ≡ tree self.old }
        ensures count { count self.new ≡ one_more (count self.old) };

    /// Whether this is a living directory without rows.
    fn is_empty(&mut self, dir: NodeId) -> bool
        ensures empty { result ≡ is_empty (tree self.old) dir }
        ensures tree { tree self.new ≡ tree self.old }
        ensures count { count self.new ≡ one_more (count self.old) };

    /// Whether another file system is mounted at a directory, and whether this is a living directory
    /// without rows.
    fn vacancy(&mut self, dir: NodeId) -> Vacancy
        ensures mount { result.mount ≡ is_mount (tree self.old) dir }
        ensures empty { result.empty ≡ is_empty (tree self.old) dir }
        ensures tree { tree self.new ≡ tree self.old }
        ensures count { count self.new ≡ one_more (count self.old) };

    /// All names in rows: each once, in the order of their bytes. It counts as one look, however
    /// many names there are, so a bound on looks bounds no more than how often they are asked for.
    /// The only fault is `TreeFault::OutOfMemory`.
    fn names(&mut self, alloc: Global) -> Result<Vec<Name>, TreeFault>
        ensures names { IfOk result (λ all. all.items ≡ names (tree self.old)) }
        ensures memory { IfErr result (λ fault. fault ≡ TreeFault.OutOfMemory) }
        ensures tree { tree self.new ≡ tree self.old }
        ensures count { count self.new ≡ one_more (count self.old) };

    /// Lends all rows: each once, by directory and then by the bytes of the name. It counts as one
    /// look, however many rows there are, so a bound on looks bounds no more than how often the
    /// rows are lent; what is then done with each is no look. The only error is that a growth was
    /// refused.
    fn rows(&mut self, alloc: Global) -> Result<Vec<LentRow<'t>>, OutOfMemory>
        ensures rows { IfOk result (λ rows. map lent_entry rows.items ≡ (tree self.old).rows) }
        ensures tree { tree self.new ≡ tree self.old }
        ensures count { count self.new ≡ one_more (count self.old) };
}

/// A tree, and how often it was asked. Contracts see what the tree holds, and the count.
#[derive(Drop)]
pub struct Counted<'t, T: FileTree> {
    tree: &'t T,
    count: u64,
}

impl<'t, T: FileTree> Model for Counted<'t, T> {
    ghost use Rattle.pua_path.specs.Counts.{CountedTree};

    ghost Value = { CountedTree };

    ghost view = { λ a. record { tree = T.content a.tree.now; count = a.count } };
}

impl<'t, T: FileTree> Counted<'t, T> {
    ghost use Rattle.std.specs.Prelude.{◌≡◌};
    ghost use Rattle.pua_path.specs.Counts.{one_more};

    /// The tree, not asked yet.
    pub fn new(tree: &'t T) -> Counted<'t, T>
        ensures tree { result.tree ≡ T.content tree.now }
        ensures count { result.count ≡ 0 }
    {
        Counted { tree, count: 0 }
    }

    fn ask(&mut self)
        ensures tree { self.new.tree ≡ self.old.tree }
        ensures count { self.new.count ≡ one_more self.old.count }
    {
        self.count = self.count.saturating_add(1);
    }
}

impl<'t, T: FileTree> Probe<'t> for Counted<'t, T> {
    ghost tree = { λ c. c.tree };

    ghost count = { λ c. c.count };

    fn known(&self) {
        self.tree.known();
    }

    fn probes(&self) -> u64 {
        self.count
    }

    fn kind(&mut self, id: NodeId) -> Option<Kind> {
        self.ask();
        self.tree.kind(id)
    }

    fn look(&mut self, dir: NodeId, name: &Name) -> Option<NodeId> {
        self.ask();
        self.tree.look(dir, name)
    }

    fn find(&mut self, dir: NodeId, bytes: &[u8]) -> Option<(NodeId, Kind)> {
        self.ask();
        self.ask();
        self.tree.find(dir, bytes)
    }

    fn find_named(&mut self, dir: NodeId, name: LentName<'_>) -> Option<(NodeId, Kind)> {
        self.ask();
        self.ask();
        self.tree.find_named(dir, name)
    }

    fn parent(&mut self, dir: NodeId) -> Option<NodeId> {
        self.ask();
        self.tree.parent(dir)
    }

    fn target(&mut self, id: NodeId) -> Option<&'t [u8]> {
        self.ask();
        let tree: &'t T = self.tree;
        tree.target(id)
    }

    fn is_empty(&mut self, dir: NodeId) -> bool {
        self.ask();
        self.tree.is_empty(dir)
    }

    fn vacancy(&mut self, dir: NodeId) -> Vacancy {
        self.ask();
        let mount = self.tree.is_mount(dir);
        let empty = self.tree.is_empty(dir);
        Vacancy { mount, empty }
    }

    fn names(&mut self, alloc: Global) -> Result<Vec<Name>, TreeFault> {
        self.ask();
        self.tree.names(alloc)
    }

    fn rows(&mut self, alloc: Global) -> Result<Vec<LentRow<'t>>, OutOfMemory> {
        self.ask();
        let tree: &'t T = self.tree;
        tree.rows(alloc)
    }
}
