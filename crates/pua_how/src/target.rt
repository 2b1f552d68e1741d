//! What is asked about.

ghost use Rattle.std.specs.Prelude.{◌≡◌, ℕ, List, Some, None, nat_lt};
ghost use Rattle.pua_tree.specs.Tree.{Tree};
ghost use Rattle.pua_path.specs.declared.found.Found.TheVariants as found;
ghost use Rattle.pua_path.specs.declared.found.Way.{Way};
ghost use Rattle.pua_policy.specs.States.{ProcessState};
ghost use Rattle.pua_ever.specs.Ever.{may_start_at};
ghost use Rattle.pua_how.specs.Targets.{is_of};

use pua_ever::may_start;
use pua_path::Found;
use pua_policy::{Place, Process};
use pua_tree::{FileTree, FileType, Kind, Name, NodeId};

/// A thing that is asked about.
#[derive(Clone, Copy)]
pub enum Target {
    /// A directory.
    Directory(NodeId),
    /// The further names of a directory: those where nothing stands, without veils of their own.
    Others(NodeId),
    /// What is no directory, by any of its names.
    Node(NodeId),
    /// A name in a directory that has a veil of its own, while nothing stands there.
    Name(NodeId, Name),
    /// A directory that is made: its number is above this one, the last of those that live before.
    /// This number means the same in those below.
    NewDirectory(NodeId),
    /// The further names of a directory that is made.
    NewOthers(NodeId),
    /// A file that is made.
    NewFile(NodeId),
    /// A link that is made.
    NewLink(NodeId),
    /// A socket that is made.
    NewSock(NodeId),
    /// A fifo that is made.
    NewFifo(NodeId),
}

impl Target {
    /// Whether this is what a path named in a tree, by the veils of a process.
    pub fn is<T: FileTree>(&self, tree: &T, process: &Process, found: &Found) -> bool
        ensures { result ≡ is_of (T.content tree.now) process.now self.now found.now }
    {
        match found {
            Found::Whole { dir, .. } => self.is_directory(*dir),
            Found::Slot {
                node: Some(node),
                ..
            } => self.is_node(tree, *node),
            Found::Slot {
                dir,
                name,
                node: None,
            } => self.is_missing(process, *dir, name),
        }
    }

    /// Whether it is this directory.
    fn is_directory(&self, dir: NodeId) -> bool
        ensures { (t : Tree) (h : ProcessState) (way : Way) →
            result ≡ is_of t h self.now (found.Whole dir way) }
    {
        match self {
            Target::Directory(asked) => dir == *asked,
            Target::NewDirectory(last) => is_new(*last, dir),
            _ => false,
        }
    }

    /// Whether it is this, which is no directory.
    fn is_node<T: FileTree>(&self, tree: &T, node: NodeId) -> bool
        ensures { (h : ProcessState) (dir : ℕ) (name : List ℕ) →
            result ≡ is_of (T.content tree.now) h self.now (found.Slot dir name (Some node)) }
    {
        match self {
            Target::Node(asked) => node == *asked,
            Target::NewFile(last) => is_new(*last, node) && is_startable(tree.kind(node)),
            Target::NewLink(last) => is_new(*last, node)
                && matches!(tree.kind(node), Some(Kind::Link)),
            Target::NewSock(last) => is_new(*last, node)
                && matches!(tree.kind(node), Some(Kind::Known(FileType::Sock))),
            Target::NewFifo(last) => is_new(*last, node)
                && matches!(tree.kind(node), Some(Kind::Known(FileType::Fifo))),
            _ => false,
        }
    }

    /// Whether it is this name, at which nothing stands.
    fn is_missing(&self, process: &Process, dir: NodeId, name: &Name) -> bool
        ensures { (t : Tree) →
            result ≡ is_of t process.now self.now (found.Slot dir name.now None) }
    {
        let kept = process.kept(&Place::Slot(dir, *name));
        match self {
            Target::Others(asked) => dir == *asked && kept.is_none(),
            Target::Name(asked, asked_name) => {
                dir == *asked && name == asked_name && kept.is_some()
            }
            Target::NewOthers(last) => is_new(*last, dir) && kept.is_none(),
            _ => false,
        }
    }
}

/// Whether what stands somewhere is a plain file, or may be one.
fn is_startable(kind: Option<Kind>) -> bool
    ensures { result ≡ may_start_at kind }
{
    match kind {
        Some(kind) => may_start(kind),
        None => false,
    }
}

/// Whether a number is above the last one before.
fn is_new(last: NodeId, number: NodeId) -> bool
    ensures { result ≡ nat_lt last number }
{
    last.number() < number.number()
}
