//! What a list shows of a process by its root.

ghost use Rattle.std.specs.Prelude.{◌≡◌, IfOk, map};
ghost use Rattle.pua_tree.specs.Tree.{Tree};
ghost use Rattle.pua_policy.specs.States.{ProcessState};
ghost use Rattle.pua_objects.specs.Items.{subject_given};
ghost use Rattle.pua_objects.specs.ListItems.{IsToldIn};
ghost use Rattle.pua_objects.specs.Roots.{IsByRoot, files_stay, is_enclosed, is_held_inside};
ghost use Rattle.pua_objects.specs.Roots.{shown_for_ever, shown_of, shows, stays_in};

use crate::list::ListItem;
use pua_calls::Promises;
use pua_policy::{OpenFile, Process};
use pua_tree::{FileTree, Kind, NodeId, OutOfMemory};
use std::alloc::Global;

/// What a list shows.
#[derive(Clone, Copy, PartialEq, Eq)]
pub enum Shown {
    /// All things.
    All,
    /// What is at or below this directory.
    Below(NodeId),
}

impl Shown {
    /// What a list of this process shows: where its root is not that of the tree and its paths
    /// can't leave it, what is at or below that, and else all. The only error is that a growth was
    /// refused.
    pub fn of<T: FileTree>(alloc: Global, tree: &T, process: &Process) -> Result<Shown, OutOfMemory>
        ensures { IfOk result (λ shown. shown ≡ shown_of (T.content tree.now) process.now) }
    {
        let root = process.start().root;
        if root == NodeId::ROOT {
            return Ok(Shown::All);
        }
        if is_enclosed(alloc, tree, process)? {
            Ok(Shown::Below(root))
        } else {
            Ok(Shown::All)
        }
    }

    /// What a list for ever of it shows: the same, but all where it holds the promise `id`, by which
    /// it could change its root. The only error is that a growth was refused.
    pub fn for_ever<T: FileTree>(
        alloc: Global,
        tree: &T,
        process: &Process,
    ) -> Result<Shown, OutOfMemory>
        ensures { IfOk result (λ shown. shown ≡ shown_for_ever (T.content tree.now) process.now) }
    {
        if process.held().contains(Promises::ID) {
            return Ok(Shown::All);
        }
        Shown::of(alloc, tree, process)
    }

    /// Whether it shows this item, which was listed for the process by whose root it is.
    pub fn shows(&self, item: &ListItem<'_>) -> bool
        ensures { (t : Tree) (process : ProcessState) → IsByRoot process self.now →
            IsToldIn t process item.now →
            result ≡ shows t self.now (subject_given t item.now.item.subject) }
    {
        match self {
            Shown::All => true,
            Shown::Below(_) => item.inside,
        }
    }
}

/// Whether no path of a process leaves its root. The only error is that a growth was refused.
fn is_enclosed<T: FileTree>(alloc: Global, tree: &T, process: &Process) -> Result<bool, OutOfMemory>
    ensures { IfOk result (λ is. is ≡ is_enclosed (T.content tree.now) process.now) }
{
    let start = process.start();
    let stays = tree.kind(start.root) == Some(Kind::Dir) && stays_in(tree, start.root, start.dir);
    if !stays {
        return Ok(false);
    }
    let files = process.files(alloc)?;
    Ok(stay_in(tree, start.root, files.as_slice()))
}

/// Whether each of these open files leads nowhere else than into this directory.
fn stay_in<T: FileTree>(tree: &T, root: NodeId, files: &[(&u32, &OpenFile)]) -> bool
    ensures { result ≡ files_stay (T.content tree.now) root
        (map (λ held. (held.0.now, held.1.now)) files.now) }
{
    files.iter().all(|held| is_held_inside(tree, root, held.1))
}

/// Whether an open file is no directory, or one that stays in this directory.
fn is_held_inside<T: FileTree>(tree: &T, root: NodeId, file: &OpenFile) -> bool
    ensures { result ≡ is_held_inside (T.content tree.now) root file.now }
{
    !file.is_directory() || stays_in(tree, root, file.node)
}

/// Whether a directory that lives is this one or stands below it. What is no living directory
/// leads nowhere.
fn stays_in<T: FileTree>(tree: &T, root: NodeId, dir: NodeId) -> bool
    ensures { result ≡ stays_in (T.content tree.now) root dir }
{
    tree.kind(dir) != Some(Kind::Dir) || tree.is_within(dir, root)
}
