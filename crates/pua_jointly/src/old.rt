//! The covers of a directory of the beginning that follow from the table of a crew.

ghost use Rattle.std.specs.Prelude.{◌≡◌, if◌then◌else◌};
ghost use Rattle.pua_jointly.specs.JointOld.{above_word, asked_word, cover_word, old_word};
ghost use Rattle.pua_jointly.specs.JointOld.{over_word, root_word};

use crate::agent::Agent;
use crate::words::covers_at;
use pua_policy::{Cover, Place, Process};
use pua_tree::{FileTree, Kind, Name, NodeId};

/// The covers of a directory by the veils of one process, where those are known under which it
/// comes when it is moved. A veil on a directory that stands no more covers nothing.
pub(crate) fn old<T: FileTree>(
    tree: &T,
    told: &[u32],
    columns: usize,
    of: &Agent<'_>,
    dir: NodeId,
    moved: u32,
) -> u32
    ensures { result ≡ old_word (T.content tree.now) of.now.process.now told.now columns dir
        of.now.place moved }
{
    match of.kept(dir) {
        Some(perms) if tree.kind(dir) == Some(Kind::Dir) => bit_of(Cover::Only(perms)),
        Some(_) => 0,
        None => on_root(of.process, dir) | above(tree, told, columns, dir, of.place) | moved,
    }
}

/// The covers by the veils of one process of a name at which no directory stands, in a directory
/// that stands. Its veils are asked only where it has one at a name.
#[inline(always)]
pub(crate) fn over(told: &[u32], columns: usize, of: &Agent<'_>, dir: NodeId, name: &Name) -> u32
    ensures { result ≡ asked_word of.now.named of.now.process.now told.now columns dir name.now
        of.now.place }
{
    if of.named {
        over_asked(of.process, told, columns, dir, name, of.place)
    } else {
        covers_at(told, columns, dir.number() as usize, of.place)
    }
}

/// The same where its veils are asked.
fn over_asked(
    process: &Process,
    told: &[u32],
    columns: usize,
    dir: NodeId,
    name: &Name,
    of: usize,
) -> u32
    ensures { result ≡ over_word process.now told.now columns dir name.now of }
{
    match process.kept(&Place::Slot(dir, *name)) {
        Some(perms) => bit_of(Cover::Only(perms)),
        None => covers_at(told, columns, dir.number() as usize, of),
    }
}

/// The cover of the root, where no veil is on it.
fn on_root(process: &Process, dir: NodeId) -> u32
    ensures { result ≡ root_word process.now dir }
{
    if dir != NodeId::ROOT {
        return 0;
    }
    if process.is_veiled() {
        bit_of(Cover::Nothing)
    } else {
        bit_of(Cover::All)
    }
}

/// The bits in a column of the directory above.
pub(crate) fn above<T: FileTree>(
    tree: &T,
    told: &[u32],
    columns: usize,
    dir: NodeId,
    of: usize,
) -> u32
    ensures { result ≡ above_word (T.content tree.now) told.now columns dir of }
{
    if dir == NodeId::ROOT {
        return 0;
    }
    match tree.parent(dir) {
        Some(parent) => covers_at(told, columns, parent.number() as usize, of),
        None => 0,
    }
}

/// A cover alone.
fn bit_of(cover: Cover) -> u32
    ensures { result ≡ cover_word cover }
{
    match cover {
        Cover::All => 1,
        Cover::Nothing => 2,
        Cover::Only(perms) => 1 << (perms.bits() + 2),
    }
}
