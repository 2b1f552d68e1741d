//! The directories that are watched.

ghost use Rattle.std.specs.Prelude.{◌≡◌, ◌<◌, ◌+◌, ◌==◌, ◌||◌, ℕ, false, get_or, length};
ghost use Rattle.std.specs.Prelude.{map, IfOk};
ghost use Rattle.pua_tree.specs.Tree.{is_within};
ghost use Rattle.pua_jointly.specs.JointFacts.{watches_by};
ghost use Rattle.pua_jointly.specs.JointMembers.{veil_now};
ghost use Rattle.pua_jointly.specs.JointSetting.{AreColumns, AreWatched, is_watched};

use crate::crew::Watch;
use crate::marks::{is_marked, mark, no_marks};
use pua_calls::Perms;
use pua_ever::has_c;
use pua_policy::{Cover, Place, Process};
use pua_tree::{FileTree, Kind, NodeId};
use std::alloc::{AllocError, Global};

/// The directories up to a number that are watched, with their columns after those of these members,
/// and the column of each directory that is watched, by its number. The only error is that a growth
/// was refused.
pub(crate) fn find_watches<T: FileTree>(
    alloc: Global,
    tree: &T,
    members: &[&Process],
    last: u32,
    veils: &[(&Place, &Perms)],
) -> Result<(Vec<Watch>, Vec<Option<usize>>), AllocError>
    ensures watches { IfOk result (λ both. AreWatched (T.content tree.now) (length members.now)
        (last + 1) (map veil_now veils.now) both.0.items) }
    ensures columns { IfOk result (λ both. AreColumns both.0.items both.1.items) }
{
    let watched = find_watched(alloc, tree, last as usize + 1, veils)?;
    let mut watches = Vec::new(alloc);
    let mut columns = Vec::new(alloc);
    for number in 0..last as usize + 1 {
        let dir = NodeId::new(number as u32);
        let column = if is_marked(&watched, dir) {
            let column = members.len() + 1 + watches.len();
            watches.push(Watch { dir, column })?;
            Some(column)
        } else {
            None
        };
        columns.push(column)?;
    }
    Ok((watches, columns))
}

/// Which directories are watched, by their numbers below this one. The only error is that a growth
/// was refused.
fn find_watched<T: FileTree>(
    alloc: Global,
    tree: &T,
    count: usize,
    veils: &[(&Place, &Perms)],
) -> Result<Vec<bool>, AllocError>
    ensures { IfOk result (λ watched. (dir : ℕ) → dir < count → get_or watched.items dir false
        ≡ is_watched (T.content tree.now) (map veil_now veils.now) dir) }
{
    let mut watched = no_marks(alloc, count)?;
    for veil in veils {
        mark_watched(tree, veil.0, *veil.1, &mut watched);
    }
    Ok(watched)
}

/// Marks the directories that are watched for a veil on one: those above that, and it with `c`.
fn mark_watched<T: FileTree>(tree: &T, place: &Place, perms: Perms, watched: &mut Vec<bool>)
    ensures full { length watched.new.items ≡ length watched.old.items }
    ensures marked { (dir : ℕ) → dir < length watched.old.items → get_or watched.new.items dir false
        ≡ (get_or watched.old.items dir false
        || watches_by (T.content tree.now) dir (place.now, perms)) }
{
    let Place::Dir(dir) = place else {
        return;
    };
    mark_over(tree, *dir, watched);
    mark(watched, *dir, has_c(Cover::Only(perms)));
}

/// Marks the directories above a living one.
fn mark_over<T: FileTree>(tree: &T, dir: NodeId, watched: &mut Vec<bool>)
    ensures full { length watched.new.items ≡ length watched.old.items }
    ensures own { get_or watched.new.items dir false ≡ get_or watched.old.items dir false }
    ensures marked { (other : ℕ) → (dir == other) ≡ false → other < length watched.old.items →
        get_or watched.new.items other false
        ≡ (get_or watched.old.items other false || is_within (T.content tree.now) dir other) }
{
    tree.known();
    if tree.kind(dir) != Some(Kind::Dir) {
        return;
    }
    let mut at = dir;
    while at != NodeId::ROOT {
        let Some(above) = tree.parent(at) else {
            return;
        };
        at = above;
        mark(watched, at, at != dir);
    }
}
