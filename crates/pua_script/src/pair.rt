//! What the two paths of a request name, where a node of the one gets the name of the other.

ghost use Rattle.std.specs.Prelude.{◌≡◌, ◌==◌, IfOk, option_map};
ghost use Rattle.pua_path.specs.Fits.{spot_named, node_named};
ghost use Rattle.pua_path.specs.Walks.{found_seen, founds_seen};
ghost use Rattle.pua_path.specs.declared.found.Found as found;
ghost use Rattle.pua_policy.specs.States.{may_any};
ghost use Rattle.pua_policy.specs.Verdict.{FoundFits};
ghost use Rattle.pua_script.specs.Decide.{Decision, asker_of, covers_by, if_may, if_named};
ghost use Rattle.pua_tree.specs.Tree.{Tree, device};
ghost use Rattle.pua_script.specs.Decide.{device_of, device_over, is_elsewhere, is_whole};
ghost use Rattle.pua_script.specs.Decide.{path_named};
ghost use Rattle.pua_script.specs.Judged.{NameFits, if_covered, on_judged, spot_now};

use crate::judged::named_lent;
use pua_calls::{CallTable, NameNeed, PairNeed};
use pua_path::{Counted, Ending, Errno, LentFound, LentWay};
use pua_policy::judge::{cover_fault, promised_any};
use pua_policy::{Process, Refusal};
use pua_tree::{FileTree, LentName, NodeId};

/// What an old path and a new one name, lent.
#[derive(Clone, Copy)]
pub(crate) struct Pair<'a> {
    pub(crate) from: LentFound<'a>,
    pub(crate) to: LentFound<'a>,
}

/// Where a name is, the name lent.
#[derive(Clone, Copy)]
pub(crate) struct LentSpot<'a> {
    pub(crate) dir: NodeId,
    pub(crate) name: LentName<'a>,
}

/// Whether a process holds what both names of a request need, the old name first. It is asked
/// before any path is read.
pub(crate) fn promised_pair(process: &Process, need: &PairNeed) -> Result<(), Refusal>
    ensures { (further : Decision) → on_judged result (λ _. further)
        ≡ if_may (may_any process.now need.now.old.needs.alternatives)
        (if_may (may_any process.now need.now.new.needs.alternatives) further) }
{
    promised_any(process, need.old_name().alternatives())?;
    promised_any(process, need.new_name().alternatives())
}

/// What both paths of a request name, whose promises are held: what is wrong with the paths, and
/// then with the covers, the old name first each time. Names are lent by the paths, or by targets
/// of links.
pub(crate) fn judge_pair<'t, T: FileTree>(
    tree: &'t T,
    table: &CallTable,
    process: &Process,
    need: &PairNeed,
    ending: Ending,
    old: &'t [u8],
    new: &'t [u8],
) -> Result<Pair<'t>, Errno>
    ensures exact { (further : found.Found → found.Found → Decision) →
        if_covered table.now.whose need.now (T.content tree.now) process.now ending old.now new.now
        further
        ≡ if_named result (λ pair. further (found_seen pair.from) (found_seen pair.to)) }
    ensures fits { IfOk result (λ pair. NameFits (T.content tree.now) (found_seen pair.to)) }
{
    let from = match side_named(tree, table, process, need.old_name(), ending, old) {
        Ok(from) => from,
        Err(errno) => return Err(errno),
    };
    let to = match side_named(tree, table, process, need.new_name(), ending, new) {
        Ok(to) => to,
        Err(errno) => return Err(errno),
    };
    match covers_fault(tree, process, need, &from, &to) {
        Some(errno) => Err(errno),
        None => Ok(Pair { from, to }),
    }
}

/// What one of the two paths names, by what its name needs.
fn side_named<'t, T: FileTree>(
    tree: &'t T,
    table: &CallTable,
    process: &Process,
    need: &NameNeed,
    ending: Ending,
    path: &'t [u8],
) -> Result<LentFound<'t>, Errno>
    ensures exact { founds_seen result
        ≡ path_named table.now.whose (T.content tree.now) process.now.start ending path.now
        need.now.last }
    ensures fits { IfOk (founds_seen result) (NameFits (T.content tree.now)) }
{
    let mut probe = Counted::new(tree);
    named_lent(
        &mut probe,
        table,
        process.start(),
        path,
        ending,
        need.last(),
    )
}

/// What is wrong with the covers of both names, the old one first.
fn covers_fault<T: FileTree>(
    tree: &T,
    process: &Process,
    need: &PairNeed,
    from: &LentFound<'_>,
    to: &LentFound<'_>,
) -> Option<Errno>
    requires from { FoundFits (T.content tree.now) (found_seen from.now) }
    requires to { FoundFits (T.content tree.now) (found_seen to.now) }
    ensures { result ≡ covers_by need.now (T.content tree.now) (asker_of process.now)
        (found_seen from.now) (found_seen to.now) }
{
    let mut probe = Counted::new(tree);
    let cover = process.cover_lent(&mut probe, from);
    if let Some(errno) = cover_fault(cover, need.old_name().perms()) {
        return Some(errno);
    }
    let cover = process.cover_lent(&mut probe, to);
    cover_fault(cover, need.new_name().perms())
}

/// The node that was found.
pub(crate) fn node_named(found: &LentFound<'_>) -> Option<NodeId>
    ensures { result ≡ node_named (found_seen found.now) }
{
    match *found {
        LentFound::Whole { dir, .. } => Some(dir),
        LentFound::Slot { node, .. } => node,
    }
}

/// Where the name is that was found, if it was found by one.
pub(crate) fn spot_named<'a>(found: &LentFound<'a>) -> Option<LentSpot<'a>>
    ensures { option_map spot_now result ≡ spot_named (found_seen found.now) }
{
    match found {
        LentFound::Whole { way, .. } => match way {
            LentWay::Named { parent, name } => Some(LentSpot {
                dir: *parent,
                name: LentName { bytes: name.bytes },
            }),
            LentWay::Dot | LentWay::DotDot | LentWay::Top => None,
        },
        LentFound::Slot { dir, name, .. } => Some(LentSpot {
            dir: *dir,
            name: LentName { bytes: name.bytes },
        }),
    }
}

/// Whether a directory was found.
pub(crate) fn is_whole(found: &LentFound<'_>) -> bool
    ensures { result ≡ is_whole (found_seen found.now) }
{
    matches!(found, LentFound::Whole { .. })
}

/// The directory on whose device what was found is: itself, or the one in which its name is.
fn dir_of(found: &LentFound<'_>) -> NodeId
    ensures { (t : Tree) → device t result ≡ device_of t (found_seen found.now) }
{
    match *found {
        LentFound::Whole { dir, .. } | LentFound::Slot { dir, .. } => dir,
    }
}

/// The directory on whose device the name is by which it was found.
fn dir_over(found: &LentFound<'_>) -> NodeId
    ensures { (t : Tree) → device t result ≡ device_over t (found_seen found.now) }
{
    match *found {
        LentFound::Whole {
            way: LentWay::Named { parent, .. },
            ..
        } => parent,
        LentFound::Whole { dir, .. } | LentFound::Slot { dir, .. } => dir,
    }
}

/// Whether two directories are on one device: one and the same is, and no climb is needed to tell.
fn is_near<T: FileTree>(tree: &T, one: NodeId, other: NodeId) -> bool
    ensures { result ≡ (device (T.content tree.now) one == device (T.content tree.now) other) }
{
    one == other || tree.device(one) == tree.device(other)
}

/// Whether what gets a name would leave its file system, or what has the name is on another one.
pub(crate) fn is_elsewhere<T: FileTree>(tree: &T, from: &LentFound<'_>, to: &LentFound<'_>) -> bool
    ensures { result
        ≡ is_elsewhere (T.content tree.now) (found_seen from.now) (found_seen to.now) }
{
    let over = dir_over(to);
    !(is_near(tree, dir_of(from), over) && is_near(tree, dir_of(to), over))
}
