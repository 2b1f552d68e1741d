//! A rename: what is wrong with what its two paths name, and the row that moves.

ghost use Rattle.std.specs.Prelude.{◌≡◌, ℕ, Ok, IfOk};
ghost use Rattle.pua_tree.specs.Edits.{is_same_node};
ghost use Rattle.pua_path.specs.Paths.{ends_in_slash};
ghost use Rattle.pua_path.specs.Fits.{StandsAsNamed, spot_named, node_named};
ghost use Rattle.pua_path.specs.Walks.{found_seen};
ghost use Rattle.pua_path.specs.declared.text.Ending.TheVariants.{Dropped};
ghost use Rattle.pua_policy.specs.Verdict.{or_fault};
ghost use Rattle.pua_script.specs.Decide.{Requester, ShiftRow, asks_directory, decide_rename};
ghost use Rattle.pua_script.specs.Decide.{dots_fault, fits_fault, inside_fault, is_whole};
ghost use Rattle.pua_script.specs.Decide.{kinds_fault};
ghost use Rattle.pua_script.specs.Decide.{shifting, top_fault, ways_fault};
ghost use Rattle.pua_script.specs.Judged.{decision_by, if_covered, shifted};

use crate::granted::Granted;
use crate::pair::{Pair, is_elsewhere, is_whole, judge_pair, node_named, spot_named};
use pua_calls::{CallTable, PairNeed, Rules};
use pua_path::{Ending, Errno, LentFound, LentWay};
use pua_policy::{Process, Refusal};
use pua_tree::{FileTree, Kind, LentName, Name, NodeId};

/// The row that a rename moves: where its name is, and which name it gets.
#[derive(Clone, Copy)]
pub(crate) struct Shift<'a> {
    pub(crate) from: NodeId,
    pub(crate) name: LentName<'a>,
    pub(crate) to: NodeId,
    pub(crate) new_name: LentName<'a>,
}

/// Whether a slash at the end of either path of a rename asks for a directory: by OpenBSD's rules
/// alone.
pub fn asks_directory(rules: Rules, old: &[u8], new: &[u8]) -> bool
    ensures { result ≡ asks_directory rules old.now new.now }
{
    match rules {
        Rules::Standard => false,
        Rules::Openbsd => ends_in_slash(old) || ends_in_slash(new),
    }
}

/// Whether a text ends in a slash.
pub(crate) fn ends_in_slash(text: &[u8]) -> bool
    ensures { result ≡ ends_in_slash text.now }
{
    match text.split_last() {
        Some((last, _)) => *last == b'/',
        None => false,
    }
}

/// What a rename is to change whose promises are held: the row of what its old path named moves,
/// unless something is wrong with what both paths named; None where nothing is to move. `asks`:
/// whether a directory is asked for, so that what is none is `ENOTDIR`.
pub(crate) fn judge_rename<'t, T: FileTree>(
    tree: &'t T,
    table: &CallTable,
    process: &Process,
    need: &PairNeed,
    asks: bool,
    old: &'t [u8],
    new: &'t [u8],
) -> Result<Option<Shift<'t>>, Refusal>
    ensures { shifted result ≡ if_covered table.now.whose need.now (T.content tree.now) process.now
        Dropped old.now new.now
        (λ from to. decide_rename (T.content tree.now) asks from to (node_named from)) }
{
    match judge_pair(tree, table, process, need, Ending::Dropped, old, new) {
        Ok(pair) => decide_shift(tree, asks, &pair),
        Err(errno) => Err(Refusal::Failed(errno)),
    }
}

/// The row of what was found, unless something is wrong with it or with the place that it would
/// get.
fn decide_shift<'a, T: FileTree>(
    tree: &T,
    asks: bool,
    pair: &Pair<'a>,
) -> Result<Option<Shift<'a>>, Refusal>
    ensures { StandsAsNamed (T.content tree.now) (found_seen pair.now.to) → shifted result
        ≡ decide_rename (T.content tree.now) asks (found_seen pair.now.from)
        (found_seen pair.now.to) (node_named (found_seen pair.now.from)) }
{
    let (from, to) = (&pair.from, &pair.to);
    let Some(node) = node_named(from) else {
        return Err(Refusal::Failed(Errno::ENOENT));
    };
    if let Some(errno) = ways_fault(from, to) {
        return Err(Refusal::Failed(errno));
    }
    if asks && !is_whole(from) {
        return Err(Refusal::Failed(Errno::ENOTDIR));
    }
    if is_node(node, to) {
        return Ok(None);
    }
    if let Some(errno) = move_fault(tree, node, from, to) {
        return Err(Refusal::Failed(errno));
    }
    Ok(shifting(from, to))
}

/// The row at one name moves to another.
fn shifting<'a>(from: &LentFound<'a>, to: &LentFound<'a>) -> Option<Shift<'a>>
    ensures { shifted (Ok result)
        ≡ Ok (shifting (spot_named (found_seen from.now)) (spot_named (found_seen to.now))) }
{
    match (spot_named(from), spot_named(to)) {
        (Some(from), Some(to)) => Some(Shift {
            from: from.dir,
            name: from.name,
            to: to.dir,
            new_name: to.name,
        }),
        _ => None,
    }
}

/// A row is to move, and to get another name.
pub(crate) fn moving<'a>(
    from: NodeId,
    name: &'a Name,
    to: NodeId,
    new_name: &'a Name,
) -> Granted<'a>
    ensures { (asker : Requester) →
        decision_by asker result ≡ Ok (ShiftRow (from, name.now) (to, new_name.now)) }
{
    Granted::ShiftRow(from, name, to, new_name)
}

/// Whether this node was found.
fn is_node(node: NodeId, found: &LentFound<'_>) -> bool
    ensures { result ≡ is_same_node node (node_named (found_seen found.now)) }
{
    match node_named(found) {
        Some(there) => node == there,
        None => false,
    }
}

/// What is wrong with the way in which they were named: `.` or `..` on either side, then the root
/// on either side.
#[tactic(auto, using(crate::proofs::Renaming::first_fault))]
fn ways_fault(from: &LentFound<'_>, to: &LentFound<'_>) -> Option<Errno>
    ensures { result ≡ ways_fault (found_seen from.now) (found_seen to.now) }
{
    dots_fault(from).or(dots_fault(to).or(top_fault(from).or(top_fault(to))))
}

/// `EINVAL` for what was named by `.` or `..`.
fn dots_fault(found: &LentFound<'_>) -> Option<Errno>
    ensures { result ≡ dots_fault (found_seen found.now) }
{
    match found {
        LentFound::Whole { way, .. } => match way {
            LentWay::Dot | LentWay::DotDot => Some(Errno::EINVAL),
            LentWay::Named { .. } | LentWay::Top => None,
        },
        LentFound::Slot { .. } => None,
    }
}

/// `EBUSY` for what was named by no part.
fn top_fault(found: &LentFound<'_>) -> Option<Errno>
    ensures { result ≡ top_fault (found_seen found.now) }
{
    match found {
        LentFound::Whole { way, .. } => match way {
            LentWay::Top => Some(Errno::EBUSY),
            LentWay::Named { .. } | LentWay::Dot | LentWay::DotDot => None,
        },
        LentFound::Slot { .. } => None,
    }
}

/// What is wrong with this node at the new place: a directory would stand beneath itself, then that
/// it would leave its file system, and then what the kinds of both make impossible.
fn move_fault<T: FileTree>(
    tree: &T,
    node: NodeId,
    from: &LentFound<'_>,
    to: &LentFound<'_>,
) -> Option<Errno>
    ensures { StandsAsNamed (T.content tree.now) (found_seen to.now) → result ≡ or_fault
        (inside_fault (T.content tree.now) node (spot_named (found_seen to.now)))
        (kinds_fault (T.content tree.now) node (found_seen from.now) (found_seen to.now)) }
{
    inside_fault(tree, node, to).or(kinds_fault(tree, from, to))
}

/// `EINVAL` where a directory would come to stand in itself or beneath itself.
fn inside_fault<T: FileTree>(tree: &T, node: NodeId, to: &LentFound<'_>) -> Option<Errno>
    ensures { StandsAsNamed (T.content tree.now) (found_seen to.now) →
        result ≡ inside_fault (T.content tree.now) node (spot_named (found_seen to.now)) }
{
    let Some(spot) = spot_named(to) else {
        return None;
    };
    if tree.kind(node) == Some(Kind::Dir) && tree.is_within(spot.dir, node) {
        return Some(Errno::EINVAL);
    }
    None
}

/// Nothing leaves its file system (rename(2)), and then what the kinds of both make impossible.
fn kinds_fault<T: FileTree>(tree: &T, from: &LentFound<'_>, to: &LentFound<'_>) -> Option<Errno>
    ensures { (x : ℕ) → result
        ≡ kinds_fault (T.content tree.now) x (found_seen from.now) (found_seen to.now) }
{
    if is_elsewhere(tree, from, to) {
        return Some(Errno::EXDEV);
    }
    fits_fault(tree, from, to)
}

/// A directory is not put in the place of anything else, nothing else in the place of a directory,
/// and nothing in the place of a directory in which something stands.
fn fits_fault<T: FileTree>(tree: &T, from: &LentFound<'_>, to: &LentFound<'_>) -> Option<Errno>
    ensures { result ≡ fits_fault (T.content tree.now) (found_seen from.now) (found_seen to.now) }
{
    match *to {
        LentFound::Whole { dir, .. } => {
            if !is_whole(from) {
                Some(Errno::EISDIR)
            } else if tree.is_empty(dir) {
                None
            } else {
                Some(Errno::ENOTEMPTY)
            }
        }
        LentFound::Slot { node, .. } => {
            if node.is_some() && is_whole(from) {
                Some(Errno::ENOTDIR)
            } else {
                None
            }
        }
    }
}
