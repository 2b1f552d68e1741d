//! A link: a further name for what its old path names.

ghost use Rattle.std.specs.Prelude.{◌≡◌, Ok};
ghost use Rattle.pua_path.specs.Fits.{node_named, spot_named};
ghost use Rattle.pua_path.specs.Walks.{found_seen};
ghost use Rattle.pua_path.specs.declared.text.Ending.TheVariants.{Dot};
ghost use Rattle.pua_script.specs.Decide.{Requester, TieRow, decide_link, tying};
ghost use Rattle.pua_script.specs.Judged.{decision_by, if_covered, tied};

use crate::granted::Granted;
use crate::pair::{is_elsewhere, is_whole, judge_pair, node_named, spot_named};
use pua_calls::{CallTable, PairNeed};
use pua_path::{Ending, Errno, LentFound};
use pua_policy::{Process, Refusal};
use pua_tree::{FileTree, LentName, Name, NodeId};

/// The node that gets a further name, and that name.
#[derive(Clone, Copy)]
pub(crate) struct Tie<'a> {
    pub(crate) dir: NodeId,
    pub(crate) name: LentName<'a>,
    pub(crate) node: NodeId,
}

/// What a link is to change whose promises are held: what its old path named gets a further name,
/// unless something is wrong with what both paths named; None where nothing is to get one.
pub(crate) fn judge_link<'t, T: FileTree>(
    tree: &'t T,
    table: &CallTable,
    process: &Process,
    need: &PairNeed,
    old: &'t [u8],
    new: &'t [u8],
) -> Result<Option<Tie<'t>>, Refusal>
    ensures { tied result ≡ if_covered table.now.whose need.now (T.content tree.now) process.now Dot
        old.now new.now
        (λ from to. decide_link (T.content tree.now) from to (node_named from)) }
{
    let ending = Ending::Dot;
    match judge_pair(tree, table, process, need, ending, old, new) {
        Ok(pair) => decide_tie(tree, &pair.from, &pair.to),
        Err(errno) => Err(Refusal::Failed(errno)),
    }
}

/// A further name for what was found. `ENOENT` where nothing has the old name, `EPERM` where a
/// directory has it, `EEXIST` where something has the new one, and `EXDEV` where that is on another
/// file system (link(2)): the first of these.
fn decide_tie<'a, T: FileTree>(
    tree: &T,
    from: &LentFound<'a>,
    to: &LentFound<'a>,
) -> Result<Option<Tie<'a>>, Refusal>
    ensures { tied result ≡ decide_link (T.content tree.now) (found_seen from.now)
        (found_seen to.now) (node_named (found_seen from.now)) }
{
    let Some(node) = node_named(from) else {
        return Err(Refusal::Failed(Errno::ENOENT));
    };
    if is_whole(from) {
        return Err(Refusal::Failed(Errno::EPERM));
    }
    if node_named(to).is_some() {
        return Err(Refusal::Failed(Errno::EEXIST));
    }
    if is_elsewhere(tree, from, to) {
        return Err(Refusal::Failed(Errno::EXDEV));
    }
    Ok(tying(node, to))
}

/// A further name for a node, where the name was found.
fn tying<'a>(node: NodeId, to: &LentFound<'a>) -> Option<Tie<'a>>
    ensures { tied (Ok result) ≡ Ok (tying node (spot_named (found_seen to.now))) }
{
    match spot_named(to) {
        Some(spot) => Some(Tie {
            dir: spot.dir,
            name: spot.name,
            node,
        }),
        None => None,
    }
}

/// A node is to get a further name.
pub(crate) fn naming<'a>(dir: NodeId, name: &'a Name, node: NodeId) -> Granted<'a>
    ensures { (asker : Requester) → decision_by asker result ≡ Ok (TieRow (dir, name.now) node) }
{
    Granted::TieRow(dir, name, node)
}
