//! The request that moves the root of the process that asks.

ghost use Rattle.std.specs.Prelude.{◌≡◌, Ok};
ghost use Rattle.pua_path.specs.Walks.{found_seen};
ghost use Rattle.pua_script.specs.Decide.{asker_of, decide, Requester, rooting};
ghost use Rattle.pua_script.specs.Judged.{decision_by, decision_for};
ghost use Rattle.pua_script.specs.declared.request.Action.TheVariants.{Chroot};

use crate::granted::Granted;
use crate::judged::judge_object;
use pua_calls::{Call, CallTable, Promises};
use pua_path::LentFound;
use pua_policy::judge::promised;
use pua_policy::{Process, Refusal};
use pua_tree::FileTree;

/// What a chroot is to change: its promise is asked, and then its path is judged as that of a
/// chdir.
pub(crate) fn decide_chroot<'g, T: FileTree>(
    tree: &T,
    table: &CallTable,
    process: &Process,
    path: &[u8],
) -> Result<Granted<'g>, Refusal>
    ensures { decision_for (asker_of process.now) result
        ≡ decide table.now (T.content tree.now) process.now (Chroot path.now) }
{
    promised(process, Promises::ID)?;
    match judge_object(tree, table, process, Call::Chdir, path) {
        Ok(lent) => Ok(rooting(&lent)),
        Err(errno) => Err(Refusal::Failed(errno)),
    }
}

/// The root that the process gets.
fn rooting<'g>(found: &LentFound<'_>) -> Granted<'g>
    ensures { (asker : Requester) → decision_by asker result ≡ Ok (rooting (found_seen found.now)) }
{
    match found {
        LentFound::Whole { dir, .. } => Granted::Root(*dir),
        LentFound::Slot { .. } => Granted::NoChange,
    }
}
