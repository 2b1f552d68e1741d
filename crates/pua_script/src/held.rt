//! Requests about the open files of the process that asks.

ghost use Rattle.std.specs.Prelude.{◌≡◌, ℕ, Ok, Option, false};
ghost use Rattle.pua_path.specs.Fits.{node_named};
ghost use Rattle.pua_script.specs.Decide.{asker_of, decide, decide_close, decide_fchdir};
ghost use Rattle.pua_script.specs.Decide.{Decision, Requester, decide_object, file_opened, filing};
ghost use Rattle.pua_script.specs.Decide.{past_promises};
ghost use Rattle.pua_script.specs.Judged.{decision_by, decision_for, on_judged};
ghost use Rattle.pua_script.specs.declared.request.Action.TheVariants.{Hold};

use crate::descriptor::letters_opened;
use crate::granted::Granted;
use crate::judged::{judge_object, judge_past};
use crate::opening::opening_of;
use crate::pair::node_named;
use pua_calls::{Call, CallTable};
use pua_path::Errno;
use pua_policy::judge::promised_for;
use pua_policy::{OpenFile, Process, Refusal};
use pua_tree::{FileTree, NodeId};

/// What an open is to change whose file is kept: it is judged as the call alone is, and then the
/// descriptor stands for what its path names.
pub(crate) fn decide_hold<'g, T: FileTree>(
    tree: &T,
    table: &CallTable,
    process: &Process,
    number: u32,
    call: Call,
    path: &[u8],
) -> Result<Granted<'g>, Refusal>
    ensures { decision_for (asker_of process.now) result
        ≡ decide table.now (T.content tree.now) process.now (Hold number call path.now) }
{
    let node = judge_open(tree, table, process, call, path)?;
    Ok(filing(number, file_opened(tree, call, node)))
}

/// The node that the path of a call names, which the call may open. What a promise opens is looked
/// for before all checks.
fn judge_open<T: FileTree>(
    tree: &T,
    table: &CallTable,
    process: &Process,
    call: Call,
    path: &[u8],
) -> Result<Option<NodeId>, Refusal>
    ensures { (number : ℕ) →
        on_judged result (λ node. Ok (filing number (file_opened (T.content tree.now) call node)))
        ≡ decide table.now (T.content tree.now) process.now (Hold number call path.now) }
{
    match opening_of(table, process, call, path) {
        Some(row) if !row.asks_veils => node_past(tree, table, process, call, path),
        Some(_) => node_judged(tree, table, process, call, path),
        None => {
            promised_for(process, table, call)?;
            node_judged(tree, table, process, call, path)
        }
    }
}

/// The node that the path of a call names, whose promises are held, or which are not asked.
fn node_judged<T: FileTree>(
    tree: &T,
    table: &CallTable,
    process: &Process,
    call: Call,
    path: &[u8],
) -> Result<Option<NodeId>, Refusal>
    ensures { (further : Option ℕ → Decision) →
        on_judged result further
        ≡ decide_object table.now (T.content tree.now) (asker_of process.now) call path.now
        (λ object. further (node_named object)) }
{
    match judge_object(tree, table, process, call, path) {
        Ok(lent) => Ok(node_named(&lent)),
        Err(errno) => Err(Refusal::Failed(errno)),
    }
}

/// The same, the veils aside.
fn node_past<T: FileTree>(
    tree: &T,
    table: &CallTable,
    process: &Process,
    call: Call,
    path: &[u8],
) -> Result<Option<NodeId>, Refusal>
    ensures { (further : Option ℕ → Decision) →
        on_judged result further
        ≡ decide_object table.now (T.content tree.now)
        (past_promises false (asker_of process.now)) call path.now
        (λ object. further (node_named object)) }
{
    match judge_past(tree, table, process, call, path) {
        Ok(found) => Ok(node_named(&found.lent())),
        Err(errno) => Err(Refusal::Failed(errno)),
    }
}

/// The open file of what a call's path named, if the call opens.
fn file_opened<T: FileTree>(tree: &T, call: Call, node: Option<NodeId>) -> Option<OpenFile>
    ensures { result ≡ file_opened (T.content tree.now) call node }
{
    let node = node?;
    let kind = tree.kind(node)?;
    let letters = letters_opened(call)?;
    Some(OpenFile {
        node,
        kind,
        letters,
    })
}

/// A descriptor that stands for what was opened.
fn filing<'g>(number: u32, file: Option<OpenFile>) -> Granted<'g>
    ensures { (asker : Requester) → decision_by asker result ≡ Ok (filing number file) }
{
    match file {
        Some(file) => Granted::Hold(number, file),
        None => Granted::NoChange,
    }
}

/// What a close is to change.
pub(crate) fn decide_close<'g>(process: &Process, number: u32) -> Result<Granted<'g>, Refusal>
    ensures { decision_for (asker_of process.now) result
        ≡ decide_close (asker_of process.now) number }
{
    match process.file(number) {
        Some(_) => Ok(Granted::Close(number)),
        None => Err(Refusal::Failed(Errno::EBADF)),
    }
}

/// What an fchdir is to change: the working directory, to the one for which a descriptor stands.
pub(crate) fn decide_fchdir<'g>(process: &Process, number: u32) -> Result<Granted<'g>, Refusal>
    ensures { decision_for (asker_of process.now) result
        ≡ decide_fchdir (asker_of process.now) number }
{
    match process.file(number) {
        Some(file) if file.is_directory() => Ok(Granted::Enter(file.node)),
        Some(_) => Err(Refusal::Failed(Errno::ENOTDIR)),
        None => Err(Refusal::Failed(Errno::EBADF)),
    }
}
