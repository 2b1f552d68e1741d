//! Why a request is answered as it is.

ghost use Rattle.std.specs.Prelude.{◌≡◌, IfOk, None, option_map};
ghost use Rattle.pua_script.specs.Decide.{asker_for, asker_past, decide_by};
ghost use Rattle.pua_script.specs.Openings.{opening_of};
ghost use Rattle.pua_script.specs.Worlds.{apply_to, world_of};
ghost use Rattle.pua_script.specs.declared.request.Action.TheVariants.{OnPath};
ghost use Rattle.pua_why.specs.Checked.{reason_checked, checks_fault, granted_by, refused_by};
ghost use Rattle.pua_why.specs.Reasons.{change_or_fault, faults, faults_of, reason};
ghost use Rattle.pua_why.specs.Seen.{fault_seen, reason_seen};

use crate::checks::{
    call_fault, chroot_fault, fit_fault, object_fault, symlink_fault, unveil_fault,
};
use crate::given::{fork_fault, lock_fault, pledge_fault, process_fault, uses_fault};
use crate::opens::{close_fault, fchdir_fault, receive_fault, take_fault};
use crate::pairs::{link_fault, rename_fault};
use crate::told::{Fault, Reason};
use pua_calls::{Call, CallTable};
use pua_path::{Errno, Links};
use pua_policy::Process;
use pua_script::{Action, Answer, World, opening_of};
use pua_tree::{FileTree, OutOfMemory};
use std::alloc::Global;

/// Why this request would be answered as it would be, if a process of this number asked it now: the
/// first check that fails, in the order in which they are made. Whether the tree has room for the
/// change is not asked, so a request that lacks nothing else is `Granted`. The only error is that a
/// growth was refused.
pub fn checked<'w, T: FileTree>(
    alloc: Global,
    world: &'w World<T>,
    number: u32,
    action: &'w Action,
) -> Result<Reason<'w>, OutOfMemory>
    ensures { IfOk result (λ reason. reason_seen reason
        ≡ reason_checked world.now.table (world_of world.now)
        (record { process = number; action = action.now })) }
{
    let Some(process) = world.process(number) else {
        return Ok(Reason::NeverMade);
    };
    if process.ended() {
        return Ok(Reason::Ended);
    }
    match request_fault(alloc, world, process, action) {
        Ok(Some(fault)) => Ok(Reason::Refused(fault)),
        Ok(None) => Ok(Reason::Granted),
        Err(error) => Err(error),
    }
}

/// Why a request that a process of this number asks now gets this answer. The only error is that a
/// growth was refused.
#[tactic(auto, using(crate::proofs::Checking::checks_tell))]
pub fn reason<'w, T: FileTree>(
    alloc: Global,
    world: &'w World<T>,
    number: u32,
    action: &'w Action,
    answer: Answer,
) -> Result<Reason<'w>, OutOfMemory>
    ensures { IfOk result (λ told.
        answer ≡ (apply_to world.now (record { process = number; action = action.now })).0 →
        reason_seen told
        ≡ reason world.now.table (world_of world.now)
        (record { process = number; action = action.now })) }
{
    match checked(alloc, world, number, action) {
        Ok(Reason::NeverMade) => Ok(Reason::NeverMade),
        Ok(Reason::Ended) => Ok(Reason::Ended),
        Ok(Reason::Refused(fault)) => Ok(Reason::Refused(fault)),
        Ok(Reason::Granted) => Ok(granted_by(answer)),
        Err(error) => Err(error),
    }
}

/// The reason of an answer to what the checks granted: it lacked room, if the answer says so.
fn granted_by<'s>(answer: Answer) -> Reason<'s>
    ensures { reason_seen result ≡ granted_by answer }
{
    match answer {
        Answer::Failed(Errno::ENOSPC) => Reason::Refused(Fault::NoRoom),
        _ => Reason::Granted,
    }
}

/// The check of a living process's request that fails.
fn request_fault<'w, T: FileTree>(
    alloc: Global,
    world: &'w World<T>,
    process: &Process,
    action: &'w Action,
) -> Result<Option<Fault<'w>>, OutOfMemory>
    ensures { IfOk result (λ fault. option_map fault_seen fault
        ≡ checks_fault (world_of world.now) process.now
        (change_or_fault world.now.table world.now.tree process.now action.now)) }
{
    match fault_of(alloc, world.tree(), world.table(), process, action) {
        Ok(None) => further_fault(alloc, world, process, action),
        Ok(Some(fault)) => Ok(Some(fault)),
        Err(error) => Err(error),
    }
}

/// The check that fails of what no other check refused: whether a further process may be made, if
/// the request makes one, and whether another process sends what is asked for.
fn further_fault<'s, T: FileTree>(
    alloc: Global,
    world: &World<T>,
    process: &Process,
    action: &Action,
) -> Result<Option<Fault<'s>>, OutOfMemory>
    ensures { IfOk result (λ fault.
        None ≡ refused_by (change_or_fault world.now.table world.now.tree process.now action.now) →
        option_map fault_seen fault
        ≡ checks_fault (world_of world.now) process.now
        (change_or_fault world.now.table world.now.tree process.now action.now)) }
{
    match action {
        Action::Fork(new) => process_fault(alloc, world, *new),
        Action::Take { from, theirs, .. } => Ok(take_fault(world, process, *from, *theirs)),
        _ => Ok(None),
    }
}

/// The check that fails, before it is asked whether a further process may be made.
fn fault_of<'s, T: FileTree>(
    alloc: Global,
    tree: &T,
    table: &'s CallTable,
    process: &Process,
    action: &'s Action,
) -> Result<Option<Fault<'s>>, OutOfMemory>
    ensures { IfOk result (λ fault. option_map fault_seen fault
        ≡ refused_by (decide_by faults table.now (T.content tree.now)
        (asker_for table.now process.now action.now (faults_of process.now)) action.now)) }
{
    let mut links = Links::new(alloc)?;
    match action {
        Action::OnPath(call, path) => {
            let fault = asked_fault(tree, table, process, *call, path.bytes(), &mut links);
            Ok(fault)
        }
        Action::Symlink(target, path) => {
            let (target, path) = (target.bytes(), path.bytes());
            let fault = symlink_fault(tree, table, process, target, path, &mut links);
            Ok(fault)
        }
        Action::Rename(old, new) => {
            let (old, new) = (old.bytes(), new.bytes());
            let fault = rename_fault(tree, table, process, old, new, &mut links);
            Ok(fault)
        }
        Action::Link(old, new) => {
            let (old, new) = (old.bytes(), new.bytes());
            let fault = link_fault(tree, table, process, old, new, &mut links);
            Ok(fault)
        }
        Action::Pledge(promises, execpromises) => {
            Ok(pledge_fault(table.rules(), process, promises, execpromises))
        }
        Action::Unveil(path, perms) => {
            unveil_fault(
                alloc,
                tree,
                table,
                process,
                path.bytes(),
                *perms,
                &mut links,
            )
        }
        Action::Lock => Ok(lock_fault(process)),
        Action::Exit | Action::Comment => Ok(None),
        Action::Uses(any) => Ok(uses_fault(process, any.sets())),
        Action::Fork(_) => Ok(fork_fault(process)),
        Action::Hold { call, path, .. } => {
            let fault = asked_fault(tree, table, process, *call, path.bytes(), &mut links);
            Ok(fault)
        }
        Action::Close(number) => Ok(close_fault(process, *number)),
        Action::Fchdir(number) => Ok(fchdir_fault(process, *number)),
        Action::Chroot(path) => {
            let fault = chroot_fault(tree, table, process, path.bytes(), &mut links);
            Ok(fault)
        }
        Action::Take { .. } => Ok(receive_fault(process)),
    }
}

/// The check of a call on a path that fails. Of one that a promise opens no promises are asked, and
/// the veils only where its opening asks them.
fn asked_fault<'s, T: FileTree>(
    tree: &T,
    table: &'s CallTable,
    process: &Process,
    call: Call,
    path: &[u8],
    links: &mut Links,
) -> Option<Fault<'s>>
    ensures { option_map fault_seen result
        ≡ refused_by (decide_by faults table.now (T.content tree.now)
        (asker_past (opening_of table.now process.now call path.now) (faults_of process.now))
        (OnPath call path.now)) }
{
    match opening_of(table, process, call, path) {
        None => call_fault(tree, table, process, call, path, links),
        Some(row) if row.asks_veils => object_fault(tree, table, process, call, path, links),
        Some(_) => fit_fault(tree, table, process, call, path, links),
    }
}
