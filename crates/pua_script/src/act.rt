//! What a process's request does, where it is about no other process: it is judged, and then it is
//! done.
//!
//! Each request with paths has a function of its own: a compiled function clears all its variables
//! when it begins, and a name takes 256 bytes. What a path names stays lent until a name is to be
//! kept.

ghost use Rattle.std.specs.Prelude.{◌≡◌, ℕ, List, None, Some, Ok, OnErr, IsFalse, true, false};
ghost use Rattle.pua_policy.specs.States.{ProcessState};
ghost use Rattle.pua_script.specs.Decide.{asker_of, change_by, decide, decide_object};
ghost use Rattle.pua_script.specs.Openings.{opening_of, opening_seen};
ghost use Rattle.pua_script.specs.Judged.{decision_for, is_edit};
ghost use Rattle.pua_script.specs.Replay.{come_of};
ghost use Rattle.pua_script.specs.Worlds.{Acts, Attempts, is_of_two};
ghost use Rattle.pua_script.specs.declared.request.Action.TheVariants.{Chroot, Hold, Link, OnPath, Rename};
ghost use Rattle.pua_script.specs.declared.request.Action.TheVariants.{Symlink, Unveil};

use crate::answer::Answer;
use crate::fault::WorldFault;
use crate::granted::{Granted, NewNode, make};
use crate::held::{decide_close, decide_fchdir, decide_hold};
use crate::judged::{
    adding, editing, grant_unveil, judge_fit, judge_letters, judge_object, judge_target, looking,
    veil_named,
};
use crate::link::{judge_link, naming};
use crate::opening::{Opening, opening_of};
use crate::pair::{node_named, promised_pair, spot_named};
use crate::process::{decide_lock, decide_pledge, decide_uses, refuse};
use crate::rename::{asks_directory, judge_rename, moving};
use crate::request::Action;
use crate::root::decide_chroot;
use pua_calls::{Call, CallTable, Perms};
use pua_policy::judge::promised_for;
use pua_policy::{Process, Refusal};
use pua_tree::FileTree;

/// Does what a process asks for, where it is about no other process. All checks come first, in
/// their order; what is granted then lends the names of what they found. Whether the tree has room
/// is asked last. A fork and a take, which are about two processes, are not served here: for them
/// nothing is done, and nothing is said of the answer.
pub(crate) fn act<T: FileTree>(
    tree: &mut T,
    table: &CallTable,
    process: &mut Process,
    action: &Action,
) -> Result<Answer, WorldFault>
    ensures exact { IsFalse (is_of_two action.now) → Acts table.now (T.content tree.old)
        process.old action.now result (T.content tree.new) process.new }
    ensures unchanged { OnErr result ((T.content tree.new ≡ T.content tree.old) ×
        (process.new ≡ process.old)) }
{
    match action {
        Action::OnPath(call, path) => call_on(tree, table, process, *call, path.bytes()),
        Action::Symlink(target, path) => {
            symlink(tree, table, process, target.bytes(), path.bytes())
        }
        Action::Rename(old, new) => rename(tree, table, process, old.bytes(), new.bytes()),
        Action::Link(old, new) => link(tree, table, process, old.bytes(), new.bytes()),
        Action::Unveil(path, perms) => unveil(tree, table, process, path.bytes(), *perms),
        Action::Pledge(promises, execpromises) => {
            let granted = decide_pledge(table.rules(), promises, execpromises);
            answer(tree, process, &granted)
        }
        Action::Lock => {
            let granted = decide_lock(process);
            answer(tree, process, &granted)
        }
        Action::Exit => answer(tree, process, &Ok(Granted::Exit)),
        Action::Uses(any) => {
            let granted = decide_uses(process, any.sets());
            answer(tree, process, &granted)
        }
        Action::Hold { number, call, path } => {
            hold(tree, table, process, *number, *call, path.bytes())
        }
        Action::Close(number) => {
            let granted = decide_close(process, *number);
            answer(tree, process, &granted)
        }
        Action::Fchdir(number) => {
            let granted = decide_fchdir(process, *number);
            answer(tree, process, &granted)
        }
        Action::Chroot(path) => chroot(tree, table, process, path.bytes()),
        Action::Comment => answer(tree, process, &Ok(Granted::NoChange)),
        Action::Fork(_) | Action::Take { .. } => Ok(Answer::Okay),
    }
}

/// Makes one of the calls on a path. What a promise opens is looked for before all checks.
fn call_on<T: FileTree>(
    tree: &mut T,
    table: &CallTable,
    process: &mut Process,
    call: Call,
    path: &[u8],
) -> Result<Answer, WorldFault>
    ensures exact { Acts table.now (T.content tree.old) process.old (OnPath call path.now)
        result (T.content tree.new) process.new }
    ensures unchanged { OnErr result
        ((T.content tree.new ≡ T.content tree.old) × (process.new ≡ process.old)) }
{
    match opening_of(table, process, call, path) {
        Some(row) => opened(tree, table, process, call, path, row),
        None => asked(tree, table, process, call, path),
    }
}

/// Makes a call that no promise opens: the promises that it needs are asked first.
fn asked<T: FileTree>(
    tree: &mut T,
    table: &CallTable,
    process: &mut Process,
    call: Call,
    path: &[u8],
) -> Result<Answer, WorldFault>
    ensures exact { opening_of table.now process.old call path.now ≡ None →
        Acts table.now (T.content tree.old) process.old (OnPath call path.now)
        result (T.content tree.new) process.new }
    ensures unchanged { OnErr result
        ((T.content tree.new ≡ T.content tree.old) × (process.new ≡ process.old)) }
{
    if let Err(refusal) = promised_for(process, table, call) {
        return answer(tree, process, &Err(refusal));
    }
    unasked(tree, table, process, call, path)
}

/// Makes a call whose promises are held, or which are not asked.
fn unasked<T: FileTree>(
    tree: &mut T,
    table: &CallTable,
    process: &mut Process,
    call: Call,
    path: &[u8],
) -> Result<Answer, WorldFault>
    ensures exact { decide table.now (T.content tree.old) process.old (OnPath call path.now)
        ≡ decide_object table.now (T.content tree.old) (asker_of process.old) call path.now
        (λ object. Ok (change_by table.now call object)) →
        Acts table.now (T.content tree.old) process.old (OnPath call path.now)
        result (T.content tree.new) process.new }
    ensures unchanged { OnErr result
        ((T.content tree.new ≡ T.content tree.old) × (process.new ≡ process.old)) }
{
    if call.effect().edits() {
        edit(tree, table, process, call, path)
    } else {
        look(tree, table, process, call, path)
    }
}

/// Makes a call that a promise opens. No promise is asked, and the veils only where the opening asks
/// them: what it opens past them is not changed.
fn opened<T: FileTree>(
    tree: &mut T,
    table: &CallTable,
    process: &mut Process,
    call: Call,
    path: &[u8],
    row: &Opening,
) -> Result<Answer, WorldFault>
    ensures exact { opening_of table.now process.old call path.now ≡ Some (opening_seen row.now) →
        Acts table.now (T.content tree.old) process.old (OnPath call path.now)
        result (T.content tree.new) process.new }
    ensures unchanged { OnErr result
        ((T.content tree.new ≡ T.content tree.old) × (process.new ≡ process.old)) }
{
    if row.asks_veils {
        return unasked(tree, table, process, call, path);
    }
    match judge_fit(tree, table, process, call, path) {
        Ok(()) => answer(tree, process, &Ok(Granted::NoChange)),
        Err(errno) => answer(tree, process, &Err(Refusal::Failed(errno))),
    }
}

/// Makes such a call that makes no name and takes none away. No name is copied.
fn look<T: FileTree>(
    tree: &mut T,
    table: &CallTable,
    process: &mut Process,
    call: Call,
    path: &[u8],
) -> Result<Answer, WorldFault>
    ensures exact { decide table.now (T.content tree.old) process.old (OnPath call path.now)
        ≡ decide_object table.now (T.content tree.old) (asker_of process.old) call path.now
        (λ object. Ok (change_by table.now call object)) →
        is_edit call ≡ false → Acts table.now (T.content tree.old) process.old (OnPath call path.now)
        result (T.content tree.new) process.new }
    ensures unchanged { OnErr result
        ((T.content tree.new ≡ T.content tree.old) × (process.new ≡ process.old)) }
{
    match judge_object(tree, table, process, call, path) {
        Ok(lent) => {
            let granted = looking(table, call, &lent);
            answer(tree, process, &Ok(granted))
        }
        Err(errno) => answer(tree, process, &Err(Refusal::Failed(errno))),
    }
}

/// Makes such a call that makes a name or takes one away. The name is copied, since what is lent
/// may lie in the tree that is to change.
fn edit<T: FileTree>(
    tree: &mut T,
    table: &CallTable,
    process: &mut Process,
    call: Call,
    path: &[u8],
) -> Result<Answer, WorldFault>
    ensures exact { decide table.now (T.content tree.old) process.old (OnPath call path.now)
        ≡ decide_object table.now (T.content tree.old) (asker_of process.old) call path.now
        (λ object. Ok (change_by table.now call object)) →
        is_edit call ≡ true → Acts table.now (T.content tree.old) process.old (OnPath call path.now)
        result (T.content tree.new) process.new }
    ensures unchanged { OnErr result
        ((T.content tree.new ≡ T.content tree.old) × (process.new ≡ process.old)) }
{
    let lent = match judge_object(tree, table, process, call, path) {
        Ok(lent) => lent,
        Err(errno) => return answer(tree, process, &Err(Refusal::Failed(errno))),
    };
    let there = node_named(&lent);
    let spot = match spot_named(&lent) {
        Some(spot) => spot,
        None => return answer(tree, process, &Ok(Granted::NoChange)),
    };
    let dir = spot.dir;
    let name = spot.name.name();
    answer(
        tree,
        process,
        &Ok(editing(table.rules(), call, dir, &name, there)),
    )
}

/// Makes a link with this target.
fn symlink<T: FileTree>(
    tree: &mut T,
    table: &CallTable,
    process: &mut Process,
    target: &[u8],
    path: &[u8],
) -> Result<Answer, WorldFault>
    ensures exact { Acts table.now (T.content tree.old) process.old (Symlink target.now path.now)
        result (T.content tree.new) process.new }
    ensures unchanged { OnErr result
        ((T.content tree.new ≡ T.content tree.old) × (process.new ≡ process.old)) }
{
    let target = match judge_target(table, process, target) {
        Ok(target) => target,
        Err(refusal) => return answer(tree, process, &Err(refusal)),
    };
    let lent = match judge_object(tree, table, process, Call::Symlink, path) {
        Ok(lent) => lent,
        Err(errno) => return answer(tree, process, &Err(Refusal::Failed(errno))),
    };
    let there = node_named(&lent);
    let spot = match spot_named(&lent) {
        Some(spot) => spot,
        None => return answer(tree, process, &Ok(Granted::NoChange)),
    };
    let dir = spot.dir;
    let name = spot.name.name();
    answer(
        tree,
        process,
        &Ok(adding(NewNode::Link(&target), dir, &name, there)),
    )
}

/// Renames what the old path names.
fn rename<'p, T: FileTree>(
    tree: &mut T,
    table: &CallTable,
    process: &mut Process,
    old: &'p [u8],
    new: &'p [u8],
) -> Result<Answer, WorldFault>
    ensures exact { Acts table.now (T.content tree.old) process.old (Rename old.now new.now)
        result (T.content tree.new) process.new }
    ensures unchanged { OnErr result
        ((T.content tree.new ≡ T.content tree.old) × (process.new ≡ process.old)) }
{
    let need = table.rename();
    match promised_pair(process, need) {
        Ok(()) => (),
        Err(refusal) => return answer(tree, process, &Err(refusal)),
    }
    let asks = asks_directory(table.rules(), old, new);
    let shift = match judge_rename(tree, table, process, need, asks, old, new) {
        Ok(Some(shift)) => shift,
        Ok(None) => return answer(tree, process, &Ok(Granted::NoChange)),
        Err(refusal) => return answer(tree, process, &Err(refusal)),
    };
    let (from, to) = (shift.from, shift.to);
    let name = shift.name.name();
    let new_name = shift.new_name.name();
    let granted = moving(from, &name, to, &new_name);
    answer(tree, process, &Ok(granted))
}

/// Gives what the old path names a further name. By the standard table a symbolic link at the old
/// path's end gets the name itself (this profile).
fn link<'p, T: FileTree>(
    tree: &mut T,
    table: &CallTable,
    process: &mut Process,
    old: &'p [u8],
    new: &'p [u8],
) -> Result<Answer, WorldFault>
    ensures exact { Acts table.now (T.content tree.old) process.old (Link old.now new.now)
        result (T.content tree.new) process.new }
    ensures unchanged { OnErr result
        ((T.content tree.new ≡ T.content tree.old) × (process.new ≡ process.old)) }
{
    let need = table.link();
    match promised_pair(process, need) {
        Ok(()) => (),
        Err(refusal) => return answer(tree, process, &Err(refusal)),
    }
    let tie = match judge_link(tree, table, process, need, old, new) {
        Ok(Some(tie)) => tie,
        Ok(None) => return answer(tree, process, &Ok(Granted::NoChange)),
        Err(refusal) => return answer(tree, process, &Err(refusal)),
    };
    let (dir, node) = (tie.dir, tie.node);
    let name = tie.name.name();
    let granted = naming(dir, &name, node);
    answer(tree, process, &Ok(granted))
}

/// Opens what a path names, and keeps it as the descriptor of this number.
fn hold<T: FileTree>(
    tree: &mut T,
    table: &CallTable,
    process: &mut Process,
    number: u32,
    call: Call,
    path: &[u8],
) -> Result<Answer, WorldFault>
    ensures exact { Acts table.now (T.content tree.old) process.old (Hold number call path.now)
        result (T.content tree.new) process.new }
    ensures unchanged { OnErr result
        ((T.content tree.new ≡ T.content tree.old) × (process.new ≡ process.old)) }
{
    let granted = decide_hold(tree, table, process, number, call, path);
    answer(tree, process, &granted)
}

/// Makes what a path names the root of the process.
fn chroot<T: FileTree>(
    tree: &mut T,
    table: &CallTable,
    process: &mut Process,
    path: &[u8],
) -> Result<Answer, WorldFault>
    ensures exact { Acts table.now (T.content tree.old) process.old (Chroot path.now)
        result (T.content tree.new) process.new }
    ensures unchanged { OnErr result
        ((T.content tree.new ≡ T.content tree.old) × (process.new ≡ process.old)) }
{
    let granted = decide_chroot(tree, table, process, path);
    answer(tree, process, &granted)
}

/// Puts a veil on what a path names.
fn unveil<T: FileTree>(
    tree: &mut T,
    table: &CallTable,
    process: &mut Process,
    path: &[u8],
    perms: Option<Perms>,
) -> Result<Answer, WorldFault>
    ensures exact { Acts table.now (T.content tree.old) process.old (Unveil path.now perms)
        result (T.content tree.new) process.new }
    ensures unchanged { OnErr result
        ((T.content tree.new ≡ T.content tree.old) × (process.new ≡ process.old)) }
{
    match judge_letters(process, perms) {
        Ok(perms) => {
            let object = veil_named(tree, table, process, path);
            answer(tree, process, &grant_unveil(&object, perms))
        }
        Err(refusal) => answer(tree, process, &Err(refusal)),
    }
}

/// Does what was granted, or what a refusal leaves to do.
fn answer<T: FileTree>(
    tree: &mut T,
    process: &mut Process,
    granted: &Result<Granted<'_>, Refusal>,
) -> Result<Answer, WorldFault>
    ensures exact { (processes : List (ℕ × ProcessState)) →
        Attempts (T.content tree.old) process.old
        (come_of (record { tree = T.content tree.old; processes = processes }) process.old
        (decision_for (asker_of process.old) granted.now))
        result (T.content tree.new) process.new }
    ensures unchanged { OnErr result ((T.content tree.new ≡ T.content tree.old) ×
        (process.new ≡ process.old)) }
{
    match granted {
        Ok(granted) => make(tree, process, granted),
        Err(refusal) => Ok(refuse(process, *refusal)),
    }
}
