//! What paths name to a process, and what requests on one path are to change.

ghost use Rattle.std.specs.Prelude.{◌≡◌, ℕ, List, Some, Ok, IfOk, false};
ghost use Rattle.pua_tree.specs.Tree.{Tree};
ghost use Rattle.pua_path.specs.Paths.{path_fault};
ghost use Rattle.pua_path.specs.Walks.{found_seen, founds_seen};
ghost use Rattle.pua_path.specs.declared.found.Found as founds;
ghost use Rattle.pua_path.specs.declared.found.Last.TheVariants.{Followed};
ghost use Rattle.pua_path.specs.declared.text.Ending.TheVariants.{Dot};
ghost use Rattle.pua_calls.specs.Calls.{rule_of};
ghost use Rattle.pua_calls.specs.declared.call.Call.TheVariants.{Symlink};
ghost use Rattle.pua_calls.specs.declared.rules.Rules.{Rules as AnyRules};
ghost use Rattle.pua_policy.specs.States.{may_any};
ghost use Rattle.pua_policy.specs.Verdict.{place_of};
ghost use Rattle.pua_script.specs.Decide.{Requester, Decision, asker_of, change_by, cutting};
ghost use Rattle.pua_script.specs.Decide.{decide_object, decide_unveil, decide_veil, if_may};
ghost use Rattle.pua_script.specs.Decide.{if_named, NoChange, past_promises, path_named, placing};
ghost use Rattle.pua_script.specs.Decide.{unless_fault, veiling};
ghost use Rattle.pua_script.specs.Judged.{NameFits, decision_for, decision_by, edit_by, is_edit};
ghost use Rattle.pua_script.specs.Judged.{node_made, on_judged};

use crate::front::errno_by;
use crate::granted::{Granted, NewNode};
use pua_calls::needs::ending;
use pua_calls::{Call, CallTable, Effect, Perms, Promises, Rules};
use pua_path::{
    Counted, Ending, Errno, Found, Last, LentFound, PathText, Probe, Start, resolve_lent,
};
use pua_policy::judge::{misfit, object_verdict_lent, promised, promised_for};
use pua_policy::{Process, Refusal};
use pua_tree::{FileTree, Kind, Name, NodeId};

/// What a path names from a root and a directory, by the rules that a table is read over.
pub(crate) fn named<'t, P: Probe<'t>>(
    probe: &mut P,
    table: &CallTable,
    from: Start,
    path: &[u8],
    ending: Ending,
    last: Last,
) -> Result<Found, Errno>
    ensures exact { result
        ≡ path_named table.now.whose (P.tree probe.old) from ending path.now last }
    ensures fits { IfOk result (NameFits (P.tree probe.old)) }
    ensures tree { P.tree probe.new ≡ P.tree probe.old }
{
    match named_lent(probe, table, from, path, ending, last) {
        Ok(lent) => Ok(lent.found()),
        Err(errno) => Err(errno),
    }
}

/// The same, its name lent by the path, or by the target of a link.
#[inline(always)]
pub(crate) fn named_lent<'a, 't: 'a, P: Probe<'t>>(
    probe: &mut P,
    table: &CallTable,
    from: Start,
    path: &'a [u8],
    ending: Ending,
    last: Last,
) -> Result<LentFound<'a>, Errno>
    ensures exact { founds_seen result
        ≡ path_named table.now.whose (P.tree probe.old) from ending path.now last }
    ensures fits { IfOk (founds_seen result) (NameFits (P.tree probe.old)) }
    ensures tree { P.tree probe.new ≡ P.tree probe.old }
{
    probe.known();
    match PathText::read(path, ending) {
        Ok(text) => resolve_lent(probe, from, &text, last),
        Err(errno) => Err(errno_by(probe, table.rules(), from, path, errno)),
    }
}

/// What an allowed call changes that makes no name and takes none away. Of what was found it keeps
/// no more than a directory's number, so no name is copied.
pub(crate) fn looking<'g>(table: &CallTable, call: Call, found: &LentFound<'_>) -> Granted<'g>
    ensures { is_edit call ≡ false → (asker : Requester) →
        decision_by asker result ≡ Ok (change_by table.now call (found_seen found.now)) }
{
    match call.effect() {
        Effect::Enters => match found {
            LentFound::Whole { dir, .. } => Granted::Enter(*dir),
            LentFound::Slot { .. } => Granted::NoChange,
        },
        Effect::Starts => Granted::BeginProgram(table.execpromises()),
        Effect::Looks | Effect::Makes(_) | Effect::Removes => Granted::NoChange,
    }
}

/// What the path of a call names, whose promises are held: where the veils leave enough of it, and
/// it is of a kind that the call is for. Its name is lent by the path, or by the target of a link.
pub(crate) fn judge_object<'t, T: FileTree>(
    tree: &'t T,
    table: &CallTable,
    process: &Process,
    call: Call,
    path: &'t [u8],
) -> Result<LentFound<'t>, Errno>
    ensures { (further : founds.Found → Decision) →
        decide_object table.now (T.content tree.now) (asker_of process.now) call path.now further
        ≡ if_named (founds_seen result) further }
{
    let mut probe = Counted::new(tree);
    let (from, last) = (process.start(), call.last());
    let lent = match named_lent(&mut probe, table, from, path, ending(call), last) {
        Ok(lent) => lent,
        Err(errno) => return Err(errno),
    };
    match object_verdict_lent(&mut probe, process, table, call, &lent) {
        Ok(()) => Ok(lent),
        Err(errno) => Err(errno),
    }
}

/// Whether what a path names is of a kind that the call is for, the veils aside.
pub(crate) fn judge_fit<T: FileTree>(
    tree: &T,
    table: &CallTable,
    process: &Process,
    call: Call,
    path: &[u8],
) -> Result<(), Errno>
    ensures { decide_object table.now (T.content tree.now)
        (past_promises false (asker_of process.now)) call path.now (λ object. Ok NoChange)
        ≡ if_named result (λ one. Ok NoChange) }
{
    judge_past(tree, table, process, call, path)?;
    Ok(())
}

/// What the path of a call names, where it is of a kind that the call is for, the veils aside.
pub(crate) fn judge_past<T: FileTree>(
    tree: &T,
    table: &CallTable,
    process: &Process,
    call: Call,
    path: &[u8],
) -> Result<Found, Errno>
    ensures { (further : founds.Found → Decision) →
        decide_object table.now (T.content tree.now)
        (past_promises false (asker_of process.now)) call path.now further
        ≡ if_named result further }
{
    let mut probe = Counted::new(tree);
    let (from, last) = (process.start(), call.last());
    let found = named(&mut probe, table, from, path, ending(call), last)?;
    match misfit(&mut probe, table.rules(), call, &found) {
        Some(wrong) => Err(wrong.errno()),
        None => Ok(found),
    }
}

/// What an allowed call changes by these rules that makes a name or takes one away, where this node
/// has the name.
pub(crate) fn editing<'a>(
    rules: Rules,
    call: Call,
    dir: NodeId,
    name: &'a Name,
    there: Option<NodeId>,
) -> Granted<'a>
    ensures { (asker : Requester) →
        decision_by asker result ≡ Ok (edit_by rules call (Some (dir, name.now)) there) }
{
    match call.effect() {
        Effect::Makes(Kind::File) => adding(NewNode::File(rules), dir, name, there),
        Effect::Makes(Kind::Known(file_type)) => {
            adding(NewNode::Typed(file_type), dir, name, there)
        }
        Effect::Makes(Kind::Dir) => adding(NewNode::Directory, dir, name, there),
        Effect::Removes => removing(dir, name, there),
        Effect::Makes(Kind::Prog | Kind::Link) => Granted::NoChange,
        Effect::Looks | Effect::Enters | Effect::Starts => Granted::NoChange,
    }
}

/// A node where nothing stands.
pub(crate) fn adding<'a>(
    node: NewNode<'a>,
    dir: NodeId,
    name: &'a Name,
    there: Option<NodeId>,
) -> Granted<'a>
    ensures { (asker : Requester) → decision_by asker result
        ≡ Ok (placing (node_made node.entry) (Some (dir, name.now)) there) }
{
    match there {
        Some(_) => Granted::NoChange,
        None => Granted::AddNode(dir, name, node),
    }
}

/// The row of what has a name.
fn removing<'a>(dir: NodeId, name: &'a Name, there: Option<NodeId>) -> Granted<'a>
    ensures { (asker : Requester) →
        decision_by asker result ≡ Ok (cutting (Some (dir, name.now)) there) }
{
    match there {
        Some(_) => Granted::CutRow(dir, name),
        None => Granted::NoChange,
    }
}

/// The target of a symlink: its promise is judged before its text is read.
pub(crate) fn judge_target<'a>(
    table: &CallTable,
    process: &Process,
    target: &'a [u8],
) -> Result<PathText<'a>, Refusal>
    ensures exact { (further : Decision) →
        on_judged result (λ text. further)
        ≡ if_may (may_any process.now (rule_of table.now Symlink).alternatives)
        (unless_fault (path_fault target.now) further) }
    ensures text { IfOk result (λ text. text.bytes ≡ target.now) }
{
    promised_for(process, table, Call::Symlink)?;
    match PathText::read(target, Ending::Dot) {
        Ok(target) => Ok(target),
        Err(errno) => Err(Refusal::Failed(errno)),
    }
}

/// The permissions that an unveil is for: the promise, the lock, and the letters are judged before
/// its path is read.
pub(crate) fn judge_letters(process: &Process, perms: Option<Perms>) -> Result<Perms, Refusal>
    ensures { (whose : AnyRules) (t : Tree) (path : List ℕ) →
        on_judged result (λ letters. decide_veil whose t (asker_of process.now) path (Some letters))
        ≡ decide_unveil whose t (asker_of process.now) path perms }
{
    promised(process, Promises::UNVEIL)?;
    if process.locked() {
        return Err(Refusal::Failed(Errno::EPERM));
    }
    match perms {
        Some(perms) => Ok(perms),
        None => Err(Refusal::Failed(Errno::EINVAL)),
    }
}

/// What the path of an unveil names. A link at the path's end is followed.
pub(crate) fn veil_named<T: FileTree>(
    tree: &T,
    table: &CallTable,
    process: &Process,
    path: &[u8],
) -> Result<Found, Errno>
    ensures { result ≡ path_named table.now.whose (T.content tree.now) process.now.start Dot path.now
        Followed }
{
    let mut probe = Counted::new(tree);
    named(
        &mut probe,
        table,
        process.start(),
        path,
        Ending::Dot,
        Last::Followed,
    )
}

/// A veil on the place of what was found.
pub(crate) fn grant_unveil(
    judged: &Result<Found, Errno>,
    perms: Perms,
) -> Result<Granted<'_>, Refusal>
    ensures { (asker : Requester) →
        decision_for asker result
        ≡ if_named judged.now (λ object. veiling asker (place_of object) perms) }
{
    match judged {
        Ok(found) => Ok(Granted::Unveil(found, perms)),
        Err(errno) => Err(Refusal::Failed(*errno)),
    }
}
