//! What granted requests change.

ghost use Rattle.std.specs.Prelude.{◌≡◌, ℕ, List, OnErr, IsTrue, option_copied, false};
ghost use Rattle.pua_tree.specs.Tree.{Tree, target_fits};
ghost use Rattle.pua_tree.specs.Edits.{add, cut, shift, tie};
ghost use Rattle.pua_policy.specs.States.{ProcessState};
ghost use Rattle.pua_policy.specs.Verdict.{place_of};
ghost use Rattle.pua_script.specs.Decide.{asker_of, pledging, veiling};
ghost use Rattle.pua_script.specs.Judged.{decision_by, node_made};
ghost use Rattle.pua_script.specs.Replay.{World, come_of, edit_effect, edited_tree};
ghost use Rattle.pua_script.specs.Worlds.{Attempts, AttemptsEdit, Does, Edits};

use crate::answer::Answer;
use crate::fault::WorldFault;
use pua_calls::{ExecPromises, Perms, Promises, Rules};
use pua_path::{Errno, Found, PathText};
use pua_policy::{OpenFile, Place, Process, UnveilFault};
use pua_tree::{FileTree, FileType, Kind, Name, NodeId, OutOfMemory, TreeFault};

/// A node that is to be added. A link's target was read as a path, as a link's must be.
#[derive(Clone, Copy)]
pub(crate) enum NewNode<'a> {
    /// A file, of which these rules may know the type.
    File(Rules),
    /// A file of this type.
    Typed(FileType),
    Directory,
    Link(&'a PathText<'a>),
}

impl NewNode<'_> {
    /// Its kind, and the target of a link.
    fn parts(&self) -> (Kind, Option<&[u8]>)
        ensures node { node_made self.now
            ≡ record { kind = result.0; target = option_copied result.1; mount = false } }
        ensures fits { IsTrue (target_fits result.0 (option_copied result.1)) }
    {
        match *self {
            NewNode::File(rules) => (rules.file(), None),
            NewNode::Typed(file_type) => (Kind::Known(file_type), None),
            NewNode::Directory => (Kind::Dir, None),
            NewNode::Link(target) => (Kind::Link, Some(target.bytes())),
        }
    }
}

/// What a request changes that is granted. Names are lent by what the request's paths named, so
/// that no name is copied before the tree takes it.
#[derive(Clone, Copy)]
pub(crate) enum Granted<'a> {
    /// Nothing.
    NoChange,
    /// A node is added under a name that nothing has.
    AddNode(NodeId, &'a Name, NewNode<'a>),
    /// The row of this name in a directory is taken away.
    CutRow(NodeId, &'a Name),
    /// The row of the first name moves to the second.
    ShiftRow(NodeId, &'a Name, NodeId, &'a Name),
    /// A node gets a further name, which nothing has.
    TieRow(NodeId, &'a Name, NodeId),
    /// The process becomes that of a new program, to which so much of execpromises is left.
    BeginProgram(ExecPromises),
    /// Promises and execpromises are given up, if the process may pledge so by these rules.
    Pledge(Rules, Option<Promises>, Option<Promises>),
    /// A veil is put on the place of what was found, if the veils kept so far allow it.
    Unveil(&'a Found, Perms),
    /// The process allows no further veil.
    Lock,
    /// This becomes the working directory.
    Enter(NodeId),
    /// This becomes the root.
    Root(NodeId),
    /// The process ends.
    Exit,
    /// The descriptor of this number stands for an open file.
    Hold(u32, OpenFile),
    /// The descriptor of this number is closed.
    Close(u32),
}

/// Makes a change, and answers the request that was granted it: `Okay`, `ENOSPC` where the tree has
/// no room for it, or why the process may not pledge or unveil so.
pub(crate) fn make<T: FileTree>(
    tree: &mut T,
    process: &mut Process,
    granted: &Granted<'_>,
) -> Result<Answer, WorldFault>
    ensures exact { (processes : List (ℕ × ProcessState)) →
        Attempts (T.content tree.old) process.old
        (come_of (record { tree = T.content tree.old; processes = processes }) process.old
        (decision_by (asker_of process.old) granted.now))
        result (T.content tree.new) process.new }
    ensures unchanged { OnErr result ((T.content tree.new ≡ T.content tree.old) ×
        (process.new ≡ process.old)) }
{
    match *granted {
        Granted::NoChange => Ok(Answer::Okay),
        Granted::AddNode(dir, name, node) => add(tree, dir, name, &node),
        Granted::CutRow(dir, name) => Ok(cut(tree, dir, name)),
        Granted::ShiftRow(from, name, to, new_name) => shift(tree, from, name, to, new_name),
        Granted::TieRow(dir, name, node) => tie(tree, dir, name, node),
        Granted::BeginProgram(left) => {
            process.exec_by(left);
            Ok(Answer::Okay)
        }
        Granted::Pledge(rules, promises, execpromises) => {
            Ok(pledge(process, rules, promises, execpromises))
        }
        Granted::Unveil(found, perms) => unveil(process, found, perms),
        Granted::Lock => {
            process.lock();
            Ok(Answer::Okay)
        }
        Granted::Enter(dir) => {
            process.set_dir(dir);
            Ok(Answer::Okay)
        }
        Granted::Root(dir) => {
            process.set_root(dir);
            Ok(Answer::Okay)
        }
        Granted::Exit => {
            process.end();
            Ok(Answer::Okay)
        }
        Granted::Hold(number, file) => match process.open_at(number, file) {
            Ok(()) => Ok(Answer::Okay),
            Err(OutOfMemory) => Err(WorldFault::OutOfMemory),
        },
        Granted::Close(number) => {
            process.close(number);
            Ok(Answer::Okay)
        }
    }
}

/// Adds a node. `ENOSPC` where the tree refuses it: what was checked before leaves want of room as
/// the only reason.
fn add<T: FileTree>(
    tree: &mut T,
    dir: NodeId,
    name: &Name,
    node: &NewNode<'_>,
) -> Result<Answer, WorldFault>
    ensures exact { (h : ProcessState) → AttemptsEdit (T.content tree.old) h
        (edit_effect h (add (T.content tree.old) dir name.now (node_made node.now)))
        result (T.content tree.new) }
    ensures unchanged { OnErr result (T.content tree.new ≡ T.content tree.old) }
{
    let (kind, target) = node.parts();
    match tree.add(dir, *name, kind, target) {
        Ok(_number) => Ok(Answer::Okay),
        Err(TreeFault::OutOfMemory) => Err(WorldFault::OutOfMemory),
        Err(_) => Ok(Answer::Failed(Errno::ENOSPC)),
    }
}

/// Takes a row away, which needs no room: what was checked before leaves no fault.
fn cut<T: FileTree>(tree: &mut T, dir: NodeId, name: &Name) -> Answer
    ensures { (h : ProcessState) →
        Edits (T.content tree.old) h (edit_effect h (cut (T.content tree.old) dir name.now)) result
        (T.content tree.new) }
{
    match tree.cut(dir, name) {
        Ok(_number) => Answer::Okay,
        Err(_fault) => Answer::Failed(Errno::ENOSPC),
    }
}

/// Moves a row, which needs no room: what was checked before leaves want of memory as the only
/// fault.
fn shift<T: FileTree>(
    tree: &mut T,
    from: NodeId,
    name: &Name,
    to: NodeId,
    new_name: &Name,
) -> Result<Answer, WorldFault>
    ensures exact { (h : ProcessState) → AttemptsEdit (T.content tree.old) h
        (edited_tree h (shift (T.content tree.old) from name.now to new_name.now))
        result (T.content tree.new) }
    ensures unchanged { OnErr result (T.content tree.new ≡ T.content tree.old) }
{
    match tree.shift(from, name, to, *new_name) {
        Ok(()) => Ok(Answer::Okay),
        Err(TreeFault::OutOfMemory) => Err(WorldFault::OutOfMemory),
        Err(_) => Ok(Answer::Failed(Errno::ENOSPC)),
    }
}

/// Gives a node a further name. `ENOSPC` where the tree refuses it: what was checked before leaves
/// want of room as the only reason.
fn tie<T: FileTree>(
    tree: &mut T,
    dir: NodeId,
    name: &Name,
    node: NodeId,
) -> Result<Answer, WorldFault>
    ensures exact { (h : ProcessState) → AttemptsEdit (T.content tree.old) h
        (edited_tree h (tie (T.content tree.old) dir name.now node))
        result (T.content tree.new) }
    ensures unchanged { OnErr result (T.content tree.new ≡ T.content tree.old) }
{
    match tree.tie(dir, *name, node) {
        Ok(()) => Ok(Answer::Okay),
        Err(TreeFault::OutOfMemory) => Err(WorldFault::OutOfMemory),
        Err(_) => Ok(Answer::Failed(Errno::ENOSPC)),
    }
}

/// Pledges: `EPERM` where the process may not (pledge(2)).
fn pledge(
    process: &mut Process,
    rules: Rules,
    promises: Option<Promises>,
    execpromises: Option<Promises>,
) -> Answer
    ensures { (w : World) → Does w.tree process.old
        (come_of w process.old (pledging (asker_of process.old) rules promises execpromises))
        result w.tree process.new }
{
    match process.pledge(rules, promises, execpromises) {
        Ok(()) => Answer::Okay,
        Err(errno) => Answer::Failed(errno),
    }
}

/// Puts a veil on the place of what was found: `EPERM` or `E2BIG` where the process may not
/// (unveil(2)).
fn unveil(process: &mut Process, found: &Found, perms: Perms) -> Result<Answer, WorldFault>
    ensures exact { (w : World) → Attempts w.tree process.old
        (come_of w process.old (veiling (asker_of process.old) (place_of found.now) perms)) result
        w.tree process.new }
    ensures unchanged { OnErr result (process.new ≡ process.old) }
{
    match process.unveil_at(place_of(found), perms) {
        Ok(()) => Ok(Answer::Okay),
        Err(UnveilFault::NotPermitted) => Ok(Answer::Failed(Errno::EPERM)),
        Err(UnveilFault::TooManyPlaces) => Ok(Answer::Failed(Errno::E2BIG)),
        Err(UnveilFault::OutOfMemory) => Err(WorldFault::OutOfMemory),
    }
}

/// The place of what was found.
fn place_of(found: &Found) -> Place
    ensures { result ≡ place_of found.now }
{
    match *found {
        Found::Whole { dir, .. } => Place::Dir(dir),
        Found::Slot { dir, name, .. } => Place::Slot(dir, name),
    }
}
