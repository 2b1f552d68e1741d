//! What the words of a question are about.

ghost use Rattle.std.specs.Prelude.{◌≡◌, ◌==◌, ◌≤◌, ◌∷◌, [], ℕ, IfOk, filter, map};
ghost use Rattle.std.specs.Prelude.{option_map, unwrap_or};
ghost use Rattle.std.specs.List.{AllByRecursion, slice_split};
ghost use Rattle.pua_tree.specs.LentRows.{lent_entry};
ghost use Rattle.pua_tree.specs.Tree.{is_dir};
ghost use Rattle.pua_policy.specs.States.{ProcessState};
ghost use Rattle.pua_how.specs.PathQuestion.{path_question, directory_at_name};
ghost use Rattle.pua_how.specs.PathQuestion.{is_of_kind as has_kind};
ghost use Rattle.pua_how.specs.PathQuestion.{is_same_kind};
ghost use Rattle.pua_how.specs.PathQuestion.{may_be_of, names_read, path_names, standing_at};
ghost use Rattle.pua_how.specs.PathQuestion.{targets_asked, targets_at, targets_by, targets_in};
ghost use Rattle.pua_how.specs.PathQuestion.{targets_new};
ghost use Rattle.pua_how.specs.Targets.{IsLast};
ghost use Rattle.pua_how.specs.Asked.{IsAskedBy, asking_given};

use crate::target::Target;
use pua_ever::may_start;
use pua_objects::ObjectKind;
use pua_policy::{Place, Process};
use pua_tree::{FileTree, FileType, Kind, LentRow, Name, NodeId, OutOfMemory};
use std::alloc::{AllocError, Global};

/// What is asked about.
#[derive(Drop)]
pub enum PathQuestion {
    /// What stands or could stand at the end of these names, which lead there from the root.
    Standing(Vec<Name>),
    /// Whatever can be made.
    Making,
}

impl PathQuestion {
    /// What a path asks about, as a list for ever prints it: `/`, or names as they are spelled,
    /// each after one slash; or `new`. None where it is neither. The only error is that a growth
    /// was refused.
    pub fn read(alloc: Global, path: &[u8]) -> Result<Option<PathQuestion>, OutOfMemory>
        ensures { IfOk result (λ read. option_map asking_given read ≡ path_question path.now) }
    {
        if path == b"new".as_slice() {
            return Ok(Some(PathQuestion::Making));
        }
        match read_path(alloc, path)? {
            Some(names) => Ok(Some(PathQuestion::Standing(names))),
            None => Ok(None),
        }
    }
}

/// The names of a path. The only error is that a growth was refused.
fn read_path(alloc: Global, path: &[u8]) -> Result<Option<Vec<Name>>, AllocError>
    ensures { IfOk result (λ read. option_map (λ names. names.items) read ≡ path_names path.now) }
{
    let [b'/', names @ ..] = path else {
        return Ok(None);
    };
    if names.is_empty() {
        return Ok(Some(Vec::new(alloc)));
    }
    let pieces = pieces_of(alloc, names)?;
    read_names(alloc, pieces.as_slice())
}

/// What stands between slashes.
fn pieces_of(alloc: Global, text: &[u8]) -> Result<Vec<&[u8]>, AllocError>
    ensures { IfOk result (λ pieces. map (λ piece. piece.now) pieces.items
        ≡ slice_split (λ b. b == 47) text.now) }
{
    text.split(|byte| *byte == b'/').collect(alloc)
}

/// The names that pieces spell, if each spells one.
fn read_names(alloc: Global, pieces: &[&[u8]]) -> Result<Option<Vec<Name>>, AllocError>
    ensures { IfOk result (λ read. option_map (λ names. names.items) read
        ≡ names_read (map (λ piece. piece.now) pieces.now)) }
{
    let mut names = Vec::new(alloc);
    for piece in pieces {
        let Ok(name) = Name::read(piece) else {
            return Ok(None);
        };
        names.push(name)?;
    }
    Ok(Some(names))
}

/// All that may be meant by what is asked about, in the order of the list's lines, and the name
/// with which a way to further names is to end, where one was asked for.
#[derive(Drop)]
pub struct Meant {
    pub targets: Vec<Target>,
    pub name: Option<Name>,
}

/// All that may be meant by what is asked about, of this kind if one is given, by the veils of a
/// process. A directory is itself, or its further names; a file, program or link its node; either
/// may be the name too, where that has a veil of its own, and so is a name at which nothing stands;
/// without a veil it is one of the further names. None is meant where what is to lead there is no
/// directory, or nothing is of the kind. The only error is that a growth was refused.
pub fn find_meant<T: FileTree>(
    alloc: Global,
    tree: &T,
    process: &Process,
    asking: &PathQuestion,
    kind: Option<ObjectKind>,
) -> Result<Meant, OutOfMemory>
    ensures { IfOk result (λ found. IsAskedBy (T.content tree.now) process.now
        (asking_given asking.now) kind found.targets.items) }
{
    let targets = all_meant(alloc, tree, process, asking)?;
    Ok(Meant {
        targets: of_kind(alloc, tree, targets.as_slice(), kind)?,
        name: wanted_name(tree, asking),
    })
}

/// The same of any kind. Only things that can be made are known by the nodes that live.
fn all_meant<T: FileTree>(
    alloc: Global,
    tree: &T,
    process: &Process,
    asking: &PathQuestion,
) -> Result<Vec<Target>, OutOfMemory>
    ensures { IfOk result (λ targets. (last : ℕ) × IsLast (T.content tree.now) last
        × (targets.items ≡ targets_asked (T.content tree.now) process.now last
        (asking_given asking.now))) }
{
    tree.known();
    match asking {
        PathQuestion::Standing(names) => Ok(standing(alloc, tree, process, names.as_slice())?),
        PathQuestion::Making => {
            let last = last_number(alloc, tree)?;
            Ok(making(alloc, last)?)
        }
    }
}

/// The highest number of the nodes that live. The only error is that a growth was refused.
pub fn last_number<T: FileTree>(alloc: Global, tree: &T) -> Result<NodeId, OutOfMemory>
    ensures { IfOk result (λ last. IsLast (T.content tree.now) last) }
{
    tree.known();
    let rows = tree.rows(alloc)?;
    Ok(highest(rows.as_slice()))
}

/// The highest number of the nodes in these rows; that of the root, if there is none.
fn highest(rows: &[LentRow<'_>]) -> NodeId
    ensures { AllByRecursion (λ row. row.1 ≤ result) (map lent_entry rows.now) }
{
    let mut last = NodeId::ROOT;
    for row in rows {
        if last.number() < row.node.number() {
            last = row.node;
        }
    }
    last
}

/// All that can be made.
fn making(alloc: Global, last: NodeId) -> Result<Vec<Target>, AllocError>
    ensures { IfOk result (λ targets. targets.items ≡ targets_new last) }
{
    let mut targets = Vec::with_capacity(alloc, 6)?;
    targets.push(Target::NewDirectory(last))?;
    targets.push(Target::NewOthers(last))?;
    targets.push(Target::NewFile(last))?;
    targets.push(Target::NewLink(last))?;
    targets.push(Target::NewSock(last))?;
    targets.push(Target::NewFifo(last))?;
    Ok(targets)
}

/// All that may be meant by names; none where one that is to lead on is no directory.
fn standing<T: FileTree>(
    alloc: Global,
    tree: &T,
    process: &Process,
    names: &[Name],
) -> Result<Vec<Target>, AllocError>
    ensures { IfOk result (λ targets. targets.items
        ≡ unwrap_or (targets_by (T.content tree.now) process.now names.now) []) }
{
    let Some((first, more)) = names.split_first() else {
        return at_directory(alloc, NodeId::ROOT);
    };
    match spot_of(tree, first, more) {
        Some((dir, name)) => at_name(alloc, tree, process, dir, &name),
        None => Ok(Vec::new(alloc)),
    }
}

/// The directory to which all names but the last one lead, and that name.
fn spot_of<T: FileTree>(tree: &T, first: &Name, more: &[Name]) -> Option<(NodeId, Name)>
    ensures { (h : ProcessState) → targets_in (T.content tree.now) h 0 first.now more.now
        ≡ option_map (λ spot. targets_at (T.content tree.now) h spot.0 spot.1) result }
{
    let mut dir = NodeId::ROOT;
    let mut name = *first;
    for next in more {
        dir = directory_at(tree, dir, &name)?;
        name = *next;
    }
    Some((dir, name))
}

/// The directory at a name.
fn directory_at<T: FileTree>(tree: &T, dir: NodeId, name: &Name) -> Option<NodeId>
    ensures { result ≡ directory_at_name (T.content tree.now) dir name.now }
{
    let node = tree.look(dir, name)?;
    if is_directory(tree, node) {
        Some(node)
    } else {
        None
    }
}

/// Whether a node is a directory.
fn is_directory<T: FileTree>(tree: &T, node: NodeId) -> bool
    ensures { result ≡ is_dir (T.content tree.now) node }
{
    matches!(tree.kind(node), Some(Kind::Dir))
}

/// A directory, and its further names.
fn at_directory(alloc: Global, dir: NodeId) -> Result<Vec<Target>, AllocError>
    ensures { IfOk result (λ targets. targets.items
        ≡ Target.Directory dir ∷ Target.Others dir ∷ []) }
{
    let mut targets = Vec::with_capacity(alloc, 3)?;
    targets.push(Target::Directory(dir))?;
    targets.push(Target::Others(dir))?;
    Ok(targets)
}

/// All that may be meant by a name in a directory.
fn at_name<T: FileTree>(
    alloc: Global,
    tree: &T,
    process: &Process,
    dir: NodeId,
    name: &Name,
) -> Result<Vec<Target>, AllocError>
    ensures { IfOk result (λ targets. targets.items
        ≡ targets_at (T.content tree.now) process.now dir name.now) }
{
    let is_veiled = process.kept(&Place::Slot(dir, *name)).is_some();
    let mut targets = match tree.look(dir, name) {
        Some(node) => at_node(alloc, tree, node)?,
        None if is_veiled => Vec::new(alloc),
        None => one_target(alloc, Target::Others(dir))?,
    };
    if is_veiled {
        targets.push(Target::Name(dir, *name))?;
    }
    Ok(targets)
}

/// What stands at a name.
fn at_node<T: FileTree>(alloc: Global, tree: &T, node: NodeId) -> Result<Vec<Target>, AllocError>
    ensures { IfOk result (λ targets. targets.items ≡ standing_at (T.content tree.now) node) }
{
    if is_directory(tree, node) {
        at_directory(alloc, node)
    } else {
        one_target(alloc, Target::Node(node))
    }
}

/// One of them alone.
fn one_target(alloc: Global, target: Target) -> Result<Vec<Target>, AllocError>
    ensures { IfOk result (λ targets. targets.items ≡ target ∷ []) }
{
    let mut targets = Vec::with_capacity(alloc, 2)?;
    targets.push(target)?;
    Ok(targets)
}

/// Those of a kind, if one is given.
fn of_kind<T: FileTree>(
    alloc: Global,
    tree: &T,
    targets: &[Target],
    kind: Option<ObjectKind>,
) -> Result<Vec<Target>, AllocError>
    ensures { IfOk result (λ left. left.items
        ≡ filter (may_be_of (T.content tree.now) kind) targets.now) }
{
    let mut left = Vec::new(alloc);
    for target in targets {
        if may_be(tree, kind, target) {
            left.push(*target)?;
        }
    }
    Ok(left)
}

/// Whether something is of a kind, if one is given.
fn may_be<T: FileTree>(tree: &T, kind: Option<ObjectKind>, target: &Target) -> bool
    ensures { result ≡ may_be_of (T.content tree.now) kind target.now }
{
    match kind {
        Some(kind) => is_of_kind(tree, kind, target),
        None => true,
    }
}

/// Whether something is of a kind.
fn is_of_kind<T: FileTree>(tree: &T, kind: ObjectKind, target: &Target) -> bool
    ensures { result ≡ has_kind (T.content tree.now) kind target.now }
{
    match (kind, target) {
        (ObjectKind::Node(Kind::Dir), Target::Directory(_) | Target::NewDirectory(_)) => true,
        (ObjectKind::Other, Target::Others(_) | Target::NewOthers(_)) => true,
        (ObjectKind::Missing, Target::Name(_, _)) => true,
        (ObjectKind::Node(kind), Target::NewFile(_)) => may_start(kind),
        (ObjectKind::Node(Kind::Link), Target::NewLink(_)) => true,
        (ObjectKind::Node(Kind::Known(FileType::Sock)), Target::NewSock(_)) => true,
        (ObjectKind::Node(Kind::Known(FileType::Fifo)), Target::NewFifo(_)) => true,
        (ObjectKind::Node(Kind::Dir), Target::Node(_)) => false,
        (ObjectKind::Node(kind), Target::Node(node)) => is_same_kind(kind, tree.kind(*node)),
        _ => false,
    }
}

/// Whether what was found is of a kind, by its word: of a plain file, and of a file of which no more
/// is known, that is the same.
fn is_same_kind(kind: Kind, found: Option<Kind>) -> bool
    ensures { result ≡ is_same_kind kind found }
{
    match found {
        Some(found) => { kind.number() == found.number() || (may_start(kind) && may_start(found)) }
        None => false,
    }
}

/// The name with which a way is to end, where nothing stands at the one that is asked about.
fn wanted_name<T: FileTree>(tree: &T, asking: &PathQuestion) -> Option<Name> {
    let PathQuestion::Standing(names) = asking else {
        return None;
    };
    let (first, more) = names.as_slice().split_first()?;
    let (dir, name) = spot_of(tree, first, more)?;
    if tree.look(dir, &name).is_some() {
        return None;
    }
    Some(name)
}
