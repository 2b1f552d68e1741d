//! The calls that can ever be allowed on what can be moved or made.

ghost use Rattle.std.specs.Prelude.{◌≡◌, ℕ, Option, Some, None, ◌++◌, [], IfOk, if◌then◌else◌};
ghost use Rattle.std.specs.Prelude.{slice_index};
ghost use Rattle.pua_tree.specs.Kinds.{about_kind};
ghost use Rattle.pua_tree.specs.Tree.{Tree, empty_tree};
ghost use Rattle.pua_tree.specs.declared.node.Kind.{Kind as AnyKind};
ghost use Rattle.pua_calls.specs.Calls.{CallTable as Table};
ghost use Rattle.pua_calls.specs.CallSets.{has};
ghost use Rattle.pua_calls.specs.declared.call.Call.{Call};
ghost use Rattle.pua_policy.specs.States.{ProcessState};
ghost use Rattle.pua_policy.specs.Objects.{object_seen};
ghost use Rattle.pua_policy.specs.Verdict.{Is, Object as Judged, IsMissing, object_of_kind};
ghost use Rattle.pua_ever.specs.Ever.{is_allowed_under, dir_covers, name_covers, file_covers};
ghost use Rattle.pua_ever.specs.Ever.{open_covers};
ghost use Rattle.pua_ever.specs.Movable.{IsMovable, all_destinations};
ghost use Rattle.pua_ever.specs.Destinations.{HaveSame};

use crate::destinations::{Covers, find_destinations};
use crate::moving::moves_any;
use pua_calls::{CallTable, Calls};
use pua_policy::{Cover, Object, Process, judge};
use pua_tree::{FileTree, FileType, Kind, OutOfMemory};
use std::alloc::Global;

/// The calls that can ever be allowed on what can be moved now and has no veil of its own that goes
/// with it, and on what is made, by what it is: the calls that are allowed under some cover that it
/// can come to have, on one device or on any. So they are on a file, program or link that link can
/// give a further name, beside those that its own cover allows.
#[derive(Clone, Copy)]
pub struct Movable {
    /// On a directory, rmdir aside.
    pub dir: Calls,
    /// On a directory that can come to be empty.
    pub emptied: Calls,
    /// On the further names of a directory.
    pub others: Calls,
    /// On what is no directory, by the number of its kind: on a link, on itself or on what it leads
    /// to.
    pub nodes: [Calls; Kind::COUNT],
    /// On a file that a call makes, as what the rules of the table know it to be.
    pub new_file: Calls,
    /// On a name where something can be made.
    pub made: Calls,
}

impl Movable {
    /// The calls on a directory, by whether it can come to be empty.
    pub(crate) fn on_dir(&self, emptied: bool) -> Calls
        ensures { result ≡ (if emptied then self.now.emptied else self.now.dir) }
    {
        if emptied { self.emptied } else { self.dir }
    }

    /// The calls on what is no directory and stands at a name.
    pub(crate) fn on(&self, object: Object) -> Calls
        ensures { (t : Tree) (table : Table) (h : ProcessState) (on : Option ℕ) (kind : AnyKind) →
            IsMovable t table h on self.now → object
            ≡ object_seen empty_tree (object_of_kind (Some kind)) → (call : Call) → has result call
            ≡ is_allowed_under table h (file_covers t table h on) (object_of_kind (Some kind)) call }
    {
        match object {
            Object::Node(kind) => self.on_node(kind),
            Object::Missing | Object::Removable => Calls::NONE,
        }
    }

    /// The calls on what is of a kind, where anything but a directory can come.
    pub(crate) fn on_node(&self, kind: Kind) -> Calls
        ensures { result ≡ slice_index self.now.nodes (about_kind kind).number }
    {
        self.nodes[kind.number()]
    }
}

/// Finds the calls that a process, and what it forks, can ever be allowed on what can be moved or
/// made in a tree, by a table of what calls need: if the process can put no veil any more, and no
/// exec succeeds. The veils alone are asked: for each it is climbed from a directory to the root a
/// few times, however many other veils there are. The only error is that a growth was refused.
pub fn find_movable<T: FileTree>(
    alloc: Global,
    tree: &T,
    process: &Process,
    table: &CallTable,
) -> Result<Movable, OutOfMemory>
    ensures { IfOk result (λ found. IsMovable
        (T.content tree.now) table.now process.now None found) }
{
    let found = find_destinations(alloc, tree, process)?;
    let covers = found.covers(alloc, None)?;
    Ok(calls_by_object(process, table, &covers))
}

/// The calls by what they are on.
pub(crate) fn calls_by_object(process: &Process, table: &CallTable, found: &Covers) -> Movable
    ensures { (t : Tree) (on : Option ℕ) → HaveSame (found.now.dirs.items
        ++ found.now.entrances.items) (dir_covers t process.now on) →
        HaveSame found.now.names.items (name_covers t process.now on) →
        HaveSame found.now.dirs.items (open_covers t process.now on) →
        IsMovable t table.now process.now on result }
{
    let dir = on_dirs(process, table, found, Object::Node(Kind::Dir));
    let emptied = on_dirs(process, table, found, Object::Removable);
    let others = on_dirs(process, table, found, Object::Missing);
    let moves = moves_any(process, table, &found.dirs);
    let nodes = calls_by_kind(process, table, found, moves);
    let new_file = on_node(process, table, found, moves, table.rules().file());
    let made = on_names(process, table, found);
    Movable {
        dir,
        emptied,
        others,
        nodes,
        new_file,
        made,
    }
}

/// The calls on what is of each kind, by its number, where anything but a directory can come.
fn calls_by_kind(
    process: &Process,
    table: &CallTable,
    found: &Covers,
    moves: bool,
) -> [Calls; Kind::COUNT]
    ensures { (kind : AnyKind) (call : Call) → has (slice_index result (about_kind kind).number)
        call ≡ is_allowed_under table.now process.now
        (all_destinations found.now moves) (Is kind) call }
{
    [
        on_node(process, table, found, moves, Kind::Dir),
        on_node(process, table, found, moves, Kind::File),
        on_node(process, table, found, moves, Kind::Prog),
        on_node(process, table, found, moves, Kind::Link),
        on_node(process, table, found, moves, Kind::Known(FileType::Plain)),
        on_node(process, table, found, moves, Kind::Known(FileType::Sock)),
        on_node(process, table, found, moves, Kind::Known(FileType::Fifo)),
        on_node(process, table, found, moves, Kind::Known(FileType::Dev)),
    ]
}

/// The calls on what is of a kind, where anything but a directory can come.
fn on_node(process: &Process, table: &CallTable, found: &Covers, moves: bool, kind: Kind) -> Calls
    ensures { (call : Call) → has result call ≡ is_allowed_under table.now process.now
        (all_destinations found.now moves) (Is kind) call }
{
    on_files(process, table, found, moves, Object::Node(kind))
}

/// The calls on such an object where a directory can come.
fn on_dirs(process: &Process, table: &CallTable, found: &Covers, object: Object) -> Calls
    ensures { (judged : Judged) → object ≡ object_seen empty_tree judged → (call : Call) →
        has result call ≡ is_allowed_under table.now process.now (found.now.dirs.items
        ++ found.now.entrances.items) judged call }
{
    let own = under(process, table, &found.dirs, object);
    let others = under(process, table, &found.entrances, object);
    own.union(others)
}

/// The calls on such an object where anything else can come, by whether some directory with `c` can
/// be moved.
fn on_files(
    process: &Process,
    table: &CallTable,
    found: &Covers,
    moves: bool,
    object: Object,
) -> Calls
    ensures { (judged : Judged) → object ≡ object_seen empty_tree judged → (call : Call) →
        has result call ≡ is_allowed_under table.now process.now (found.now.names.items
        ++ (found.now.dirs.items ++
        (if moves then found.now.entrances.items else []))) judged call }
{
    let at_names = under(process, table, &found.names, object);
    if moves {
        let anywhere = on_dirs(process, table, found, object);
        return at_names.union(anywhere);
    }
    let in_dirs = under(process, table, &found.dirs, object);
    at_names.union(in_dirs)
}

/// The calls on a name where nothing stands, wherever something can be made.
fn on_names(process: &Process, table: &CallTable, found: &Covers) -> Calls
    ensures { (call : Call) → has result call
        ≡ is_allowed_under table.now process.now (found.now.names.items
        ++ (found.now.dirs.items ++ found.now.entrances.items)) IsMissing call }
{
    let at_names = under(process, table, &found.names, Object::Missing);
    let in_dirs = on_dirs(process, table, found, Object::Missing);
    at_names.union(in_dirs)
}

/// The calls that are allowed on such an object under one of these covers.
fn under(process: &Process, table: &CallTable, covers: &[Cover], object: Object) -> Calls
    ensures { (judged : Judged) → object ≡ object_seen empty_tree judged → (call : Call) →
        has result call ≡ is_allowed_under table.now process.now covers.now judged call }
{
    let mut calls = Calls::NONE;
    for cover in covers {
        let more = judge::allowed(process, table, *cover, object);
        calls = calls.union(more);
    }
    calls
}
