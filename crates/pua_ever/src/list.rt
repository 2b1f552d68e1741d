//! All that a process and what it forks can ever touch, as a vector.

ghost use Rattle.std.specs.Prelude.{◌≡◌, ◌≤◌, ◌⊎◌, ◌&&◌, ◌∷◌, ◌++◌, [], List, true, None, Some};
ghost use Rattle.std.specs.Prelude.{IfOk, IfSome, MatchOption, MatchResult, OnOk, length};
ghost use Rattle.std.specs.List.{AllByRecursion};
ghost use Rattle.pua_tree.specs.Tree.{Tree, WellFormed, device};
ghost use Rattle.pua_calls.specs.Calls.{CallTable as Table};
ghost use Rattle.pua_calls.specs.CallSets.{has};
ghost use Rattle.pua_calls.specs.declared.call.Call.{Call as AnyCall};
ghost use Rattle.pua_policy.specs.States.{ProcessState, is_ended};
ghost use Rattle.pua_script.specs.Laws.{IsConfined};
ghost use Rattle.pua_objects.specs.Items.{IsItemOn, subject_given};
ghost use Rattle.pua_objects.specs.Laws.{HasPlaces};
ghost use Rattle.pua_objects.specs.Lines.{kind_word};
ghost use Rattle.pua_objects.specs.ListItems.{AreNear, IsToldIn, last_name, last_word};
ghost use Rattle.pua_objects.specs.Objects.{Subject as About, subject_word};
ghost use Rattle.pua_objects.specs.declared.list.ListItem.{ListItem as Listed};
ghost use Rattle.pua_ever.specs.Ever.{Comes, Stands, can_make, ever, is_new_allowed, may_edit};
ghost use Rattle.pua_ever.specs.Ever.{kept_on, own_spot};
ghost use Rattle.pua_ever.specs.EverLines.{IsThing, new_of};
ghost use Rattle.pua_ever.specs.EverList.{AreEverTold, AreRowsBut, AreRowsSoFar, IsFreedRow};
ghost use Rattle.pua_ever.specs.Destinations.{IsOnDevice};
ghost use Rattle.pua_ever.specs.EverList.{IsOwnInside, IsRowAt, IsRowOn, IsStandsRow, subject_at};
ghost use Rattle.pua_ever.specs.EverList.{dir_at, thing_of};
ghost use Rattle.pua_ever.specs.Laws.{EditsNeedC};
ghost use Rattle.pua_ever.specs.Movable.{IsMovable};
ghost use Rattle.pua_ever.specs.Prospects.{AreOnFreed, IsMovableAt, IsProspects};
ghost use Rattle.pua_ever.specs.Prospects.{own_given};
ghost use Rattle.pua_ever.specs.Refusals.{refusal as refusal_of, refusal_in};

use crate::destinations::{OnDevice, on_device};
use crate::fault::EverFault;
use crate::line::{EverLine, EverThing};
use crate::made::Made;
use crate::movable::Movable;
use crate::prospects::{Prospects, find_prospects, own_name};
use crate::refusal::why_refused;
use pua_calls::CallTable;
use pua_objects::{Item, ListItem, ObjectKind, Subject, list_items};
use pua_policy::{Cover, Object, Process};
use pua_tree::{FileTree, Name, NodeId};
use std::alloc::{AllocError, Global};

/// A line of the list for ever, which may have no calls. The names that lead to what it is about
/// are so many of those of the line before, and then its own name, if it has one.
#[derive(Clone, Copy)]
pub struct EverRow<'t> {
    /// How many names it shares with the line before.
    pub depth: usize,
    /// The last of its names; None for the root, for further names, and for what can be made.
    pub name: Option<&'t Name>,
    /// What it is about, as the tree has it.
    pub about: EverAbout,
    /// What the line says that it is, and its calls.
    pub line: EverLine,
    /// Whether it is about something at or below the root of the process, or about what can be made.
    pub inside: bool,
}

/// What a line of the list for ever is about. A name that it speaks of is that of its row.
#[derive(Clone, Copy)]
pub enum EverAbout {
    /// What stands or could stand now, what a call is on there, and what the veils leave of it.
    Stands(EverPlace, Object, Cover),
    /// The name in a directory at which something stands, once that is taken away.
    Freed(NodeId),
    /// What can be made.
    Comes(Made),
}

/// Where something stands or could stand.
#[derive(Clone, Copy)]
pub enum EverPlace {
    /// The root.
    Root,
    /// A directory, then the one in which it has its name.
    Dir(NodeId, NodeId),
    /// All further names of a directory.
    Others(NodeId),
    /// A name in a directory, at which no directory stands.
    Name(NodeId),
}

/// Lists what a process, and what it forks, can ever touch in a tree by their own doing, as long as
/// no exec of theirs succeeds. What stands or could stand now comes in the order of `list_items`,
/// each followed by the name at which it stands, if it has one, as a missing one: that has calls if
/// it has a veil of its own and can come to be free. Last comes what can be made: a directory, its
/// names, a file, a link, a socket and a fifo. Where `why_refused` has a reason, that is the fault.
/// Else the process can put no veil any more or has ended, and the only fault is that a growth was
/// refused. Each veil that is not at a directory is at a name. The veils are asked as by
/// `find_movable`. The list is complete by the `with_tmppath` of the table by which the process's
/// requests go.
pub fn list_ever<'t, T: FileTree>(
    alloc: Global,
    tree: &'t T,
    process: &'t Process,
    table: &CallTable,
) -> Result<Vec<EverRow<'t>>, EverFault>
    ensures rows { IfOk result (λ rows.
        AreEverTold (T.content tree.now) [] rows.items (ever
        (T.content tree.now) table.now process.now) []) }
    ensures refused { MatchResult result (λ _. refusal_of table.now process.now ≡ None) (λ fault.
        refusal_of table.now process.now ≡ refusal_in fault) }
    ensures table { OnOk result (EditsNeedC table.now) }
    ensures confined { OnOk result (IsConfined process.now ⊎ (is_ended process.now ≡ true)) }
    ensures places { OnOk result (HasPlaces process.now) }
    ensures items { IfOk result (λ rows.
        AllByRecursion (IsRowOn (T.content tree.now) process.now) rows.items) }
{
    if let Some(refusal) = why_refused(process, table) {
        return Err(EverFault::Refused(refusal));
    }
    tree.known();
    let Ok(prospects) = find_prospects(alloc, tree, process, table) else {
        return Err(EverFault::OutOfMemory);
    };
    let Ok(items) = list_items(alloc, tree, process) else {
        return Err(EverFault::OutOfMemory);
    };
    let Ok(mut rows) = rows_of(alloc, tree, &prospects, process, table, &items) else {
        return Err(EverFault::OutOfMemory);
    };
    let Ok(()) = add_made(&prospects, &mut rows) else {
        return Err(EverFault::OutOfMemory);
    };
    Ok(rows)
}

/// The rows of all items. The only error is that a growth was refused.
fn rows_of<'t, T: FileTree>(
    alloc: Global,
    tree: &T,
    prospects: &Prospects,
    process: &Process,
    table: &CallTable,
    items: &[ListItem<'t>],
) -> Result<Vec<EverRow<'t>>, AllocError>
    ensures told { IfOk result (λ rows. WellFormed (T.content tree.now) → EditsNeedC table.now →
        IsProspects (T.content tree.now) table.now process.now prospects.now →
        AllByRecursion (IsToldIn (T.content tree.now) process.now) items.now → AreNear [] items.now →
        AreRowsBut (T.content tree.now) table.now process.now items.now rows.items
        (Some Made.Dir)) }
    ensures items { IfOk result (λ rows. (t : Tree) → WellFormed t →
        AllByRecursion (IsToldIn t process.now) items.now →
        AllByRecursion (IsRowOn t process.now) rows.items) }
{
    let mut rows = Vec::new(alloc);
    let mut above = Vec::new(alloc);
    let root = on_device(tree, process, NodeId::ROOT);
    let mut device = root.device;
    let mut movable = movable_by(alloc, prospects, process, table, &root)?;
    for item in items {
        let own = device_at(tree, process, &place_of(&item.item), item.depth, &mut above)?;
        if own.device != device {
            device = own.device;
            movable = movable_by(alloc, prospects, process, table, &own)?;
        }
        add_rows(tree, prospects, process, table, &movable, item, &mut rows)?;
    }
    Ok(rows)
}

/// The calls on what is moved from a device. The only error is that a growth was refused.
fn movable_by(
    alloc: Global,
    prospects: &Prospects,
    process: &Process,
    table: &CallTable,
    own: &OnDevice,
) -> Result<Movable, AllocError>
    ensures { IfOk result (λ movable. (t : Tree) →
        IsProspects t table.now process.now prospects.now → IsOnDevice t process.now own.now →
        IsMovable t table.now process.now (kept_on t process.now own.now.device) movable) }
{
    if own.along {
        return Ok(prospects.anywhere());
    }
    prospects.movable_on(alloc, process, table, Some(own.device))
}

/// The device of where something stands or could stand, of rows in their order. Behind are kept the
/// directories that lead to the row before, each at its depth, and then those that lead to this
/// one; whatever they are, answers are the same.
#[inline(always)]
pub(crate) fn device_at<T: FileTree>(
    tree: &T,
    process: &Process,
    place: &EverPlace,
    depth: usize,
    above: &mut Vec<OnDevice>,
) -> Result<OnDevice, AllocError>
    ensures { IfOk result (λ own. let t = T.content tree.now in
        AllByRecursion (IsOnDevice t process.now) above.old.items →
        IsOnDevice t process.now own × (own.dir ≡ dir_at place.now)
        × AllByRecursion (IsOnDevice t process.now) above.new.items) }
{
    let (dir, below) = match place {
        EverPlace::Root => (NodeId::ROOT, 0),
        EverPlace::Dir(id, _) => (*id, depth.saturating_add(1)),
        EverPlace::Others(dir) | EverPlace::Name(dir) => {
            return Ok(device_in(tree, process, above, depth, *dir));
        }
    };
    let own = device_in(tree, process, above, depth, dir);
    let (device, along) = (own.device, own.along);
    above.truncate(below);
    above.push(OnDevice { dir, device, along })?;
    Ok(OnDevice { dir, device, along })
}

/// The device of a directory, which may be kept at a depth, or stand in the one that is kept there.
#[inline(always)]
fn device_in<T: FileTree>(
    tree: &T,
    process: &Process,
    above: &[OnDevice],
    depth: usize,
    dir: NodeId,
) -> OnDevice
    ensures { AllByRecursion (IsOnDevice (T.content tree.now) process.now) above.now →
        IsOnDevice (T.content tree.now) process.now result × (result.dir ≡ dir) }
{
    match above.get(depth) {
        Some(kept) if kept.dir == dir => *kept,
        Some(kept) if stands_in(tree, dir, kept.dir) => OnDevice {
            dir,
            device: kept.device,
            along: kept.along,
        },
        _ => on_device(tree, process, dir),
    }
}

/// Whether a directory stands in another one, on the same file system.
fn stands_in<T: FileTree>(tree: &T, dir: NodeId, over: NodeId) -> bool
    ensures { result ≡ true → device (T.content tree.now) dir ≡ device (T.content tree.now) over }
{
    tree.known();
    match tree.parent(dir) {
        Some(above) if above == over => dir != NodeId::ROOT && !tree.is_mount(dir),
        _ => false,
    }
}

/// Adds the rows of an item. The only error is that a growth was refused.
fn add_rows<'t, T: FileTree>(
    tree: &T,
    prospects: &Prospects,
    process: &Process,
    table: &CallTable,
    movable: &Movable,
    item: &ListItem<'t>,
    rows: &mut Vec<EverRow<'t>>,
) -> Result<(), AllocError>
    ensures told { OnOk result ((items so_far left : List Listed) →
        WellFormed (T.content tree.now) → EditsNeedC table.now →
        IsProspects (T.content tree.now) table.now process.now prospects.now →
        IsMovableAt (T.content tree.now) table.now process.now (subject_given
        (T.content tree.now) item.now.item.subject) movable.now →
        IsToldIn (T.content tree.now) process.now item.now →
        item.now.depth ≤ length (last_word [] so_far) →
        AreRowsSoFar (T.content tree.now) table.now process.now items so_far (item.now ∷ left)
        rows.old.items → AreRowsSoFar (T.content tree.now) table.now process.now items
        (so_far ++ item.now ∷ []) left rows.new.items) }
    ensures items { OnOk result ((t : Tree) → WellFormed t → IsToldIn t process.now item.now →
        AllByRecursion (IsRowOn t process.now) rows.old.items →
        AllByRecursion (IsRowOn t process.now) rows.new.items) }
{
    let stands = stands_row(tree, prospects, process, table, movable, item);
    let Ok(()) = rows.push(stands) else {
        return Err(AllocError);
    };
    let Some(freed) = freed_row(tree, prospects, process, table, item) else {
        return Ok(());
    };
    let Ok(()) = rows.push(freed) else {
        return Err(AllocError);
    };
    Ok(())
}

/// Adds the rows of what can be made. The only error is that a growth was refused.
fn add_made(prospects: &Prospects, rows: &mut Vec<EverRow<'_>>) -> Result<(), AllocError>
    ensures told { OnOk result ((t : Tree) (table : Table) (h : ProcessState)
        (items : List Listed) → IsProspects t table h prospects.now →
        AreRowsBut t table h items rows.old.items (Some Made.Dir) →
        AreRowsBut t table h items rows.new.items None) }
    ensures items { OnOk result ((t : Tree) (h : ProcessState) →
        AllByRecursion (IsRowOn t h) rows.old.items → AllByRecursion (IsRowOn t h) rows.new.items) }
{
    let mut coming = Some(Made::Dir);
    while let Some(made) = coming {
        let Ok(()) = rows.push(made_row(prospects, made)) else {
            return Err(AllocError);
        };
        coming = made.after();
    }
    Ok(())
}

/// The row of what an item is about.
fn stands_row<'t, T: FileTree>(
    tree: &T,
    prospects: &Prospects,
    process: &Process,
    table: &CallTable,
    movable: &Movable,
    item: &ListItem<'t>,
) -> EverRow<'t>
    ensures at { IsRowAt item.now result }
    ensures about { (t : Tree) → thing_of t result
        ≡ Some (Stands (subject_given t item.now.item.subject)) }
    ensures on { (t : Tree) (h : ProcessState) → IsToldIn t h item.now → IsRowOn t h result }
    ensures row { WellFormed (T.content tree.now) → EditsNeedC table.now →
        IsProspects (T.content tree.now) table.now process.now prospects.now →
        IsMovableAt (T.content tree.now) table.now process.now (subject_given
        (T.content tree.now) item.now.item.subject) movable.now →
        IsToldIn (T.content tree.now) process.now item.now →
        IsStandsRow (T.content tree.now) table.now process.now item.now result }
{
    let own = &item.item;
    EverRow {
        depth: item.depth,
        name: item.name(),
        about: EverAbout::Stands(place_of(own), own.object, own.cover),
        line: EverLine {
            thing: EverThing::Stands(kind_of(own)),
            calls: prospects.calls_on(tree, process, table, movable, own),
        },
        inside: item.inside,
    }
}

/// Where what an item is about stands.
pub fn place_of(item: &Item<'_>) -> EverPlace
    ensures { (t : Tree) → subject_at t (last_name item.now.subject) result
        ≡ Some (subject_given t item.now.subject) }
{
    match item.subject {
        Subject::Root => EverPlace::Root,
        Subject::Dir(id, dir, _) => EverPlace::Dir(id, dir),
        Subject::Others(dir) => EverPlace::Others(dir),
        Subject::Name(dir, _) => EverPlace::Name(dir),
    }
}

/// The row of the name at which an item stands, once that can be taken away; None where it has
/// none.
fn freed_row<'t, T: FileTree>(
    tree: &T,
    prospects: &Prospects,
    process: &Process,
    table: &CallTable,
    item: &ListItem<'t>,
) -> Option<EverRow<'t>>
    ensures own { MatchOption result (own_given item.now.item.subject item.now.item.object ≡ None)
        (IsFreedRow item.now (own_given item.now.item.subject item.now.item.object)) }
    ensures calls { IfSome result (λ row. WellFormed (T.content tree.now) →
        IsProspects (T.content tree.now) table.now process.now prospects.now →
        IsToldIn (T.content tree.now) process.now item.now →
        AreOnFreed (T.content tree.now) table.now process.now (own_spot
        (subject_given (T.content tree.now) item.now.item.subject)) row.line.calls) }
    ensures inside { IfSome result (λ row. (t : Tree) → WellFormed t →
        IsToldIn t process.now item.now → IsOwnInside t process.now item.now row.inside) }
{
    let Some(own) = own_name(&item.item) else {
        return None;
    };
    let calls = prospects.calls_on_freed(tree, process, table, &item.item);
    Some(EverRow {
        depth: item.depth,
        name: Some(own.1),
        about: EverAbout::Freed(own.0),
        line: EverLine {
            thing: EverThing::Stands(ObjectKind::Missing),
            calls,
        },
        inside: own_inside(process, item),
    })
}

/// Whether the name at which an item stands, if it has one, is in a directory at or below the root of
/// the process: whether the item is, and is not the root.
pub fn own_inside(process: &Process, item: &ListItem<'_>) -> bool
    ensures { (t : Tree) → WellFormed t → IsToldIn t process.now item.now →
        IsOwnInside t process.now item.now result }
{
    match item.item.subject {
        Subject::Dir(id, _, _) => item.inside && id != process.start().root,
        _ => item.inside,
    }
}

/// The row of what can be made.
fn made_row<'t>(prospects: &Prospects, made: Made) -> EverRow<'t>
    ensures at { (result.depth ≡ 0) × (result.name ≡ None) }
    ensures about { (result.about ≡ EverAbout.Comes made) × (result.inside ≡ true) }
    ensures thing { (t : Tree) → IsThing t (Comes (new_of made)) result.line.thing }
    ensures calls { (t : Tree) (table : Table) (h : ProcessState) →
        IsProspects t table h prospects.now → (call : AnyCall) → has result.line.calls call
        ≡ ((may_edit table h && can_make t table h (new_of made))
        && is_new_allowed t table h (new_of made) call) }
{
    EverRow {
        depth: 0,
        name: None,
        about: EverAbout::Comes(made),
        line: EverLine {
            thing: EverThing::Comes(made.kind()),
            calls: prospects.calls_on_made(made),
        },
        inside: true,
    }
}

/// What a line says that an item is.
pub fn kind_of(item: &Item<'_>) -> ObjectKind
    ensures { (t : Tree) (h : ProcessState) (about : About) → IsItemOn t h about item.now →
        kind_word result ≡ subject_word t about }
{
    if let Subject::Others(_) = item.subject {
        return ObjectKind::Other;
    }
    ObjectKind::of(item.object)
}
