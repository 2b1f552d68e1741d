//! Under which veils things come to stand.

ghost use Rattle.std.specs.Prelude.{◌≡◌, ℕ, Option, Some, true, IfOk, IfSome, OnOk, filter_map};
ghost use Rattle.std.specs.Prelude.{map, option_map};
ghost use Rattle.std.specs.List.{AllByRecursion, list_any};
ghost use Rattle.pua_tree.specs.Tree.{Tree, WellFormed, is_dir as lives_as_dir};
ghost use Rattle.pua_tree.specs.Tree.{look as node_at_name};
ghost use Rattle.pua_path.specs.declared.found.Found.TheVariants.{Slot, Whole};
ghost use Rattle.pua_path.specs.declared.found.Way.TheVariants.{Top};
ghost use Rattle.pua_calls.specs.Calls.{CallTable as Table};
ghost use Rattle.pua_policy.specs.States.{ProcessState, same_place};
ghost use Rattle.pua_policy.specs.Verdict.{cover as cover_of};
ghost use Rattle.pua_policy.specs.declared.object.Object.{Object as AnyObject};
ghost use Rattle.pua_objects.specs.Objects.{At, Subject, cover_in as cover_of_others};
ghost use Rattle.pua_ever.specs.Ever.{Comes, Stands, Thing, can_link as gives_names};
ghost use Rattle.pua_ever.specs.Ever.{can_move as moves_by, is_device, stays_on};
ghost use Rattle.pua_ever.specs.EverLines.{new_of};
ghost use Rattle.pua_ever.specs.Destinations.{IsOnDevice};
ghost use Rattle.pua_ever.specs.EverList.{IsAboutOn, IsRowOn, IsStandingOn, dir_at, subject_at};
ghost use Rattle.pua_ever.specs.EverList.{thing_by, thing_of};
ghost use Rattle.pua_ever.specs.Comings.{AreComings, GivesWay, IsTaking, around, as_list};
ghost use Rattle.pua_ever.specs.Comings.{IsMovedTo, at_name, device_at, entered, inside};
ghost use Rattle.pua_ever.specs.Comings.{moved_from, over_entered, place_over, places_of_dir};
ghost use Rattle.pua_ever.specs.Comings.{places_on, places_under};

use crate::destinations::{
    OnDevice, Opened, all_opened, can_give_way, destination, find_destinations, is_device, is_dir,
    is_free,
};
use crate::list::{EverAbout, EverPlace, EverRow, device_at as device_kept};
use crate::made::Made;
use crate::moving::can_move;
use crate::prospects::{may_link, moves_dir};
use pua_calls::CallTable;
use pua_path::{Counted, Found, Last, Way};
use pua_policy::{Cover, Covering, Place, Process, judge};
use pua_tree::{FileTree, Kind, Name, NodeId, OutOfMemory};
use std::alloc::{AllocError, Global};
use std::collections::BTreeSet;

/// The places of the veils under which things come to stand that are moved or made, each with the
/// device of the directory into which they come.
#[derive(Drop)]
pub struct Comings {
    /// Of names with a veil of their own, to which anything but a directory comes.
    names: Vec<(NodeId, Place)>,
    /// Of directories with `c`, into which all come.
    insides: Vec<(NodeId, Place)>,
    /// Over directories in which another one comes to stand beside.
    arounds: Vec<(NodeId, Place)>,
    /// The devices on which some directory with `c` can be moved, and what was put into it with it.
    moves: Vec<NodeId>,
}

/// The devices on which things come to stand under a veil where they are moved or made.
#[derive(Drop)]
pub struct Taking {
    /// Anything but a directory, at its name.
    names: Vec<NodeId>,
    /// All, in its directory.
    insides: Vec<NodeId>,
    /// A directory beside, and all that is moved in one.
    arounds: Vec<NodeId>,
}

/// Under which veils a thing can ever come to stand, on a device or on any.
#[derive(Clone, Copy)]
pub enum ComesUnder {
    /// Under the one at this place alone; under none where there is none.
    Only(Option<Place>),
    /// Under each that takes directories there.
    AsDir(Option<NodeId>),
    /// Under each that takes anything else there, and under the one at this place, if there is one.
    AsFile(Option<Place>, MovedTo),
}

/// Where things come that are moved from a directory, or made.
#[derive(Clone, Copy)]
pub struct MovedTo {
    /// The device; None for any.
    on: Option<NodeId>,
    /// Whether some directory with `c` can be moved there.
    moves: bool,
}

impl ComesUnder {
    /// Whether the thing can come to stand under the veil at a place, by what that takes.
    pub fn has(&self, at: &Place, taking: &Taking) -> bool
        ensures { (t : Tree) (h : ProcessState) → IsTaking t h at.now taking.now →
            result ≡ list_any (same_place at.now) (places_under t h self.now) }
    {
        match self {
            ComesUnder::Only(over) => is_at(at, over),
            ComesUnder::AsDir(on) => is_on(on, &taking.insides) || is_on(on, &taking.arounds),
            ComesUnder::AsFile(over, to) => {
                is_at(at, over)
                    || is_on(&to.on, &taking.names)
                    || is_on(&to.on, &taking.insides)
                    || (to.moves && is_on(&to.on, &taking.arounds))
            }
        }
    }
}

/// Whether one of these devices is this one, or any is asked for and there is one.
fn is_on(on: &Option<NodeId>, devices: &[NodeId]) -> bool
    ensures { result ≡ list_any (is_device on.now) devices.now }
{
    devices.iter().any(|device| is_device(*on, *device))
}

/// Whether there is a place, and it is this one.
fn is_at(at: &Place, over: &Option<Place>) -> bool
    ensures { result ≡ list_any (same_place at.now) (as_list over.now) }
{
    match over {
        Some(place) => is_same(at, place),
        None => false,
    }
}

/// Whether two places are one.
fn is_same(one: &Place, other: &Place) -> bool
    ensures { result ≡ same_place one.now other.now }
{
    match (one, other) {
        (Place::Dir(dir), Place::Dir(other_dir)) => dir == other_dir,
        (Place::Slot(dir, name), Place::Slot(other_dir, other_name)) => {
            dir == other_dir && name == other_name
        }
        _ => false,
    }
}

/// Finds under which veils of a process things come to stand in a tree, by a table of what calls
/// need. The only error is that a growth was refused.
pub fn find_comings<T: FileTree>(
    alloc: Global,
    tree: &T,
    process: &Process,
    table: &CallTable,
) -> Result<Comings, OutOfMemory>
    ensures { IfOk result (AreComings (T.content tree.now) table.now process.now) }
{
    tree.known();
    process.known();
    let found = find_destinations(alloc, tree, process)?;
    let places = process.places(alloc)?;
    let opened = all_opened(alloc, tree, process, &places)?;
    Ok(Comings {
        names: at_names(alloc, tree, process, &places)?,
        insides: insides(alloc, tree, process, &places)?,
        arounds: arounds(alloc, tree, process, &found.held, &opened, &places)?,
        moves: all_moved_from(alloc, process, table, &found.dirs)?,
    })
}

/// The places of the veils under which something other than a directory comes to a name.
fn at_names<T: FileTree>(
    alloc: Global,
    tree: &T,
    process: &Process,
    places: &[&Place],
) -> Result<Vec<(NodeId, Place)>, AllocError>
    ensures { IfOk result (λ found. found.items
        ≡ filter_map (at_name (T.content tree.now) process.now) (map
        (λ place. place.now) places.now)) }
{
    places
        .iter()
        .filter_map(|place| at_name(tree, process, place))
        .collect(alloc)
}

/// The places of the veils under which something comes into a directory.
fn insides<T: FileTree>(
    alloc: Global,
    tree: &T,
    process: &Process,
    places: &[&Place],
) -> Result<Vec<(NodeId, Place)>, AllocError>
    ensures { IfOk result (λ found. found.items
        ≡ filter_map (inside (T.content tree.now) process.now) (map
        (λ place. place.now) places.now)) }
{
    places
        .iter()
        .filter_map(|place| inside(tree, process, place))
        .collect(alloc)
}

/// The places of the veils under which a directory comes to stand by veils in another one.
fn arounds<T: FileTree>(
    alloc: Global,
    tree: &T,
    process: &Process,
    held: &BTreeSet<u32>,
    opened: &Opened,
    places: &[&Place],
) -> Result<Vec<(NodeId, Place)>, AllocError>
    ensures { GivesWay (T.content tree.now) process.now held.now opened.now.dirs.items →
        WellFormed (T.content tree.now) → IfOk result (λ found. found.items
        ≡ filter_map (around (T.content tree.now) process.now) (map
        (λ place. place.now) places.now)) }
{
    places
        .iter()
        .filter_map(|place| around(tree, process, held, opened, place))
        .collect(alloc)
}

/// The devices on which a directory that has one of these covers can be moved.
fn all_moved_from(
    alloc: Global,
    process: &Process,
    table: &CallTable,
    dirs: &[(NodeId, Cover)],
) -> Result<Vec<NodeId>, AllocError>
    ensures { IfOk result (λ found. found.items
        ≡ filter_map (moved_from table.now process.now) dirs.now) }
{
    dirs.iter()
        .filter_map(|found| moved_from(process, table, found))
        .collect(alloc)
}

/// The device on which a directory that has this cover can be moved.
fn moved_from(process: &Process, table: &CallTable, found: &(NodeId, Cover)) -> Option<NodeId>
    ensures { result ≡ moved_from table.now process.now found.now }
{
    if can_move(process, table, &found.1) {
        Some(found.0)
    } else {
        None
    }
}

/// The place of a veil that covers what comes to a name, and is no directory.
fn at_name<T: FileTree>(tree: &T, process: &Process, place: &Place) -> Option<(NodeId, Place)>
    ensures { result ≡ at_name (T.content tree.now) process.now place.now }
{
    match place {
        Place::Slot(dir, name)
            if is_dir(tree, *dir)
                && is_free(tree, process, *dir, name)
                && destination(process, place).is_some() => { Some((tree.device(*dir), *place)) }
        _ => None,
    }
}

/// The place of a veil that covers what comes into a directory.
fn inside<T: FileTree>(tree: &T, process: &Process, place: &Place) -> Option<(NodeId, Place)>
    ensures { result ≡ inside (T.content tree.now) process.now place.now }
{
    match place {
        Place::Dir(dir) if is_dir(tree, *dir) && destination(process, place).is_some() => {
            Some((tree.device(*dir), *place))
        }
        _ => None,
    }
}

/// The place of the veil that covers a directory which comes to stand in another one by this veil.
fn around<T: FileTree>(
    tree: &T,
    process: &Process,
    held: &BTreeSet<u32>,
    opened: &Opened,
    place: &Place,
) -> Option<(NodeId, Place)>
    ensures { GivesWay (T.content tree.now) process.now held.now opened.now.dirs.items →
        WellFormed (T.content tree.now) →
        result ≡ around (T.content tree.now) process.now place.now }
{
    let Some(dir) = entered(tree, process, held, opened, place) else {
        return None;
    };
    over_entered(tree, process, dir)
}

/// The place of the veil that covers a directory, if one does, with the directory's device.
fn over_entered<T: FileTree>(tree: &T, process: &Process, dir: NodeId) -> Option<(NodeId, Place)>
    ensures { lives_as_dir (T.content tree.now) dir ≡ true →
        result ≡ over_entered (T.content tree.now) process.now dir }
{
    match over_dir(tree, process, dir) {
        Some(place) => Some((tree.device(dir), place)),
        None => None,
    }
}

/// The directory in which another one comes to stand by this veil.
fn entered<T: FileTree>(
    tree: &T,
    process: &Process,
    held: &BTreeSet<u32>,
    opened: &Opened,
    place: &Place,
) -> Option<NodeId>
    ensures is { GivesWay (T.content tree.now) process.now held.now opened.now.dirs.items →
        result ≡ entered (T.content tree.now) process.now place.now }
    ensures lives { WellFormed (T.content tree.now) → IfSome result (λ dir.
        lives_as_dir (T.content tree.now) dir ≡ true) }
{
    if destination(process, place).is_none() {
        return None;
    }
    match place {
        Place::Slot(dir, name) if is_dir(tree, *dir) && is_free(tree, process, *dir, name) => {
            Some(*dir)
        }
        Place::Dir(dir) if *dir != NodeId::ROOT && can_give_way(tree, held, opened, *dir) => {
            tree.parent(*dir)
        }
        _ => None,
    }
}

/// The place of the veil that covers a name in a directory, if one does.
fn over_name<T: FileTree>(tree: &T, process: &Process, dir: NodeId, name: &Name) -> Option<Place>
    ensures { (node : Option ℕ) → WellFormed (T.content tree.now) →
        lives_as_dir (T.content tree.now) dir ≡ true →
        result ≡ place_over (T.content tree.now) process.now (Slot dir name.now node) }
{
    let place = Place::Slot(dir, *name);
    if process.kept(&place).is_some() {
        return Some(place);
    }
    over_dir(tree, process, dir)
}

/// The place of the veil that covers a directory, if one does.
fn over_dir<T: FileTree>(tree: &T, process: &Process, dir: NodeId) -> Option<Place>
    ensures { lives_as_dir (T.content tree.now) dir ≡ true →
        result ≡ place_over (T.content tree.now) process.now (Whole dir Top) }
{
    let found = Found::Whole { dir, way: Way::Top };
    match process.covering(&mut Counted::new(tree), &found) {
        Covering::By(place, _) => Some(place),
        Covering::InView | Covering::NoneOver => None,
    }
}

impl Comings {
    /// Where things come to stand under the veil at a place. The only error is that a growth was
    /// refused.
    pub fn taking(&self, alloc: Global, at: &Place) -> Result<Taking, AllocError>
        ensures { IfOk result (λ taking. (t : Tree) (table : Table) (h : ProcessState) →
            AreComings t table h self.now → IsTaking t h at.now taking) }
    {
        Ok(Taking {
            names: devices_at(alloc, at, &self.names)?,
            insides: devices_at(alloc, at, &self.insides)?,
            arounds: devices_at(alloc, at, &self.arounds)?,
        })
    }
}

/// The devices of a place, as often as it is among these.
fn devices_at(
    alloc: Global,
    at: &Place,
    found: &[(NodeId, Place)],
) -> Result<Vec<NodeId>, AllocError>
    ensures { IfOk result (λ devices. devices.items ≡ filter_map (device_at at.now) found.now) }
{
    found
        .iter()
        .filter_map(|one| device_at(at, one))
        .collect(alloc)
}

/// The device, if the place is this one.
fn device_at(at: &Place, found: &(NodeId, Place)) -> Option<NodeId>
    ensures { result ≡ device_at at.now found.now }
{
    if is_same(at, &found.1) {
        Some(found.0)
    } else {
        None
    }
}

/// Under which veils of a process what a row is about can ever come to stand in a tree, by a table
/// of what calls need and what was found of the veils. It is of rows in their order; behind are
/// kept the directories that lead to the row before, and then those that lead to this one: whatever
/// they are, answers are the same. The only error is that a growth was refused.
pub fn comes_under<T: FileTree>(
    tree: &T,
    process: &Process,
    table: &CallTable,
    comings: &Comings,
    above: &mut Vec<OnDevice>,
    row: &EverRow<'_>,
) -> Result<ComesUnder, AllocError>
    ensures under { IfOk result (λ under. (about : Thing) →
        AreComings (T.content tree.now) table.now process.now comings.now →
        AllByRecursion (IsOnDevice (T.content tree.now) process.now) above.old.items →
        IsRowOn (T.content tree.now) process.now row.now →
        thing_of (T.content tree.now) row.now ≡ Some about →
        places_under (T.content tree.now) process.now under
        ≡ places_on (T.content tree.now) table.now process.now about) }
    ensures above { OnOk result
        (AllByRecursion (IsOnDevice (T.content tree.now) process.now) above.old.items →
        AllByRecursion (IsOnDevice (T.content tree.now) process.now) above.new.items) }
{
    tree.known();
    match &row.about {
        EverAbout::Stands(place, _, cover) => {
            let own = device_kept(tree, process, place, row.depth, above)?;
            let to = moved_to(comings, &own);
            Ok(place_under(tree, process, table, to, place, row.name, *cover))
        }
        EverAbout::Freed(dir) => Ok(freed_under(tree, process, *dir, row.name)),
        EverAbout::Comes(made) => Ok(made_under(comings, *made)),
    }
}

/// Where things come that are moved from a directory on a device.
fn moved_to(comings: &Comings, own: &OnDevice) -> MovedTo
    ensures { (t : Tree) (table : Table) (h : ProcessState) → AreComings t table h comings.now →
        IsOnDevice t h own.now → IsMovedTo t table h own.now.dir result }
{
    if own.along {
        return MovedTo {
            on: None,
            moves: is_on(&None, &comings.moves),
        };
    }
    MovedTo {
        on: Some(own.device),
        moves: is_on(&Some(own.device), &comings.moves),
    }
}

/// Under which veils what stands or could stand at a place comes, by its name if it has one, by
/// what covers it now, and by where what is moved from there comes.
fn place_under<T: FileTree>(
    tree: &T,
    process: &Process,
    table: &CallTable,
    to: MovedTo,
    place: &EverPlace,
    name: Option<&Name>,
    cover: Cover,
) -> ComesUnder
    ensures { (about : Subject) (object : AnyObject) → WellFormed (T.content tree.now) →
        IsMovedTo (T.content tree.now) table.now process.now (dir_at place.now) to →
        subject_at (T.content tree.now) (option_map (λ name. name.now) name.entry) place.now
        ≡ Some about → IsStandingOn (T.content tree.now) process.now object cover about →
        places_under (T.content tree.now) process.now result
        ≡ places_on (T.content tree.now) table.now process.now (Stands about) }
{
    match place {
        EverPlace::Root => dir_under(tree, process, table, to, NodeId::ROOT, cover),
        EverPlace::Dir(dir, _) => dir_under(tree, process, table, to, *dir, cover),
        EverPlace::Others(dir) => dir_under(tree, process, table, to, *dir, cover),
        EverPlace::Name(dir) => match name {
            Some(name) => name_under(tree, process, table, to, *dir, name, cover),
            None => ComesUnder::Only(None),
        },
    }
}

/// Under which veil a name comes at which something stands, once that is taken away.
fn freed_under<T: FileTree>(
    tree: &T,
    process: &Process,
    dir: NodeId,
    name: Option<&Name>,
) -> ComesUnder
    ensures { (table : Table) (about : Thing) → WellFormed (T.content tree.now) →
        IsAboutOn (T.content tree.now) process.now (option_map (λ name. name.now) name.entry)
        (EverAbout.Freed dir) → thing_by (T.content tree.now)
        (option_map (λ name. name.now) name.entry) (EverAbout.Freed dir) ≡ Some about →
        places_under (T.content tree.now) process.now result
        ≡ places_on (T.content tree.now) table process.now about }
{
    match name {
        Some(name) => ComesUnder::Only(over_name(tree, process, dir, name)),
        None => ComesUnder::Only(None),
    }
}

/// Under which veils a directory comes, and its further names, by what covers it now.
fn dir_under<T: FileTree>(
    tree: &T,
    process: &Process,
    table: &CallTable,
    to: MovedTo,
    dir: NodeId,
    cover: Cover,
) -> ComesUnder
    ensures { IsMovedTo (T.content tree.now) table.now process.now dir to →
        lives_as_dir (T.content tree.now) dir ≡ true →
        cover ≡ cover_of_others (T.content tree.now) process.now dir →
        places_under (T.content tree.now) process.now result
        ≡ places_of_dir (T.content tree.now) table.now process.now dir }
{
    if moves_dir(process, table, dir, &cover) {
        return ComesUnder::AsDir(to.on);
    }
    ComesUnder::Only(over_dir(tree, process, dir))
}

/// Under which veils what stands at a name comes, which is no directory, by what covers it now; or
/// a name at which nothing stands.
fn name_under<T: FileTree>(
    tree: &T,
    process: &Process,
    table: &CallTable,
    to: MovedTo,
    dir: NodeId,
    name: &Name,
    cover: Cover,
) -> ComesUnder
    ensures { WellFormed (T.content tree.now) → lives_as_dir (T.content tree.now) dir ≡ true →
        IsMovedTo (T.content tree.now) table.now process.now dir to → cover
        ≡ cover_of (T.content tree.now) process.now
        (Slot dir name.now (node_at_name (T.content tree.now) dir name.now)) →
        places_under (T.content tree.now) process.now result
        ≡ places_on (T.content tree.now) table.now process.now
        (Stands (At (Slot dir name.now (node_at_name (T.content tree.now) dir name.now)))) }
{
    let Some(node) = tree.look(dir, name) else {
        return ComesUnder::Only(over_name(tree, process, dir, name));
    };
    if can_move(process, table, &cover) {
        return ComesUnder::AsFile(None, to);
    }
    let over = over_name(tree, process, dir, name);
    if can_link(process, table, tree.kind(node), cover) {
        return ComesUnder::AsFile(over, to);
    }
    ComesUnder::Only(over)
}

/// Under which veils what is made comes.
fn made_under(comings: &Comings, made: Made) -> ComesUnder
    ensures { (t : Tree) (table : Table) (h : ProcessState) → AreComings t table h comings.now →
        places_under t h result ≡ places_on t table h (Comes (new_of made)) }
{
    match made {
        Made::Dir | Made::Others => ComesUnder::AsDir(None),
        Made::File | Made::Link | Made::Sock | Made::Fifo => {
            let moves = is_on(&None, &comings.moves);
            ComesUnder::AsFile(None, MovedTo { on: None, moves })
        }
    }
}

/// Whether what is no directory can be given a further name by link, by what covers it.
fn can_link(process: &Process, table: &CallTable, kind: Option<Kind>, cover: Cover) -> bool
    ensures { result ≡ gives_names table.now process.now kind cover }
{
    let old_name = table.link().old_name();
    if !may_link(process, table) || judge::cover_fault(cover, old_name.perms()).is_some() {
        return false;
    }
    !matches!(kind, Some(Kind::Link)) || old_name.last() == Last::Kept
}
