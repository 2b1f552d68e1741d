//! Where things can come that are moved or made, by the veils of a process.

ghost use Rattle.std.specs.Prelude.{◌≡◌, ◌<◌, ◌≤◌, ◌++◌, ◌∷◌, [], ℕ, Some, None, true, not};
ghost use Rattle.std.specs.Prelude.{IfOk, filter_map, map, get_or, length};
ghost use Rattle.std.specs.Prelude.{if◌then◌else◌, ◌&&◌, is_none};
ghost use Rattle.std.specs.List.{list_any};
ghost use Rattle.std.specs.BTreeSet.{contains};
ghost use Rattle.std.specs.Ordering.{nat_cmp};
ghost use Rattle.pua_tree.specs.LentRows.{lent_entry};
ghost use Rattle.pua_tree.specs.Tree.{above, is_dir as lives_as_dir, look as node_at_name};
ghost use Rattle.pua_policy.specs.States.{has_veil, perms_kept};
ghost use Rattle.pua_script.specs.Confinement.{has_c as cover_has_c, object_in};
ghost use Rattle.pua_objects.specs.Objects.{cover_in as cover_of_others};
ghost use Rattle.pua_ever.specs.Ever.{row_cover as cover_of_row, is_free as can_be_free, can_empty};
ghost use Rattle.pua_ever.specs.Ever.{is_device};
ghost use Rattle.pua_ever.specs.Destinations.{destination as destination_of};
ghost use Rattle.pua_ever.specs.Destinations.{is_barred as barred_by};
ghost use Rattle.pua_ever.specs.Destinations.{dir_destination as dir_destination_of};
ghost use Rattle.pua_ever.specs.Destinations.{name_destination as name_destination_of};
ghost use Rattle.pua_ever.specs.Destinations.{opened_dir as opened_dir_of, held_dir as held_dir_of};
ghost use Rattle.pua_ever.specs.Destinations.{entrance_cover as entrance_of};
ghost use Rattle.pua_ever.specs.Destinations.{can_give_way as gives_way_to};
ghost use Rattle.pua_ever.specs.Destinations.{is_outside as stands_outside, depth as depth_of};
ghost use Rattle.pua_ever.specs.Destinations.{AreDestinations, IsOnDevice, cover_on, covers_on};
ghost use Rattle.pua_ever.specs.Destinations.{AreHeld, has_mount, is_mounted_in, with_device};

use pua_calls::Perms;
use pua_path::{Counted, Found, Way};
use pua_policy::{Cover, Place, Process};
use pua_tree::{FileTree, Kind, LentRow, Name, NodeId, OutOfMemory};
use std::alloc::{AllocError, Global};
use std::collections::BTreeSet;

/// Where things can come that are moved or made: each cover with the device of its directory.
#[derive(Drop)]
pub(crate) struct Destinations {
    /// The covers of directories that have `c`.
    pub(crate) dirs: Vec<(NodeId, Cover)>,
    /// The covers under which a directory can come beside: at names with veils of their own, and in
    /// the place of others.
    entrances: Vec<(NodeId, Cover)>,
    /// The covers of names that have `c` by a veil of their own and can come to be free.
    names: Vec<(NodeId, Cover)>,
    /// The numbers of the directories in which something stands that stays there: a mount point, or
    /// what has a veil of its own without `c`.
    pub(crate) held: BTreeSet<u32>,
}

/// Those covers on one device, or on any.
#[derive(Drop)]
pub(crate) struct Covers {
    /// Those of directories that have `c`.
    pub(crate) dirs: Vec<Cover>,
    /// Those under which a directory can come beside.
    pub(crate) entrances: Vec<Cover>,
    /// Those of names.
    pub(crate) names: Vec<Cover>,
}

impl Destinations {
    /// The covers on a device, or on any. The only error is that a growth was refused.
    pub(crate) fn covers(&self, alloc: Global, on: Option<NodeId>) -> Result<Covers, AllocError>
        ensures dirs { IfOk result (λ found. found.dirs.items
            ≡ covers_on on self.now.dirs.items) }
        ensures entrances { IfOk result (λ found. found.entrances.items
            ≡ covers_on on self.now.entrances.items) }
        ensures names { IfOk result (λ found. found.names.items
            ≡ covers_on on self.now.names.items) }
    {
        Ok(Covers {
            dirs: covers_on(alloc, on, &self.dirs)?,
            entrances: covers_on(alloc, on, &self.entrances)?,
            names: covers_on(alloc, on, &self.names)?,
        })
    }
}

/// Those of some covers that are on a device, or on any.
fn covers_on(
    alloc: Global,
    on: Option<NodeId>,
    found: &[(NodeId, Cover)],
) -> Result<Vec<Cover>, AllocError>
    ensures { IfOk result (λ covers. covers.items ≡ covers_on on found.now) }
{
    found
        .iter()
        .filter_map(|one| cover_on(on, one))
        .collect(alloc)
}

/// A cover, if its device is this one, or any is.
fn cover_on(on: Option<NodeId>, found: &(NodeId, Cover)) -> Option<Cover>
    ensures { result ≡ cover_on on found.now }
{
    if is_device(on, found.0) {
        Some(found.1)
    } else {
        None
    }
}

/// Whether a device is this one, or any.
pub(crate) fn is_device(on: Option<NodeId>, device: NodeId) -> bool
    ensures { result ≡ is_device on device }
{
    match on {
        Some(on) => device == on,
        None => true,
    }
}

/// Finds by the veils of a process where things can come that are moved or made: a directory under
/// the covers of `dirs` and `entrances`, anything else at a name under those of `names` and in a
/// directory under those of `dirs`. A directory that has `c` can be emptied where it is not one of
/// `held`. The only error is that a growth was refused. For each veil it is climbed from
/// a directory to the root a few times, however many other veils there are, and each row is asked
/// once.
pub(crate) fn find_destinations<T: FileTree>(
    alloc: Global,
    tree: &T,
    process: &Process,
) -> Result<Destinations, OutOfMemory>
    ensures covers { IfOk result (AreDestinations (T.content tree.now) process.now) }
    ensures held { IfOk result (λ found. (dir : ℕ) → lives_as_dir (T.content tree.now) dir ≡ true →
        cover_has_c (cover_of_others (T.content tree.now) process.now dir) ≡ true →
        can_empty (T.content tree.now) process.now dir ≡ not (contains nat_cmp found.held dir)) }
{
    tree.known();
    process.known();
    let places = process.places(alloc)?;
    match gathered(alloc, tree, process, &places) {
        Ok(found) => Ok(found),
        Err(_) => Err(OutOfMemory),
    }
}

/// The directories that have `c` by a veil, or in which a name has. The place of the one that is
/// asked first is kept with them: whatever place that is, answers are the same.
#[derive(Drop)]
pub(crate) struct Opened {
    dirs: Vec<NodeId>,
    first: usize,
}

/// What the veils at these places give.
fn gathered<T: FileTree>(
    alloc: Global,
    tree: &T,
    process: &Process,
    places: &[&Place],
) -> Result<Destinations, AllocError>
    ensures dirs { IfOk result (λ found. found.dirs.items
        ≡ filter_map (dir_destination_of (T.content tree.now) process.now) (map
        (λ place. place.now) places.now)
        ++ (if has_veil process.now.veils then [] else (0, Cover.All) ∷ [])) }
    ensures entrances { IfOk result (λ found. found.entrances.items
        ≡ filter_map (entrance_of (T.content tree.now) process.now found.held (filter_map
        (opened_dir_of process.now) (map (λ place. place.now) places.now))) (map
        (λ place. place.now) places.now)) }
    ensures names { IfOk result (λ found. found.names.items
        ≡ filter_map (name_destination_of (T.content tree.now) process.now) (map
        (λ place. place.now) places.now)) }
    ensures held { IfOk result (λ found. AreHeld (T.content tree.now) process.now
        (map (λ place. place.now) places.now) found.held) }
{
    let mut dirs = dir_destinations(alloc, tree, process, places)?;
    if !process.is_veiled() {
        dirs.push((NodeId::ROOT, Cover::All))?;
    }
    let held = held_dirs(alloc, tree, process, places)?;
    let opened = all_opened(alloc, tree, process, places)?;
    let entrances = entrances(alloc, tree, process, &held, &opened, places)?;
    let names = name_destinations(alloc, tree, process, places)?;
    Ok(Destinations {
        dirs,
        entrances,
        names,
        held,
    })
}

/// The covers of directories that have `c` by a veil of their own.
fn dir_destinations<T: FileTree>(
    alloc: Global,
    tree: &T,
    process: &Process,
    places: &[&Place],
) -> Result<Vec<(NodeId, Cover)>, AllocError>
    ensures { IfOk result (λ found. found.items
        ≡ filter_map (dir_destination_of (T.content tree.now) process.now) (map
        (λ place. place.now) places.now)) }
{
    places
        .iter()
        .filter_map(|place| dir_destination(tree, process, place))
        .collect(alloc)
}

/// The covers of names that have `c` by a veil of their own and can come to be free.
fn name_destinations<T: FileTree>(
    alloc: Global,
    tree: &T,
    process: &Process,
    places: &[&Place],
) -> Result<Vec<(NodeId, Cover)>, AllocError>
    ensures { IfOk result (λ found. found.items
        ≡ filter_map (name_destination_of (T.content tree.now) process.now) (map
        (λ place. place.now) places.now)) }
{
    places
        .iter()
        .filter_map(|place| name_destination(tree, process, place))
        .collect(alloc)
}

/// The directories that have `c` by a veil, or in which a name has. One that stands least deep is
/// asked first.
pub(crate) fn all_opened<T: FileTree>(
    alloc: Global,
    tree: &T,
    process: &Process,
    places: &[&Place],
) -> Result<Opened, AllocError>
    ensures { IfOk result (λ found. found.dirs.items
        ≡ filter_map (opened_dir_of process.now) (map (λ place. place.now) places.now)) }
{
    let dirs = opened_dirs(alloc, process, places)?;
    let first = shallowest(tree, &dirs);
    Ok(Opened { dirs, first })
}

/// The directories that have `c` by a veil, or in which a name has.
fn opened_dirs(
    alloc: Global,
    process: &Process,
    places: &[&Place],
) -> Result<Vec<NodeId>, AllocError>
    ensures { IfOk result (λ found. found.items
        ≡ filter_map (opened_dir_of process.now) (map (λ place. place.now) places.now)) }
{
    places
        .iter()
        .filter_map(|place| opened_dir(process, place))
        .collect(alloc)
}

/// The numbers of the directories in which something stands that stays there.
fn held_dirs<T: FileTree>(
    alloc: Global,
    tree: &T,
    process: &Process,
    places: &[&Place],
) -> Result<BTreeSet<u32>, AllocError>
    ensures { IfOk result (AreHeld (T.content tree.now) process.now (map
        (λ place. place.now) places.now)) }
{
    let mut held = mounted_dirs(alloc, tree)?;
    for place in places {
        if let Some(dir) = held_dir(tree, process, place) {
            held.insert(dir.number())?;
        }
    }
    Ok(held)
}

/// The numbers of the directories in which mount points stand.
fn mounted_dirs<T: FileTree>(alloc: Global, tree: &T) -> Result<BTreeSet<u32>, AllocError>
    ensures { IfOk result (λ dirs. (dir : ℕ) →
        contains nat_cmp dirs dir ≡ has_mount (T.content tree.now) dir) }
{
    let Ok(rows) = tree.rows(alloc) else {
        return Err(AllocError);
    };
    mounted_among(alloc, tree, &rows)
}

/// The same, of these rows.
fn mounted_among<T: FileTree>(
    alloc: Global,
    tree: &T,
    rows: &[LentRow<'_>],
) -> Result<BTreeSet<u32>, AllocError>
    ensures { IfOk result (λ dirs. (dir : ℕ) → contains nat_cmp dirs dir
        ≡ list_any (λ row. is_mounted_in (T.content tree.now) dir (lent_entry row)) rows.now) }
{
    let mut dirs = BTreeSet::new(alloc);
    for row in rows {
        if tree.is_mount(row.node) {
            dirs.insert(row.dir.number())?;
        }
    }
    Ok(dirs)
}

/// The covers under which a directory can come by a veil.
fn entrances<T: FileTree>(
    alloc: Global,
    tree: &T,
    process: &Process,
    held: &BTreeSet<u32>,
    opened: &Opened,
    places: &[&Place],
) -> Result<Vec<(NodeId, Cover)>, AllocError>
    ensures { IfOk result (λ found. found.items
        ≡ filter_map (entrance_of (T.content tree.now) process.now held.now opened.now.dirs.items)
        (map (λ place. place.now) places.now)) }
{
    places
        .iter()
        .filter_map(|place| entrance(tree, process, held, opened, place))
        .collect(alloc)
}

/// What a place's own veil leaves, if it has `c`.
pub(crate) fn destination(process: &Process, place: &Place) -> Option<Cover>
    ensures { result ≡ destination_of process.now place.now }
{
    match process.kept(place) {
        Some(perms) if perms.contains(Perms::CREATE) => Some(Cover::Only(perms)),
        _ => None,
    }
}

/// Whether a place has a veil of its own, without `c`.
fn is_barred(process: &Process, place: &Place) -> bool
    ensures { result ≡ barred_by process.now place.now }
{
    match process.kept(place) {
        Some(perms) => !perms.contains(Perms::CREATE),
        None => false,
    }
}

/// The cover of a directory that has `c` by its own veil.
fn dir_destination<T: FileTree>(
    tree: &T,
    process: &Process,
    place: &Place,
) -> Option<(NodeId, Cover)>
    ensures { result ≡ dir_destination_of (T.content tree.now) process.now place.now }
{
    match place {
        Place::Dir(dir) if is_dir(tree, *dir) => {
            with_device(tree, *dir, destination(process, place))
        }
        _ => None,
    }
}

/// The cover of a name that has `c` by its own veil and can come to be free.
fn name_destination<T: FileTree>(
    tree: &T,
    process: &Process,
    place: &Place,
) -> Option<(NodeId, Cover)>
    ensures { result ≡ name_destination_of (T.content tree.now) process.now place.now }
{
    match place {
        Place::Slot(dir, name) if is_dir(tree, *dir) && is_free(tree, process, *dir, name) => {
            with_device(tree, *dir, destination(process, place))
        }
        _ => None,
    }
}

/// The directory that has `c` by this veil, or in which a name has.
fn opened_dir(process: &Process, place: &Place) -> Option<NodeId>
    ensures { result ≡ opened_dir_of process.now place.now }
{
    let (Place::Dir(dir) | Place::Slot(dir, _)) = place;
    if destination(process, place).is_some() {
        Some(*dir)
    } else {
        None
    }
}

/// The directory in which something stands that has no `c` by this veil.
fn held_dir<T: FileTree>(tree: &T, process: &Process, place: &Place) -> Option<NodeId>
    ensures { result ≡ held_dir_of (T.content tree.now) process.now place.now }
{
    if !is_barred(process, place) {
        return None;
    }
    match place {
        Place::Dir(dir) if *dir == NodeId::ROOT => None,
        Place::Dir(dir) => tree.parent(*dir),
        Place::Slot(dir, name) => match tree.look(*dir, name) {
            Some(node) if !is_dir(tree, node) => Some(*dir),
            _ => None,
        },
    }
}

/// The cover under which a directory can come by this veil.
fn entrance<T: FileTree>(
    tree: &T,
    process: &Process,
    held: &BTreeSet<u32>,
    opened: &Opened,
    place: &Place,
) -> Option<(NodeId, Cover)>
    ensures { result ≡ entrance_of
        (T.content tree.now) process.now held.now opened.now.dirs.items place.now }
{
    if destination(process, place).is_none() {
        return None;
    }
    match place {
        Place::Slot(dir, name) if is_free(tree, process, *dir, name) => {
            cover_in(tree, process, *dir)
        }
        Place::Dir(dir) if *dir != NodeId::ROOT && can_give_way(tree, held, opened, *dir) => {
            cover_above(tree, process, *dir)
        }
        _ => None,
    }
}

/// Whether another directory can come in the place of one that has `c`: no file system is mounted
/// there, nothing in it stays for ever, and something has `c` that isn't in it.
pub(crate) fn can_give_way<T: FileTree>(
    tree: &T,
    held: &BTreeSet<u32>,
    opened: &Opened,
    dir: NodeId,
) -> bool
    ensures { result ≡ gives_way_to (T.content tree.now) held.now opened.now.dirs.items dir }
{
    !tree.is_mount(dir) && !held.contains(&dir.number()) && is_any_outside(tree, opened, dir)
}

/// Whether one of these directories is neither another one nor below it. The one that stands least
/// deep is below no other that stands there, so only where it is the other one are all asked.
fn is_any_outside<T: FileTree>(tree: &T, opened: &Opened, other: NodeId) -> bool
    ensures { result ≡ list_any (stands_outside (T.content tree.now) other) opened.now.dirs.items }
{
    match opened.dirs.get(opened.first) {
        Some(first) if is_outside(tree, *first, other) => true,
        _ => opened.dirs.iter().any(|dir| is_outside(tree, *dir, other)),
    }
}

/// The place of a living directory that stands least deep among these, if there is any.
fn shallowest<T: FileTree>(tree: &T, dirs: &[NodeId]) -> usize
    ensures { (place : ℕ) → place < length dirs.now →
        depth_of (T.content tree.now) (get_or dirs.now result 0)
        ≤ depth_of (T.content tree.now) (get_or dirs.now place 0) }
{
    let mut first = 0;
    let mut least = usize::MAX;
    for (place, dir) in dirs.iter().enumerate() {
        let count = depth(tree, *dir);
        if count < least {
            first = place;
            least = count;
        }
    }
    first
}

/// How many directories a climb from a living one to the root meets, as far as they can be counted;
/// the greatest number for what is no living directory.
fn depth<T: FileTree>(tree: &T, dir: NodeId) -> usize
    ensures { result ≡ depth_of (T.content tree.now) dir }
{
    tree.known();
    let mut at = dir;
    let mut count: usize = 1;
    while at != NodeId::ROOT {
        let Some(above) = tree.parent(at) else {
            return usize::MAX;
        };
        at = above;
        count = count.saturating_add(1);
    }
    count
}

/// Whether a name in a directory can come to be free: nothing stands there, or what does has `c`
/// and is no mount point.
pub(crate) fn is_free<T: FileTree>(tree: &T, process: &Process, dir: NodeId, name: &Name) -> bool
    ensures { result ≡ can_be_free (T.content tree.now) process.now (dir, name.now) }
{
    match tree.look(dir, name) {
        Some(node) => has_c(row_cover(tree, process, dir, name, node)) && !tree.is_mount(node),
        None => true,
    }
}

/// What covers that which stands in a row.
fn row_cover<T: FileTree>(
    tree: &T,
    process: &Process,
    dir: NodeId,
    name: &Name,
    node: NodeId,
) -> Cover
    requires { node_at_name (T.content tree.now) dir name.now ≡ Some node }
    ensures { result ≡ cover_of_row (T.content tree.now) process.now (dir, name.now) node }
{
    tree.known();
    let found = found_in(tree, dir, name, node);
    process.cover(&mut Counted::new(tree), &found)
}

/// What stands in a row, as a path names it.
fn found_in<T: FileTree>(tree: &T, dir: NodeId, name: &Name, node: NodeId) -> Found
    ensures { result ≡ object_in (T.content tree.now) (dir, name.now) node }
{
    if is_dir(tree, node) {
        let way = Way::Named {
            parent: dir,
            name: *name,
        };
        return Found::Whole { dir: node, way };
    }
    Found::Slot {
        dir,
        name: *name,
        node: Some(node),
    }
}

/// A cover, with the device of a directory.
fn with_device<T: FileTree>(tree: &T, dir: NodeId, cover: Option<Cover>) -> Option<(NodeId, Cover)>
    ensures { result ≡ with_device (T.content tree.now) dir cover }
{
    match cover {
        Some(cover) => Some((tree.device(dir), cover)),
        None => None,
    }
}

/// What the veils leave of the further names of the directory above a directory, and its device.
fn cover_above<T: FileTree>(tree: &T, process: &Process, dir: NodeId) -> Option<(NodeId, Cover)>
    ensures { let t = T.content tree.now in result ≡ (if lives_as_dir t dir
        then with_device t (above t dir) (Some (cover_of_others t process.now (above t dir)))
        else None) }
{
    tree.known();
    let Some(above) = tree.parent(dir) else {
        return None;
    };
    cover_in(tree, process, above)
}

/// What the veils leave of the further names of a directory, and its device.
fn cover_in<T: FileTree>(tree: &T, process: &Process, dir: NodeId) -> Option<(NodeId, Cover)>
    ensures { let t = T.content tree.now in result ≡ (if lives_as_dir t dir
        then with_device t dir (Some (cover_of_others t process.now dir)) else None) }
{
    if !is_dir(tree, dir) {
        return None;
    }
    Some((tree.device(dir), cover_of_dir(tree, process, dir)))
}

/// What the veils leave of a living directory.
fn cover_of_dir<T: FileTree>(tree: &T, process: &Process, dir: NodeId) -> Cover
    requires { lives_as_dir (T.content tree.now) dir ≡ true }
    ensures { result ≡ cover_of_others (T.content tree.now) process.now dir }
{
    tree.known();
    let found = Found::Whole { dir, way: Way::Top };
    process.cover(&mut Counted::new(tree), &found)
}

/// A directory, the one at which its file system is mounted, and whether that goes along with the
/// directory in which it stands.
#[derive(Clone, Copy)]
pub struct OnDevice {
    pub(crate) dir: NodeId,
    pub(crate) device: NodeId,
    pub(crate) along: bool,
}

/// The device of a living directory.
pub(crate) fn on_device<T: FileTree>(tree: &T, process: &Process, dir: NodeId) -> OnDevice
    ensures own { result.dir ≡ dir }
    ensures on { IsOnDevice (T.content tree.now) process.now result }
{
    tree.known();
    let device = tree.device(dir);
    let cover = cover_of_dir(tree, process, device);
    OnDevice {
        dir,
        device,
        along: goes_along(process, device, cover),
    }
}

/// Whether a mount point goes along with the directory in which it stands, by what covers it.
fn goes_along(process: &Process, mount: NodeId, cover: Cover) -> bool
    ensures { result ≡ (is_none (perms_kept process.now (Place.Dir mount)) && cover_has_c cover) }
{
    process.kept(&Place::Dir(mount)).is_none() && has_c(cover)
}

/// Whether a directory is neither another one nor below it.
fn is_outside<T: FileTree>(tree: &T, dir: NodeId, other: NodeId) -> bool
    ensures { result ≡ stands_outside (T.content tree.now) other dir }
{
    is_dir(tree, dir) && !tree.is_within(dir, other)
}

/// Whether a number is that of a living directory.
pub(crate) fn is_dir<T: FileTree>(tree: &T, id: NodeId) -> bool
    ensures { result ≡ lives_as_dir (T.content tree.now) id }
{
    matches!(tree.kind(id), Some(Kind::Dir))
}

/// Whether a cover has `c`.
pub fn has_c(cover: Cover) -> bool
    ensures { result ≡ cover_has_c cover }
{
    match cover {
        Cover::All => true,
        Cover::Nothing => false,
        Cover::Only(perms) => perms.contains(Perms::CREATE),
    }
}
