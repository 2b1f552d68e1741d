//! Everything that a line may be about, as a vector.

ghost use Rattle.std.specs.Prelude.{◌≡◌, ◌<◌, ◌≤◌, ◌+◌, ◌∷◌, ◌++◌, [], List, IfOk, OnOk, IfSome};
ghost use Rattle.std.specs.Prelude.{MatchOption, drop, length, map, option_map, reverse};
ghost use Rattle.std.specs.List.{AllByRecursion};
ghost use Rattle.pua_tree.specs.Tree.{Spot, Tree, WellFormed, spot_cmp};
ghost use Rattle.pua_policy.specs.States.{ProcessState};
ghost use Rattle.pua_audit.specs.Laws.{Rises};
ghost use Rattle.pua_objects.specs.Standing.{IsStanding};
ghost use Rattle.pua_objects.specs.Laws.{HasPlaces};
ghost use Rattle.pua_objects.specs.ListItems.{AreNear, IsToldIn, items_told, last_name};
ghost use Rattle.pua_objects.specs.Listing.{IsListing, IsListingBefore, after_next, item_of};
ghost use Rattle.pua_objects.specs.Objects.{items as all_items};
ghost use Rattle.pua_objects.specs.Spots.{AreSpots, names_at, spot_now};
ghost use Rattle.pua_objects.specs.declared.item.Subject.TheVariants as about;
ghost use Rattle.pua_objects.specs.declared.list.Entered.{Entered as Inner};

use crate::item::{Item, Subject};
use crate::over::{Over, outermost, over_dir, over_name};
use crate::seen::{directory, is_directory};
use crate::spots::spots;
use crate::standing::Standing;
use pua_policy::{Object, Process};
use pua_tree::{FileTree, Kind, Name, NodeId, OutOfMemory};
use std::alloc::{AllocError, Global};

/// An item of a list. The names that lead to it are so many of those that lead to the item before,
/// and then its own name, if it has one.
#[derive(Clone, Copy)]
pub struct ListItem<'t> {
    /// How many names it shares with the item before.
    pub depth: usize,
    /// What it is about.
    pub item: Item<'t>,
    /// Which veil covers it, by its index among those of the process in the order of
    /// `Process::veils`; None where none does.
    pub veil: Option<usize>,
    /// Whether it is at or below the root of the process.
    pub inside: bool,
}

impl<'t> ListItem<'t> {
    /// The last of the names that lead to it: None for the root, and for further names, to which
    /// those of their directory lead.
    pub fn name(&self) -> Option<&'t Name>
        ensures { option_map (λ name. name.now) result ≡ last_name self.now.item.subject }
    {
        match self.item.subject {
            Subject::Root | Subject::Others(_) => None,
            Subject::Dir(_, _, name) | Subject::Name(_, name) => Some(name),
        }
    }
}

/// What stands or could stand in a tree, each with what the veils of a process leave of it, and
/// whether it is at or below the root of that: the root of the tree, and after each directory its further names, then what has or could have a name in it by
/// the bytes of the names, each directory followed by what is below it. Each veil that is not at a
/// directory is at a name. The only error is that a growth was refused.
pub fn list_items<'t, T: FileTree>(
    alloc: Global,
    tree: &'t T,
    process: &'t Process,
) -> Result<Vec<ListItem<'t>>, OutOfMemory>
    ensures items { IfOk result (λ items. items_told (T.content tree.now) [] items.items
        ≡ all_items (T.content tree.now) process.now.veils) }
    ensures told { IfOk result (λ items.
        AllByRecursion (IsToldIn (T.content tree.now) process.now) items.items) }
    ensures near { IfOk result (λ items. AreNear [] items.items) }
    ensures places { OnOk result (HasPlaces process.now) }
{
    tree.known();
    let standing = Standing::of(alloc, tree, process)?;
    let spots = spots(alloc, standing.rows.as_slice(), process)?;
    let mut entered = Vec::new(alloc);
    let mut items = Vec::with_capacity(alloc, spots.len())?;
    enter_root(process, &mut entered, &mut items)?;
    while let Some(inner) = entered.pop() {
        go_on(
            tree,
            process,
            &standing,
            &spots,
            &inner,
            &mut entered,
            &mut items,
        )?;
    }
    Ok(items)
}

/// A directory that is entered.
#[derive(Clone, Copy)]
pub(crate) struct Entered {
    pub(crate) dir: NodeId,
    /// Where its next name stands among all spots; if the spot there is of another directory, it
    /// has no further one.
    pub(crate) next: usize,
    /// What covers its further names.
    pub(crate) over: Over,
}

/// Lists the root and enters it. The only error is that a growth was refused.
fn enter_root(
    process: &Process,
    entered: &mut Vec<Entered>,
    items: &mut Vec<ListItem<'_>>,
) -> Result<(), AllocError>
    ensures { entered.old.items ≡ [] → items.old.items ≡ [] → OnOk result ((t : Tree)
        (spots : List Spot) → WellFormed t → AreSpots t process.now.veils spots →
        IsListing t process.now spots (reverse entered.new.items) items.new.items) }
{
    let over = over_dir(process, NodeId::ROOT, &outermost(process));
    let Ok(()) = items.push(root_item(&over)) else {
        return Err(AllocError);
    };
    enter(NodeId::ROOT, 0, &over, entered, items)
}

/// Goes on with the directory that was entered last and is taken off: it is left, or the next of
/// its names is listed. The only error is that a growth was refused.
fn go_on<'t, T: FileTree>(
    tree: &T,
    process: &Process,
    standing: &Standing<'t>,
    spots: &[(NodeId, &'t Name)],
    inner: &Entered,
    entered: &mut Vec<Entered>,
    items: &mut Vec<ListItem<'t>>,
) -> Result<(), AllocError>
    ensures listing { let t = T.content tree.now in let all = map spot_now spots.now in
        IsStanding t process.now standing.now → AreSpots t process.now.veils all →
        IsListing t process.now all (inner.now ∷ reverse entered.old.items) items.old.items →
        OnOk result
        (IsListing t process.now all (reverse entered.new.items) items.new.items) }
    ensures grown { OnOk result (length entered.new.items + length items.old.items
        ≡ length entered.old.items + length items.new.items) }
    ensures longer { OnOk result (length items.old.items ≤ length items.new.items) }
{
    tree.known();
    let Some(name) = name_at(spots, inner.dir, inner.next) else {
        return Ok(());
    };
    let depth = entered.len();
    let after = Entered {
        dir: inner.dir,
        next: inner.next + 1,
        over: inner.over,
    };
    let Ok(()) = entered.push(after) else {
        return Err(AllocError);
    };
    add_entry(
        tree, process, standing, spots, inner, name, depth, entered, items,
    )
}

/// Lists what stands at the next name of the innermost directory, or that nothing does. So many
/// names lead to the directory.
fn add_entry<'t, T: FileTree>(
    tree: &T,
    process: &Process,
    standing: &Standing<'t>,
    spots: &[(NodeId, &'t Name)],
    inner: &Entered,
    name: &'t Name,
    depth: usize,
    entered: &mut Vec<Entered>,
    items: &mut Vec<ListItem<'t>>,
) -> Result<(), AllocError>
    ensures listing { let t = T.content tree.now in let all = map spot_now spots.now in
        (around : List Inner) → IsStanding t process.now standing.now →
        AreSpots t process.now.veils all → depth ≡ length around →
        reverse entered.old.items ≡ after_next inner.now ∷ around →
        IsListingBefore t process.now all inner.now around name.now items.old.items →
        OnOk result
        (IsListing t process.now all (reverse entered.new.items) items.new.items) }
    ensures grown { OnOk result (length entered.new.items + length items.old.items + 1
        ≡ length entered.old.items + length items.new.items) }
    ensures longer { OnOk result (length items.old.items ≤ length items.new.items) }
{
    tree.known();
    let veiled = standing.is_veiled(inner.dir);
    let Some(there) = standing.found(tree, inner.next, inner.dir, name) else {
        let over = over_name(process, veiled, inner.dir, name, &inner.over);
        return add_name(depth, inner.dir, name, Object::Missing, &over, items);
    };
    let id = there.0;
    let kind = there.1;
    if !is_directory(kind) {
        let over = over_name(process, veiled, inner.dir, name, &inner.over);
        return add_name(depth, inner.dir, name, Object::at_name(kind), &over, items);
    }
    let over = over_dir(process, id, &inner.over);
    let own = dir_item(depth, id, inner.dir, name, directory(tree, id), &over);
    let Ok(()) = items.push(own) else {
        return Err(AllocError);
    };
    enter(id, start_of(spots, id), &over, entered, items)
}

/// Lists a name at which no directory stands.
fn add_name<'t>(
    depth: usize,
    dir: NodeId,
    name: &'t Name,
    object: Object,
    over: &Over,
    items: &mut Vec<ListItem<'t>>,
) -> Result<(), AllocError>
    ensures { OnOk result (items.new.items ≡ items.old.items
        ++ item_of depth (about.Name dir name.entry) object over.now ∷ []) }
{
    let item = ListItem {
        depth,
        item: Item {
            subject: Subject::Name(dir, name),
            object,
            cover: over.cover,
        },
        veil: over.veil,
        inside: over.inside,
    };
    let Ok(()) = items.push(item) else {
        return Err(AllocError);
    };
    Ok(())
}

/// Lists the further names of a directory, whose own line is listed, and enters it.
fn enter(
    dir: NodeId,
    next: usize,
    over: &Over,
    entered: &mut Vec<Entered>,
    items: &mut Vec<ListItem<'_>>,
) -> Result<(), AllocError>
    ensures entered { OnOk result (entered.new.items ≡ entered.old.items
        ++ record { dir = dir; next = next; over = over.now } ∷ []) }
    ensures items { OnOk result (items.new.items ≡ items.old.items
        ++ item_of (length entered.old.items) (about.Others dir) Object.Missing over.now ∷ []) }
{
    let others = ListItem {
        depth: entered.len(),
        item: Item {
            subject: Subject::Others(dir),
            object: Object::Missing,
            cover: over.cover,
        },
        veil: over.veil,
        inside: over.inside,
    };
    let Ok(()) = items.push(others) else {
        return Err(AllocError);
    };
    let inner = Entered {
        dir,
        next,
        over: *over,
    };
    let Ok(()) = entered.push(inner) else {
        return Err(AllocError);
    };
    Ok(())
}

/// The root.
fn root_item<'t>(over: &Over) -> ListItem<'t>
    ensures { result ≡ item_of 0 about.Root (Object.Node Kind.Dir) over.now }
{
    ListItem {
        depth: 0,
        item: Item {
            subject: Subject::Root,
            object: Object::Node(Kind::Dir),
            cover: over.cover,
        },
        veil: over.veil,
        inside: over.inside,
    }
}

/// A directory that has this name in another, to which so many names lead.
fn dir_item<'t>(
    depth: usize,
    id: NodeId,
    dir: NodeId,
    name: &'t Name,
    object: Object,
    over: &Over,
) -> ListItem<'t>
    ensures { result ≡ item_of depth (about.Dir id dir name.entry) object over.now }
{
    ListItem {
        depth,
        item: Item {
            subject: Subject::Dir(id, dir, name),
            object,
            cover: over.cover,
        },
        veil: over.veil,
        inside: over.inside,
    }
}

/// The name at this place among all spots, if it is of this directory.
fn name_at<'t>(spots: &[(NodeId, &'t Name)], dir: NodeId, next: usize) -> Option<&'t Name>
    ensures there { IfSome result (λ name. next < length spots.now) }
    ensures name { let all = map spot_now spots.now in Rises spot_cmp all →
        AllByRecursion (λ s. dir ≤ s.0) (drop next all) →
        MatchOption result (names_at dir (drop next all) ≡ [])
        (λ name. names_at dir (drop next all) ≡ name.now ∷ names_at dir (drop (next + 1) all)) }
{
    if next >= spots.len() {
        return None;
    }
    let (other, name) = spots[next];
    if other == dir { Some(name) } else { None }
}

/// Where the names of a directory start among all spots.
fn start_of(spots: &[(NodeId, &Name)], dir: NodeId) -> usize
    ensures passed { let all = map spot_now spots.now in Rises spot_cmp all →
        AllByRecursion (λ s. dir ≤ s.0) (drop result all) }
    ensures names { let all = map spot_now spots.now in Rises spot_cmp all →
        names_at dir (drop result all) ≡ names_at dir all }
{
    spots.partition_point(|spot| spot.0 < dir)
}
