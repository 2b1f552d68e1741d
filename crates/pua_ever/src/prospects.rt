//! What decides the calls of the lines.

ghost use Rattle.std.specs.Prelude.{◌≡◌, ◌&&◌, ℕ, Option, Some, option_map, true, not, is_none};
ghost use Rattle.std.specs.Prelude.{if◌then◌else◌, IfOk};
ghost use Rattle.std.specs.BTreeSet.{contains};
ghost use Rattle.std.specs.List.{list_any};
ghost use Rattle.std.specs.Ordering.{nat_cmp};
ghost use Rattle.pua_tree.specs.Tree.{Tree, WellFormed, empty_tree, is_dir as lives_as_dir};
ghost use Rattle.pua_tree.specs.Tree.{is_mount};
ghost use Rattle.pua_tree.specs.Tree.{look as node_at_name};
ghost use Rattle.pua_tree.specs.declared.node.Kind.{Kind as AnyKind};
ghost use Rattle.pua_path.specs.declared.found.Way.{Way};
ghost use Rattle.pua_path.specs.declared.found.Found.TheVariants.{Whole};
ghost use Rattle.pua_calls.specs.Calls.{CallTable as Table, rule_of};
ghost use Rattle.pua_calls.specs.CallSets.{has};
ghost use Rattle.pua_calls.specs.declared.call.Call.{Call as AnyCall};
ghost use Rattle.pua_policy.specs.States.{ProcessState, perms_kept, may_any as may_any_of};
ghost use Rattle.pua_policy.specs.Objects.{object_seen};
ghost use Rattle.pua_policy.specs.Verdict.{IsDir, object_of_kind};
ghost use Rattle.pua_objects.specs.Items.{SubjectFits, IsItemOn};
ghost use Rattle.pua_objects.specs.Objects.{Subject as About, At, Others};
ghost use Rattle.pua_objects.specs.Objects.{cover_in as cover_of_others};
ghost use Rattle.pua_ever.specs.Ever.{may_edit as edits_tree, is_yes as says_yes, edit_calls};
ghost use Rattle.pua_ever.specs.Ever.{can_allow, can_make, is_allowed_under, is_ever_allowed};
ghost use Rattle.pua_ever.specs.Ever.{is_new_allowed};
ghost use Rattle.pua_ever.specs.Ever.{is_named_way, own_spot};
ghost use Rattle.pua_ever.specs.Ever.{may_link as links_files, can_link as gives_names};
ghost use Rattle.pua_ever.specs.Ever.{can_move as moves};
ghost use Rattle.pua_ever.specs.Ever.{is_turned_there, named_covers, stays_on};
ghost use Rattle.pua_ever.specs.Destinations.{StaysPut};
ghost use Rattle.pua_ever.specs.Movable.{IsMovable};
ghost use Rattle.pua_ever.specs.EverLines.{new_of};
ghost use Rattle.pua_ever.specs.Laws.{EditsNeedC};
ghost use Rattle.pua_ever.specs.Prospects.{IsProspects, AreOnFreed, IsMovableAt, IsTurnedSet};
ghost use Rattle.pua_ever.specs.Prospects.{is_mount_given, own_given};
ghost use Rattle.pua_script.specs.Confinement.{has_c as cover_has_c};
ghost use Rattle.pua_ever.specs.Prospects.{is_startable, kind_allowed, kind_covers};

use crate::destinations::{Destinations, find_destinations, has_c};
use crate::made::Made;
use crate::movable::{Movable, calls_by_object};
use crate::moving::{can_move, may_any};
use crate::programs::{may_start, on_file, on_new_file};
use crate::turned::turned_nodes;
use pua_calls::{Call, CallTable, Calls};
use pua_objects::{Item, Subject};
use pua_path::Last;
use pua_policy::{AllowedCalls, Cover, Object, Place, Process, judge};
use pua_tree::{FileTree, FileType, Kind, Name, NodeId, OutOfMemory};
use std::alloc::{AllocError, Global};
use std::collections::BTreeSet;

/// What decides the calls of the lines of a list for ever, beside an item's own object and cover.
/// It is of one tree, one process and one table, which are handed in again with each question.
#[derive(Drop)]
pub struct Prospects {
    /// Whether the tree can change at all.
    may_edit: bool,
    /// Whether the promises of both of link's names are held.
    may_link: bool,
    /// Where things can come; no directory with `c` but those that are held there stays full.
    destinations: Destinations,
    /// The numbers of the nodes that the process holds open so that it can make programs of them.
    turned: BTreeSet<u32>,
    /// The calls on what is moved or made, on any device.
    movable: Movable,
    /// What the process is allowed by the table.
    allowed: AllowedCalls,
}

/// Finds what decides the calls of the lines of a process's list for ever, by a table of what calls
/// need. What it decides is that list where `why_refused` has no reason against one. The only error
/// is that a growth was refused.
pub fn find_prospects<T: FileTree>(
    alloc: Global,
    tree: &T,
    process: &Process,
    table: &CallTable,
) -> Result<Prospects, OutOfMemory>
    ensures { IfOk result (λ found. IsProspects (T.content tree.now) table.now process.now found) }
{
    let found = find_destinations(alloc, tree, process)?;
    let covers = found.covers(alloc, None)?;
    let movable = calls_by_object(process, table, &covers);
    let turned = turned_nodes(alloc, process)?;
    let allowed = AllowedCalls::new(process, table);
    Ok(Prospects {
        may_edit: may_edit(process, table),
        may_link: may_link(process, table),
        destinations: found,
        turned,
        movable,
        allowed,
    })
}

/// Whether a process may ask for a change of the tree: promises alone are asked.
fn may_edit(process: &Process, table: &CallTable) -> bool
    ensures { result ≡ edits_tree table.now process.now }
{
    if may_any(process, table.rename().new_name().alternatives()) {
        return true;
    }
    may_any(process, table.link().new_name().alternatives()) || may_call(process, table)
}

/// Whether a process holds the promises of both of link's names.
pub(crate) fn may_link(process: &Process, table: &CallTable) -> bool
    ensures { result ≡ links_files table.now process.now }
{
    let link = table.link();
    may_any(process, link.old_name().alternatives())
        && may_any(process, link.new_name().alternatives())
}

/// Whether a process holds the promises of one of the calls that make a name or take one away.
fn may_call(process: &Process, table: &CallTable) -> bool
    ensures { result ≡ list_any (λ edit.
        says_yes (may_any_of process.now (rule_of table.now edit).alternatives)) edit_calls }
{
    Call::ALL
        .iter()
        .filter(|call| call.effect().edits())
        .any(|call| may_any(process, table.alternatives(*call)))
}

impl Prospects {
    /// The calls on what is moved from a device that goes along, and on what is made.
    pub fn anywhere(&self) -> Movable
        ensures { result ≡ self.now.movable }
    {
        self.movable
    }

    /// The calls on what is moved from a device, where the covers are those on this one, or on any.
    /// The only error is that a growth was refused.
    pub fn movable_on(
        &self,
        alloc: Global,
        process: &Process,
        table: &CallTable,
        on: Option<NodeId>,
    ) -> Result<Movable, AllocError>
        ensures { IfOk result (λ found. (t : Tree) → IsProspects t table.now process.now self.now →
            StaysPut t process.now on → IsMovable t table.now process.now on found) }
    {
        let covers = self.destinations.covers(alloc, on)?;
        Ok(calls_by_object(process, table, &covers))
    }

    /// The calls that can ever be allowed on what an item of a tree is about, by those on what is
    /// moved from its device.
    pub fn calls_on<T: FileTree>(
        &self,
        tree: &T,
        process: &Process,
        table: &CallTable,
        movable: &Movable,
        item: &Item<'_>,
    ) -> Calls
        ensures { (about : About) → WellFormed (T.content tree.now) → EditsNeedC table.now →
            IsProspects (T.content tree.now) table.now process.now self.now →
            IsMovableAt (T.content tree.now) table.now process.now about movable.now →
            SubjectFits (T.content tree.now) about →
            IsItemOn (T.content tree.now) process.now about item.now → (call : AnyCall) →
            has result call
            ≡ is_ever_allowed (T.content tree.now) table.now process.now about call }
    {
        match item.subject {
            Subject::Root => self.on_dir(process, table, movable, NodeId::ROOT, false, item),
            Subject::Dir(dir, _, _) => {
                self.on_dir(process, table, movable, dir, !tree.is_mount(dir), item)
            }
            Subject::Others(dir) => on_others(process, table, movable, dir, &item.cover),
            Subject::Name(dir, name) => {
                let turned = self.is_turned_at(tree, dir, name);
                self.on_name(process, table, movable, turned, item)
            }
        }
    }

    /// The calls on a directory, which may leave its name if it has one and is no mount point.
    fn on_dir(
        &self,
        process: &Process,
        table: &CallTable,
        movable: &Movable,
        dir: NodeId,
        leaves: bool,
        item: &Item<'_>,
    ) -> Calls
        ensures { (t : Tree) (way : Way) → EditsNeedC table.now →
            IsProspects t table.now process.now self.now →
            IsMovable t table.now process.now (stays_on t process.now dir) movable.now →
            lives_as_dir t dir ≡ true → leaves
            ≡ (is_named_way way && not (is_mount t dir)) →
            item.now.cover ≡ cover_of_others t process.now dir →
            item.now.object ≡ object_seen t (IsDir dir way) → (call : AnyCall) → has result call
            ≡ is_ever_allowed t table.now process.now (At (Whole dir way)) call }
    {
        let emptied = self.can_empty(dir, leaves);
        if moves_dir(process, table, dir, &item.cover) {
            return movable.on_dir(emptied);
        }
        let object = self.seen_as(emptied, item.object);
        self.allowed.on(item.cover, object)
    }

    /// The calls on a name at which no directory stands, by what does.
    fn on_name(
        &self,
        process: &Process,
        table: &CallTable,
        movable: &Movable,
        turned: bool,
        item: &Item<'_>,
    ) -> Calls
        ensures { (t : Tree) (on : Option ℕ) (kind : Option AnyKind) →
            IsProspects t table.now process.now self.now →
            IsMovable t table.now process.now on movable.now →
            item.now.object ≡ object_seen empty_tree (object_of_kind kind) → (call : AnyCall) →
            has result call
            ≡ kind_allowed t table.now process.now on turned item.now.cover kind call }
    {
        let calls = self.on_plain(process, table, movable, turned, item);
        if item.object == Object::Node(Kind::Link) {
            calls.keeping()
        } else {
            calls
        }
    }

    /// The same, of a link with the calls on what it leads to.
    fn on_plain(
        &self,
        process: &Process,
        table: &CallTable,
        movable: &Movable,
        turned: bool,
        item: &Item<'_>,
    ) -> Calls
        ensures { (t : Tree) (on : Option ℕ) (kind : Option AnyKind) →
            IsProspects t table.now process.now self.now →
            IsMovable t table.now process.now on movable.now →
            item.now.object ≡ object_seen empty_tree (object_of_kind kind) → (call : AnyCall) →
            has result call ≡ can_allow table.now process.now turned
            (kind_covers t table.now process.now on item.now.cover kind) (object_of_kind kind) call }
    {
        if item.object == Object::Missing {
            return self.allowed.on(item.cover, item.object);
        }
        self.on_thing(process, table, movable, turned, item)
    }

    /// The same, of what stands there; of a file with exec, where it can be made a program.
    fn on_thing(
        &self,
        process: &Process,
        table: &CallTable,
        movable: &Movable,
        turned: bool,
        item: &Item<'_>,
    ) -> Calls
        ensures { (t : Tree) (on : Option ℕ) (kind : AnyKind) →
            IsProspects t table.now process.now self.now →
            IsMovable t table.now process.now on movable.now →
            item.now.object ≡ object_seen empty_tree (object_of_kind (Some kind)) →
            (call : AnyCall) → has result call ≡ can_allow table.now process.now turned
            (named_covers t table.now process.now on (Some kind) item.now.cover) (object_of_kind
            (Some kind)) call }
    {
        let calls = self.on_seen(process, table, movable, &item.cover, item.object);
        if !is_startable(item.object) {
            return calls;
        }
        let program = Object::Node(Kind::Prog);
        let as_program = self.on_seen(process, table, movable, &item.cover, program);
        on_file(turned, calls, as_program)
    }

    /// The same, of what stays what it is.
    fn on_seen(
        &self,
        process: &Process,
        table: &CallTable,
        movable: &Movable,
        cover: &Cover,
        object: Object,
    ) -> Calls
        ensures { (t : Tree) (on : Option ℕ) (kind : AnyKind) →
            IsProspects t table.now process.now self.now →
            IsMovable t table.now process.now on movable.now → object
            ≡ object_seen empty_tree (object_of_kind (Some kind)) → (call : AnyCall) →
            has result call ≡ is_allowed_under table.now process.now
            (named_covers t table.now process.now on (Some kind) cover.now) (object_of_kind
            (Some kind)) call }
    {
        if can_move(process, table, cover) {
            return movable.on(object);
        }
        let calls = self.allowed.on(*cover, object);
        if self.can_link(table, *cover, object) {
            return calls.union(movable.on(object));
        }
        calls
    }

    /// Whether what is no directory and stands at a name can be given a further one by link, by
    /// what covers it.
    fn can_link(&self, table: &CallTable, cover: Cover, object: Object) -> bool
        ensures { (t : Tree) (h : ProcessState) (kind : AnyKind) → IsProspects t table.now h self.now →
            object ≡ object_seen empty_tree (object_of_kind (Some kind)) → result
            ≡ gives_names table.now h (Some kind) cover }
    {
        let old_name = table.link().old_name();
        if !self.may_link || judge::cover_fault(cover, old_name.perms()).is_some() {
            return false;
        }
        object != Object::Node(Kind::Link) || old_name.last() == Last::Kept
    }

    /// The calls on the name at which an item of a tree stands, if it has a veil of its own and the
    /// item can be taken away; else none.
    pub fn calls_on_freed<T: FileTree>(
        &self,
        tree: &T,
        process: &Process,
        table: &CallTable,
        item: &Item<'_>,
    ) -> Calls
        ensures { (about : About) → WellFormed (T.content tree.now) →
            IsProspects (T.content tree.now) table.now process.now self.now →
            SubjectFits (T.content tree.now) about →
            IsItemOn (T.content tree.now) process.now about item.now →
            AreOnFreed (T.content tree.now) table.now process.now (own_spot about) result }
    {
        let Some(own) = own_name(item) else {
            return Calls::NONE;
        };
        let Some(perms) = process.kept(&Place::Slot(own.0, *own.1)) else {
            return Calls::NONE;
        };
        if !self.may_edit || !can_leave(tree, item) {
            return Calls::NONE;
        }
        judge::allowed(process, table, Cover::Only(perms), Object::Missing)
    }

    /// The calls on what can be made; none where it can't.
    pub fn calls_on_made(&self, made: Made) -> Calls
        ensures { (t : Tree) (table : Table) (h : ProcessState) → IsProspects t table h self.now →
            (call : AnyCall) → has result call
            ≡ ((edits_tree table h && can_make t table h (new_of made))
            && is_new_allowed t table h (new_of made) call) }
    {
        if !self.may_edit || !made.is_made_by(self.movable.made) {
            return Calls::NONE;
        }
        match made {
            Made::Dir => self.movable.emptied,
            Made::Others => self.movable.others,
            Made::File => on_new_file(self.movable.new_file, self.movable.on_node(Kind::Prog)),
            Made::Link => self.movable.on_node(Kind::Link).keeping(),
            Made::Sock => self.movable.on_node(Kind::Known(FileType::Sock)),
            Made::Fifo => self.movable.on_node(Kind::Known(FileType::Fifo)),
        }
    }

    /// Whether the process holds what stands at a name of a tree open so that it can make a program
    /// of it.
    fn is_turned_at<T: FileTree>(&self, tree: &T, dir: NodeId, name: &Name) -> bool
        ensures { (h : ProcessState) → IsTurnedSet h self.now.turned →
            result ≡ is_turned_there h (node_at_name (T.content tree.now) dir name.now) }
    {
        if self.turned.is_empty() {
            return false;
        }
        let Some(node) = tree.look(dir, name) else {
            return false;
        };
        self.turned.contains(&node.number())
    }

    /// Whether a directory that may leave its name can be removed once it is empty, and can come to
    /// be so if it has `c`.
    fn can_empty(&self, dir: NodeId, leaves: bool) -> bool
        ensures { result ≡ (leaves && not (contains nat_cmp self.now.destinations.held dir)) }
    {
        leaves && !self.destinations.held.contains(&dir.number())
    }

    /// What rmdir is on, of a directory that is seen so now.
    fn seen_as(&self, emptied: bool, object: Object) -> Object
        ensures { result ≡ (if emptied && self.now.may_edit then Object.Removable else object) }
    {
        if emptied && self.may_edit {
            Object::Removable
        } else {
            object
        }
    }
}

/// Whether an item of a tree can leave its name: it has `c`, and is no mount point.
fn can_leave<T: FileTree>(tree: &T, item: &Item<'_>) -> bool
    ensures { result ≡ (cover_has_c item.now.cover
        && not (is_mount_given (T.content tree.now) item.now.subject)) }
{
    has_c(item.cover) && !is_mount_point(tree, &item.subject)
}

/// Whether what an item of a tree is about is a mount point.
fn is_mount_point<T: FileTree>(tree: &T, subject: &Subject<'_>) -> bool
    ensures { result ≡ is_mount_given (T.content tree.now) subject.now }
{
    match subject {
        Subject::Dir(dir, _, _) => tree.is_mount(*dir),
        _ => false,
    }
}

/// The calls on the further names of a directory.
fn on_others(
    process: &Process,
    table: &CallTable,
    movable: &Movable,
    dir: NodeId,
    cover: &Cover,
) -> Calls
    ensures { (t : Tree) →
        IsMovable t table.now process.now (stays_on t process.now dir) movable.now → cover.now
        ≡ cover_of_others t process.now dir → (call : AnyCall) → has result call
        ≡ is_ever_allowed t table.now process.now (Others dir) call }
{
    if moves_dir(process, table, dir, cover) {
        return movable.others;
    }
    judge::allowed(process, table, *cover, Object::Missing)
}

/// Whether an object is a file that is a plain one or may be.
fn is_startable(object: Object) -> bool
    ensures { result ≡ is_startable object }
{
    match object {
        Object::Node(kind) => may_start(kind),
        Object::Missing | Object::Removable => false,
    }
}

/// Whether a directory can be moved to where it is covered otherwise: it has no veil of its own,
/// which would go with it.
pub(crate) fn moves_dir(process: &Process, table: &CallTable, dir: NodeId, cover: &Cover) -> bool
    ensures { result ≡ (is_none (perms_kept process.now (Place.Dir dir))
        && moves table.now process.now cover.now) }
{
    can_move(process, table, cover) && process.kept(&Place::Dir(dir)).is_none()
}

/// The name at which what an item is about stands; None for the root, for further names, and where
/// nothing stands.
pub fn own_name<'t>(item: &Item<'t>) -> Option<(NodeId, &'t Name)>
    ensures { option_map (λ own. (own.0, own.1.now)) result
        ≡ own_given item.now.subject item.now.object }
{
    match item.subject {
        Subject::Root | Subject::Others(_) => None,
        Subject::Dir(_, dir, name) => Some((dir, name)),
        Subject::Name(_, _) if item.object == Object::Missing => None,
        Subject::Name(dir, name) => Some((dir, name)),
    }
}
