//! The calls that the facts of several processes give one of them.

ghost use Rattle.std.specs.Prelude.{◌≡◌, ◌&&◌, ◌||◌, ◌==◌, ℕ, List, Option, Some, false, get_or};
ghost use Rattle.std.specs.Prelude.{not, true};
ghost use Rattle.std.specs.List.{Contains};
ghost use Rattle.pua_tree.specs.Tree.{Tree, is_dir, look};
ghost use Rattle.pua_calls.specs.CallSets.{has, keeps_link};
ghost use Rattle.pua_calls.specs.declared.call.Call.{Call as AnyCall};
ghost use Rattle.pua_path.specs.Fits.{is_link_kind};
ghost use Rattle.pua_path.specs.declared.found.Way.{Way};
ghost use Rattle.pua_path.specs.declared.found.Found.TheVariants.{Slot, Whole};
ghost use Rattle.pua_objects.specs.Items.{IsItemOn, SubjectFits};
ghost use Rattle.pua_objects.specs.Objects.{At, Others, Subject as About};
ghost use Rattle.pua_policy.specs.States.{ProcessState};
ghost use Rattle.pua_ever.specs.Ever.{Comes, Stands};
ghost use Rattle.pua_ever.specs.EverLines.{new_of};
ghost use Rattle.pua_ever.specs.Prospects.{own_given};
ghost use Rattle.pua_jointly.specs.JointCalls.{AreCallsOf, AreCallsOfOne, AreFreeCalls, AreOwnCalls};
ghost use Rattle.pua_jointly.specs.JointCalls.{AreOwnCallsOfOne, HasAgents, IsOf};
ghost use Rattle.pua_jointly.specs.Jointly.{agents_of};
ghost use Rattle.std.specs.List.{list_any};
ghost use Rattle.pua_tree.specs.declared.node.Kind.TheVariants as TypedKind;
ghost use Rattle.pua_policy.specs.Verdict.{Is};
ghost use Rattle.pua_jointly.specs.JointCovers.{AreCallsByCover, allows_under, numbered};
ghost use Rattle.pua_jointly.specs.JointFound.{new_covers};
ghost use Rattle.pua_jointly.specs.JointSetting.{AreInOrder, IsEntryIn, IsEntryOf};
ghost use Rattle.pua_jointly.specs.JointSides.{is_top};

use crate::agent::Agent;
use crate::crew::{Entry, Group, entry_after, entry_at};
use crate::facts::Facts;
use pua_calls::{CallTable, Calls};
use pua_ever::{Made, on_new_file, own_name};
use pua_objects::{Item, Subject};
use pua_policy::{Cover, Object, Place, judge};
use pua_tree::{FileType, Kind, Name, NodeId};

impl Facts<'_> {
    /// The calls of a process and of what it starts on what an item is about, by what stands at its
    /// name.
    pub(crate) fn all_calls_on(
        &self,
        of: &Group<'_, '_>,
        table: &CallTable,
        item: &Item<'_>,
        entry: Option<&Entry<'_>>,
    ) -> Calls
        ensures { (t : Tree) (crew : List ProcessState) (a : ProcessState) (given : Option ℕ)
            (about : About) → HasAgents t table.now crew self.now a given of.now →
            SubjectFits t about → IsItemOn t a about item.now →
            IsEntryOf self.now.crew.entries.items item.now.subject entry.entry →
            AreCallsOfOne t table.now crew (agents_of (a, given)) (Stands about) result }
    {
        let own = self.calls_on(of.own, table, item, entry);
        let Some(program) = of.program else {
            return own;
        };
        own.union(self.calls_on(program, table, item, entry))
    }

    /// Those on the name at which an item stands, once that is taken away.
    pub(crate) fn all_calls_on_freed(
        &self,
        of: &Group<'_, '_>,
        table: &CallTable,
        item: &Item<'_>,
    ) -> Calls
        ensures { (t : Tree) (crew : List ProcessState) (a : ProcessState) (given : Option ℕ)
            (about : About) → HasAgents t table.now crew self.now a given of.now →
            SubjectFits t about → IsItemOn t a about item.now →
            AreOwnCallsOfOne t table.now crew (agents_of (a, given))
            (own_given item.now.subject item.now.object) result }
    {
        let own = self.calls_on_freed(of.own, table, item);
        let Some(program) = of.program else {
            return own;
        };
        own.union(self.calls_on_freed(program, table, item))
    }

    /// Those on what can be made.
    pub(crate) fn all_calls_on_made(
        &self,
        of: &Group<'_, '_>,
        table: &CallTable,
        made: Made,
    ) -> Calls
        ensures { (t : Tree) (crew : List ProcessState) (a : ProcessState) (given : Option ℕ) →
            HasAgents t table.now crew self.now a given of.now →
            AreCallsOfOne t table.now crew (agents_of (a, given)) (Comes (new_of made)) result }
    {
        let own = self.calls_on_made(of.own, table, made);
        let Some(program) = of.program else {
            return own;
        };
        own.union(self.calls_on_made(program, table, made))
    }

    /// The calls on what an item is about, by what stands at its name.
    fn calls_on(
        &self,
        of: &Agent<'_>,
        table: &CallTable,
        item: &Item<'_>,
        entry: Option<&Entry<'_>>,
    ) -> Calls
        ensures { (t : Tree) (crew : List ProcessState) (a : ProcessState) (about : About) →
            IsOf t table.now crew self.now a of.now → SubjectFits t about →
            IsItemOn t a about item.now →
            IsEntryOf self.now.crew.entries.items item.now.subject entry.entry →
            AreCallsOf t table.now crew a (Stands about) result }
    {
        match item.subject {
            Subject::Root => self.calls_on_dir(of, table, NodeId::ROOT),
            Subject::Dir(dir, _, _) => self.calls_on_dir(of, table, dir),
            Subject::Others(dir) => self.calls_on_others(of, table, dir),
            Subject::Name(dir, name) => self.calls_on_name(of, table, dir, name, entry),
        }
    }

    /// Those on a directory: rmdir too, where it can come to be empty, and is neither the root nor a
    /// mount point.
    fn calls_on_dir(&self, of: &Agent<'_>, table: &CallTable, dir: NodeId) -> Calls
        ensures { (t : Tree) (crew : List ProcessState) (a : ProcessState) (way : Way) →
            IsOf t table.now crew self.now a of.now → is_dir t dir ≡ true →
            AreCallsOf t table.now crew a (Stands (At (Whole dir way))) result }
    {
        let covers = self.on_dir(of, dir);
        let lasting = of.calls_under(table, covers, Object::Node(Kind::Dir));
        if !self.is_removable(dir) {
            return lasting;
        }
        let emptied = of.calls_under(table, covers, Object::Removable);
        lasting.union(emptied)
    }

    /// Whether a directory can come to be empty, and is neither the root nor a mount point.
    fn is_removable(&self, dir: NodeId) -> bool
        ensures { result ≡ (not (is_top self.now.crew.devices.items dir)
            && not (get_or self.now.held.items dir false)) }
    {
        !self.crew.is_top(dir) && self.is_emptied(dir)
    }

    /// Those on the further names of a directory.
    fn calls_on_others(&self, of: &Agent<'_>, table: &CallTable, dir: NodeId) -> Calls
        ensures { (t : Tree) (crew : List ProcessState) (a : ProcessState) →
            IsOf t table.now crew self.now a of.now → is_dir t dir ≡ true →
            AreCallsOf t table.now crew a (Stands (Others dir)) result }
    {
        of.calls_under(table, self.on_dir(of, dir), Object::Missing)
    }

    /// Those on a name at which no directory stands, by what stands there.
    fn calls_on_name(
        &self,
        of: &Agent<'_>,
        table: &CallTable,
        dir: NodeId,
        name: &Name,
        entry: Option<&Entry<'_>>,
    ) -> Calls
        ensures { (t : Tree) (crew : List ProcessState) (a : ProcessState) →
            IsOf t table.now crew self.now a of.now → is_dir t dir ≡ true →
            ((x : _) → look t dir name.now ≡ Some x → is_dir t x ≡ false) →
            IsEntryIn self.now.crew.entries.items (dir, name.now) entry.entry →
            AreCallsOf t table.now crew a
            (Stands (At (Slot dir name.now (look t dir name.now)))) result }
    {
        match entry {
            Some(entry) => self.calls_on_entry(of, table, entry),
            None => calls_on_free(of, table, dir, name),
        }
    }

    /// Those on what stands at a name and is no directory: exec too on a file that can be made a
    /// program.
    pub(crate) fn calls_on_entry(
        &self,
        of: &Agent<'_>,
        table: &CallTable,
        entry: &Entry<'_>,
    ) -> Calls
        ensures { (t : Tree) (crew : List ProcessState) (a : ProcessState) →
            IsOf t table.now crew self.now a of.now →
            Contains self.now.crew.entries.items entry.now → is_dir t entry.now.node ≡ false →
            AreCallsOf t table.now crew a
            (Stands (At (Slot entry.now.dir entry.now.name.now (Some entry.now.node)))) result }
    {
        let covers = self.on_entry(of, entry);
        let calls = of.calls_under(table, covers, Object::Node(entry.kind));
        if !self.is_turned(entry.node) {
            return kept_by(entry.kind, calls);
        }
        let started = of.calls_under(table, covers, Object::Node(Kind::Prog));
        on_new_file(calls, started)
    }

    /// Those on the name at which an item stands, once that is taken away; none where it has no
    /// veil of its own, or what stands there can't be taken away.
    fn calls_on_freed(&self, of: &Agent<'_>, table: &CallTable, item: &Item<'_>) -> Calls
        ensures { (t : Tree) (crew : List ProcessState) (a : ProcessState) (about : About) →
            IsOf t table.now crew self.now a of.now → SubjectFits t about →
            IsItemOn t a about item.now → AreOwnCalls t table.now crew a
            (own_given item.now.subject item.now.object) result }
    {
        let Some(own) = own_name(item) else {
            return Calls::NONE;
        };
        if !of.named {
            return Calls::NONE;
        }
        let Some(entry) = self.entry(own.0, own.1) else {
            return Calls::NONE;
        };
        if !self.crew.is_taken(&self.told, entry.row) {
            return Calls::NONE;
        }
        calls_on_free(of, table, own.0, own.1)
    }

    /// Those on what can be made.
    pub(crate) fn calls_on_made(&self, of: &Agent<'_>, table: &CallTable, made: Made) -> Calls
        ensures { (t : Tree) (crew : List ProcessState) (a : ProcessState) →
            IsOf t table.now crew self.now a of.now →
            AreCallsOf t table.now crew a (Comes (new_of made)) result }
    {
        match made {
            Made::Dir => of.calls_under(table, self.on_made_dir(of), Object::Removable),
            Made::Others => of.calls_under(table, self.on_made_dir(of), Object::Missing),
            Made::File => {
                let covers = self.on_made(of, Made::File);
                let calls = of.calls_under(table, covers, Object::Node(table.rules().file()));
                let started = of.calls_under(table, covers, Object::Node(Kind::Prog));
                on_new_file(calls, started)
            }
            Made::Link => {
                let covers = self.on_made(of, Made::Link);
                let calls = of.calls_under(table, covers, Object::Node(Kind::Link));
                calls.keeping()
            }
            Made::Sock => self.calls_on_typed(of, table, made, FileType::Sock),
            Made::Fifo => self.calls_on_typed(of, table, made, FileType::Fifo),
        }
    }

    /// Those on what is made as a file of this type.
    fn calls_on_typed(
        &self,
        of: &Agent<'_>,
        table: &CallTable,
        made: Made,
        file_type: FileType,
    ) -> Calls
        ensures { AreCallsByCover table.now of.now.process.now of.now.calls.items →
            (call : AnyCall) → has result call ≡ list_any (allows_under table.now
            of.now.process.now (new_covers self.now.crew self.now.told.items of.now (new_of made))
            (Is (TypedKind.Known file_type)) call) (numbered 18) }
    {
        of.calls_under(
            table,
            self.on_made(of, made),
            Object::Node(Kind::Known(file_type)),
        )
    }

    /// What stands at the name that an item is about, if it is about one. Items are asked for one
    /// after another, and what was found last says where the next one is looked for first.
    pub(crate) fn entry_of(&self, item: &Item<'_>, next: &mut usize) -> Option<&Entry<'_>>
        ensures { AreInOrder self.now.crew.entries.items →
            IsEntryOf self.now.crew.entries.items item.now.subject result }
    {
        match item.subject {
            Subject::Name(dir, name) => entry_after(&self.crew.entries, next, dir, name),
            Subject::Root | Subject::Dir(_, _, _) | Subject::Others(_) => None,
        }
    }

    /// What stands at a name.
    fn entry(&self, dir: NodeId, name: &Name) -> Option<&Entry<'_>>
        ensures { AreInOrder self.now.crew.entries.items →
            IsEntryIn self.now.crew.entries.items (dir, name.now) result }
    {
        entry_at(&self.crew.entries, dir, name)
    }
}

/// The calls on what is of a kind: on a link those that keep it.
fn kept_by(kind: Kind, calls: Calls) -> Calls
    ensures { (call : AnyCall) → has result call
        ≡ ((keeps_link call || not (is_link_kind (Some kind))) && has calls call) }
{
    if kind == Kind::Link {
        calls.keeping()
    } else {
        calls
    }
}

/// Those on a name where nothing stands, by its own veil; none where it has none.
fn calls_on_free(of: &Agent<'_>, table: &CallTable, dir: NodeId, name: &Name) -> Calls
    ensures { AreFreeCalls table.now of.now.process.now dir name.now result }
{
    match of.process.kept(&Place::Slot(dir, *name)) {
        Some(perms) => judge::allowed(of.process, table, Cover::Only(perms), Object::Missing),
        None => Calls::NONE,
    }
}
