//! A line of the list: what it is about, and the calls that are allowed on it.

ghost use Rattle.std.specs.Prelude.{◌≡◌, ℕ};
ghost use Rattle.pua_tree.specs.Tree.{Tree};
ghost use Rattle.pua_path.specs.declared.found.Found.{Found as FoundThing};
ghost use Rattle.pua_calls.specs.Calls.{CallTable as Rules};
ghost use Rattle.pua_policy.specs.declared.answer.Cover.{Cover as Covered};
ghost use Rattle.pua_policy.specs.AllowedCalls.{AreWorkedOut};
ghost use Rattle.pua_policy.specs.States.{ProcessState};
ghost use Rattle.pua_policy.specs.Objects.{object_seen};
ghost use Rattle.pua_policy.specs.Verdict.{cover as cover_of, object_of};
ghost use Rattle.pua_objects.specs.Objects.{Subject as About, At, Others, cover_in};
ghost use Rattle.pua_objects.specs.Items.{IsItemOn, subject_given};
ghost use Rattle.pua_objects.specs.ListItems.{IsToldIn};
ghost use Rattle.pua_objects.specs.Lines.{AreAllowed, IsLineOn, IsShownLine};
ghost use Rattle.pua_objects.specs.Roots.{IsByRoot};

use crate::item::{Item, Subject};
use crate::kind::ObjectKind;
use crate::list::ListItem;
use crate::roots::Shown;
use pua_calls::{CallTable, Calls};
use pua_policy::{AllowedCalls, Object, Process, judge};
use pua_tree::Kind;

/// A line of the list, but for the names that lead there.
#[derive(Clone, Copy, PartialEq, Eq)]
pub struct ObjectLine {
    /// What it is about.
    pub kind: ObjectKind,
    /// The calls that are allowed on it.
    pub calls: Calls,
}

/// The line of an item: the calls that are allowed on it, of which there may be none.
pub fn line_of(process: &Process, table: &CallTable, item: &Item<'_>) -> ObjectLine
    ensures { (t : Tree) (about : About) → IsItemOn t process.now about item.now →
        IsLineOn t table.now process.now about result }
{
    line_with(
        item,
        judge::allowed(process, table, item.cover, item.object),
    )
}

/// The same, by what was worked out of a process and a table.
pub fn allowed_line(allowed: &AllowedCalls, item: &Item<'_>) -> ObjectLine
    ensures { (process : ProcessState) (table : Rules) (t : Tree) (about : About) →
        AreWorkedOut process table allowed.now →
        IsItemOn t process about item.now → IsLineOn t table process about result }
{
    line_with(item, allowed.on(item.cover, item.object))
}

/// The same where its list shows the item; else it has no calls. What is shown is by the root of the
/// process for which the item was listed.
pub fn shown_line(shown: &Shown, allowed: &AllowedCalls, item: &ListItem<'_>) -> ObjectLine
    ensures { (process : ProcessState) (table : Rules) (t : Tree) →
        AreWorkedOut process table allowed.now → IsByRoot process shown.now →
        IsToldIn t process item.now →
        IsShownLine t table process shown.now (subject_given t item.now.item.subject) result }
{
    let line = allowed_line(allowed, &item.item);
    if shown.shows(item) {
        return line;
    }
    ObjectLine {
        kind: line.kind,
        calls: Calls::NONE,
    }
}

/// The line of an item on whose object these calls are allowed.
fn line_with(item: &Item<'_>, calls: Calls) -> ObjectLine
    ensures { (t : Tree) (table : Rules) (h : ProcessState) (about : About) →
        AreAllowed t table h item.now.cover item.now.object calls →
        IsItemOn t h about item.now → IsLineOn t table h about result }
{
    match item.subject {
        Subject::Others(_) => line_of_others(calls),
        _ => line_at(item.object, calls),
    }
}

/// The line of what stands somewhere, or of a name where nothing stands, on which these calls are
/// allowed. On a link only those calls are listed that keep it.
fn line_at(object: Object, calls: Calls) -> ObjectLine
    ensures { (t : Tree) (table : Rules) (h : ProcessState) (found : FoundThing) (cover : Covered) →
        AreAllowed t table h cover object calls →
        cover ≡ cover_of t h found → object ≡ object_seen t (object_of t found) →
        IsLineOn t table h (At found) result }
{
    let calls = if object == Object::Node(Kind::Link) {
        calls.keeping()
    } else {
        calls
    };
    ObjectLine {
        kind: ObjectKind::of(object),
        calls,
    }
}

/// The line of a directory's further names, on which these calls are allowed.
fn line_of_others(calls: Calls) -> ObjectLine
    ensures { (t : Tree) (table : Rules) (h : ProcessState) (dir : ℕ) (cover : Covered) →
        AreAllowed t table h cover Object.Missing calls →
        cover ≡ cover_in t h dir → IsLineOn t table h (Others dir) result }
{
    ObjectLine {
        kind: ObjectKind::Other,
        calls,
    }
}
