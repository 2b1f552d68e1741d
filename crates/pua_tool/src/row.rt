//! The calls of now on what a row of a list for ever is about.

ghost use Rattle.std.specs.Prelude.{◌≡◌, Some, option_map};
ghost use Rattle.pua_tree.specs.Tree.{Tree};
ghost use Rattle.pua_calls.specs.CallSets.{has};
ghost use Rattle.pua_calls.specs.declared.call.Call.{Call};
ghost use Rattle.pua_objects.specs.Items.{subject_given};
ghost use Rattle.pua_objects.specs.Objects.{Subject as About};
ghost use Rattle.pua_ever.specs.Ever.{Stands, Thing};
ghost use Rattle.pua_ever.specs.EverList.{IsRowOn, IsStandingOn, subject_at, thing_of};
ghost use Rattle.pua_tool.specs.RowColumns.{is_now_on};

use pua_calls::{CallTable, Calls};
use pua_ever::{EverAbout, EverPlace, EverRow};
use pua_objects::{Item, Subject, line_of};
use pua_policy::{Cover, Object, Process};
use pua_tree::Name;

/// The calls on what a row is about, as the list of now has them: none on what is still to be made,
/// nor on a name at which something stands, once that is taken away.
pub(crate) fn calls_now(process: &Process, table: &CallTable, row: &EverRow<'_>) -> Calls
    ensures { (t : Tree) (about : Thing) → IsRowOn t process.now row.now →
        thing_of t row.now ≡ Some about → (call : Call) →
        has result call ≡ is_now_on t table.now process.now about call }
{
    match &row.about {
        EverAbout::Stands(place, object, cover) => {
            standing_now(process, table, place, row.name, *object, *cover)
        }
        EverAbout::Freed(_) => Calls::NONE,
        EverAbout::Comes(_) => Calls::NONE,
    }
}

/// The calls on what stands or could stand at a place, by its name if it has one, by what a call is
/// on there and what covers it.
fn standing_now(
    process: &Process,
    table: &CallTable,
    place: &EverPlace,
    name: Option<&Name>,
    object: Object,
    cover: Cover,
) -> Calls
    ensures { (t : Tree) (about : About) →
        subject_at t (option_map (λ name. name.now) name.entry) place.now ≡ Some about →
        IsStandingOn t process.now object cover about → (call : Call) →
        has result call ≡ is_now_on t table.now process.now (Stands about) call }
{
    let Some(subject) = subject_of(place, name) else {
        return Calls::NONE;
    };
    let item = Item {
        subject,
        object,
        cover,
    };
    line_of(process, table, &item).calls
}

/// What stands or could stand at a place, by its name if it has one.
fn subject_of<'t>(place: &EverPlace, name: Option<&'t Name>) -> Option<Subject<'t>>
    ensures { (t : Tree) → option_map (subject_given t) result
        ≡ subject_at t (option_map (λ name. name.now) name.entry) place.now }
{
    match place {
        EverPlace::Root => Some(Subject::Root),
        EverPlace::Dir(id, dir) => Some(Subject::Dir(*id, *dir, name?)),
        EverPlace::Others(dir) => Some(Subject::Others(*dir)),
        EverPlace::Name(dir) => Some(Subject::Name(*dir, name?)),
    }
}
