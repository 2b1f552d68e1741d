//! What a row of a list for ever is about, as a way is asked for to it.

ghost use Rattle.std.specs.Prelude.{◌≡◌, ℕ, Some, option_map};
ghost use Rattle.pua_tree.specs.Tree.{look};
ghost use Rattle.pua_path.specs.declared.found.Found.TheVariants.{Slot};
ghost use Rattle.pua_objects.specs.Objects.{At};
ghost use Rattle.pua_ever.specs.Ever.{Comes, Stands};
ghost use Rattle.pua_ever.specs.EverLines.{new_of};
ghost use Rattle.pua_ever.specs.EverList.{subject_at, thing_of};
ghost use Rattle.pua_how.specs.Targets.{target_about};

use crate::target::Target;
use pua_ever::{EverAbout, EverPlace, EverRow, Made};
use pua_tree::{FileTree, Name, NodeId};

/// What a row of a list for ever is about, as a way is asked for to it, by the last number of the
/// nodes that live. None where the row lacks the name that it is about, as no row of a list does.
pub fn target_of<T: FileTree>(tree: &T, last: NodeId, row: &EverRow<'_>) -> Option<Target>
    ensures { result ≡ option_map (target_about last) (thing_of (T.content tree.now) row.now) }
{
    match &row.about {
        EverAbout::Stands(place, _, _) => standing(tree, place, row.name),
        EverAbout::Freed(dir) => Some(Target::Name(*dir, *row.name?)),
        EverAbout::Comes(made) => Some(coming(*made, last)),
    }
}

/// The same of what stands or could stand at a place.
fn standing<T: FileTree>(tree: &T, place: &EverPlace, name: Option<&Name>) -> Option<Target>
    ensures { (last : ℕ) → result ≡ option_map (λ about. target_about last (Stands about))
        (subject_at (T.content tree.now) (option_map (λ name. name.now) name.entry) place.now) }
{
    match place {
        EverPlace::Root => Some(Target::Directory(NodeId::ROOT)),
        EverPlace::Dir(id, _) => name.and(Some(Target::Directory(*id))),
        EverPlace::Others(dir) => Some(Target::Others(*dir)),
        EverPlace::Name(dir) => Some(named(tree, *dir, name?)),
    }
}

/// What stands at a name, or the name where nothing does.
fn named<T: FileTree>(tree: &T, dir: NodeId, name: &Name) -> Target
    ensures { (last : ℕ) → result ≡ target_about last
        (Stands (At (Slot dir name.now (look (T.content tree.now) dir name.now)))) }
{
    match tree.look(dir, name) {
        Some(node) => Target::Node(node),
        None => Target::Name(dir, *name),
    }
}

/// What can be made, with a number above this one.
fn coming(made: Made, last: NodeId) -> Target
    ensures { result ≡ target_about last (Comes (new_of made)) }
{
    match made {
        Made::Dir => Target::NewDirectory(last),
        Made::Others => Target::NewOthers(last),
        Made::File => Target::NewFile(last),
        Made::Link => Target::NewLink(last),
        Made::Sock => Target::NewSock(last),
        Made::Fifo => Target::NewFifo(last),
    }
}
