//! What covers something and whether it is at or below a root, handed down from directory to
//! directory.

ghost use Rattle.std.specs.Prelude.{◌≡◌, ◌||◌, ◌==◌, None, false};
ghost use Rattle.pua_policy.specs.States.{root_dir, veil_at};
ghost use Rattle.pua_objects.specs.Veils.{IsHandedDown, IsOver, unveiled};

use pua_policy::{Cover, Place, Process};
use pua_tree::{Name, NodeId};

/// What covers something: which veil, by its index among those of the process, and what it leaves;
/// and whether it is at or below the root of the process.
#[derive(Clone, Copy)]
pub(crate) struct Over {
    pub(crate) veil: Option<usize>,
    pub(crate) cover: Cover,
    pub(crate) inside: bool,
}

/// What covers what no veil is over, and is in no root.
pub(crate) fn outermost(process: &Process) -> Over
    ensures covers { IsOver process.now.veils result (unveiled process.now.veils) }
    ensures inside { result.inside ≡ false }
{
    if process.is_veiled() {
        Over {
            veil: None,
            cover: Cover::Nothing,
            inside: false,
        }
    } else {
        Over {
            veil: None,
            cover: Cover::All,
            inside: false,
        }
    }
}

/// The veil at a place, or where it has none what covers the names around it.
fn own_or(process: &Process, place: &Place, over: &Over) -> Over
    ensures handed { IsHandedDown process.now place.now over.now result }
    ensures inside { result.inside ≡ over.now.inside }
{
    match process.own_veil(place) {
        Some((index, perms)) => Over {
            veil: Some(index),
            cover: Cover::Only(perms),
            inside: over.inside,
        },
        None => *over,
    }
}

/// What covers a directory, by what covers the names around it. It is at or below the root if it is
/// that, or the directory around it is. No place is made where no veil is kept: it takes some 260
/// bytes.
pub(crate) fn over_dir(process: &Process, dir: NodeId, over: &Over) -> Over
    ensures handed { IsHandedDown process.now (Place.Dir dir) over.now result }
    ensures inside { result.inside ≡ (dir == root_dir process.now || over.now.inside) }
{
    let mut own = if process.is_veiled() {
        own_or(process, &Place::Dir(dir), over)
    } else {
        *over
    };
    own.inside = dir == process.start().root || over.inside;
    own
}

/// The same at a name, in a directory in which a veil may be kept at a name, or is kept at none.
pub(crate) fn over_name(
    process: &Process,
    veiled: bool,
    dir: NodeId,
    name: &Name,
    over: &Over,
) -> Over
    ensures handed { (veiled ≡ false → veil_at process.now.veils (Place.Slot dir name.now) ≡ None) →
        IsHandedDown process.now (Place.Slot dir name.now) over.now result }
    ensures inside { result.inside ≡ over.now.inside }
{
    if veiled {
        own_or(process, &Place::Slot(dir, *name), over)
    } else {
        *over
    }
}
