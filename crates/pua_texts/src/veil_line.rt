//! The lines of veils, written in blocks.

ghost use Rattle.std.specs.Prelude.{◌≡◌, ◌++◌, ◌∷◌, [], codes, map};
ghost use Rattle.pua_calls.specs.Promises.{perm_letters};
ghost use Rattle.pua_texts.specs.Blocks.{PassesOn};
ghost use Rattle.pua_texts.specs.States.{or_equals, path_or_hyphen, veil_lines};

use crate::block::Block;
use crate::list_line::add_path;
use crate::places::VeilPaths;
use pua_calls::Perms;
use pua_io::{PutFault, Sink};
use pua_policy::Place;
use pua_tree::{FileTree, Name};
use pua_why::letters;

/// Adds a line for each veil.
pub(crate) fn add_veils<'t, T: FileTree, S: Sink>(
    block: &mut Block,
    veils: &[(&'t Place, &'t Perms)],
    places: &mut VeilPaths<'t, T>,
    sink: &mut S,
) -> Result<(), PutFault>
    ensures lines { PassesOn S.written S.failed
        (veil_lines places.old.tree (map (λ veil. (veil.0.now, veil.1.now)) veils.now))
        result block.old block.new sink.old sink.new }
    ensures tree { places.new.tree ≡ places.old.tree }
{
    for veil in veils {
        let (place, perms) = *veil;
        let stands = places.find(place);
        add_veil(block, stands, places.names(), *perms, sink)?;
    }
    Ok(())
}

/// Adds the line of a veil, whose place may stand at the end of these names.
fn add_veil<S: Sink>(
    block: &mut Block,
    stands: bool,
    names: &[&Name],
    perms: Perms,
    sink: &mut S,
) -> Result<(), PutFault>
    ensures { PassesOn S.written S.failed
        (codes "veil " ++ ((path_or_hyphen stands (map (λ name. name.now) names.now)
        ++ 32 ∷ []) ++ (or_equals (perm_letters perms) ++ 10 ∷ [])))
        result block.old block.new sink.old sink.new }
{
    block.add(b"veil ", sink)?;
    add_place(block, stands, names, sink)?;
    add_letters(block, perms, sink)
}

/// Adds the path of a place that stands, or `-`, and a blank.
fn add_place<S: Sink>(
    block: &mut Block,
    stands: bool,
    names: &[&Name],
    sink: &mut S,
) -> Result<(), PutFault>
    ensures { PassesOn S.written S.failed
        (path_or_hyphen stands (map (λ name. name.now) names.now) ++ 32 ∷ [])
        result block.old block.new sink.old sink.new }
{
    if stands {
        add_path(block, names, sink)
    } else {
        block.add(b"- ", sink)
    }
}

/// Adds the letters of a veil, or `=`, and LF.
fn add_letters<S: Sink>(block: &mut Block, perms: Perms, sink: &mut S) -> Result<(), PutFault>
    ensures { PassesOn S.written S.failed
        (or_equals (perm_letters perms) ++ 10 ∷ [])
        result block.old block.new sink.old sink.new }
{
    block.make_room(sink)?;
    block.push(letters(perms).as_bytes());
    block.push(b"\n");
    Ok(())
}
