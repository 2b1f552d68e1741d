//! The names under which something stands or is veiled: those of a tree's rows, and those of veils.

ghost use Rattle.std.specs.Prelude.{◌≡◌, [], ◌∷◌, ◌++◌, IfOk, OnOk, IsTrue, map, filter_map};
ghost use Rattle.pua_policy.specs.States.{ProcessState};
ghost use Rattle.pua_tree.specs.LentRows.{lent_entry};
ghost use Rattle.pua_tree.specs.Tree.{Tree, WellFormed, spot_cmp};
ghost use Rattle.pua_audit.specs.Laws.{Rises};
ghost use Rattle.pua_objects.specs.Laws.{is_place, HasPlaces};
ghost use Rattle.pua_objects.specs.Spots.{spot_now, row_spot, veil_spot, AreAtNames, AreInOrder};
ghost use Rattle.pua_objects.specs.Spots.{AreSpots};

use pua_policy::{Place, Process};
use pua_tree::{LentRow, Name, NodeId, OutOfMemory};
use std::alloc::{AllocError, Global};

/// The spots of a tree's rows, which are all given, and of the veils at names, each once, by
/// directory and then by the bytes of the name. The only error is that a growth was refused. A veil
/// that is not at a directory is at a name.
pub(crate) fn spots<'t>(
    alloc: Global,
    rows: &[LentRow<'t>],
    process: &'t Process,
) -> Result<Vec<(NodeId, &'t Name)>, OutOfMemory>
    ensures places { OnOk result (HasPlaces process.now) }
    ensures spots { (t : Tree) → WellFormed t → map lent_entry rows.now ≡ t.rows →
        IfOk result (λ spots. AreSpots t process.now.veils (map spot_now spots.items)) }
{
    let places = process.places(alloc)?;
    Ok(distinct_spots(alloc, rows, &places)?)
}

/// The spots of rows, which are in order, and of veils, each once, in order.
fn distinct_spots<'t>(
    alloc: Global,
    rows: &[LentRow<'t>],
    places: &[&'t Place],
) -> Result<Vec<(NodeId, &'t Name)>, AllocError>
    ensures places { OnOk result (AreAtNames (map (λ place. place.now) places.now)) }
    ensures spots { Rises spot_cmp (map row_spot rows.now) → IfOk result
        (λ spots. AreInOrder (map row_spot rows.now
        ++ filter_map veil_spot (map (λ place. place.now) places.now)) (map spot_now spots.items)) }
{
    let mut spots: Vec<(NodeId, &'t Name)> = rows
        .iter()
        .map(|row| (row.dir, row.name))
        .collect(alloc)?;
    add_veiled(&mut spots, places)?;
    if spots.len() == rows.len() {
        return Ok(spots);
    }
    spots.sort()?;
    spots.dedup();
    Ok(spots)
}

/// Adds the spots of veils at names.
fn add_veiled<'t>(
    spots: &mut Vec<(NodeId, &'t Name)>,
    places: &[&'t Place],
) -> Result<(), AllocError>
    ensures places { OnOk result (AreAtNames (map (λ place. place.now) places.now)) }
    ensures spots { OnOk result (map spot_now spots.new.items ≡ map spot_now spots.old.items
        ++ filter_map veil_spot (map (λ place. place.now) places.now)) }
{
    for place in places {
        add_slot(spots, *place)?;
    }
    Ok(())
}

/// Adds the spot of a veil, if it is at a name.
fn add_slot<'t>(spots: &mut Vec<(NodeId, &'t Name)>, place: &'t Place) -> Result<(), AllocError>
    ensures place { IsTrue (is_place place.now) }
    ensures spot { OnOk result (map spot_now spots.new.items ≡ map spot_now spots.old.items
        ++ filter_map veil_spot (place.now ∷ [])) }
{
    let Place::Slot(dir, name) = place else {
        return Ok(());
    };
    // From this call the prover knows that the bytes are a name's, as `place` says.
    let _known = name.bytes();
    if spots.push((*dir, name)).is_err() {
        return Err(AllocError);
    }
    Ok(())
}
