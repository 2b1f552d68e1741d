//! Veils that are kept, and what they leave.

use pua_calls::Perms;
use pua_path::Errno;
use pua_policy::judge::cover_fault;
use pua_policy::{Cover, MOST_PLACES, Place, Process, UnveilFault};
use pua_tree::NodeId;
use std::alloc::Global;

/// A locked process takes no veil.
fn locked_process_takes_a_veil(alloc: Global) {
    let Ok(mut process) = Process::new(alloc) else {
        return;
    };
    process.lock();
    let place = Place::Dir(NodeId::ROOT);
    if let Ok(()) = process.unveil_at(place, Perms::READ) {
        unreachable!()
    }
}

/// A place that is kept already is never one too many.
fn kept_place_counts_anew(process: &mut Process, place: Place) {
    if process.kept(&place) != Some(Perms::READ) {
        return;
    }
    if let Err(UnveilFault::TooManyPlaces) = process.unveil_at(place, Perms::READ) {
        unreachable!()
    }
}

/// Where 127 places are kept, there is room for one more.
fn place_128_refused(alloc: Global, process: &mut Process, place: Place) {
    let Ok(places) = process.places(alloc) else {
        return;
    };
    let count = places.len();
    drop(places);
    if count + 1 != MOST_PLACES {
        return;
    }
    if let Err(UnveilFault::TooManyPlaces) = process.unveil_at(place, Perms::READ) {
        unreachable!()
    }
}

/// Where 128 places are kept, no new one is taken.
fn place_129_accepted(alloc: Global, process: &mut Process, place: Place) {
    let Ok(places) = process.places(alloc) else {
        return;
    };
    let count = places.len();
    drop(places);
    if count != MOST_PLACES || process.kept(&place).is_some() {
        return;
    }
    if let Ok(()) = process.unveil_at(place, Perms::READ) {
        unreachable!()
    }
}

/// The permissions of the last unveil are those that are kept.
fn kept_of_the_first_unveil(alloc: Global) {
    let Ok(mut process) = Process::new(alloc) else {
        return;
    };
    let place = Place::Dir(NodeId::ROOT);
    let Ok(()) = process.unveil_at(place, Perms::READ) else {
        return;
    };
    let Ok(()) = process.unveil_at(place, Perms::NONE) else {
        unreachable!()
    };
    if process.kept(&place) != Some(Perms::NONE) {
        unreachable!()
    }
}

/// After an unveil a veil is lent.
fn no_veils_lent(alloc: Global) {
    let Ok(mut process) = Process::new(alloc) else {
        return;
    };
    let Ok(()) = process.unveil_at(Place::Dir(NodeId::ROOT), Perms::READ) else {
        return;
    };
    let Ok(veils) = process.veils(alloc) else {
        return;
    };
    if veils.is_empty() {
        unreachable!()
    }
}

/// After an unveil a place is lent.
fn veiled_places_forgotten(alloc: Global) {
    let Ok(mut process) = Process::new(alloc) else {
        return;
    };
    let Ok(()) = process.unveil_at(Place::Dir(NodeId::ROOT), Perms::READ) else {
        return;
    };
    let Ok(places) = process.places(alloc) else {
        return;
    };
    if places.is_empty() {
        unreachable!()
    }
}

/// A place without a veil of its own has the cover that is handed down to it.
fn nothing_handed_down(alloc: Global) {
    let Ok(process) = Process::new(alloc) else {
        return;
    };
    if process.own_cover(&Place::Dir(NodeId::ROOT), Cover::All) != Cover::All {
        unreachable!()
    }
}

/// What no veil covers is missing.
fn eacces_without_cover() {
    if cover_fault(Cover::Nothing, Perms::READ) != Some(Errno::ENOENT) {
        unreachable!()
    }
}
