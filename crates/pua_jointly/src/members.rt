//! The processes of a crew: of equal ones there is one.

ghost use Rattle.std.specs.Prelude.{◌≡◌, ◌<◌, map, flat_map, IfOk};
ghost use Rattle.std.specs.Bool.{Decides};
ghost use Rattle.std.specs.List.{Contains};
ghost use Rattle.pua_policy.specs.States.{veils as veils_of};
ghost use Rattle.pua_jointly.specs.JointMembers.{AreSmall, SameMembers, file_now, has_same_state};
ghost use Rattle.pua_jointly.specs.JointMembers.{kind_number, same_file, same_veil, states, veil_now};
ghost use Rattle.pua_jointly.specs.JointPlace.{Once};

use pua_calls::Perms;
use pua_policy::{OpenFile, Place, Process};
use pua_tree::{FileType, Kind, OutOfMemory};
use std::alloc::{AllocError, Global};

/// The processes, of equal ones one. The only error is that a growth was refused.
pub(crate) fn distinct<'t>(
    alloc: Global,
    processes: &[&'t Process],
) -> Result<Vec<&'t Process>, OutOfMemory>
    ensures once { IfOk result (λ kept. Once (states kept.items)) }
    ensures same { IfOk result (λ kept. SameMembers (states processes.now) (states kept.items)) }
{
    let mut kept = Vec::new(alloc);
    for process in processes {
        if !has_equal(alloc, &kept, process)? {
            kept.push(*process)?;
        }
    }
    Ok(kept)
}

/// Whether one of these processes is equal to another one. The only error is that a growth was
/// refused.
fn has_equal(alloc: Global, kept: &[&Process], process: &Process) -> Result<bool, OutOfMemory>
    ensures { IfOk result (λ has. Decides has (Contains (states kept.now) process.now)) }
{
    for other in kept {
        if is_equal(alloc, other, process)? {
            return Ok(true);
        }
    }
    Ok(false)
}

/// Whether two processes are equal. The only error is that a growth was refused.
pub(crate) fn is_equal(alloc: Global, one: &Process, other: &Process) -> Result<bool, OutOfMemory>
    ensures { IfOk result (λ is. Decides is (one.now ≡ other.now)) }
{
    let alike = have_same_files(alloc, one, other)?;
    if !alike {
        return Ok(false);
    }
    let own = one.veils(alloc)?;
    let others = other.veils(alloc)?;
    Ok(has_same_state(one, other) && are_same(&own, &others))
}

/// Whether two processes have the same files open. The only error is that a growth was refused.
fn have_same_files(alloc: Global, one: &Process, other: &Process) -> Result<bool, OutOfMemory>
    ensures { IfOk result (λ is. Decides is (one.now.files ≡ other.now.files)) }
{
    let own = one.files(alloc)?;
    let others = other.files(alloc)?;
    Ok(are_same_files(&own, &others))
}

/// Whether these open files are the same, by the numbers of their descriptors.
fn are_same_files(own: &[(&u32, &OpenFile)], others: &[(&u32, &OpenFile)]) -> bool
    ensures { Decides result (map file_now own.now ≡ map file_now others.now) }
{
    if own.len() != others.len() {
        return false;
    }
    for (place, file) in own.iter().enumerate() {
        if !is_same_file(file, &others[place]) {
            return false;
        }
    }
    true
}

/// Whether two descriptors stand for the same open file.
fn is_same_file(one: &(&u32, &OpenFile), other: &(&u32, &OpenFile)) -> bool
    ensures { result ≡ same_file (file_now one.now) (file_now other.now) }
{
    one.0 == other.0
        && one.1.node == other.1.node
        && kind_number(one.1.kind) == kind_number(other.1.kind)
        && one.1.letters == other.1.letters
}

/// A number for each kind.
fn kind_number(kind: Kind) -> u32
    ensures { result ≡ kind_number kind }
{
    match kind {
        Kind::Dir => 0,
        Kind::File => 1,
        Kind::Prog => 2,
        Kind::Link => 3,
        Kind::Known(FileType::Plain) => 4,
        Kind::Known(FileType::Sock) => 5,
        Kind::Known(FileType::Fifo) => 6,
        Kind::Known(FileType::Dev) => 7,
    }
}

/// Whether two processes are equal but for their veils and open files.
fn has_same_state(one: &Process, other: &Process) -> bool
    ensures { result ≡ has_same_state one.now other.now }
{
    one.promises() == other.promises()
        && one.execpromises() == other.execpromises()
        && one.locked() == other.locked()
        && one.start().root == other.start().root
        && one.start().dir == other.start().dir
        && one.ended() == other.ended()
}

/// Whether these veils are the same, in one order.
fn are_same(own: &[(&Place, &Perms)], others: &[(&Place, &Perms)]) -> bool
    ensures { Decides result (map veil_now own.now ≡ map veil_now others.now) }
{
    if own.len() != others.len() {
        return false;
    }
    for (place, veil) in own.iter().enumerate() {
        if !is_same(veil, &others[place]) {
            return false;
        }
    }
    true
}

/// Whether two veils are the same.
fn is_same(one: &(&Place, &Perms), other: &(&Place, &Perms)) -> bool
    ensures { result ≡ same_veil (veil_now one.now) (veil_now other.now) }
{
    one.0 == other.0 && one.1 == other.1
}

/// The veils of all processes, those of one after those of another. The only error is that a growth
/// was refused.
pub(crate) fn all_veils<'t>(
    alloc: Global,
    members: &[&'t Process],
) -> Result<Vec<(&'t Place, &'t Perms)>, OutOfMemory>
    ensures { IfOk result (λ veils.
        map veil_now veils.items ≡ flat_map veils_of (states members.now)) }
{
    let mut veils = Vec::new(alloc);
    for process in members {
        let own = process.veils(alloc)?;
        veils.extend_from_slice(&own)?;
    }
    Ok(veils)
}

/// Does nothing. A caller learns from it that the permissions of veils are below 16.
pub(crate) fn know_perms(veils: &[(&Place, &Perms)])
    ensures { AreSmall (map veil_now veils.now) }
{
    for veil in veils {
        know(*veil.1);
    }
}

/// Does nothing. A caller learns from it that permissions are below 16.
fn know(perms: Perms)
    ensures { perms < 16 }
{
    // The prover knows the invariant of a value that is handed in.
    let _known = perms;
}
