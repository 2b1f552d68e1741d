//! When two reasons are the same.

ghost use Rattle.std.specs.Prelude.{◌≡◌, ◌++◌, ◌∷◌, IfOk, OnOk, map};
ghost use Rattle.pua_path.specs.declared.traced.PathFault.TheVariants as faults;
ghost use Rattle.pua_tree.specs.Names.{same_bytes};
ghost use Rattle.pua_calls.specs.Promises.{lacking};
ghost use Rattle.pua_why.specs.Keys.{exec_key, fault_key, file_key, misfit_group, misfit_key};
ghost use Rattle.pua_why.specs.Keys.{path_key};
ghost use Rattle.pua_why.specs.Keys.{place_key, reason_key, side_key, text_key};
ghost use Rattle.pua_why.specs.Seen.{fault_seen, file_fault_seen, reason_seen, side_seen};

use crate::told::{Fault, FileFault, Reason, Side};
use pua_calls::{Perms, Promises};
use pua_path::{PathFault, PathTextFault, Stop};
use pua_policy::{Misfit, Place};
use pua_tree::OutOfMemory;
use std::alloc::Global;
use std::marker::Model;

/// What of a reason has to be the same for two of them to be the same: what is lacked, and for
/// which cause. It says nothing of where a path leads. Contracts see a list of numbers.
#[derive(Drop)]
pub struct Key {
    numbers: Vec<u64>,
}

impl Model for Key {
    ghost use Rattle.std.specs.Prelude.{ℕ, List};

    ghost Value = { List ℕ };

    ghost view = { λ a. a.numbers.items };
}

impl Key {
    /// The key of a reason. The only error is that a growth was refused.
    pub fn of(alloc: Global, reason: &Reason<'_>) -> Result<Key, OutOfMemory>
        ensures { IfOk result (λ key. key ≡ reason_key (reason_seen reason.now)) }
    {
        let mut numbers = Vec::new(alloc);
        add_reason(&mut numbers, reason)?;
        Ok(Key { numbers })
    }

    /// Whether two reasons are the same, by their keys.
    pub fn is_same(&self, other: &Key) -> bool
        ensures { result ≡ same_bytes self.now other.now }
    {
        self.numbers.as_slice() == other.numbers.as_slice()
    }
}

/// Adds the numbers of a reason.
fn add_reason(numbers: &mut Vec<u64>, reason: &Reason<'_>) -> Result<(), OutOfMemory>
    ensures { OnOk result (numbers.new.items
        ≡ numbers.old.items ++ reason_key (reason_seen reason.now)) }
{
    match reason {
        Reason::NeverMade => add(numbers, &[0]),
        Reason::Ended => add(numbers, &[1]),
        Reason::Refused(fault) => {
            add(numbers, &[2])?;
            add_fault(numbers, fault)
        }
        Reason::Granted => add(numbers, &[3]),
    }
}

/// Adds the numbers of a fault.
fn add_fault(numbers: &mut Vec<u64>, fault: &Fault<'_>) -> Result<(), OutOfMemory>
    ensures { OnOk result (numbers.new.items
        ≡ numbers.old.items ++ fault_key (fault_seen fault.now)) }
{
    match *fault {
        Fault::Ends => add(numbers, &[0]),
        Fault::LacksPromises { held, sets, .. } => {
            add(numbers, &[1])?;
            add_lacks(numbers, held, sets)
        }
        Fault::LacksPromise { lacks, .. } => add(numbers, &[1, lacks.bits()]),
        Fault::BadTarget(fault) => add(numbers, &[2, text_number(fault)]),
        Fault::BadPath(side, ref fault) => add(
            numbers,
            &[3, side_number(side), path_number(fault)],
        ),
        Fault::NoRoot(side) => add(numbers, &[3, side_number(side), 8]),
        Fault::Uncovered(side, _) => add(numbers, &[4, side_number(side)]),
        Fault::LacksLetters {
            side,
            ref place,
            given,
            lacks,
        } => {
            add(numbers, &[5, side_number(side)])?;
            add_veil(numbers, place, given, lacks)
        }
        Fault::Unfit(side, _, misfit) => add(
            numbers,
            &[
                misfit_group_number(misfit),
                side_number(side),
                misfit_number(misfit),
            ],
        ),
        Fault::Inside { .. } => add(numbers, &[7]),
        Fault::UnknownPromise { of_exec } => add(numbers, &[8, exec_number(of_exec)]),
        Fault::AsksPromises { of_exec, lacks } => {
            add(numbers, &[9, exec_number(of_exec), lacks.bits()])
        }
        Fault::IsLocked => add(numbers, &[10]),
        Fault::UnknownLetter => add(numbers, &[11]),
        Fault::AsksLetters {
            ref place,
            given,
            lacks,
        } => {
            add(numbers, &[12])?;
            add_veil(numbers, place, given, lacks)
        }
        Fault::NoPlaceLeft => add(numbers, &[13]),
        Fault::NumberTaken(number) => add(numbers, &[14, u64::from(number)]),
        Fault::NoProcessLeft => add(numbers, &[15]),
        Fault::NoRoom => add(numbers, &[16]),
        Fault::WrongFile(fault) => add_file(numbers, fault),
    }
}

/// Adds the numbers of what is wrong with a descriptor.
fn add_file(numbers: &mut Vec<u64>, fault: FileFault) -> Result<(), OutOfMemory>
    ensures { OnOk result (numbers.new.items
        ≡ numbers.old.items ++ 17 ∷ file_key (file_fault_seen fault)) }
{
    match fault {
        FileFault::NotOpen(number) => add(numbers, &[17, 0, u64::from(number)]),
        FileFault::OpenNoDirectory(number) => add(numbers, &[17, 1, u64::from(number)]),
        FileFault::NotSent { from, theirs } => {
            add(numbers, &[17, 2, u64::from(from), u64::from(theirs)])
        }
        FileFault::MayNotSend(from) => add(numbers, &[17, 3, u64::from(from)]),
        FileFault::SendsDirectory { from, theirs } => {
            add(numbers, &[17, 4, u64::from(from), u64::from(theirs)])
        }
    }
}

/// Adds what of each of these sets is not held.
fn add_lacks(numbers: &mut Vec<u64>, held: Promises, sets: &[Promises]) -> Result<(), OutOfMemory>
    ensures { OnOk result (numbers.new.items
        ≡ numbers.old.items ++ map (lacking held) sets.now) }
{
    for set in sets {
        add(numbers, &[set.without(held).bits()])?;
    }
    Ok(())
}

/// Adds the letters of a veil, those that it lacks, and its place.
fn add_veil(
    numbers: &mut Vec<u64>,
    place: &Place,
    given: Perms,
    lacks: Perms,
) -> Result<(), OutOfMemory>
    ensures { OnOk result (numbers.new.items
        ≡ numbers.old.items ++ given ∷ lacks ∷ place_key place.now) }
{
    add(numbers, &[u64::from(given.bits()), u64::from(lacks.bits())])?;
    add_place(numbers, place)
}

/// Adds the numbers of a place.
fn add_place(numbers: &mut Vec<u64>, place: &Place) -> Result<(), OutOfMemory>
    ensures { OnOk result (numbers.new.items ≡ numbers.old.items ++ place_key place.now) }
{
    match place {
        Place::Dir(dir) => add(numbers, &[0, u64::from(dir.number())]),
        Place::Slot(dir, name) => {
            add(numbers, &[1, u64::from(dir.number())])?;
            add_bytes(numbers, name.bytes())
        }
    }
}

/// Adds bytes as numbers.
fn add_bytes(numbers: &mut Vec<u64>, bytes: &[u8]) -> Result<(), OutOfMemory>
    ensures { OnOk result (numbers.new.items ≡ numbers.old.items ++ bytes.now) }
{
    for byte in bytes {
        add(numbers, &[u64::from(*byte)])?;
    }
    Ok(())
}

/// Adds these numbers.
fn add(numbers: &mut Vec<u64>, more: &[u64]) -> Result<(), OutOfMemory>
    ensures { OnOk result (numbers.new.items ≡ numbers.old.items ++ more.now) }
{
    numbers.extend_from_slice(more)?;
    Ok(())
}

fn side_number(side: Side) -> u64
    ensures { result ≡ side_key (side_seen side) }
{
    match side {
        Side::Sole => 0,
        Side::Old => 1,
        Side::New => 2,
    }
}

fn text_number(fault: PathTextFault) -> u64
    ensures { result ≡ text_key fault }
{
    match fault {
        PathTextFault::EmptyText => 0,
        PathTextFault::LongText => 1,
        PathTextFault::LongComponent => 2,
        PathTextFault::NulInText => 3,
    }
}

fn path_number(fault: &PathFault) -> u64
    ensures { result ≡ path_key fault.now }
{
    match fault {
        PathFault::InText(fault) => text_number(*fault),
        PathFault::NoStart => 4,
        PathFault::Stops(stop) => stop_number(stop),
    }
}

fn stop_number(stop: &Stop) -> u64
    ensures { result ≡ path_key (faults.Stops stop.now) }
{
    match stop {
        Stop::NoEntry(_) => 5,
        Stop::NoDirectory(_) => 6,
        Stop::LinkBeyond(_) => 7,
    }
}

/// What is missing, or is no directory, counts among what stops a path.
fn misfit_group_number(misfit: Misfit) -> u64
    ensures { result ≡ misfit_group misfit }
{
    match misfit {
        Misfit::Missing | Misfit::IsNoDirectory => 3,
        _ => 6,
    }
}

fn misfit_number(misfit: Misfit) -> u64
    ensures { result ≡ misfit_key misfit }
{
    match misfit {
        Misfit::Missing => 5,
        Misfit::Exists => 1,
        Misfit::IsDirectory => 2,
        Misfit::IsNoFile => 3,
        Misfit::IsNoDirectory => 6,
        Misfit::IsNoLink => 5,
        Misfit::IsNoProgram => 6,
        Misfit::IsNotEmpty => 7,
        Misfit::ByDot => 8,
        Misfit::ByDotDot => 9,
        Misfit::ByNothing => 10,
        Misfit::IsNoSocket => 11,
        Misfit::InUse => 12,
        Misfit::IsSocket => 13,
        Misfit::IsMountPoint => 14,
        Misfit::IsElsewhere => 15,
    }
}

fn exec_number(of_exec: bool) -> u64
    ensures { result ≡ exec_key of_exec }
{
    if of_exec { 1 } else { 0 }
}
