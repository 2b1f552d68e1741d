//! The processes that are asked for together, and why there is no list of them.

ghost use Rattle.std.specs.Prelude.{◌≡◌, ◌≢◌, None, Some, Ok, Err, IfOk, IfErr, OnOk, map};
ghost use Rattle.pua_script.specs.Worlds.{world_of};
ghost use Rattle.pua_texts.specs.Members.{named_by};
ghost use Rattle.pua_texts.specs.TogetherLines.{living};
ghost use Rattle.pua_tool.specs.TogetherTexts.{all_made, first_other, first_refused, keeps_all};
ghost use Rattle.pua_tool.specs.TogetherTexts.{numbers_in, other_veils, same_veils};

use crate::ever_fault::reason_of;
use crate::fault::ToolFault;
use pua_calls::{CallTable, Perms};
use pua_ever::why_refused;
use pua_policy::{Place, Process};
use pua_script::World;
use pua_texts::Member;
use pua_tree::{FileTree, OutOfMemory};
use pua_words::Processes;
use std::alloc::Global;

/// The processes that are asked for: `NoProcess` where one was never made. The only other fault is
/// `OutOfMemory`, where a growth was refused.
#[tactic(auto, using(crate::proofs::Numbers::numbers_are))]
pub(crate) fn members_of<'t, T: FileTree>(
    alloc: Global,
    world: &'t World<T>,
    whose: &Processes,
) -> Result<Vec<Member<'t>>, ToolFault>
    ensures made { IfOk result (λ members.
        all_made (world_of world.now) (numbers_in (world_of world.now) whose.now)
        ≡ Ok (named_by members.items)) }
    ensures refused { IfErr result (λ fault. fault ≢ ToolFault.OutOfMemory →
        all_made (world_of world.now) (numbers_in (world_of world.now) whose.now) ≡ Err fault) }
{
    match whose {
        Processes::One(number) => made_of(alloc, world, &[*number]),
        Processes::Named(numbers) => made_of(alloc, world, numbers.as_slice()),
        Processes::All => {
            let numbers = world.numbers(alloc)?;
            made_of(alloc, world, numbers.as_slice())
        }
    }
}

/// The processes of these numbers.
fn made_of<'t, T: FileTree>(
    alloc: Global,
    world: &'t World<T>,
    numbers: &[u32],
) -> Result<Vec<Member<'t>>, ToolFault>
    ensures made { IfOk result (λ members.
        all_made (world_of world.now) numbers.now ≡ Ok (named_by members.items)) }
    ensures refused { IfErr result (λ fault. fault ≢ ToolFault.OutOfMemory →
        all_made (world_of world.now) numbers.now ≡ Err fault) }
{
    let mut members = Vec::new(alloc);
    for number in numbers {
        let Some(process) = world.process(*number) else {
            return Err(ToolFault::NoProcess);
        };
        members.push(Member {
            number: *number,
            process,
        })?;
    }
    Ok(members)
}

/// Answers why there is no list of the first of these processes of which there is none.
pub(crate) fn check_members(members: &[Member<'_>], table: &CallTable) -> Result<(), ToolFault>
    ensures listed { OnOk result (first_refused table.now (named_by members.now) ≡ None) }
    ensures refused { IfErr result (λ fault.
        first_refused table.now (named_by members.now) ≡ Some fault) }
{
    for member in members {
        if let Some(reason) = why_refused(member.process, table) {
            return Err(reason_of(member.number, reason));
        }
    }
    Ok(())
}

/// Those of these processes that live. The only error is that a growth was refused.
pub(crate) fn living_of<'t>(
    alloc: Global,
    members: &[Member<'t>],
) -> Result<Vec<Member<'t>>, OutOfMemory>
    ensures { IfOk result (λ left. named_by left.items ≡ living (named_by members.now)) }
{
    let mut left = Vec::new(alloc);
    for member in members {
        if member.process.ended() {
            continue;
        }
        left.push(*member)?;
    }
    Ok(left)
}

/// Answers `OtherVeils` where one of these processes, which live, has other veils than the first.
/// The only other fault is that a growth was refused.
pub(crate) fn check_veils(alloc: Global, members: &[Member<'_>]) -> Result<(), ToolFault>
    ensures alike { OnOk result (other_veils (named_by members.now) ≡ None) }
    ensures refused { IfErr result (λ fault. fault ≢ ToolFault.OutOfMemory →
        other_veils (named_by members.now) ≡ Some fault) }
{
    let Some((first, more)) = members.split_first() else {
        return Ok(());
    };
    match first_other(alloc, first.process, more)? {
        Some(other) => Err(ToolFault::OtherVeils(first.number, other)),
        None => Ok(()),
    }
}

/// The number of the first of these processes that has other veils than one. The only error is that
/// a growth was refused.
fn first_other(
    alloc: Global,
    first: &Process,
    members: &[Member<'_>],
) -> Result<Option<u32>, OutOfMemory>
    ensures { IfOk result (λ other. other ≡ first_other first.now (named_by members.now)) }
{
    for member in members {
        let alike = have_same_veils(alloc, first, member.process)?;
        if !alike {
            return Ok(Some(member.number));
        }
    }
    Ok(None)
}

/// Whether two processes keep veils on the same places, with the same letters. The only error is
/// that a growth was refused.
fn have_same_veils(alloc: Global, first: &Process, other: &Process) -> Result<bool, OutOfMemory>
    ensures { IfOk result (λ same. same ≡ same_veils first.now other.now) }
{
    let of_first = first.veils(alloc)?;
    let of_other = other.veils(alloc)?;
    Ok(keeps_all(other, of_first.as_slice()) && keeps_all(first, of_other.as_slice()))
}

/// Whether a process keeps each of these veils, with the same letters.
fn keeps_all(process: &Process, veils: &[(&Place, &Perms)]) -> bool
    ensures { result ≡ keeps_all process.now (map (λ veil. (veil.0.now, veil.1.now)) veils.now) }
{
    match veils.split_first() {
        Some((veil, more)) => {
            let (place, perms) = *veil;
            process.kept(place) == Some(*perms) && keeps_all(process, more)
        }
        None => true,
    }
}
