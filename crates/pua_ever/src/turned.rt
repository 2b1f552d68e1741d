//! Files that a process holds open and can make programs of.

ghost use Rattle.std.specs.Prelude.{◌≡◌, ◌||◌, ℕ, IfOk};
ghost use Rattle.std.specs.List.{list_any};
ghost use Rattle.std.specs.BTreeSet.{contains};
ghost use Rattle.std.specs.Ordering.{nat_cmp};
ghost use Rattle.pua_calls.specs.Promises.{holds, writing};
ghost use Rattle.pua_ever.specs.Ever.{is_turned_by};
ghost use Rattle.pua_ever.specs.Prospects.{IsTurnedSet};

use pua_calls::{Perms, Promises};
use pua_policy::{OpenFile, Process};
use pua_tree::OutOfMemory;
use std::alloc::{AllocError, Global};
use std::collections::BTreeSet;

/// The numbers of the nodes that a process holds open so that it can write them or set their modes.
/// The only error is that a growth was refused.
pub(crate) fn turned_nodes(alloc: Global, process: &Process) -> Result<BTreeSet<u32>, OutOfMemory>
    ensures { IfOk result (IsTurnedSet process.now) }
{
    turned_by(alloc, process, process.held().contains(Promises::FATTR))
}

/// The numbers of the nodes that a process holds open so that they can be made programs, by whether
/// the modes of all that it holds open can be set: else of those alone that it can write. The only
/// error is that a growth was refused.
pub fn turned_by(
    alloc: Global,
    process: &Process,
    sets_modes: bool,
) -> Result<BTreeSet<u32>, OutOfMemory>
    ensures { IfOk result (λ nodes. (node : ℕ) → contains nat_cmp nodes node
        ≡ list_any (is_turned_by sets_modes node) process.now.files) }
{
    let files = process.files(alloc)?;
    match turned_among(alloc, &files, sets_modes) {
        Ok(nodes) => Ok(nodes),
        Err(AllocError) => Err(OutOfMemory),
    }
}

/// Those of these open files, by whether their modes can be set.
fn turned_among(
    alloc: Global,
    files: &[(&u32, &OpenFile)],
    sets_modes: bool,
) -> Result<BTreeSet<u32>, AllocError>
    ensures { IfOk result (λ nodes. (node : ℕ) → contains nat_cmp nodes node ≡ list_any
        (λ held. is_turned_by sets_modes node (held.0.now, held.1.now)) files.now) }
{
    let mut nodes = BTreeSet::new(alloc);
    for held in files {
        if can_turn(sets_modes, held.1) {
            nodes.insert(held.1.node.number())?;
        }
    }
    Ok(nodes)
}

/// Whether an open file can be written, or its mode be set.
fn can_turn(sets_modes: bool, file: &OpenFile) -> bool
    ensures { result ≡ (sets_modes || holds file.now.letters writing) }
{
    sets_modes || file.letters.contains(Perms::WRITE)
}
