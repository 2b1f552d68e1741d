//! What several processes have open together.

ghost use Rattle.std.specs.Prelude.{◌≡◌, map, OnOk, IfOk};
ghost use Rattle.pua_ever.specs.Together.{files_together, gather, gather_all, with_letters};

use pua_policy::{OpenFile, Process};
use pua_tree::OutOfMemory;
use std::alloc::Global;

/// Has a process hold open what the first of these processes and the others have open, in place of
/// what it has: one file of each node, with the letters of all of them, under the number of the
/// node. The only error is that a growth was refused.
pub(crate) fn open_together(
    alloc: Global,
    one: &mut Process,
    first: &Process,
    more: &[&Process],
) -> Result<(), OutOfMemory>
    ensures { OnOk result (one.new ≡ record one.old {
      files = files_together first.now (map
          (λ process. process.now) more.now);
    }) }
{
    one.close_all();
    gather_from(alloc, one, first)?;
    gather_all(alloc, one, more)
}

/// Adds to what a process has open what these have.
fn gather_all(alloc: Global, one: &mut Process, more: &[&Process]) -> Result<(), OutOfMemory>
    ensures { OnOk result (one.new ≡ record one.old {
      files = gather_all one.old.files (map
          (λ process. process.now) more.now);
    }) }
{
    for process in more {
        gather_from(alloc, one, process)?;
    }
    Ok(())
}

/// Adds to what a process has open what another has.
fn gather_from(alloc: Global, one: &mut Process, other: &Process) -> Result<(), OutOfMemory>
    ensures { OnOk result (one.new ≡ record one.old {
      files =
          gather one.old.files other.now.files;
    }) }
{
    let files = other.files(alloc)?;
    gather(one, &files)
}

/// Adds these open files to those of a process.
fn gather(one: &mut Process, files: &[(&u32, &OpenFile)]) -> Result<(), OutOfMemory>
    ensures { OnOk result (one.new ≡ record one.old {
      files = gather one.old.files (map
          (λ held. (held.0.now, held.1.now)) files.now);
    }) }
{
    for held in files {
        let number = held.1.node.number();
        let known = one.file(number);
        one.open_at(number, with_letters(known, held.1))?;
    }
    Ok(())
}

/// An open file with the letters of another too, if there is another.
fn with_letters(other: Option<OpenFile>, file: &OpenFile) -> OpenFile
    ensures { result ≡ with_letters other file.now }
{
    match other {
        Some(other) => OpenFile {
            node: file.node,
            kind: file.kind,
            letters: other.letters.union(file.letters),
        },
        None => *file,
    }
}
