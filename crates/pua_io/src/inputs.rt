//! Inputs by name.

ghost use Rattle.std.specs.Prelude.{◌≡◌, ◌↔◌, ◌≤◌, ◌∷◌, [], ℕ, List, Option, None, Some, IfOk};
ghost use Rattle.std.specs.Prelude.{Err, map, option_map, length};
ghost use Rattle.pua_io.specs.Held.{AsksFor, Holds, HoldsNothing};
ghost use Rattle.pua_io.specs.Named.{kept_under};

use crate::source::{MOST_INPUT_BYTES, ReadSource, read_bytes};
use std::alloc::Global;
use std::fs;
use std::marker::Model;
use std::rt::Files;
use thiserror::Error;

/// Why an input is not there.
#[derive(Clone, Copy, Debug, PartialEq, Eq, Error)]
pub enum InputFault {
    /// There is no such input, a read of it failed, or it has more than 67,108,864 bytes.
    #[error("unreadable")]
    Unreadable,
    /// A growth of memory was refused.
    #[error("out of memory")]
    OutOfMemory,
}

/// Where inputs are taken from by their names.
pub trait Inputs {
    /// The bytes under each name, where they are known.
    ghost holds: { Self → Option (List ℕ → Option (List ℕ)) };

    /// The names that were asked for so far, in their order, where they are known. Neither inputs
    /// in memory nor the machine's files keep them: what is proved of any inputs asks for what its
    /// contract says.
    ghost asked: { Self → Option (List (List ℕ)) };

    /// All bytes of the input of this name; `Unreadable` only where nothing is held under it. How
    /// far it was read is not said after a fault.
    fn take(&mut self, alloc: Global, name: &str) -> Result<Vec<u8>, InputFault>
        ensures held { IfOk result (λ bytes. Holds (holds self.old) name.now bytes.items) }
        ensures nothing { result ≡ Err InputFault.Unreadable →
            HoldsNothing (holds self.old) name.now }
        ensures unchanged { holds self.new ≡ holds self.old }
        ensures asks { AsksFor (asked self.old) (asked self.new) (name.now ∷ []) };
}

/// Inputs in memory. Contracts see the names with the bytes kept under them.
#[derive(Drop)]
pub struct MemoryInputs<'a> {
    entries: &'a [(&'a str, &'a [u8])],
}

impl<'a> Model for MemoryInputs<'a> {
    ghost use Rattle.std.specs.Prelude.{map};
    ghost use Rattle.pua_io.specs.Named.{Named};

    ghost Value = { Named };

    ghost view = { λ inputs. map (λ entry. (entry.0.now, entry.1.now)) inputs.entries.now };
}

impl<'a> MemoryInputs<'a> {
    /// These names with their bytes; of equal names the first counts.
    pub fn new(entries: &'a [(&'a str, &'a [u8])]) -> MemoryInputs<'a>
        ensures { result ≡ map (λ entry. (entry.0.now, entry.1.now)) entries.entry.now }
    {
        MemoryInputs { entries }
    }
}

impl Inputs for MemoryInputs<'_> {
    ghost holds = { λ inputs. Some (λ name. kept_under name inputs) };

    ghost asked = { λ _. None };

    /// A copy of the bytes kept under the name. `Unreadable` is answered exactly where there is no
    /// such name.
    fn take(&mut self, alloc: Global, name: &str) -> Result<Vec<u8>, InputFault>
        ensures held { IfOk result (λ bytes. kept_under name.now self.old ≡ Some bytes.items) }
        ensures nothing { (result ≡ Err InputFault.Unreadable)
            ↔ (kept_under name.now self.old ≡ None) }
        ensures unchanged { self.new ≡ self.old }
    {
        match first_named(self.entries, name) {
            Some(bytes) => Vec::from_slice(alloc, bytes).map_err(|_| InputFault::OutOfMemory),
            None => Err(InputFault::Unreadable),
        }
    }
}

fn first_named<'a>(entries: &'a [(&'a str, &'a [u8])], name: &str) -> Option<&'a [u8]>
    ensures { option_map (λ bytes. bytes.now) result
        ≡ kept_under name.now (map (λ entry. (entry.0.now, entry.1.now)) entries.entry.now) }
{
    for (known, bytes) in entries {
        if *known == name {
            return Some(bytes);
        }
    }
    None
}

/// All bytes of one of the machine's files. `Unreadable` is answered where it can't be opened,
/// where a read failed, and where it has more than 67,108,864 bytes.
pub fn read_file<R: Files>(alloc: Global, rt: &R, name: &str) -> Result<Vec<u8>, InputFault>
    ensures { IfOk result (λ bytes. length bytes.items ≤ MOST_INPUT_BYTES) }
{
    let Ok(file) = fs::open(rt, name) else {
        return Err(InputFault::Unreadable);
    };
    read_bytes(alloc, &mut ReadSource::new(file))
}

/// The machine's files, by their paths; each is read by [`read_file`]. What they hold is known to
/// no contract, so that a missing file is `Unreadable`, and not empty, is only tested.
#[derive(Drop)]
pub struct DiskInputs<'r, R: Files> {
    rt: &'r R,
}

impl<'r, R: Files> DiskInputs<'r, R> {
    /// The files that this runtime reaches.
    pub fn new(rt: &'r R) -> DiskInputs<'r, R> {
        DiskInputs { rt }
    }
}

impl<R: Files> Inputs for DiskInputs<'_, R> {
    ghost holds = { λ _. None };

    ghost asked = { λ _. None };

    fn take(&mut self, alloc: Global, name: &str) -> Result<Vec<u8>, InputFault> {
        read_file(alloc, self.rt, name)
    }
}
