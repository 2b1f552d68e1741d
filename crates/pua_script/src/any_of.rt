//! Promises of which a call without a path asks for one.

use crate::fault::ScriptFault;
use pua_calls::{Promises, Rules};
use std::alloc::Global;
use std::marker::Model;

/// Promises of which one is asked for, each as a set of its own, in the order in which a script has
/// them. Contracts see the list of these sets.
#[derive(Drop)]
pub struct AnyOf {
    sets: Vec<Promises>,
}

impl Model for AnyOf {
    ghost use Rattle.std.specs.Prelude.{ℕ, List};

    ghost Value = { List ℕ };

    ghost view = { λ a. a.sets.items };
}

ghost use Rattle.std.specs.Prelude.{◌≡◌};
ghost use Rattle.std.specs.List.{list_any};
ghost use Rattle.pua_calls.specs.Promises.{holds};
ghost use Rattle.pua_script.specs.Scripts.{IsReadAs, asks_promises, further_set, sets_in};
ghost use Rattle.pua_script.specs.Scripts.{set_of_keyword};

impl AnyOf {
    /// The sets, each of one promise.
    pub fn sets(&self) -> &[Promises]
        ensures { result.now ≡ self.now }
    {
        self.sets.as_slice()
    }
}

/// Reads keywords with `|` between them: none twice, and none `error`.
pub(crate) fn read_any_of(alloc: Global, number: u32, field: &[u8]) -> Result<AnyOf, ScriptFault>
    ensures { IsReadAs (sets_in number field.now) result }
{
    let mut sets = Vec::new(alloc);
    for word in field.split(|byte| *byte == b'|') {
        let Some(set) = further_set(sets.as_slice(), word) else {
            return Err(ScriptFault::BadList(number));
        };
        let Ok(()) = sets.push(set) else {
            return Err(ScriptFault::OutOfMemory);
        };
    }
    Ok(AnyOf { sets })
}

/// Whether a line asks for promises by this word: by OpenBSD's rules alone.
pub fn asks_promises(rules: Rules, word: &[u8]) -> bool
    ensures { result ≡ asks_promises rules word.now }
{
    match rules {
        Rules::Standard => false,
        Rules::Openbsd => matches!(word, b"uses"),
    }
}

/// The set of one keyword that is not `error`, where none of those before has it.
pub fn further_set(before: &[Promises], word: &[u8]) -> Option<Promises>
    ensures { result ≡ further_set before.now word.now }
{
    let set = set_of_keyword(word)?;
    if has_set(before, set) {
        None
    } else {
        Some(set)
    }
}

/// Whether one of these sets has all of another one.
fn has_set(sets: &[Promises], set: Promises) -> bool
    ensures { result ≡ list_any (λ other. holds other set) sets.now }
{
    sets.iter().any(|other| other.contains(set))
}

/// The set of one keyword that is not `error`.
fn set_of_keyword(word: &[u8]) -> Option<Promises>
    ensures { result ≡ set_of_keyword word.now }
{
    if word.is_empty() || word.contains(&b',') {
        return None;
    }
    let set = Promises::read(word).ok()?;
    if set.contains(Promises::ERROR) {
        None
    } else {
        Some(set)
    }
}
