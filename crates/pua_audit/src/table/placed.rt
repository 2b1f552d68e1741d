//! Where letters stand, found by their bytes.

use crate::alphabet::Alphabet;
use pua_tree::OutOfMemory;
use std::alloc::Global;
use std::collections::HashMap;
use std::marker::Model;

/// The letters of an alphabet, with the place of each by its bytes. Contracts see the letters.
#[derive(Drop)]
pub(crate) struct Places<'l> {
    letters: &'l Alphabet,
    places: HashMap<&'l [u8], usize>,
}

impl<'l> Model for Places<'l> {
    ghost use Rattle.std.specs.Prelude.{ℕ, List};
    ghost use Rattle.pua_audit.specs.Placed.{ArePlaced};

    ghost Value = { List (List ℕ) };

    ghost view = { λ a. a.letters.now };

    ghost invariant = { λ a. ArePlaced a.letters.now a.places };
}

ghost use Rattle.std.specs.Prelude.{◌≡◌, ◌<◌, ℕ, [], Some, IfOk, IfSome, length, get_or};
ghost use Rattle.pua_audit.specs.Placed.{ArePlaced};

impl<'l> Places<'l> {
    /// The places of an alphabet's letters. The only error is that a growth was refused.
    pub(crate) fn of(alloc: Global, letters: &'l Alphabet) -> Result<Places<'l>, OutOfMemory>
        ensures { IfOk result (λ places. places ≡ letters.now) }
    {
        let places = placed(alloc, letters)?;
        Ok(Places { letters, places })
    }

    /// Where a letter of these bytes stands, if there is one. It is looked for at one place first.
    pub(crate) fn place_of(&self, first: usize, bytes: &[u8]) -> Option<usize>
        ensures each { (letter : ℕ) → letter < length self.now →
            get_or self.now letter [] ≡ bytes.now → result ≡ Some letter }
        ensures within { IfSome result (λ place. place < length self.now) }
    {
        if self.letters.is_at(first, bytes) {
            return Some(first);
        }
        let place = self.places.get(bytes)?;
        Some(*place)
    }
}

/// Where each letter of an alphabet stands, by its bytes. The only error is that a growth was
/// refused.
fn placed<'l>(
    alloc: Global,
    alphabet: &'l Alphabet,
) -> Result<HashMap<&'l [u8], usize>, OutOfMemory>
    ensures { IfOk result (λ places. ArePlaced alphabet.now places) }
{
    let letters = alphabet.as_slice();
    let mut places = HashMap::with_capacity(alloc, letters.len())?;
    for place in 0..letters.len() {
        places.insert(letters[place].bytes(), place)?;
    }
    Ok(places)
}
