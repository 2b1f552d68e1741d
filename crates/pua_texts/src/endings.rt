//! What stands after the calls of a line: LF alone, or the promises on which they rest, and the
//! veil that covers what the line is about.

ghost use Rattle.std.specs.Prelude.{◌≡◌, ◌<◌, ◌++◌, ◌∷◌, [], IfOk, IfSome, codes, get_or, length, map};
ghost use Rattle.std.specs.Prelude.{string_bytes};
ghost use Rattle.std.specs.List.{AllByRecursion};
ghost use Rattle.pua_why.specs.Texts.{promises_text};
ghost use Rattle.pua_texts.specs.Blocks.{PassesOn};
ghost use Rattle.pua_texts.specs.EndingsState.{IsNumber, IsResting, columns_of, plain, veil_column};
ghost use Rattle.pua_texts.specs.EverHowLines.{numbered};

use crate::block::{Block, MOST_LINE};
use pua_calls::Promises;
use pua_io::{PutFault, Sink};
use pua_tree::OutOfMemory;
use pua_why::push_promises;
use std::alloc::{AllocError, Global};
use std::marker::Model;

/// Promises, with a blank and their keywords.
#[derive(Drop)]
struct Resting {
    promises: Promises,
    text: String,
}

/// What stands after the calls of lines, by the number of promises, and by a veil. Contracts see
/// the texts.
#[derive(Drop)]
pub(crate) struct Endings {
    resting: Vec<Resting>,
    veils: Vec<String>,
    unveiled: &'static str,
}

impl Model for Endings {
    ghost use Rattle.std.specs.Prelude.{map, string_bytes};
    ghost use Rattle.std.specs.List.{AllByRecursion};
    ghost use Rattle.pua_texts.specs.EndingsState.{EndingsState, IsResting};

    ghost Value = { EndingsState };

    ghost view = { λ a. record {
      resting = map (λ r. string_bytes r.text) a.resting.items;
      veils = map string_bytes a.veils.items;
      unveiled = a.unveiled.now;
    } };

    ghost invariant = { λ a. AllByRecursion IsResting a.resting.items };
}

impl Endings {
    /// LF alone.
    pub(crate) fn plain(alloc: Global) -> Endings
        ensures { result ≡ plain }
    {
        Endings {
            resting: Vec::new(alloc),
            veils: Vec::new(alloc),
            unveiled: "\n",
        }
    }

    /// No promises yet, these columns of veils, and three dashes where no veil is over.
    pub(crate) fn of_veils(alloc: Global, veils: Vec<String>) -> Endings
        ensures { result ≡ record {
          resting = [];
          veils = map string_bytes veils.items;
          unveiled = codes " - - -" ++ 10 ∷ [];
        } }
    {
        Endings {
            resting: Vec::new(alloc),
            veils,
            unveiled: " - - -\n",
        }
    }

    /// These texts, by their numbers in the place of veils, and LF alone without a number.
    pub(crate) fn of_lines(alloc: Global, texts: Vec<String>) -> Endings
        ensures { result ≡ numbered (map string_bytes texts.items) }
    {
        Endings {
            resting: Vec::new(alloc),
            veils: texts,
            unveiled: "\n",
        }
    }

    /// The number of the column of these promises, which is added if there is none. The only error
    /// is that a growth was refused.
    pub(crate) fn number_of(
        &mut self,
        alloc: Global,
        promises: Promises,
    ) -> Result<usize, OutOfMemory>
        ensures { IfOk result (λ number. IsNumber self.old self.new promises number) }
    {
        if let Some(number) = self.found(promises) {
            return Ok(number);
        }
        let number = self.resting.len();
        let Ok(text) = resting_text(alloc, promises) else {
            return Err(OutOfMemory);
        };
        let Ok(()) = self.resting.push(Resting { promises, text }) else {
            return Err(OutOfMemory);
        };
        Ok(number)
    }

    /// The number of the column of these promises, if there is one.
    fn found(&self, promises: Promises) -> Option<usize>
        ensures { IfSome result (λ number. (number < length self.now.resting)
            × (get_or self.now.resting number [] ≡ 32 ∷ promises_text promises)) }
    {
        for number in 0..self.resting.len() {
            if self.resting[number].promises == promises {
                return Some(number);
            }
        }
        None
    }

    /// Adds what stands after the calls of a line whose promises have this number, and that this
    /// veil covers.
    pub(crate) fn add_to<S: Sink>(
        &self,
        block: &mut Block,
        number: usize,
        veil: Option<usize>,
        sink: &mut S,
    ) -> Result<(), PutFault>
        ensures { PassesOn S.written S.failed (columns_of self.now number veil)
            result block.old block.new sink.old sink.new }
    {
        add_any(block, self.resting_at(number).as_bytes(), sink)?;
        add_any(block, self.veil_at(veil).as_bytes(), sink)
    }

    /// The column of promises with this number; no text where there is none.
    fn resting_at(&self, number: usize) -> &str
        ensures { result.now ≡ get_or self.now.resting number [] }
    {
        if number < self.resting.len() {
            return self.resting[number].text.as_str();
        }
        ""
    }

    /// The columns of this veil.
    fn veil_at(&self, veil: Option<usize>) -> &str
        ensures { result.now ≡ veil_column self.now.veils self.now.unveiled veil }
    {
        match veil {
            Some(index) if index < self.veils.len() => self.veils[index].as_str(),
            _ => self.unveiled,
        }
    }
}

/// A blank, and the keywords of promises.
fn resting_text(alloc: Global, promises: Promises) -> Result<String, AllocError>
    ensures { IfOk result (λ text. string_bytes text ≡ 32 ∷ promises_text promises) }
{
    let mut text = String::from_str(alloc, " ")?;
    push_promises(alloc, &mut text, promises)?;
    Ok(text)
}

/// Adds a text, which few places make longer than a line.
fn add_any<S: Sink>(block: &mut Block, text: &[u8], sink: &mut S) -> Result<(), PutFault>
    ensures { PassesOn S.written S.failed text.now result block.old block.new sink.old sink.new }
{
    if text.len() <= MOST_LINE {
        return block.add(text, sink);
    }
    block.add_text(text, sink)
}
