//! The path of a line as it is printed, kept from line to line.

ghost use Rattle.std.specs.Prelude.{◌≡◌, ◌<◌, ◌≤◌, ◌+◌, ◌++◌, ◌∷◌, [], true, IfOk, length, map};
ghost use Rattle.std.specs.Prelude.{take};
ghost use Rattle.pua_tree.specs.Spelling.{spelling};
ghost use Rattle.pua_audit.specs.Reach.{Word};
ghost use Rattle.pua_texts.specs.KeptPaths.{IsKept};

use crate::block::{BLOCK, Block, MOST_LINE};
use crate::line::add_printed;
use pua_tree::{Name, OutOfMemory};
use std::alloc::Global;
use std::marker::Model;

/// How many names are kept at most. Where they are short, so many fill a block.
const MOST_KEPT_NAMES: usize = 8_192;

/// The first names of a path as they are printed. What the next path shares with it is not spelled
/// again. Its room is reserved when it is made, so a path with more names than have room is kept in
/// part. Contracts see the text, and how long it is before each name.
#[derive(Drop)]
pub(crate) struct KeptPath {
    text: Block,
    starts: Vec<usize>,
}

impl Model for KeptPath {
    ghost use Rattle.std.specs.Prelude.{◌≤◌, length, vec_capacity};
    ghost use Rattle.pua_texts.specs.KeptPaths.{KeptPathState};

    ghost Value = { KeptPathState };

    ghost view = { λ p. record { text = p.text; starts = p.starts.items } };

    ghost invariant = { λ p. (8192 ≤ vec_capacity p.starts) × (length p.text ≤ 65536) };
}

impl KeptPath {
    /// A path of which nothing is kept. The only error is that a growth was refused.
    pub(crate) fn new(alloc: Global) -> Result<KeptPath, OutOfMemory>
        ensures { IfOk result (λ path. path ≡ record { text = []; starts = [] }) }
    {
        let text = Block::new(alloc)?;
        match Vec::with_capacity(alloc, MOST_KEPT_NAMES) {
            Ok(starts) => Ok(KeptPath { text, starts }),
            Err(_) => Err(OutOfMemory),
        }
    }

    /// How many names are kept.
    pub(crate) fn len(&self) -> usize
        ensures { result ≡ length self.now.starts }
    {
        self.starts.len()
    }

    /// The names that are kept, as they are printed.
    pub(crate) fn text(&self) -> &[u8]
        ensures text { result.now ≡ self.now.text }
        ensures short { length result.now ≤ BLOCK }
    {
        self.text.bytes()
    }

    /// Keeps nothing.
    pub(crate) fn clear(&mut self)
        ensures { self.new ≡ record { text = []; starts = [] } }
    {
        self.text.truncate(0);
        self.starts.clear();
    }

    /// Keeps no more than so many names.
    pub(crate) fn cut(&mut self, count: usize)
        ensures { (old new : Word) → IsKept old self.old → count ≤ length new →
            take count old ≡ take count new → IsKept new self.new }
    {
        if count < self.starts.len() {
            self.text.truncate(self.starts[count]);
            self.starts.truncate(count);
        }
    }

    /// Keeps as many further names of the path as there is room for.
    pub(crate) fn extend(&mut self, word: &[&Name])
        ensures { IsKept (map (λ name. name.now) word.now) self.old →
            IsKept (map (λ name. name.now) word.now) self.new }
    {
        while self.len() < word.len() && self.has_room() {
            let next = self.len();
            self.push(word[next]);
        }
    }

    /// Whether there is room for a further name.
    fn has_room(&self) -> bool
        ensures { result ≡ true →
            (length self.now.starts < MOST_KEPT_NAMES)
            × (length self.now.text + MOST_LINE ≤ BLOCK) }
    {
        self.starts.len() < MOST_KEPT_NAMES && self.text.len() <= BLOCK - MOST_LINE
    }

    /// Keeps a further name.
    fn push(&mut self, name: &Name)
        requires names { length self.old.starts < MOST_KEPT_NAMES }
        requires room { length self.old.text + MOST_LINE ≤ BLOCK }
        ensures { self.new ≡ record {
          text = self.old.text ++ (47 ∷ spelling name.now);
          starts = self.old.starts ++ length self.old.text ∷ [];
        } }
    {
        self.starts.push_reserved(self.text.len());
        self.text.push(b"/");
        add_printed(&mut self.text, false, name.bytes());
    }
}
