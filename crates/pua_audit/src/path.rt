//! The path of a word in a buffer: each letter after a slash.

ghost use Rattle.std.specs.Prelude.{◌≡◌, ◌≤◌, ◌<◌, ◌+◌, ◌++◌, ◌∷◌, [], suc, length, min};
ghost use Rattle.std.specs.Prelude.{take, IfOk, OnErr, vec_capacity};
ghost use Rattle.std.specs.List.{list_all};
ghost use Rattle.pua_tree.specs.Spelling.{is_plain};
ghost use Rattle.pua_audit.specs.Reach.{Word};
ghost use Rattle.pua_audit.specs.Ready.{lent_path};
ghost use Rattle.pua_audit.specs.WordPaths.{IsPathOf, plain_front};

use crate::base::Base;
use crate::component::Component;
use std::alloc::{AllocError, Global};

/// The path of a word: each letter after a slash. Within what was reserved at its beginning it
/// takes no memory.
#[derive(Drop)]
pub(crate) struct WordPath {
    pub(crate) bytes: Vec<u8>,
    /// Where each letter's slash stands.
    pub(crate) starts: Vec<usize>,
    /// How many letters at the front have only bytes that stand for themselves.
    pub(crate) plain: usize,
}

impl WordPath {
    /// The path of the empty word, with room for so many letters, and for so many bytes. The only
    /// error is that a growth was refused.
    pub(crate) fn new(alloc: Global, letters: usize, bytes: usize) -> Result<WordPath, AllocError>
        ensures path { IfOk result (λ path. IsPathOf [] path) }
        ensures bytes { IfOk result (λ path. bytes ≤ vec_capacity path.bytes) }
        ensures letters { IfOk result (λ path. letters ≤ vec_capacity path.starts) }
    {
        let bytes = Vec::with_capacity(alloc, bytes)?;
        let starts = Vec::with_capacity(alloc, letters)?;
        Ok(WordPath {
            bytes,
            starts,
            plain: 0,
        })
    }

    /// Drops all letters but so many at the front.
    pub(crate) fn keep(&mut self, letters: usize)
        ensures path { (word : Word) → IsPathOf word self.old →
            IsPathOf (take letters word) self.new }
        ensures few { length self.new.starts.items ≡ min letters (length self.old.starts.items) }
        ensures bytes { vec_capacity self.new.bytes ≡ vec_capacity self.old.bytes }
        ensures starts { vec_capacity self.new.starts ≡ vec_capacity self.old.starts }
    {
        if letters >= self.starts.len() {
            return;
        }
        let start = self.starts[letters];
        self.bytes.truncate(start);
        self.starts.truncate(letters);
        self.plain = self.plain.min(letters);
    }

    /// Puts a letter at the end. The only error is that a growth was refused; none is where there
    /// is room for the letter.
    pub(crate) fn add(&mut self, letter: &Component) -> Result<(), AllocError>
        ensures path { IfOk result (λ _. (word : Word) → IsPathOf word self.old →
            IsPathOf (word ++ letter.now ∷ []) self.new) }
        ensures more { IfOk result (λ _.
            length self.new.starts.items ≡ length self.old.starts.items + 1) }
        ensures full { OnErr result (length self.old.starts.items < vec_capacity self.old.starts →
            vec_capacity self.old.bytes < length self.old.bytes.items + suc (length letter.now)) }
        ensures bytes { vec_capacity self.old.bytes ≤ vec_capacity self.new.bytes }
        ensures starts { vec_capacity self.old.starts ≤ vec_capacity self.new.starts }
    {
        self.plain = self.plain_with(letter);
        self.starts.push(self.bytes.len())?;
        self.bytes.push(b'/')?;
        self.bytes.extend_from_slice(letter.bytes())?;
        Ok(())
    }

    /// How many letters at the front have only bytes that stand for themselves, with one letter
    /// more at the end.
    fn plain_with(&self, letter: &Component) -> usize
        ensures { (word : Word) → IsPathOf word self.now →
            result ≡ plain_front (word ++ letter.now ∷ []) }
    {
        if self.plain < self.starts.len() || !letter.is_plain() {
            return self.plain;
        }
        self.starts.len() + 1
    }

    /// Whether each byte of the path stands for itself.
    pub(crate) fn is_plain(&self) -> bool
        ensures { (word : Word) → IsPathOf word self.now →
            result ≡ list_all is_plain self.now.bytes.items }
    {
        self.plain == self.starts.len()
    }
}

/// The path as it is lent: the base itself for no letter, and from the working directory no slash
/// before the first.
pub(crate) fn lent_path(base: Base, path: &[u8]) -> &[u8]
    ensures { result.now ≡ lent_path base path.now }
{
    match (base, path) {
        (Base::Root, []) => b"/",
        (Base::Cwd, []) => b".",
        (Base::Root, _) => path,
        (Base::Cwd, [_, rest @ ..]) => rest,
    }
}
