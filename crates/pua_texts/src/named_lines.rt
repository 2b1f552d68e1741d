//! The lines of a list, each with the names that lead to what it is about.

ghost use Rattle.std.specs.Prelude.{◌≡◌, ◌==◌, ◌≤◌, ◌++◌, ◌∷◌, [], IfOk, MatchOption, length, map};
ghost use Rattle.pua_tree.specs.Spelling.{spelling};
ghost use Rattle.pua_audit.specs.Reach.{from_root};
ghost use Rattle.pua_texts.specs.ListLines.{word_after};

use crate::block::BLOCK;
use crate::kept_path::KeptPath;
use crate::list_line::ListLine;
use pua_tree::{Name, OutOfMemory};
use std::alloc::Global;
use std::marker::Model;

/// The lines of a list, with room for the names that lead to what they are about. Contracts see the
/// lines.
#[derive(Drop)]
pub(crate) struct ListLines<'t> {
    lines: Vec<ListLine<'t>>,
    room: Vec<&'t Name>,
}

impl<'t> Model for ListLines<'t> {
    ghost use Rattle.std.specs.Prelude.{◌≤◌, List, length, vec_capacity};
    ghost use Rattle.pua_texts.specs.declared.list_line.ListLine.{ListLine};

    ghost Value = { List ListLine };

    ghost view = { λ a. a.lines.items };

    ghost invariant = { λ a. length a.lines.items ≤ vec_capacity a.room };
}

impl<'t> ListLines<'t> {
    /// These lines. The only error is that a growth was refused: a line goes on by one name at
    /// most.
    pub(crate) fn new(alloc: Global, lines: Vec<ListLine<'t>>) -> Result<ListLines<'t>, OutOfMemory>
        ensures { IfOk result (λ list. list ≡ lines.entry.items) }
    {
        match Vec::with_capacity(alloc, lines.len()) {
            Ok(room) => Ok(ListLines { lines, room }),
            Err(_) => Err(OutOfMemory),
        }
    }
}

/// The lines of a list one after another, with the names that lead to what the last of them is
/// about. The first of these names are kept as they are printed, so that what a path shares with
/// that of the line before is not spelled again. Contracts see the names, and the lines that are
/// still to come.
#[derive(Drop)]
pub(crate) struct NamedLines<'t> {
    lines: Vec<ListLine<'t>>,
    /// How many of them have come.
    count: usize,
    word: Vec<&'t Name>,
    path: KeptPath,
}

impl<'t> Model for NamedLines<'t> {
    ghost use Rattle.std.specs.Prelude.{◌≤◌, drop, length, map, vec_capacity, vec_len};
    ghost use Rattle.pua_texts.specs.KeptPaths.{IsKept};
    ghost use Rattle.pua_texts.specs.ListLines.{NamedState};

    ghost Value = { NamedState };

    ghost view = { λ a. record {
      word = map (λ name. name.now) a.word.items;
      left = drop a.count a.lines.items;
    } };

    ghost invariant = { λ a. IsKept (map (λ name. name.now) a.word.items) a.path ×
        (vec_len a.word ≤ a.count) × (length a.lines.items ≤ vec_capacity a.word) };
}

impl<'t> NamedLines<'t> {
    /// No lines. The only error is that the room of a path was refused: later calls take no memory.
    pub(crate) fn new(alloc: Global) -> Result<NamedLines<'t>, OutOfMemory>
        ensures { IfOk result (λ lines. lines ≡ record { word = []; left = [] }) }
    {
        let path = KeptPath::new(alloc)?;
        Ok(NamedLines {
            lines: Vec::new(alloc),
            count: 0,
            word: Vec::new(alloc),
            path,
        })
    }

    /// Begins with other lines.
    pub(crate) fn begin(&mut self, lines: ListLines<'t>)
        ensures { self.new ≡ record { word = []; left = lines.entry } }
    {
        let ListLines { lines, room } = lines;
        self.lines = lines;
        self.count = 0;
        self.word = room;
        self.word.clear();
        self.path.clear();
    }

    /// Goes on to the names of the next line, and answers it; None where no line is left. Of the
    /// path stays what these names share with those before.
    pub(crate) fn next_line(&mut self) -> Option<ListLine<'t>>
        ensures { MatchOption result (self.old.left ≡ [])
            (λ line. (self.old.left ≡ line ∷ self.new.left)
            × (self.new.word ≡ word_after self.old.word line)) }
    {
        let count = self.count;
        let line = self.lines.as_slice().get(count)?.same();
        self.count = count + 1;
        self.word.truncate(line.depth);
        self.path.cut(self.word.len());
        if let Some(name) = line.name {
            self.word.push_reserved(name);
        }
        Some(line)
    }

    /// Keeps as many further names of the path as there is room for.
    pub(crate) fn keep_path(&mut self)
        ensures { self.new ≡ self.old }
    {
        self.path.extend(self.word.as_slice());
    }

    /// Whether no name leads to what the last line is about: it is the root.
    pub(crate) fn are_at_root(&self) -> bool
        ensures { result ≡ (length self.now.word == 0) }
    {
        self.word.is_empty()
    }

    /// The path from the root to what the last line is about: its first names as they are printed,
    /// and those after them.
    pub(crate) fn path(&self) -> (&[u8], &[&'t Name])
        ensures path { result.0.now ++ spelling (from_root (map (λ name. name.now) result.1.now))
            ≡ spelling (from_root self.now.word) }
        ensures short { length result.0.now ≤ BLOCK }
    {
        (self.path.text(), &self.word.as_slice()[self.path.len()..])
    }
}
