//! Lists whose letters are counted as they are read. No other module sees the lists and the number
//! of reads once they are here, and this one has no way to an entry but `read`, which counts it.

ghost use Rattle.std.specs.Prelude.{◌≡◌, ◌<◌, ◌+◌, length, get_or, min};
ghost use Rattle.std.specs.Prelude.{MatchOption};
ghost use Rattle.std.specs.List.{slice_get};
ghost use Rattle.pua_steps.specs.Lists.{span_of};

use crate::lists::{Lists, Span};
use crate::steps::Entry;

/// The lists that a walk reads, and how many of their letters were read. Nothing gives the lists
/// back, and nothing sets the number: it only grows. A count that began anew would be one of other
/// lists, which no contract says to be equal to these, since none tells what room a new vector has.
/// So where the lists are as they were, the count went on from what it was.
#[derive(Drop)]
pub struct CountedLists {
    lists: Lists,
    /// How many letters were read; it stays at its greatest value once there.
    reads: u64,
}

impl CountedLists {
    /// Lists of which no letter was read.
    pub(crate) fn new(lists: Lists) -> CountedLists
        ensures lists { result.lists ≡ lists }
        ensures reads { result.reads ≡ 0 }
    {
        CountedLists { lists, reads: 0 }
    }

    /// How many letters were read so far. It stays at its greatest value once there.
    pub(crate) fn reads(&self) -> u64
        ensures { result ≡ self.now.reads }
    {
        self.reads
    }

    /// Where the list of a directory stands, as `Lists::span` says. No letter is read.
    pub(crate) fn span(&self, left: usize, dir: u32) -> Span
        requires layer { left < length self.now.lists.layers.items }
        requires dir { get_or self.now.lists.layers.items left 0 + dir
            < length self.now.lists.spans.items }
        ensures { result ≡ span_of self.now.lists left dir }
    {
        self.lists.span(left, dir)
    }

    /// The entry at a place among those of all lists, which is counted. None after the last one.
    #[inline]
    pub(crate) fn read(&mut self, place: usize) -> Option<Entry>
        ensures lists { self.new.lists ≡ self.old.lists }
        ensures entry { result ≡ slice_get self.old.lists.entries.items place }
        ensures reads { MatchOption result (self.new.reads ≡ self.old.reads)
            (λ _. self.new.reads ≡ min (self.old.reads + 1) 18446744073709551615) }
    {
        let entry = self.lists.entry(place)?;
        self.pass();
        Some(entry)
    }

    /// Counts a letter, as one is that comes after all entries of a list, for which none is read.
    #[inline]
    pub(crate) fn pass(&mut self)
        ensures lists { self.new.lists ≡ self.old.lists }
        ensures reads { self.new.reads ≡ min (self.old.reads + 1) 18446744073709551615 }
    {
        self.reads = self.reads.saturating_add(1);
    }
}
