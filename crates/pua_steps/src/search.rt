//! The search for an entry in a list, each entry of which is counted as it is read.

ghost use Rattle.std.specs.Prelude.{◌≡◌, ◌≤◌, ◌<◌, ◌+◌, length, take, drop, min, IfSome, MatchOption};
ghost use Rattle.std.specs.List.{AllByRecursion, slice_get};
ghost use Rattle.pua_steps.specs.Lists.{within};
ghost use Rattle.pua_steps.specs.Table.{Rising, first_of, is_before, with_letter};

use crate::counted::CountedLists;
use crate::lists::Span;
use crate::steps::Entry;

impl CountedLists {
    /// The entry at a place, which is counted, or None from `end` on.
    #[inline]
    pub(crate) fn entry(&mut self, place: usize, end: usize) -> Option<Entry>
        ensures lists { self.new.lists ≡ self.old.lists }
        ensures entry { result ≡ first_of (within self.old.lists.entries.items place end) }
        ensures reads { MatchOption result (self.new.reads ≡ self.old.reads)
            (λ _. self.new.reads ≡ min (self.old.reads + 1) 18446744073709551615) }
    {
        if place < end {
            return self.read(place);
        }
        None
    }

    /// Whether the entry at a place, which is counted, stands before a letter. Where there is no
    /// entry it doesn't.
    #[inline]
    fn is_before(&mut self, place: usize, letter: usize) -> bool
        ensures lists { self.new.lists ≡ self.old.lists }
        ensures before { result ≡ is_before letter (slice_get self.old.lists.entries.items place) }
        ensures reads { self.new.reads ≤ self.old.reads + 1 }
        ensures raised { min self.old.reads 18446744073709551615 ≤ self.new.reads }
    {
        match self.read(place) {
            Some(entry) => entry.letter < letter,
            None => false,
        }
    }

    /// How many entries of a list stand before a letter. It is found by one binary search: each
    /// entry that it reads is counted.
    pub(crate) fn count_before(&mut self, span: Span, letter: usize) -> usize
        requires order { span.place ≤ span.end }
        requires inside { span.end ≤ length self.old.lists.entries.items }
        requires rises { Rising 0 (within self.old.lists.entries.items span.place span.end) }
        ensures lists { self.new.lists ≡ self.old.lists }
        ensures few { result ≤ length (within self.old.lists.entries.items span.place span.end) }
        ensures low { AllByRecursion (λ e. e.letter < letter)
            (take result (within self.old.lists.entries.items span.place span.end)) }
        ensures high { IfSome
            (first_of (drop result (within self.old.lists.entries.items span.place span.end)))
            (λ e. letter ≤ e.letter) }
        ensures reads { self.new.reads ≤ self.old.reads + 64 }
        ensures raised { min self.old.reads 18446744073709551615 ≤ self.new.reads }
    {
        let mut low = 0;
        let mut high = span.end - span.place;
        while low < high {
            let middle = low + (high - low) / 2;
            if self.is_before(span.place + middle, letter) {
                low = middle + 1;
            } else {
                high = middle;
            }
        }
        low
    }

    /// The entry at a place before `end`, if it is that of the letter. An entry that it reads is
    /// counted.
    pub(crate) fn entry_of(&mut self, place: usize, end: usize, letter: usize) -> Option<Entry>
        ensures lists { self.new.lists ≡ self.old.lists }
        ensures entry { result
            ≡ with_letter letter (first_of (within self.old.lists.entries.items place end)) }
        ensures reads { self.new.reads ≤ self.old.reads + 1 }
        ensures raised { min self.old.reads 18446744073709551615 ≤ self.new.reads }
    {
        let entry = self.entry(place, end)?;
        if entry.letter == letter {
            return Some(entry);
        }
        None
    }
}
