//! The next letter of an open state, and the search for one. Each letter that is read is counted.

ghost use Rattle.std.specs.Prelude.{◌≡◌, ◌≤◌, ◌<◌, ◌+◌, ◌*◌, ◌∷◌, [], ℕ, length, min, None, Some};
ghost use Rattle.std.specs.Prelude.{IfSome, MatchOption};
ghost use Rattle.std.specs.List.{AllByRecursion};
ghost use Rattle.pua_steps.specs.Limits.{search_cost};
ghost use Rattle.pua_steps.specs.Lists.{AreListsOf, IsOpen, narrow_of, rest_of};
ghost use Rattle.pua_steps.specs.Order.{IsSplit};
ghost use Rattle.pua_steps.specs.Ready.{IsLetterGiven, IsScanned, IsCounted, is_idle};
ghost use Rattle.pua_steps.specs.Table.{IsTable, IsEntry, IsState, IsVisit, end_of};

use crate::counted::CountedLists;
use crate::frame::Frame;
use crate::state::State;
use crate::steps::{Entry, has_gap};
use crate::tables::Tables;
use crate::visit::Visit;

/// What a letter of a state leads to, and the state open from the letter after it on.
#[derive(Clone, Copy)]
pub(crate) struct NextVisit {
    pub(crate) frame: Frame,
    pub(crate) visit: Visit,
}

/// The letter of an entry, or the number of all letters.
fn end(letters: usize, entry: Option<Entry>) -> usize
    ensures { result ≡ end_of letters entry }
{
    match entry {
        Some(entry) => entry.letter,
        None => letters,
    }
}

impl Visit {
    /// Whether no call is allowed on the letter, and no word goes on from it.
    fn is_idle(&self) -> bool
        ensures { result ≡ is_idle self.now }
    {
        self.calls == 0 && self.behind.is_none()
    }
}

impl CountedLists {
    /// Counts a letter that comes after all entries of a list, so that none was read for it.
    fn count_past(&mut self, entry: Option<Entry>)
        ensures lists { self.new.lists ≡ self.old.lists }
        ensures reads { self.new.reads ≡ elim entry [
          | None ↦ min (self.old.reads + 1) 18446744073709551615
          | Some _ ↦ self.old.reads
        ] }
    {
        if entry.is_none() {
            self.pass();
        }
    }
}

impl Tables {
    /// Takes the next letter of an open state, and counts it. None where it has none left: the
    /// frame stays as it is.
    fn visit(&mut self, frame: &mut Frame) -> Option<Visit>
        requires table { IsTable self.old.steps }
        requires known { AllByRecursion (λ e. IsEntry self.old.steps e)
            self.old.counted.lists.entries.items }
        requires open { IsOpen self.old.steps self.old.counted.lists frame.old }
        ensures steps { self.new.steps ≡ self.old.steps }
        ensures live { self.new.live ≡ self.old.live }
        ensures lists { self.new.counted.lists ≡ self.old.counted.lists }
        ensures open { IsOpen self.old.steps self.old.counted.lists frame.new }
        ensures rest { MatchOption result
            (rest_of self.old.steps self.old.counted.lists frame.old ≡ [])
            (λ v. rest_of self.old.steps self.old.counted.lists frame.old
            ≡ v ∷ rest_of self.old.steps self.old.counted.lists frame.new) }
        ensures visit { IfSome result (λ v. IsVisit self.old.steps v) }
        ensures reads { MatchOption result (self.new.counted.reads ≡ self.old.counted.reads)
            (λ _. self.new.counted.reads
            ≡ min (self.old.counted.reads + 1) 18446744073709551615) }
    {
        let missing = self.missing(frame.state.dir);
        let letters = self.letters();
        let entry = self.counted.entry(frame.place, frame.end);
        if has_gap(missing, frame.next, end(letters, entry)) {
            self.counted.count_past(entry);
            let letter = frame.next;
            frame.next += 1;
            return Some(Visit {
                letter,
                calls: missing,
                behind: None,
            });
        }
        let entry = entry?;
        frame.place += 1;
        frame.next = entry.letter + 1;
        Some(entry.visit(frame.state.used))
    }

    /// The next letter of an open state on which a call is allowed, or which leads to a state that
    /// is live where at most `left` letters come after it. None where no such letter is left. Each
    /// letter that is read is counted, up to the greatest value of the count.
    #[inline]
    pub(crate) fn next_visit(&mut self, left: usize, frame: &mut Frame) -> Option<Visit>
        requires table { IsTable self.old.steps }
        requires dirs { self.old.live.dirs ≡ length self.old.steps.rows.items }
        requires layer { left * self.old.live.dirs + self.old.live.dirs
            ≤ length self.old.live.bounds.items }
        requires listed { AreListsOf self.old.steps self.old.live
            (length self.old.counted.lists.layers.items) self.old.counted.lists }
        requires open { IsOpen self.old.steps self.old.counted.lists frame.old }
        ensures steps { self.new.steps ≡ self.old.steps }
        ensures live { self.new.live ≡ self.old.live }
        ensures lists { self.new.counted.lists ≡ self.old.counted.lists }
        ensures open { IsOpen self.old.steps self.old.counted.lists frame.new }
        ensures given { IfSome result (λ v. IsLetterGiven self.old.steps self.old.live left v) }
        ensures next { (n : ℕ) × (IsCounted self.old.counted.reads n self.new.counted.reads
            × IsScanned self.old.steps self.old.live self.old.counted.lists left frame.old result
            frame.new n) }
    {
        while let Some(visit) = self.visit(frame) {
            let behind = self.entrance(left, visit.behind);
            let visit = Visit {
                letter: visit.letter,
                calls: visit.calls,
                behind,
            };
            if !visit.is_idle() {
                return Some(visit);
            }
        }
        None
    }

    /// Finds a letter among those of a state, by one binary search in its list, where at most
    /// `left` letters may come after it. Each letter that is read is counted.
    pub(crate) fn find(&mut self, left: usize, state: State, letter: usize) -> NextVisit
        requires table { IsTable self.old.steps }
        requires listed { AreListsOf self.old.steps self.old.live
            (length self.old.counted.lists.layers.items) self.old.counted.lists }
        requires left { left < length self.old.counted.lists.layers.items }
        requires state { IsState self.old.steps state }
        requires letter { letter < self.old.steps.letters }
        ensures steps { self.new.steps ≡ self.old.steps }
        ensures live { self.new.live ≡ self.old.live }
        ensures lists { self.new.counted.lists ≡ self.old.counted.lists }
        ensures open { IsOpen self.old.steps self.old.counted.lists result.frame }
        ensures visit { IsVisit self.old.steps result.visit }
        ensures split { IsSplit letter (narrow_of self.old.steps self.old.live left state)
            result.visit
            (rest_of self.old.steps self.old.counted.lists result.frame) }
        ensures reads { self.new.counted.reads ≤ self.old.counted.reads + search_cost }
        ensures raised { min self.old.counted.reads 18446744073709551615
            ≤ self.new.counted.reads }
    {
        let letters = self.letters();
        prove!(letter < letters);
        let missing = self.missing(state.dir);
        let span = self.counted.span(left, state.dir);
        let place = span.place + self.counted.count_before(span, letter);
        let next = letter + 1;
        let end = span.end;
        let Some(entry) = self.counted.entry_of(place, end, letter) else {
            return NextVisit {
                frame: Frame {
                    state,
                    next,
                    place,
                    end,
                },
                visit: Visit {
                    letter,
                    calls: missing,
                    behind: None,
                },
            };
        };
        NextVisit {
            frame: Frame {
                state,
                next,
                place: place + 1,
                end,
            },
            visit: entry.visit(state.used),
        }
    }
}
