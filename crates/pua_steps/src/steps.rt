//! The table of steps: what each letter in each directory leads to.

ghost use Rattle.std.specs.Prelude.{◌≡◌, ◌≤◌, option_map};
ghost use Rattle.pua_steps.specs.Limits.{most_links};
ghost use Rattle.pua_steps.specs.Table.{visit_of, has_gap};

use crate::limits::MOST_LINKS;
use crate::state::State;
use crate::visit::Visit;

/// A letter in a directory. `all` are the calls that are allowed on it where its links may be
/// followed, `kept` those where they may not, so that its final link is kept: a bit for each, and
/// `kept` is empty where `all` is. `links` are the links that it follows, at most `MOST_LINKS`, and
/// `to` is the place of the directory to which it leads, if it leads to one.
#[derive(Clone, Copy)]
pub struct Entry {
    pub letter: usize,
    pub all: u32,
    pub kept: u32,
    pub links: u8,
    pub to: Option<u32>,
}

/// A directory: its letters with entries of their own, in the order of the letters, and the calls
/// that are allowed on each other letter, from which no word goes on.
#[derive(Drop)]
pub struct Row {
    pub entries: Vec<Entry>,
    pub missing: u32,
}

/// What each letter in each directory leads to: how many letters the alphabet has, and a row for
/// each directory.
#[derive(Drop)]
pub struct Steps {
    pub letters: usize,
    pub rows: Vec<Row>,
}

impl Entry {
    /// What the letter leads to where so many links were followed before it. At most `MOST_LINKS`
    /// are followed in all: beyond them no word goes on from the letter, and its final link is
    /// kept.
    pub(crate) fn visit(&self, used: u8) -> Visit
        requires used { used ≤ most_links }
        requires links { self.now.links ≤ most_links }
        ensures { result ≡ visit_of used self.now }
    {
        let links = used + self.links;
        if links > MOST_LINKS {
            return Visit {
                letter: self.letter,
                calls: self.kept,
                behind: None,
            };
        }
        Visit {
            letter: self.letter,
            calls: self.all,
            behind: self.behind(links),
        }
    }

    /// The state to which the letter leads, with so many links followed.
    fn behind(&self, used: u8) -> Option<State>
        ensures { result ≡ option_map (λ to. record { dir = to; used = used }) self.now.to }
    {
        let dir = self.to?;
        Some(State { dir, used })
    }
}

/// Whether calls are allowed on the letters without entries, and there is one of them from `next`
/// on and before `end`.
pub(crate) fn has_gap(missing: u32, next: usize, end: usize) -> bool
    ensures { result ≡ has_gap missing next end }
{
    missing != 0 && next < end
}

impl Row {
    /// The same of a row.
    pub(crate) fn has_gap(&self, next: usize, end: usize) -> bool
        ensures { result ≡ has_gap self.now.missing next end }
    {
        has_gap(self.missing, next, end)
    }
}
