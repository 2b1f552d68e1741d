//! What the facts of several processes say of the covers of things by the veils of one of them.

ghost use Rattle.std.specs.Prelude.{◌≡◌, ◌<◌, ◌||◌, ◌&&◌, ◌==◌, ℕ, false, get_or, length, not, IfOk};
ghost use Rattle.std.specs.List.{list_any};
ghost use Rattle.pua_ever.specs.EverLines.{new_of};
ghost use Rattle.pua_jointly.specs.JointFound.{born_in, born_on, carried_by, carried_covers};
ghost use Rattle.pua_jointly.specs.JointFound.{AreMarked, entry_word, made_in, made_on};
ghost use Rattle.pua_jointly.specs.JointFound.{made_words, new_covers};
ghost use Rattle.pua_jointly.specs.JointFound.{turned_by, turns, turns_in};
ghost use Rattle.pua_jointly.specs.JointRounds.{is_taken, stays_in};
ghost use Rattle.pua_jointly.specs.JointWords.{covers_in, word_at};

use crate::agent::Agent;
use crate::crew::{Crew, Entry, Side};
use crate::made::made_bit;
use crate::marks::{is_marked, mark, no_marks};
use crate::mover::Mover;
use crate::old::over;
use crate::rounds::{CARRIES, GOES};
use crate::words::{covers_at, does_meet, has, word};
use pua_ever::{Made, may_start};
use pua_tree::NodeId;
use std::alloc::{AllocError, Global};

/// The facts of several processes: all that they can come to do in a tree by doing of their own, all
/// of them together. It is of this tree and of these processes.
#[derive(Drop)]
pub struct Facts<'t> {
    /// What they were found by.
    pub(crate) crew: Crew<'t>,
    /// The table of the facts.
    pub(crate) told: Vec<u32>,
    /// Whether something stays in a directory, by its number.
    pub(crate) held: Vec<bool>,
    /// Whether a file can be made a program, by its number.
    pub(crate) turned: Vec<bool>,
}

impl Facts<'_> {
    /// The covers that can come over a directory of the beginning.
    pub(crate) fn on_dir(&self, of: &Agent<'_>, dir: NodeId) -> u32
        ensures { result
            ≡ covers_in (word_at self.now.told.items self.now.crew.columns dir of.now.place) }
    {
        covers_at(
            &self.told,
            self.crew.columns,
            dir.number() as usize,
            of.place,
        )
    }

    /// Those that can come over a directory that one of the processes makes.
    pub(crate) fn on_made_dir(&self, of: &Agent<'_>) -> u32
        ensures { result ≡ made_words self.now.crew self.now.told.items of.now }
    {
        self.crew
            .sides
            .iter()
            .fold(0, |word, side| word | self.on_side(of, side))
    }

    /// Those over what is made on a device.
    fn on_side(&self, of: &Agent<'_>, side: &Side<'_>) -> u32
        ensures { result ≡ made_on self.now.crew self.now.told.items of.now side.now }
    {
        side.movers
            .iter()
            .fold(0, |word, maker| word | self.on_made_by(of, maker))
    }

    /// Those over what one of the processes makes there.
    fn on_made_by(&self, of: &Agent<'_>, maker: &Mover) -> u32
        ensures { result ≡ made_in self.now.crew self.now.told.items of.now maker.now }
    {
        covers_at(&self.told, self.crew.columns, maker.made, of.place)
    }

    /// Those that can come over what stands at a name and is no directory.
    #[inline(always)]
    pub(crate) fn on_entry(&self, of: &Agent<'_>, entry: &Entry<'_>) -> u32
        ensures { result ≡ entry_word self.now.crew self.now.told.items of.now entry.now }
    {
        let carried = match self.crew.dir_side(entry.dir) {
            Some(side) => self.carried(of, entry.row, GOES, side),
            None => 0,
        };
        over(&self.told, self.crew.columns, of, entry.dir, entry.name) | carried
    }

    /// Those under which others put what they can carry on a device, by the row and the bit that say
    /// so.
    fn carried(&self, of: &Agent<'_>, row: usize, bit: u32, side: &Side<'_>) -> u32
        requires { bit < 32 }
        ensures { result
            ≡ carried_covers self.now.crew self.now.told.items of.now row bit side.now }
    {
        side.movers
            .iter()
            .fold(0, |word, by| word | self.carried_by(of, row, bit, by))
    }

    /// Those under which one of them puts it.
    fn carried_by(&self, of: &Agent<'_>, row: usize, bit: u32, by: &Mover) -> u32
        requires { bit < 32 }
        ensures { result ≡ carried_by self.now.crew self.now.told.items of.now row bit by.now }
    {
        if has(word(&self.told, self.crew.columns, row, by.place), bit) {
            covers_at(&self.told, self.crew.columns, by.drops, of.place)
        } else {
            0
        }
    }

    /// Those that can come over what a process makes that is no directory.
    pub(crate) fn on_made(&self, of: &Agent<'_>, made: Made) -> u32
        ensures { result ≡ new_covers self.now.crew self.now.told.items of.now (new_of made) }
    {
        self.crew
            .sides
            .iter()
            .fold(0, |word, side| word | self.born_on(of, made, side))
    }

    /// Those over what is made on a device.
    fn born_on(&self, of: &Agent<'_>, made: Made, side: &Side<'_>) -> u32
        ensures { result
            ≡ born_on self.now.crew self.now.told.items of.now (new_of made) side.now }
    {
        side.movers
            .iter()
            .fold(0, |word, by| word | self.born_by(of, made, side, by))
    }

    /// Those under which a process puts what it makes there, and under which others put that.
    fn born_by(&self, of: &Agent<'_>, made: Made, side: &Side<'_>, by: &Mover) -> u32
        ensures { result
            ≡ born_in self.now.crew self.now.told.items of.now (new_of made) side.now by.now }
    {
        let columns = self.crew.columns;
        let makes = word(&self.told, columns, by.drops, self.crew.shape.agents);
        let born = if has(makes, made_bit(made)) {
            covers_at(&self.told, columns, by.drops, of.place)
        } else {
            0
        };
        born | self.carried(of, by.made, CARRIES + made_bit(made), side)
    }

    /// Whether all that stands in a directory can be taken away.
    pub(crate) fn is_emptied(&self, dir: NodeId) -> bool
        ensures { result ≡ not (get_or self.now.held.items dir false) }
    {
        !is_marked(&self.held, dir)
    }

    /// Whether a file can be made a program, at one of its names and by one of the processes.
    pub(crate) fn is_turned(&self, node: NodeId) -> bool
        ensures { result ≡ get_or self.now.turned.items node false }
    {
        is_marked(&self.turned, node)
    }

    /// The same by what is allowed on what stands at a name.
    fn turns(&self, entry: &Entry<'_>) -> bool
        ensures { result ≡ turns self.now.crew self.now.told.items entry.now }
    {
        may_start(entry.kind) && self.is_turned_by_some(entry)
    }

    /// Whether a call by which it can come to be a program is allowed to one of the processes, or that
    /// one holds it open so that it can.
    fn is_turned_by_some(&self, entry: &Entry<'_>) -> bool
        ensures { result ≡ list_any (turned_by self.now.crew self.now.told.items entry.now)
            self.now.crew.agents.items }
    {
        self.crew
            .agents
            .iter()
            .any(|by| self.is_turned_by(entry, by))
    }

    /// Whether it is so to this one.
    fn is_turned_by(&self, entry: &Entry<'_>, by: &Agent<'_>) -> bool
        ensures { result ≡ turned_by self.now.crew self.now.told.items entry.now by.now }
    {
        does_meet(self.on_entry(by, entry), by.turning) || by.turned.contains(&entry.node.number())
    }

    /// The directories in which something stays, and the files that can be made programs, by their
    /// numbers below this one. The only error is that a growth was refused.
    pub(crate) fn marks(
        &self,
        alloc: Global,
        entries: &[Entry<'_>],
        count: usize,
    ) -> Result<(Vec<bool>, Vec<bool>), AllocError>
        ensures held { IfOk result (λ both.
            AreMarked (stays_in self.now.crew.columns self.now.crew.shape.agents self.now.told.items)
            entries.now count both.0.items) }
        ensures turned { IfOk result (λ both. AreMarked
            (turns_in self.now.crew self.now.told.items) entries.now count both.1.items) }
    {
        let mut held = no_marks(alloc, count)?;
        let mut turned = no_marks(alloc, count)?;
        for entry in entries {
            let stays = !self.crew.is_taken(&self.told, entry.row);
            mark(&mut held, entry.dir, stays);
            mark(&mut turned, entry.node, self.turns(entry));
        }
        Ok((held, turned))
    }
}
