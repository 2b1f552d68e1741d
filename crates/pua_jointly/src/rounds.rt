//! What follows from the table of a crew, by what a word of it is about.

ghost use Rattle.std.specs.Prelude.{◌≡◌, ◌<◌, if◌then◌else◌, None, Some, get_or, option_map};
ghost use Rattle.std.specs.Int.Bits.{bit_or};
ghost use Rattle.std.specs.List.{find, fold, list_any};
ghost use Rattle.pua_tree.specs.Tree.{is_dir_kind};
ghost use Rattle.pua_policy.specs.States.{perms_kept};
ghost use Rattle.pua_ever.specs.EverLines.{new_of};
ghost use Rattle.pua_jointly.specs.JointOld.{asked_word};
ghost use Rattle.pua_jointly.specs.JointWords.{word_at};
ghost use Rattle.pua_jointly.specs.JointSetup.{dir_side, hand_side, has_hand, is_of_device};
ghost use Rattle.pua_jointly.specs.JointSetup.{side_of};
ghost use Rattle.pua_jointly.specs.JointSides.{is_top};
ghost use Rattle.pua_jointly.specs.JointGround.{ground_at, ground_of};
ghost use Rattle.pua_jointly.specs.JointRounds.{agent_at_once, part_at_once, side_at_once};
ghost use Rattle.pua_jointly.specs.JointRounds.{side_word};
ghost use Rattle.pua_jointly.specs.JointRounds.{agent_word, brings, can_carry_new, can_carry_row};
ghost use Rattle.pua_jointly.specs.JointRounds.{can_create, can_enter, can_turn, carried_flag};
ghost use Rattle.pua_jointly.specs.JointRounds.{carried_word, carries_at, carries_born};
ghost use Rattle.pua_jointly.specs.JointRounds.{carries_on, clears_dir, clears_landing};
ghost use Rattle.pua_jointly.specs.JointRounds.{clears_new, come_word, comes_clear, comes_in};
ghost use Rattle.pua_jointly.specs.JointRounds.{common_word, create_flag, dir_word, drops_word};
ghost use Rattle.pua_jointly.specs.JointRounds.{finds, flag, gives_c, is_clear, is_freed};
ghost use Rattle.pua_jointly.specs.JointRounds.{is_taken, is_taken_away, is_turned, makers_word, mark_word};
ghost use Rattle.pua_jointly.specs.JointRounds.{new_word, opens, opens_in, part_word, put_at};
ghost use Rattle.pua_jointly.specs.JointRounds.{replaces, stands_in, stays_in, takes_at};
ghost use Rattle.pua_jointly.specs.JointRounds.{turns_at, watched_word};

use crate::agent::Agent;
use crate::crew::{Crew, Entry, Mark, Side, Watch};
use crate::made::{made_bit, made_node};
use crate::mover::Mover;
use crate::old::{above, old, over};
use crate::setup::is_on_device;
use crate::shape::{Part, Row};
use crate::words::{
    CLEAR, ENTERS, WITH_C, apart, covers_of, covers_some, does_meet, dropped, has, is_clear_apart,
    landing, made, moved, moves, word,
};
use pua_ever::{Made, has_c};
use pua_policy::{Cover, Place};
use pua_tree::{FileTree, Kind, NodeId};

/// The bit of a directory's word by which a process can put another one in its place.
const TURNS: u32 = 19;

/// The first bit of what a process makes by which another one can carry it.
pub(crate) const CARRIES: u32 = 19;

/// The bit of a name's word by which what stands there can be taken away, and by which a process
/// can carry it.
pub(crate) const GOES: u32 = 0;

/// What the words of a device's rows are worked out by.
#[derive(Clone, Copy)]
pub(crate) struct Ground<'c, 't> {
    /// All that is of the crew.
    pub(crate) crew: &'c Crew<'t>,
    /// The device.
    pub(crate) side: &'c Side<'t>,
}

/// What those of a device are worked out by.
fn make_ground<'c, 't>(crew: &'c Crew<'t>, side: &'c Side<'t>) -> Ground<'c, 't>
    ensures { ground_at result ≡ ground_of crew.now side.now }
{
    Ground { crew, side }
}

impl<'t> Crew<'t> {
    /// What follows for the word of a row and a column, by what these are about.
    pub(crate) fn part<T: FileTree>(
        &self,
        tree: &T,
        told: &[u32],
        at: usize,
        row: Row,
        part: Part,
    ) -> u32
        ensures { result
            ≡ side_word (T.content tree.now) self.now told.now at row part (side_of self.now row) }
    {
        let about = row;
        match self.side(about) {
            Some(side) => make_ground(self, side).part(tree, told, at, row, part),
            None => 0,
        }
    }

    /// What follows for a word by its own covers.
    pub(crate) fn at_once(&self, told: &[u32], row: Row, part: Part) -> u32
        ensures { result ≡ side_at_once self.now told.now row part (side_of self.now row) }
    {
        let about = row;
        match self.side(about) {
            Some(side) => make_ground(self, side).at_once(told, row, part),
            None => 0,
        }
    }

    /// The device of a row.
    #[inline(always)]
    fn side(&self, row: Row) -> Option<&Side<'t>>
        ensures { option_map (λ side. side.now) result ≡ side_of self.now row }
    {
        match row {
            Row::Dir(dir) => self.dir_side(dir),
            Row::Made(hand) | Row::Landing(hand) | Row::Drops(hand) => self.hand_side(hand),
            Row::Name(entry) => match self.entries.get(entry) {
                Some(entry) => self.dir_side(entry.dir),
                None => None,
            },
        }
    }

    /// The device of a directory.
    pub(crate) fn dir_side(&self, dir: NodeId) -> Option<&Side<'t>>
        ensures { option_map (λ side. side.now) result ≡ dir_side self.now dir }
    {
        match self.devices.get(dir.number() as usize) {
            Some(device) => self.device_side(*device),
            None => None,
        }
    }

    /// Whether a directory is the first one of its device: the root, or a mount point.
    pub(crate) fn is_top(&self, dir: NodeId) -> bool
        ensures { result ≡ is_top self.now.devices.items dir }
    {
        is_on_device(&self.devices, dir, dir)
    }

    /// The device with a number.
    fn device_side(&self, device: NodeId) -> Option<&Side<'t>>
        ensures { option_map (λ side. side.now) result
            ≡ find (is_of_device device) self.now.sides.items }
    {
        self.sides.iter().find(|side| side.device == device)
    }

    /// The device of a process on one, by its number among all these.
    fn hand_side(&self, hand: usize) -> Option<&Side<'t>>
        ensures { option_map (λ side. side.now) result ≡ hand_side self.now hand }
    {
        self.sides.iter().find(|side| self.has_hand(hand, side))
    }

    /// Whether it is on this one.
    fn has_hand(&self, hand: usize, side: &Side<'_>) -> bool
        ensures { result ≡ has_hand self.now hand side.now }
    {
        side.first <= hand && hand - side.first < self.shape.agents
    }

    /// The column of a directory, if it is watched.
    pub(crate) fn watch_column(&self, dir: NodeId) -> Option<usize>
        ensures { result ≡ get_or self.now.watch_columns.items dir None }
    {
        match self.watch_columns.get(dir.number() as usize) {
            Some(column) => *column,
            None => None,
        }
    }

    /// Whether what stands at the name of a row can be taken away.
    pub(crate) fn is_taken(&self, told: &[u32], row: usize) -> bool
        ensures { result ≡ is_taken self.now.columns self.now.shape.agents told.now row }
    {
        has(word(told, self.columns, row, self.shape.agents), GOES)
    }
}

impl Ground<'_, '_> {
    /// What follows for the word of a row and a column, by what these are about.
    pub(crate) fn part<T: FileTree>(
        &self,
        tree: &T,
        told: &[u32],
        at: usize,
        row: Row,
        part: Part,
    ) -> u32
        ensures { result ≡ part_word (T.content tree.now) (ground_at self.now) told.now at row part }
    {
        match part {
            Part::Agent(place) => match self.crew.agents.get(place) {
                Some(of) => self.agent(tree, told, at, row, of),
                None => 0,
            },
            Part::Common => self.common(told, row),
            Part::Watched(place) => match self.crew.watches.get(place) {
                Some(watch) => self.watched(tree, told, at, row, watch),
                None => 0,
            },
        }
    }

    /// What follows for a word by its own covers: that directories can be put into one with `c`.
    pub(crate) fn at_once(&self, told: &[u32], row: Row, part: Part) -> u32
        ensures { result ≡ part_at_once (ground_at self.now) told.now row part }
    {
        match part {
            Part::Agent(place) => match self.crew.agents.get(place) {
                Some(of) => self.agent_at_once(told, row, of),
                None => 0,
            },
            Part::Common | Part::Watched(_) => 0,
        }
    }

    /// What does for the word of a process.
    fn agent_at_once(&self, told: &[u32], row: Row, of: &Agent<'_>) -> u32
        ensures { result ≡ agent_at_once (ground_at self.now) told.now row of.now }
    {
        match row {
            Row::Dir(dir) => {
                let covers = word(told, self.crew.columns, dir.number() as usize, of.place);
                flag(does_meet(covers, WITH_C), ENTERS)
            }
            Row::Made(_) | Row::Landing(_) | Row::Drops(_) | Row::Name(_) => 0,
        }
    }

    /// What follows for the word of a process.
    fn agent<T: FileTree>(&self, tree: &T, told: &[u32], at: usize, row: Row, of: &Agent<'_>) -> u32
        ensures { result ≡ agent_word (T.content tree.now) (ground_at self.now) told.now at row of.now }
    {
        match row {
            Row::Dir(dir) => self.dir(tree, told, of, dir),
            Row::Made(maker) => match self.side.movers.get(maker.saturating_sub(self.side.first)) {
                Some(maker) => self.new_word(tree, told, at, maker, of),
                None => 0,
            },
            Row::Landing(by) => match self.side.movers.get(by.saturating_sub(self.side.first)) {
                Some(by) => covers_of(landing(
                    told,
                    self.crew.columns,
                    &self.side.seats,
                    by.place,
                    of.place,
                )),
                None => 0,
            },
            Row::Drops(by) => match self.crew.agents.get(by.saturating_sub(self.side.first)) {
                Some(by) => covers_of(self.drops(told, by, of)),
                None => 0,
            },
            Row::Name(entry) => match self.crew.entries.get(entry) {
                Some(entry) => flag(self.carries_row(told, of, entry), GOES),
                None => 0,
            },
        }
    }

    /// What follows for the word of all processes.
    fn common(&self, told: &[u32], row: Row) -> u32
        ensures { result ≡ common_word (ground_at self.now) told.now row }
    {
        match row {
            Row::Drops(by) => match self.crew.agents.get(by.saturating_sub(self.side.first)) {
                Some(by) => self.makers(told, by),
                None => 0,
            },
            Row::Name(entry) => match self.crew.entries.get(entry) {
                Some(entry) => flag(self.is_taken_away(told, entry), GOES),
                None => 0,
            },
            Row::Dir(_) | Row::Made(_) | Row::Landing(_) => 0,
        }
    }

    /// What follows for the word of a watched directory.
    fn watched<T: FileTree>(
        &self,
        tree: &T,
        told: &[u32],
        at: usize,
        row: Row,
        watch: &Watch,
    ) -> u32
        ensures { result ≡ watched_word (T.content tree.now) (ground_at self.now) told.now at row watch.now }
    {
        match row {
            Row::Dir(dir) => flag(self.clears_dir(tree, told, dir, watch), CLEAR),
            Row::Made(maker) => match self.side.movers.get(maker.saturating_sub(self.side.first)) {
                Some(maker) => flag(self.clears_new(told, at, maker, watch), CLEAR),
                None => 0,
            },
            Row::Landing(by) => match self.side.movers.get(by.saturating_sub(self.side.first)) {
                Some(by) => flag(self.clears_landing(told, by, watch), CLEAR),
                None => 0,
            },
            Row::Drops(_) | Row::Name(_) => 0,
        }
    }

    /// The word of a process on a directory of the beginning.
    fn dir<T: FileTree>(&self, tree: &T, told: &[u32], of: &Agent<'_>, dir: NodeId) -> u32
        ensures { result ≡ dir_word (T.content tree.now) (ground_at self.now) told.now of.now dir }
    {
        let moved = self.come(told, dir, of.place);
        let covers = old(tree, told, self.crew.columns, of, dir, moved);
        let enters = self.enters(tree, told, of, dir.number() as usize);
        covers_of(covers) | (flag(enters, ENTERS) | flag(self.turns(told, of, dir), TURNS))
    }

    /// The word of a process on what another one makes.
    fn new_word<T: FileTree>(
        &self,
        tree: &T,
        told: &[u32],
        row: usize,
        maker: &Mover,
        of: &Agent<'_>,
    ) -> u32
        ensures { result ≡ new_word (T.content tree.now) (ground_at self.now) told.now row maker.now of.now }
    {
        let covers = made(
            told,
            self.crew.columns,
            &self.side.movers,
            self.crew.shape.agents,
            row,
            maker,
            of.place,
        );
        let enters = self.enters(tree, told, of, row);
        covers_of(covers) | (flag(enters, ENTERS) | self.carried(told, row, maker, of))
    }

    /// What a process makes that another one can carry.
    fn carried(&self, told: &[u32], row: usize, maker: &Mover, of: &Agent<'_>) -> u32
        ensures { result ≡ carried_word (ground_at self.now) told.now row maker.now of.now }
    {
        let dirs = self.carries(told, row, maker, of, Made::Dir)
            | self.carries(told, row, maker, of, Made::Others);
        let others = self.carries(told, row, maker, of, Made::File)
            | self.carries(told, row, maker, of, Made::Link);
        let typed = self.carries(told, row, maker, of, Made::Sock)
            | self.carries(told, row, maker, of, Made::Fifo);
        (dirs | others) | typed
    }

    /// The bit of such a thing.
    fn carries(&self, told: &[u32], row: usize, maker: &Mover, of: &Agent<'_>, made: Made) -> u32
        ensures { result
            ≡ carried_flag (ground_at self.now) told.now row maker.now of.now (new_of made) }
    {
        flag(
            self.carries_new(told, row, maker, of, made),
            CARRIES + made_bit(made),
        )
    }

    /// What a process can make.
    fn makers(&self, told: &[u32], of: &Agent<'_>) -> u32
        ensures { result ≡ makers_word (ground_at self.now) told.now of.now }
    {
        let dirs = self.creates(told, of, Made::Dir) | self.creates(told, of, Made::Others);
        let others = self.creates(told, of, Made::File) | self.creates(told, of, Made::Link);
        let typed = self.creates(told, of, Made::Sock) | self.creates(told, of, Made::Fifo);
        (dirs | others) | typed
    }

    /// The bit of such a thing.
    fn creates(&self, told: &[u32], of: &Agent<'_>, made: Made) -> u32
        ensures { result ≡ create_flag (ground_at self.now) told.now of.now (new_of made) }
    {
        flag(self.can_create(told, of, made), made_bit(made))
    }

    /// Whether a process can make something, at some name.
    fn can_create(&self, told: &[u32], of: &Agent<'_>, made: Made) -> bool
        ensures { result ≡ can_create (ground_at self.now) told.now of.now (new_of made) }
    {
        let covers = of.making(made);
        covers_some(told, self.crew.columns, &self.side.seats, of.place, covers)
            || self.opens_some(told, of, covers)
    }

    /// Whether it is so of some name with a veil.
    fn opens_some(&self, told: &[u32], of: &Agent<'_>, covers: u32) -> bool
        ensures { result
            ≡ list_any (opens (ground_at self.now) told.now of.now covers) (ground_at self.now).marks }
    {
        self.side
            .marks
            .iter()
            .any(|mark| self.opens(told, of, covers, mark))
    }

    /// The covers by the veils of a process of where another one can put what is no directory.
    fn drops(&self, told: &[u32], by: &Agent<'_>, of: &Agent<'_>) -> u32
        ensures { result ≡ drops_word (ground_at self.now) told.now by.now of.now }
    {
        dropped(
            told,
            self.crew.columns,
            &self.side.seats,
            by.place,
            of.place,
        ) | self.put(told, by, of)
    }

    /// Those of all names with veils.
    fn put(&self, told: &[u32], by: &Agent<'_>, of: &Agent<'_>) -> u32
        ensures { result ≡ fold (λ word mark. bit_or word (put_at (ground_at self.now) told.now by.now of.now
            mark)) 0 (ground_at self.now).marks }
    {
        self.side
            .marks
            .iter()
            .fold(0, |word, mark| word | self.put_at(told, by, of, mark))
    }

    /// Those of one name.
    fn put_at(&self, told: &[u32], by: &Agent<'_>, of: &Agent<'_>, mark: &Mark<'_>) -> u32
        ensures { result ≡ put_at (ground_at self.now) told.now by.now of.now mark.now }
    {
        if self.opens(told, by, WITH_C, mark) {
            self.over_mark(told, of, mark)
        } else {
            0
        }
    }

    /// Whether a process can put another directory into one.
    #[inline(always)]
    fn enters<T: FileTree>(&self, tree: &T, told: &[u32], of: &Agent<'_>, seat: usize) -> bool
        ensures { result ≡ can_enter (T.content tree.now) (ground_at self.now) told.now of.now seat }
    {
        does_meet(word(told, self.crew.columns, seat, of.place), WITH_C)
            || (self.opens_at(told, of, seat) || self.turned_at(tree, told, of, seat))
    }

    /// Whether it can do so at some name with a veil.
    fn opens_at(&self, told: &[u32], of: &Agent<'_>, seat: usize) -> bool
        ensures { result
            ≡ list_any (opens_in (ground_at self.now) told.now of.now seat) (ground_at self.now).marks }
    {
        self.side
            .marks
            .iter()
            .any(|mark| self.opens_in(told, of, seat, mark))
    }

    /// Whether it can do so in the place of some watched directory.
    fn turned_at<T: FileTree>(&self, tree: &T, told: &[u32], of: &Agent<'_>, seat: usize) -> bool
        ensures { result ≡ list_any (is_turned (T.content tree.now) (ground_at self.now) told.now of.now seat)
            (ground_at self.now).here }
    {
        self.side
            .watches
            .iter()
            .any(|watch| self.turned(tree, told, of, seat, watch))
    }

    /// Whether it can at this one.
    fn opens_in(&self, told: &[u32], of: &Agent<'_>, seat: usize, mark: &Mark<'_>) -> bool
        ensures { result ≡ opens_in (ground_at self.now) told.now of.now seat mark.now }
    {
        mark.dir.number() as usize == seat && self.opens(told, of, WITH_C, mark)
    }

    /// Whether it can in the place of this one.
    fn turned<T: FileTree>(
        &self,
        tree: &T,
        told: &[u32],
        of: &Agent<'_>,
        seat: usize,
        watch: &Watch,
    ) -> bool
        ensures { result ≡ is_turned (T.content tree.now) (ground_at self.now) told.now of.now seat watch.now }
    {
        has(
            word(
                told,
                self.crew.columns,
                watch.dir.number() as usize,
                of.place,
            ),
            TURNS,
        ) && (stands_in(tree, watch.dir, seat) || self.comes_in(told, seat, watch))
    }

    /// Whether a watched directory can be brought into one.
    fn comes_in(&self, told: &[u32], seat: usize, watch: &Watch) -> bool
        ensures { result ≡ comes_in (ground_at self.now) told.now seat watch.now }
    {
        self.is_clear(told, seat, watch) && self.is_brought(told, watch.dir, seat)
    }

    /// Whether some process can move a directory and enters another one.
    fn is_brought(&self, told: &[u32], dir: NodeId, seat: usize) -> bool
        ensures { result ≡ list_any (brings (ground_at self.now) told.now dir seat) (ground_at self.now).movers }
    {
        self.side
            .movers
            .iter()
            .any(|by| self.brings(told, dir, seat, by))
    }

    /// Whether this one does.
    fn brings(&self, told: &[u32], dir: NodeId, seat: usize, by: &Mover) -> bool
        ensures { result ≡ brings (ground_at self.now) told.now dir seat by.now }
    {
        moves(told, self.crew.columns, dir.number() as usize, by)
            && has(word(told, self.crew.columns, seat, by.place), ENTERS)
    }

    /// Whether a process can put another directory in the place of one, by a veil on that.
    fn turns(&self, told: &[u32], of: &Agent<'_>, dir: NodeId) -> bool
        ensures { result ≡ can_turn (ground_at self.now) told.now of.now dir }
    {
        gives_c(of, dir) && (!self.holds(told, dir) && self.turns_some(told, of, dir))
    }

    /// Whether some watched directory is this one, and another one can be put in its place.
    fn turns_some(&self, told: &[u32], of: &Agent<'_>, dir: NodeId) -> bool
        ensures { result
            ≡ list_any (turns_at (ground_at self.now) told.now of.now dir) (ground_at self.now).here }
    {
        self.side
            .watches
            .iter()
            .any(|watch| self.turns_at(told, of, dir, watch))
    }

    /// Whether something stands in a directory and can't be taken away.
    fn holds(&self, told: &[u32], dir: NodeId) -> bool
        ensures { result ≡ list_any (stays_in (ground_at self.now).columns (ground_at self.now).common
            told.now dir) (ground_at self.now).entries }
    {
        self.crew
            .entries
            .iter()
            .any(|entry| self.stays_in(told, dir, entry))
    }

    /// Whether something stands at a name in a directory and can't be taken away.
    fn stays_in(&self, told: &[u32], dir: NodeId, entry: &Entry<'_>) -> bool
        ensures { result ≡ stays_in (ground_at self.now).columns (ground_at self.now).common
            told.now dir entry.now }
    {
        entry.dir == dir && !self.crew.is_taken(told, entry.row)
    }

    /// Whether this is the directory, and another one can be put in its place.
    fn turns_at(&self, told: &[u32], of: &Agent<'_>, dir: NodeId, watch: &Watch) -> bool
        ensures { result ≡ turns_at (ground_at self.now) told.now of.now dir watch.now }
    {
        watch.dir == dir && self.is_replaced(told, of, watch)
    }

    /// Whether another one can be put in its place.
    fn is_replaced(&self, told: &[u32], of: &Agent<'_>, watch: &Watch) -> bool
        ensures { result
            ≡ list_any (replaces (ground_at self.now) told.now of.now watch.now) (ground_at self.now).seats }
    {
        self.side
            .seats
            .iter()
            .any(|seat| self.replaces(told, of, watch, *seat))
    }

    /// Whether it is this one.
    fn replaces(&self, told: &[u32], of: &Agent<'_>, watch: &Watch, seat: usize) -> bool
        ensures { result ≡ replaces (ground_at self.now) told.now of.now watch.now seat }
    {
        seat != watch.dir.number() as usize
            && (does_meet(word(told, self.crew.columns, seat, of.place), of.moving)
                && self.is_clear(told, seat, watch))
    }

    /// Whether a watched directory can come to be neither another one nor above it.
    fn is_clear(&self, told: &[u32], seat: usize, watch: &Watch) -> bool
        ensures { result ≡ is_clear (ground_at self.now) told.now seat watch.now }
    {
        has(word(told, self.crew.columns, seat, watch.column), CLEAR)
    }

    /// Whether a process can carry what stands at a name.
    fn carries_row(&self, told: &[u32], of: &Agent<'_>, entry: &Entry<'_>) -> bool
        ensures { result ≡ can_carry_row (ground_at self.now) told.now of.now entry.now }
    {
        self.carries_at(told, of, entry) || self.is_carried(told, entry.row, GOES, of, entry.kind)
    }

    /// Whether it can where some process puts it that can carry it itself.
    fn is_carried(&self, told: &[u32], row: usize, bit: u32, of: &Agent<'_>, kind: Kind) -> bool
        requires { bit < 32 }
        ensures { result
            ≡ list_any (carries_on (ground_at self.now) told.now row bit of.now kind) (ground_at self.now).movers }
    {
        self.side
            .movers
            .iter()
            .any(|by| self.carries_on(told, row, bit, of, kind, by))
    }

    /// Whether it can where it stands.
    fn carries_at(&self, told: &[u32], of: &Agent<'_>, entry: &Entry<'_>) -> bool
        ensures { result ≡ carries_at (ground_at self.now) told.now of.now entry.now }
    {
        if entry.kind == Kind::Dir {
            return false;
        }
        let covers = over(told, self.crew.columns, of, entry.dir, entry.name);
        does_meet(covers, of.carrying(entry.kind))
    }

    /// Whether a process can carry such a thing of another one's.
    fn carries_new(
        &self,
        told: &[u32],
        row: usize,
        maker: &Mover,
        of: &Agent<'_>,
        made: Made,
    ) -> bool
        ensures { result ≡ can_carry_new (ground_at self.now) told.now row maker.now (new_of made) of.now }
    {
        let bit = CARRIES + made_bit(made);
        self.carries_born(told, maker, of, made)
            || self.is_carried(told, row, bit, of, made_node(made))
    }

    /// Whether it can where that is made.
    fn carries_born(&self, told: &[u32], maker: &Mover, of: &Agent<'_>, made: Made) -> bool
        ensures { result ≡ carries_born (ground_at self.now) told.now maker.now (new_of made) of.now }
    {
        has(
            word(told, self.crew.columns, maker.drops, self.crew.shape.agents),
            made_bit(made),
        ) && self.finds(told, of, made_node(made), maker)
    }

    /// Whether it can where this one puts it.
    fn carries_on(
        &self,
        told: &[u32],
        row: usize,
        bit: u32,
        of: &Agent<'_>,
        kind: Kind,
        by: &Mover,
    ) -> bool
        requires { bit < 32 }
        ensures { result ≡ carries_on (ground_at self.now) told.now row bit of.now kind by.now }
    {
        has(word(told, self.crew.columns, row, by.place), bit) && self.finds(told, of, kind, by)
    }

    /// Whether another process can put such a thing where it can carry it.
    fn finds(&self, told: &[u32], of: &Agent<'_>, kind: Kind, by: &Mover) -> bool
        ensures { result ≡ finds (ground_at self.now) told.now of.now kind by.now }
    {
        does_meet(
            word(told, self.crew.columns, by.drops, of.place),
            of.carrying(kind),
        )
    }

    /// Whether what stands at a name can be taken away: it is no mount point.
    fn is_taken_away(&self, told: &[u32], entry: &Entry<'_>) -> bool
        ensures { result ≡ is_taken_away (ground_at self.now) told.now entry.now }
    {
        !self.crew.is_top(entry.node) && self.takes(told, entry)
    }

    /// Whether one of the processes can do so by what covers that.
    fn takes(&self, told: &[u32], entry: &Entry<'_>) -> bool
        ensures { result ≡ list_any (takes_at (ground_at self.now) told.now entry.now) (ground_at self.now).agents }
    {
        self.crew
            .agents
            .iter()
            .any(|by| self.takes_at(told, entry, by))
    }

    /// Whether this one can.
    fn takes_at(&self, told: &[u32], entry: &Entry<'_>, by: &Agent<'_>) -> bool
        ensures { result ≡ takes_at (ground_at self.now) told.now entry.now by.now }
    {
        by.may_take && does_meet(self.over_entry(told, entry, by), WITH_C)
    }

    /// The covers of what stands at a name.
    fn over_entry(&self, told: &[u32], entry: &Entry<'_>, of: &Agent<'_>) -> u32
        ensures { result ≡ (if is_dir_kind (Some entry.now.kind)
            then word_at told.now (ground_at self.now).columns entry.now.node of.now.place
            else asked_word of.now.named of.now.process.now told.now (ground_at self.now).columns entry.now.dir
            entry.now.name.now of.now.place) }
    {
        if entry.kind == Kind::Dir {
            return word(
                told,
                self.crew.columns,
                entry.node.number() as usize,
                of.place,
            );
        }
        over(told, self.crew.columns, of, entry.dir, entry.name)
    }

    /// The bits in a column of where a directory comes when it is moved.
    fn come(&self, told: &[u32], dir: NodeId, column: usize) -> u32
        ensures { result ≡ come_word (ground_at self.now) told.now dir column }
    {
        let seat = dir.number() as usize;
        match self.crew.watch_column(dir) {
            Some(watch) => apart(
                told,
                self.crew.columns,
                &self.side.movers,
                &self.side.seats,
                seat,
                watch,
                column,
            ),
            None => moved(told, self.crew.columns, &self.side.movers, seat, column),
        }
    }

    /// Whether a watched directory can come to be neither one of the beginning nor above it.
    fn clears_dir<T: FileTree>(&self, tree: &T, told: &[u32], dir: NodeId, watch: &Watch) -> bool
        ensures { result ≡ clears_dir (T.content tree.now) (ground_at self.now) told.now dir watch.now }
    {
        if dir == watch.dir {
            return false;
        }
        if dir == NodeId::ROOT {
            return true;
        }
        has(
            above(tree, told, self.crew.columns, dir, watch.column),
            CLEAR,
        ) || self.comes_clear(told, dir, watch.column)
    }

    /// Whether a directory that is moved comes where a watched one is not above it, by the column of
    /// that.
    fn comes_clear(&self, told: &[u32], dir: NodeId, column: usize) -> bool
        ensures { result ≡ comes_clear (ground_at self.now) told.now dir column }
    {
        let seat = dir.number() as usize;
        match self.crew.watch_column(dir) {
            Some(watch) => is_clear_apart(
                told,
                self.crew.columns,
                &self.side.movers,
                &self.side.seats,
                seat,
                watch,
                column,
            ),
            None => has(
                moved(told, self.crew.columns, &self.side.movers, seat, column),
                CLEAR,
            ),
        }
    }

    /// Whether it can come to be not above what a process makes.
    fn clears_new(&self, told: &[u32], row: usize, maker: &Mover, watch: &Watch) -> bool
        ensures { result ≡ clears_new (ground_at self.now) told.now row maker.now watch.now }
    {
        let word = made(
            told,
            self.crew.columns,
            &self.side.movers,
            self.crew.shape.agents,
            row,
            maker,
            watch.column,
        );
        has(word, CLEAR)
    }

    /// Whether it can come to be neither where a process puts directories nor above it.
    fn clears_landing(&self, told: &[u32], by: &Mover, watch: &Watch) -> bool
        ensures { result ≡ clears_landing (ground_at self.now) told.now by.now watch.now }
    {
        let word = landing(
            told,
            self.crew.columns,
            &self.side.seats,
            by.place,
            watch.column,
        );
        has(word, CLEAR)
    }

    /// Whether a name with a veil can come to be free, and some of these covers come over it.
    fn opens(&self, told: &[u32], of: &Agent<'_>, covers: u32, mark: &Mark<'_>) -> bool
        ensures { result ≡ opens (ground_at self.now) told.now of.now covers mark.now }
    {
        self.is_freed(told, mark.row) && does_meet(self.over_mark(told, of, mark), covers)
    }

    /// The covers of a name with a veil.
    fn over_mark(&self, told: &[u32], of: &Agent<'_>, mark: &Mark<'_>) -> u32
        ensures { result ≡ mark_word (ground_at self.now) told.now of.now mark.now }
    {
        over(told, self.crew.columns, of, mark.dir, mark.name)
    }

    /// Whether a name can come to be free, by the row of what stands there.
    fn is_freed(&self, told: &[u32], row: Option<usize>) -> bool
        ensures { result ≡ is_freed (ground_at self.now) told.now row }
    {
        match row {
            Some(row) => self.crew.is_taken(told, row),
            None => true,
        }
    }
}

/// Whether a directory stands in another one.
fn stands_in<T: FileTree>(tree: &T, dir: NodeId, seat: usize) -> bool
    ensures { result ≡ stands_in (T.content tree.now) dir seat }
{
    if dir == NodeId::ROOT {
        return false;
    }
    match tree.parent(dir) {
        Some(parent) => parent.number() as usize == seat,
        None => false,
    }
}

/// Whether a process has a veil with `c` on a directory.
fn gives_c(of: &Agent<'_>, dir: NodeId) -> bool
    ensures { result ≡ gives_c (perms_kept of.now.process.now (Place.Dir dir)) }
{
    match of.kept(dir) {
        Some(perms) => has_c(Cover::Only(perms)),
        None => false,
    }
}

/// A bit by itself, or none.
pub(crate) fn flag(set: bool, bit: u32) -> u32
    requires { bit < 32 }
    ensures { result ≡ flag set bit }
{
    if set { 1 << bit } else { 0 }
}
