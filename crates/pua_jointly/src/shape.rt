//! Where the words of a crew's table stand.

ghost use Rattle.std.specs.Prelude.{◌≡◌, ◌+◌, ℕ, List, length, slice_get};
ghost use Rattle.pua_tree.specs.Tree.{Spot};
ghost use Rattle.pua_policy.specs.States.{ProcessState};
ghost use Rattle.pua_jointly.specs.Jointly.{Hand};
ghost use Rattle.pua_jointly.specs.JointTable.{columns, entities};
ghost use Rattle.pua_jointly.specs.JointShape.{column_of, entity_of};

use pua_tree::NodeId;

/// How much the table of a crew is of. It has a row for each number that a directory can have, for
/// what each process makes on each device, for where each can put directories and other things of a
/// device, and one for each name at which something stands. A row has a word for each process, one
/// for all of them, and one for each watched directory.
#[derive(Clone, Copy)]
pub(crate) struct Shape {
    /// How many processes.
    pub(crate) agents: usize,
    /// How many of them on all devices.
    pub(crate) hands: usize,
    /// The greatest number of a directory.
    pub(crate) last: u32,
}

/// What a row is about.
#[derive(Clone, Copy)]
pub(crate) enum Row {
    /// The directory with this number.
    Dir(NodeId),
    /// What this process makes on its device.
    Made(usize),
    /// Where this process can put directories of its device.
    Landing(usize),
    /// Where this process can put other things of its device, and what it can make there.
    Drops(usize),
    /// This one of the names at which something stands.
    Name(usize),
}

/// What a word of a row is about.
#[derive(Clone, Copy)]
pub(crate) enum Part {
    /// This process.
    Agent(usize),
    /// All of them.
    Common,
    /// This watched directory.
    Watched(usize),
}

impl Shape {
    /// What the row at a place is about.
    pub(crate) fn row(self, place: usize) -> Row
        ensures { (hands : List Hand) (spots : List Spot) → length hands ≡ self.hands →
            slice_get (entities hands (self.last + 1) spots) place ≡ entity_of hands spots result }
    {
        let last = self.last as usize;
        if place <= last {
            return Row::Dir(NodeId::new(place as u32));
        }
        self.row_after_dirs(place - last - 1)
    }

    /// The same, by the place after the rows of directories.
    fn row_after_dirs(self, place: usize) -> Row
        ensures { (hands : List Hand) (spots : List Spot) → length hands ≡ self.hands →
            slice_get (entities hands (self.last + 1) spots) (self.last + 1 + place)
            ≡ entity_of hands spots result }
    {
        if place < self.hands {
            return Row::Made(place);
        }
        let landing = place - self.hands;
        if landing < self.hands {
            return Row::Landing(landing);
        }
        let drops = landing - self.hands;
        if drops < self.hands {
            return Row::Drops(drops);
        }
        Row::Name(drops - self.hands)
    }

    /// What the word at a place of a row is about.
    pub(crate) fn part(self, place: usize) -> Part
        ensures { (crew : List ProcessState) (guarded : List ℕ) → length crew ≡ self.agents →
            slice_get (columns crew guarded) place ≡ column_of crew guarded result }
    {
        if place < self.agents {
            return Part::Agent(place);
        }
        match (place - self.agents).checked_sub(1) {
            Some(watched) => Part::Watched(watched),
            None => Part::Common,
        }
    }
}
