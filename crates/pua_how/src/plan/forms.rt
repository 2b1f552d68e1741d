//! The forms of plans: what comes from where, in what it is carried, and where it comes to.

use crate::plan::Search;
use crate::plan::draft::{Draft, DraftFault};
use crate::plan::planner::{By, Need, Row, Veil};
use crate::step::{At, Dir};
use crate::target::Target;
use pua_calls::Call;
use pua_tree::NodeId;

/// What comes: something that stands, or what a call makes.
#[derive(Clone, Copy)]
pub(crate) enum Origin<'p> {
    Standing(&'p Row),
    Made(Call),
}

impl Origin<'_> {
    /// The device of what stands; None of what is made.
    pub(crate) fn device(self) -> Option<NodeId> {
        match self {
            Origin::Standing(row) => Some(row.device),
            Origin::Made(_) => None,
        }
    }
}

/// In what it comes: by itself, in the directory in which its name is, or in one that is made.
#[derive(Clone, Copy, PartialEq, Eq)]
pub(crate) enum Carrier {
    Nothing,
    Parent,
    Made,
}

/// Where it, or its carrier, comes to.
#[derive(Clone, Copy)]
pub(crate) enum Destination<'p> {
    /// It stays.
    Here,
    /// To a new name in a directory.
    Inside(&'p Row),
    /// To the name of a veil: where that is kept at a directory, this gives way.
    Name(&'p Veil),
}

/// A form of plans.
#[derive(Clone, Copy)]
pub(crate) struct Form<'p> {
    pub(crate) from: Origin<'p>,
    /// How it comes, by itself or into its carrier.
    pub(crate) by: By,
    pub(crate) carrier: Carrier,
    pub(crate) to: Destination<'p>,
}

impl<'p> Form<'p> {
    /// That in which something comes by itself.
    pub(crate) fn plain(from: Origin<'p>, by: By, to: Destination<'p>) -> Form<'p> {
        let carrier = Carrier::Nothing;
        Form {
            from,
            by,
            carrier,
            to,
        }
    }

    /// Whether what comes is a directory.
    pub(crate) fn is_dir(&self) -> bool {
        match self.from {
            Origin::Standing(row) => row.is_dir(),
            Origin::Made(call) => call == Call::Mkdir,
        }
    }

    /// The device of what comes to the destination; None where it is made there.
    pub(crate) fn device(&self) -> Option<NodeId> {
        match (self.from, self.carrier) {
            (Origin::Standing(row), Carrier::Parent) => Some(row.over),
            (from, _) => from.device(),
        }
    }

    /// The device to which it comes; None where it stays.
    fn device_there(&self) -> Option<NodeId> {
        match self.to {
            Destination::Here => None,
            Destination::Inside(room) => Some(room.device),
            Destination::Name(veil) => Some(veil.row.over),
        }
    }

    /// Whether what comes to the destination is a directory, and how it comes there.
    pub(crate) fn mover(&self) -> (bool, By) {
        match self.carrier {
            Carrier::Nothing => (self.is_dir(), self.by),
            _ => (true, By::Rename),
        }
    }
}

impl Search<'_, '_> {
    /// The draft of a form: what is made elsewhere is made before all else, where there is none
    /// otherwise.
    pub(crate) fn draft_of(&self, form: &Form<'_>) -> Result<Draft, DraftFault> {
        match self.draft(form, false) {
            Err(DraftFault::NoWay) => self.draft(form, true),
            draft => draft,
        }
    }

    /// The same, where it is or is not made before all else.
    fn draft(&self, form: &Form<'_>, is_early: bool) -> Result<Draft, DraftFault> {
        let mut draft = Draft::new(self.planner.alloc);
        self.leave(&mut draft, form)?;
        if is_early {
            draft.from = Some(self.origin(&mut draft, form)?);
        }
        self.clear(&mut draft, form)?;
        let thing = self.bring(&mut draft, form)?;
        self.end(draft, thing)
    }

    /// A directory is to leave for a destination: it is emptied, if it is to be removed, and
    /// nothing is put into it; a destination in it is pulled out.
    fn leave(&self, draft: &mut Draft, form: &Form<'_>) -> Result<(), DraftFault> {
        let dir = match (form.from, form.carrier) {
            (Origin::Standing(row), Carrier::Parent) => self.planner.parent(row),
            (Origin::Standing(row), _) if row.is_dir() => Some(row),
            _ => return Ok(()),
        };
        let dir = dir.ok_or(DraftFault::NoWay)?;
        let (place, depth) = match form.to {
            Destination::Here => (0, 0),
            Destination::Inside(room) => (room.place, room.depth.saturating_add(1)),
            Destination::Name(veil) => (veil.row.place, veil.row.depth),
        };
        let places = self.planner.extent(dir);
        let is_in = places.contains(&place) && dir.depth < depth;
        draft.close(places)?;
        let removes = self.call == Call::Rmdir && matches!(self.target, Target::Directory(_));
        match (is_in, removes) {
            (true, true) => Err(DraftFault::NoWay),
            (true, false) => self.pull(draft, dir, place, depth),
            (false, true) => self.empty(draft, dir),
            (false, false) => Ok(()),
        }
    }

    /// Pulls a place out of a directory above it: of the directories between, from the nearest one
    /// with a veil of its own upwards, the first that can be moved is moved away.
    fn pull(
        &self,
        draft: &mut Draft,
        dir: &Row,
        place: usize,
        depth: usize,
    ) -> Result<(), DraftFault> {
        let (mut depth, mut is_veiled) = (depth, false);
        let places = dir.place.saturating_add(1)..place.saturating_add(1);
        for row in self.planner.rows_at(places).iter().rev() {
            if row.depth >= depth {
                continue;
            }
            depth = row.depth;
            is_veiled = is_veiled || self.planner.is_veiled(row);
            if is_veiled && self.move_away(draft, row)? {
                return Ok(());
            }
        }
        Err(DraftFault::NoWay)
    }

    /// Clears the destination, but of what leaves it by itself.
    fn clear(&self, draft: &mut Draft, form: &Form<'_>) -> Result<(), DraftFault> {
        let Destination::Name(veil) = form.to else {
            return Ok(());
        };
        match (form.from, form.carrier) {
            (Origin::Standing(row), Carrier::Made) if row.place == veil.row.place => Ok(()),
            _ if veil.is_at_dir => self.empty(draft, &veil.row),
            _ => self.free(draft, &veil.row, form.mover()),
        }
    }

    /// What is needed where a call makes something that comes on from there.
    fn sends(&self, call: Call, by: By) -> Need {
        let gives = self.planner.gives(by, call == Call::Symlink);
        self.planner.call(call).and(gives)
    }

    /// From where something comes on. What a call makes right where it is to be comes from nowhere.
    fn origin(&self, draft: &mut Draft, form: &Form<'_>) -> Result<At, DraftFault> {
        match (draft.from, form.from, form.by) {
            (Some(from), _, _) => Ok(from),
            (None, Origin::Standing(row), _) => Ok(row.at()),
            (None, Origin::Made(_), By::Call(_)) => Ok(At::Directory(NodeId::ROOT)),
            (None, Origin::Made(call), by) => {
                self.make(draft, call, &self.sends(call, by), form.device_there())
            }
        }
    }

    /// Brings what comes to the destination. Answers where the thing is then.
    fn bring(&self, draft: &mut Draft, form: &Form<'_>) -> Result<At, DraftFault> {
        let (from, thing) = match (form.carrier, form.from) {
            (Carrier::Nothing, _) => (self.origin(draft, form)?, None),
            (Carrier::Parent, Origin::Standing(row)) => (At::Directory(row.dir), Some(row.at())),
            _ => self.load(draft, form)?,
        };
        let at = match form.to {
            Destination::Here => return Ok(from),
            Destination::Inside(room) => self.new_in(draft, room.inside())?,
            Destination::Name(veil) => veil.row.at(),
        };
        draft.bring(form.mover().1, &from, &at)?;
        Ok(thing.unwrap_or(at))
    }

    /// Brings it inside a directory that is made. Answers where both are then.
    fn load(&self, draft: &mut Draft, form: &Form<'_>) -> Result<(At, Option<At>), DraftFault> {
        let takes = self.planner.takes(form.by);
        let need = self.sends(Call::Mkdir, By::Rename).and(takes);
        let carrier = self.make(draft, Call::Mkdir, &need, form.device_there())?;
        let from = self.origin(draft, form)?;
        let thing = self.new_in(draft, Dir::Made)?;
        draft.bring(form.by, &from, &thing)?;
        Ok((carrier, Some(thing)))
    }
}
