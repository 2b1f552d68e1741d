//! Plans: steps by which a call may come to be granted on a target. Nothing is promised of them:
//! what a plan comes to is seen when it is served.

mod clear;
mod draft;
mod forms;
mod planner;

use crate::plan::draft::{Draft, DraftFault};
use crate::plan::forms::{Carrier, Destination, Form, Origin};
use crate::plan::planner::{By, Row, Veil};
use crate::step::{At, Dir};
use crate::target::Target;
use crate::way::BestPlans;
pub use planner::Planner;
use pua_calls::{Call, Effect};
use pua_policy::{Cover, Object};
use pua_tree::{FileType, Kind, Name, NodeId};
use std::alloc::AllocError;

/// A search for plans for a call on one target.
#[derive(Drop)]
pub(crate) struct Search<'p, 't> {
    planner: &'p Planner<'t>,
    call: Call,
    target: Target,
    /// With which a path to further names ends.
    name: Option<Name>,
    /// The node that is asked about, which is moved along and never deleted; None where it is none.
    followed: Option<NodeId>,
    forms: Vec<Form<'p>>,
}

impl Planner<'_> {
    /// Offers the plans for a call on a target, which is at this place among all that is meant. Of
    /// further names the path ends with the name that is given. The only error is that a growth was
    /// refused.
    pub(crate) fn offer_plans(
        &self,
        call: Call,
        target: &Target,
        name: Option<&Name>,
        place: usize,
        best: &mut BestPlans,
    ) -> Result<(), AllocError> {
        let mut search = Search {
            planner: self,
            call,
            target: *target,
            name: name.copied(),
            followed: None,
            forms: Vec::new(self.alloc),
        };
        search.add_forms()?;
        for form in &search.forms {
            match search.draft_of(form) {
                Ok(draft) => best.offer(place, draft.steps),
                Err(DraftFault::NoWay) => {}
                Err(DraftFault::OutOfMemory) => return Err(AllocError),
            }
        }
        Ok(())
    }
}

impl<'p> Search<'p, '_> {
    /// Adds the forms for the target. The only error is that a growth was refused.
    fn add_forms(&mut self) -> Result<(), AllocError> {
        let target = self.target;
        match &target {
            Target::Directory(node) | Target::Others(node) | Target::Node(node) => {
                self.followed = Some(*node);
                self.add_standing(*node)
            }
            Target::Name(dir, name) => self.add_name(*dir, name),
            Target::NewDirectory(_) | Target::NewOthers(_) => self.add_made(Kind::Dir),
            Target::NewFile(_) => self.add_made(Kind::File),
            Target::NewLink(_) => self.add_made(Kind::Link),
            Target::NewSock(_) => self.add_made(Kind::Known(FileType::Sock)),
            Target::NewFifo(_) => self.add_made(Kind::Known(FileType::Fifo)),
        }
    }

    /// Adds those for a thing of a kind that is made, by each call that makes one: right where it
    /// is to be, or elsewhere.
    fn add_made(&mut self, kind: Kind) -> Result<(), AllocError> {
        for call in &Call::ALL {
            if matches!(call.effect(), Effect::Makes(made) if made == kind) {
                self.add_moves(Origin::Made(*call), By::Call(*call))?;
                self.add_moves(Origin::Made(*call), By::Rename)?;
                if kind != Kind::Dir {
                    self.add_moves(Origin::Made(*call), By::Link)?;
                }
            }
        }
        Ok(())
    }

    /// Adds those for what stands, by its names: of those that are covered alike, and have no veils
    /// of their own, by one that goes along with its directory and by one that does not.
    fn add_standing(&mut self, node: NodeId) -> Result<(), AllocError> {
        let planner = self.planner;
        let mut seen: Vec<(Cover, bool)> = Vec::new(planner.alloc);
        for row in planner.rows.iter().filter(|row| row.node == Some(node)) {
            let alike = (row.cover, planner.goes_along(row));
            if planner.is_veiled(row) || !seen.contains(&alike) {
                seen.push(alike)?;
                self.add_row(row)?;
            }
        }
        Ok(())
    }

    /// Adds those for what stands, by one of its names: of the call alone, where it is granted now.
    /// A directory with a veil of its own takes that along.
    fn add_row(&mut self, row: &'p Row) -> Result<(), AllocError> {
        let planner = self.planner;
        let from = Origin::Standing(row);
        let links = planner.gives(By::Link, row.object == Object::Node(Kind::Link));
        let is_kept = row.name.is_none() || row.is_mount() || planner.is_veiled(row);
        let is_bound = row.is_dir() && is_kept;
        if self.suffices(&row.cover) {
            self.add(Form::plain(from, By::Rename, Destination::Here))
        } else if self.is_movable(row) && !is_bound {
            self.add_moves(from, By::Rename)
        } else if !row.is_dir() && links.is_met(&row.cover) {
            self.add_moves(from, By::Link)
        } else {
            Ok(())
        }
    }

    /// Adds that for a name with a veil of its own: it is freed.
    fn add_name(&mut self, dir: NodeId, name: &Name) -> Result<(), AllocError> {
        let planner = self.planner;
        let (from, by) = (Origin::Made(self.call), By::Call(self.call));
        for veil in planner.veils.iter().filter(|veil| !veil.is_at_dir) {
            let is_it = veil.row.dir == dir && veil.row.name.as_ref() == Some(name);
            if is_it && self.suffices(&veil.cover) {
                self.add(Form::plain(from, by, Destination::Name(veil)))?;
            }
        }
        Ok(())
    }

    /// Adds those for what comes from somewhere: into a directory in which the call is granted, one
    /// that isn't in it or else any, or by a veil. What stands stays on its device.
    fn add_moves(&mut self, from: Origin<'p>, by: By) -> Result<(), AllocError> {
        let planner = self.planner;
        let need = planner.call(self.call).and(planner.takes(by));
        let inner = match from {
            Origin::Standing(row) => planner.extent(row),
            Origin::Made(_) => 0..0,
        };
        let on = from.device();
        let outer = planner.nearest(&[inner], &need, &on);
        if let Some(room) = outer.or(planner.nearest(&[], &need, &on)) {
            self.add(Form::plain(from, by, Destination::Inside(room)))?;
        }
        for veil in &planner.veils {
            self.add_by_veil(from, by, veil)?;
        }
        Ok(())
    }

    /// Adds those to the name of a veil.
    fn add_by_veil(&mut self, from: Origin<'p>, by: By, veil: &'p Veil) -> Result<(), AllocError> {
        for carrier in [Carrier::Nothing, Carrier::Parent, Carrier::Made] {
            let mut form = Form::plain(from, by, Destination::Name(veil));
            form.carrier = carrier;
            if self.is_granted(&form, veil) {
                self.add(form)?;
            }
        }
        Ok(())
    }

    /// Adds a form.
    fn add(&mut self, form: Form<'p>) -> Result<(), AllocError> {
        Ok(self.forms.push(form)?)
    }

    /// Whether something can come to the name of a veil, and the call is granted there on it, or on
    /// what it carries: a directory doesn't take over the veil of its name. Above the directory of
    /// a name the veils are the same, up to the next one that has a veil of its own, so none of
    /// those is a carrier.
    fn is_granted(&self, form: &Form<'_>, veil: &Veil) -> bool {
        let is_carried = match (form.carrier, form.from) {
            (Carrier::Nothing, _) => true,
            (Carrier::Parent, Origin::Standing(row)) => {
                !row.is_dir() && form.by == By::Rename && self.planner.goes_along(row)
            }
            (Carrier::Parent, Origin::Made(_)) => false,
            (Carrier::Made, _) => !form.is_dir(),
        };
        let (is_dir, by) = form.mover();
        let is_near = form.device().is_none_or(|device| device == veil.row.over);
        let gives_way = is_dir && by == By::Rename && !veil.row.is_mount();
        let fits = is_near && (!veil.is_at_dir || gives_way);
        let suffices = self.suffices(if is_dir { &veil.outer } else { &veil.cover });
        let takes = self.planner.takes(by);
        is_carried && fits && suffices && takes.is_met(&veil.cover)
    }

    /// Whether a cover leaves what the call needs.
    fn suffices(&self, cover: &Cover) -> bool {
        self.planner.call(self.call).is_met(cover)
    }

    /// Ends a draft with the call, on what has come somewhere, or on a name in it. A name that is
    /// freed has come by the call itself.
    fn end(&self, mut draft: Draft, thing: At) -> Result<Draft, DraftFault> {
        let at = match (&self.target, &self.name) {
            (Target::Name(_, _), _) => return Ok(draft),
            (Target::Others(dir), Some(name)) => At::Name(Dir::Standing(*dir), *name),
            (Target::Others(dir), None) => self.new_in(&mut draft, Dir::Standing(*dir))?,
            (Target::NewOthers(_), _) => self.new_in(&mut draft, Dir::Made)?,
            _ => thing,
        };
        draft.call(self.call, &at)?;
        Ok(draft)
    }
}
