//! Drafts of plans: the steps so far, and where further things are put: at a new name in the
//! nearest directory for them, or at a name with a veil of its own.

use crate::plan::Search;
use crate::plan::planner::{By, Need, Veil};
use crate::step::{At, Dir, Step};
use pua_calls::Call;
use pua_tree::{Name, NodeId};
use std::alloc::{AllocError, Global};
use std::ops::Range;

/// Why a draft is given up: it leads nowhere, or a growth was refused.
#[derive(Clone, Copy, PartialEq, Eq)]
pub(crate) enum DraftFault {
    NoWay,
    OutOfMemory,
}

impl From<AllocError> for DraftFault {
    ghost use Rattle.std.specs.Prelude.{◌≡◌};
    ghost use Rattle.pua_how.specs.declared.plan.draft.DraftFault.TheVariants.{OutOfMemory};

    ghost from_gives = { λ _ stop. stop ≡ OutOfMemory };

    fn from(_refused: AllocError) -> DraftFault {
        DraftFault::OutOfMemory
    }
}

/// The steps of a plan so far.
#[derive(Drop)]
pub(crate) struct Draft {
    pub(crate) steps: Vec<Step>,
    /// The number of the last new name.
    number: usize,
    /// The places to which nothing more is put: of names to which something comes, and of
    /// directories that are emptied or moved.
    pub(crate) closed: Vec<Range<usize>>,
    /// The place of the directory to which something was put first.
    pub(crate) kept: Option<usize>,
    /// From where the thing comes on, once it was made there, or was moved there out of the way.
    pub(crate) from: Option<At>,
}

impl Draft {
    /// Without a step.
    pub(crate) fn new(alloc: Global) -> Draft {
        Draft {
            steps: Vec::new(alloc),
            number: 0,
            closed: Vec::new(alloc),
            kept: None,
            from: None,
        }
    }

    /// Adds a call. The only error is that a growth was refused.
    pub(crate) fn call(&mut self, call: Call, at: &At) -> Result<(), AllocError> {
        Ok(self.steps.push(Step::On(call, *at))?)
    }

    /// Adds the step by which something gets a name.
    pub(crate) fn bring(&mut self, by: By, from: &At, to: &At) -> Result<(), AllocError> {
        Ok(
            self.steps.push(match by {
                By::Rename => Step::Rename(*from, *to),
                By::Link => Step::Link(*from, *to),
                By::Call(call) => Step::On(call, *to),
            })?,
        )
    }

    /// Nothing more is put to these places.
    pub(crate) fn close(&mut self, places: Range<usize>) -> Result<(), AllocError> {
        Ok(self.closed.push(places)?)
    }
}

/// Whether a place is none of the closed ones.
pub(crate) fn is_open(closed: &[Range<usize>], place: usize) -> bool {
    !closed.iter().any(|places| places.contains(&place))
}

/// The new name of a number: `new`, `new2`, `new3`, ..
fn new_name(alloc: Global, number: usize) -> Result<Name, DraftFault> {
    let mut text = String::new(alloc);
    text.push_str("new")?;
    if number > 1 {
        write!(text, "{number}")?;
    }
    Name::from_bytes(text.as_bytes()).ok_or(DraftFault::NoWay)
}

impl Search<'_, '_> {
    /// The next new name in a directory, but for those that something or a veil has.
    pub(crate) fn new_in(&self, draft: &mut Draft, dir: Dir) -> Result<At, DraftFault> {
        let taken = &self.planner.taken;
        for _ in 0..=taken.len() {
            draft.number = draft.number.saturating_add(1);
            let name = new_name(self.planner.alloc, draft.number)?;
            if !taken.contains(&name) {
                return Ok(At::Name(dir, name));
            }
        }
        Err(DraftFault::NoWay)
    }

    /// To where what stands in the way can be moved on its device: a directory from where it could
    /// be moved on, or any, or else a name with a veil of its own.
    pub(crate) fn room(&self, draft: &mut Draft, device: NodeId) -> Result<At, DraftFault> {
        let takes = self.planner.takes(By::Rename);
        let gives = self.planner.gives(By::Rename, false);
        self.put(draft, &gives.and(takes), &takes, true, Some(device))
    }

    /// Makes something that meets a need, on a device if one is given: in the nearest directory, or
    /// else, if it is none itself, at a name with a veil of its own, which a directory doesn't take
    /// over.
    pub(crate) fn make(
        &self,
        draft: &mut Draft,
        call: Call,
        need: &Need,
        on: Option<NodeId>,
    ) -> Result<At, DraftFault> {
        let at = self.put(draft, need, need, call != Call::Mkdir, on)?;
        draft.call(call, &at)?;
        Ok(at)
    }

    /// A new name in the nearest directory that meets both needs, or else the second one; or, if
    /// names are allowed, one with a veil of its own that meets that, to which nothing else comes
    /// then: where nothing stands, or where something is unlinked.
    fn put(
        &self,
        draft: &mut Draft,
        both: &Need,
        need: &Need,
        names: bool,
        on: Option<NodeId>,
    ) -> Result<At, DraftFault> {
        let closed = draft.closed.as_slice();
        let dir = self.planner.nearest(closed, both, &on);
        if let Some(dir) = dir.or(self.planner.nearest(closed, need, &on)) {
            draft.kept = draft.kept.or(Some(dir.place));
            return self.new_in(draft, dir.inside());
        }
        let fits = |veil: &&Veil| {
            let row = &veil.row;
            let is_unlinked = !row.is_dir() && self.is_removable(draft, row);
            (names && (row.node.is_none() || is_unlinked))
                && on.is_none_or(|device| row.over == device)
                && need.is_met(&veil.cover)
                && is_open(draft.closed.as_slice(), row.place)
        };
        let veils = self.planner.veils.iter().filter(fits);
        let first = veils.min_by_key(|veil| veil.row.node.is_some());
        let row = &first.ok_or(DraftFault::NoWay)?.row;
        draft.close(self.planner.extent(row))?;
        if row.node.is_some() {
            draft.call(Call::Unlink, &row.at())?;
        }
        Ok(row.at())
    }
}
