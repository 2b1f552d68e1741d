//! How a path goes: the links that it follows, and why it names nothing.

ghost use Rattle.std.specs.Prelude.{◌≡◌, [], IfOk};
ghost use Rattle.pua_path.specs.Paths.{text_errno};

use crate::errno::Errno;
use crate::limits::MOST_LINKS;
use pua_tree::{Name, NodeId, OutOfMemory};
use std::alloc::Global;
use std::marker::Model;

/// A directory, and a name in it.
pub type Spot = (NodeId, Name);

/// The links that a path followed, in their order. There is room for 32, so that to trace a path
/// takes no memory. Contracts see the list of them.
#[derive(Drop)]
pub struct Links {
    pub(crate) spots: Vec<Spot>,
}

impl Model for Links {
    ghost use Rattle.std.specs.Prelude.{◌≤◌, List, vec_capacity};
    ghost use Rattle.pua_tree.specs.Tree.{Spot};
    ghost use Rattle.pua_path.specs.Limits.{most_links};

    ghost Value = { List Spot };

    ghost view = { λ a. a.spots.items };

    ghost invariant = { λ a. most_links ≤ vec_capacity a.spots };
}

impl Links {
    /// None yet. The only error is that a growth was refused.
    pub fn new(alloc: Global) -> Result<Links, OutOfMemory>
        ensures { IfOk result (λ links. links ≡ []) }
    {
        let spots = Vec::with_capacity(alloc, MOST_LINKS as usize)?;
        Ok(Links { spots })
    }

    /// Drops them, and keeps the room.
    pub fn clear(&mut self)
        ensures { self.new ≡ [] }
    {
        self.spots.clear();
    }

    /// The links, in the order in which they were followed: where each stands.
    pub fn spots(&self) -> &[Spot]
        ensures { result.now ≡ self.now }
    {
        self.spots.as_slice()
    }
}

/// Where a path leads no further: at which name of which directory.
#[derive(Clone, Copy)]
pub enum Stop {
    /// Nothing has the name, and a part is left after it.
    NoEntry(Spot),
    /// What has the name is no directory, and a part is left after it.
    NoDirectory(Spot),
    /// A link has the name, and 32 were followed before it.
    LinkBeyond(Spot),
}

/// What is wrong with a text that is no path.
#[derive(Clone, Copy)]
pub enum PathTextFault {
    /// It is empty.
    EmptyText,
    /// It has more than 1,023 bytes.
    LongText,
    /// A component has more than 255 bytes.
    LongComponent,
    /// A byte is NUL.
    NulInText,
}

/// Why a path names nothing.
#[derive(Clone, Copy)]
pub enum PathFault {
    /// Its text is no path.
    InText(PathTextFault),
    /// It starts at what is no living directory.
    NoStart,
    /// It leads no further.
    Stops(Stop),
}

impl PathTextFault {
    /// The error of a call with such a path.
    pub(crate) fn errno(self) -> Errno
        ensures { result ≡ text_errno self }
    {
        match self {
            PathTextFault::EmptyText => Errno::ENOENT,
            PathTextFault::LongText | PathTextFault::LongComponent => Errno::ENAMETOOLONG,
            PathTextFault::NulInText => Errno::EINVAL,
        }
    }
}
