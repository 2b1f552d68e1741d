//! What a path names, its name lent: by the path, or by the target of a link.

ghost use Rattle.std.specs.Prelude.{◌≡◌};
ghost use Rattle.pua_path.specs.Walks.{found_seen, way_seen};

use crate::found::{Found, Way};
use pua_tree::{LentName, NodeId};

/// How a directory was named, as `Way` has it.
#[derive(Clone, Copy)]
pub enum LentWay<'a> {
    /// By a name in its parent.
    Named { parent: NodeId, name: LentName<'a> },
    /// By `.`.
    Dot,
    /// By `..`.
    DotDot,
    /// No part was left.
    Top,
}

/// What a path names, as `Found` has it, in a sixth of its bytes: so this is handed on, and a
/// `Found` is made only where a name is kept.
#[derive(Clone, Copy)]
pub enum LentFound<'a> {
    /// A directory, and how it was named.
    Whole {
        dir: NodeId,
        way: LentWay<'a>,
    },
    /// A name in a directory, and the node there, which is no directory; or nothing.
    Slot {
        dir: NodeId,
        name: LentName<'a>,
        node: Option<NodeId>,
    },
}

impl LentWay<'_> {
    /// The same, its name copied.
    #[inline(always)]
    fn way(&self) -> Way
        ensures { result ≡ way_seen self.now }
    {
        match *self {
            LentWay::Named { parent, name } => Way::Named {
                parent,
                name: name.name(),
            },
            LentWay::Dot => Way::Dot,
            LentWay::DotDot => Way::DotDot,
            LentWay::Top => Way::Top,
        }
    }
}

impl LentFound<'_> {
    /// The same, its name copied.
    #[inline(always)]
    pub fn found(&self) -> Found
        ensures { result ≡ found_seen self.now }
    {
        match self {
            LentFound::Whole { dir, way } => Found::Whole {
                dir: *dir,
                way: way.way(),
            },
            LentFound::Slot { dir, name, node } => Found::Slot {
                dir: *dir,
                name: name.name(),
                node: *node,
            },
        }
    }
}

impl Way {
    /// The same, its name lent.
    #[inline(always)]
    pub fn lent(&self) -> LentWay<'_>
        ensures { way_seen result ≡ self.now }
    {
        match self {
            Way::Named { parent, name } => LentWay::Named {
                parent: *parent,
                name: name.lent(),
            },
            Way::Dot => LentWay::Dot,
            Way::DotDot => LentWay::DotDot,
            Way::Top => LentWay::Top,
        }
    }
}

impl Found {
    /// The same, its name lent.
    #[inline(always)]
    pub fn lent(&self) -> LentFound<'_>
        ensures { found_seen result ≡ self.now }
    {
        match self {
            Found::Whole { dir, way } => LentFound::Whole {
                dir: *dir,
                way: way.lent(),
            },
            Found::Slot { dir, name, node } => LentFound::Slot {
                dir: *dir,
                name: name.lent(),
                node: *node,
            },
        }
    }
}
