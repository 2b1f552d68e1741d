//! Why names, trees and listings are refused.

ghost use Rattle.std.specs.Prelude.{◌≡◌};
ghost use Rattle.pua_tree.specs.FaultTexts.{listing_told};
ghost use Rattle.pua_tree.specs.declared.fault.TreeFault.TheVariants as tree_fault;
ghost use Rattle.pua_tree.specs.declared.fault.ListingFault.TheVariants as listing_fault;

use std::alloc::{AllocError, AllocFailed};
use std::fmt;
use thiserror::Error;

/// A growth of memory was refused.
#[derive(Clone, Copy, Debug, PartialEq, Eq, Error)]
#[error("out of memory")]
pub struct OutOfMemory;

impl From<AllocError> for OutOfMemory {
    fn from(_refused: AllocError) -> OutOfMemory {
        OutOfMemory
    }
}

impl<T: Drop> From<AllocFailed<T>> for OutOfMemory {
    fn from(_refused: AllocFailed<T>) -> OutOfMemory {
        OutOfMemory
    }
}

/// Why a spelling is not that of a name: the first of these that holds.
#[derive(Clone, Copy, Debug, PartialEq, Eq, Error)]
pub enum NameFault {
    /// It is no spelling, or has a slash.
    #[error("bad spelling")]
    BadSpelling,
    /// It spells no bytes.
    #[error("empty name")]
    Empty,
    /// It spells more than 255 bytes.
    #[error("name too long")]
    TooLong,
    /// It spells a NUL, or is `.` or `..`.
    #[error("not a name")]
    NotAName,
}

/// Why a tree answered no names, or was not changed.
#[derive(Clone, Copy, Debug, PartialEq, Eq, Error)]
pub enum TreeFault {
    /// There is no such row, or no such living node.
    #[error("missing")]
    Missing,
    /// The directory has that name already.
    #[error("name taken")]
    Taken,
    /// It is no living directory.
    #[error("not a directory")]
    NotDir,
    /// It is a directory in which something stands.
    #[error("directory not empty")]
    NotEmpty,
    /// A directory would come to stand in itself, or beneath itself.
    #[error("directory inside itself")]
    Inside,
    /// There is no room for a further name, or no number for a further node.
    #[error("no room")]
    Full,
    /// A growth of memory was refused.
    #[error("out of memory")]
    OutOfMemory,
    /// The node is a directory, which has one name only.
    #[error("is a directory")]
    IsDir,
}

impl From<OutOfMemory> for TreeFault {
    ghost from_gives = { λ _ fault. fault ≡ tree_fault.OutOfMemory };

    fn from(_refused: OutOfMemory) -> TreeFault {
        TreeFault::OutOfMemory
    }
}

impl From<AllocError> for TreeFault {
    ghost from_gives = { λ _ fault. fault ≡ tree_fault.OutOfMemory };

    fn from(_refused: AllocError) -> TreeFault {
        TreeFault::OutOfMemory
    }
}

/// Why bytes are no listing: the fault of the first line that has one, with the number of that
/// line, counted from 1.
#[derive(Clone, Copy, Debug, PartialEq, Eq)]
pub enum ListingFault {
    /// The first line is not there, or is neither `tree 1` nor `tree 2`.
    BadHeader,
    /// The second line is not there or is not `0 dir`; a line or a field is empty; a byte that no
    /// field has; an unknown kind, as `hard` is in `tree 1`, or another number of fields than its
    /// kind has.
    BadLine(u32),
    /// The number is no decimal from 1 to 999,999, or is not above that of the line before.
    BadNumber(u32),
    /// The parent is not the number of a directory of an earlier line.
    BadParent(u32),
    /// The name is not spelled as a name.
    BadName(u32),
    /// The target of a link is not spelled as one.
    BadTarget(u32),
    /// The parent has that name already.
    Taken(u32),
    /// The line would be the 4,097th after the first, the root's line counted.
    TooMany(u32),
    /// A growth of memory was refused.
    OutOfMemory,
    /// The node of a hard link is not the number of a file, a program or a symbolic link that an
    /// earlier line made.
    BadNode(u32),
}

impl ListingFault {
    /// The number of the line that is to blame, if one is, and what is wrong.
    pub fn told(&self) -> (Option<u32>, &'static str)
        ensures line { result.0 ≡ (listing_told self.now).0 }
        ensures wrong { result.1.now ≡ (listing_told self.now).1 }
    {
        match self {
            ListingFault::BadHeader => (None, "bad header"),
            ListingFault::BadLine(line) => (Some(*line), "bad line"),
            ListingFault::BadNumber(line) => (Some(*line), "bad number"),
            ListingFault::BadParent(line) => (Some(*line), "bad parent"),
            ListingFault::BadName(line) => (Some(*line), "bad name"),
            ListingFault::BadTarget(line) => (Some(*line), "bad target"),
            ListingFault::Taken(line) => (Some(*line), "name taken"),
            ListingFault::TooMany(line) => (Some(*line), "too many nodes"),
            ListingFault::OutOfMemory => (None, "out of memory"),
            ListingFault::BadNode(line) => (Some(*line), "bad node"),
        }
    }
}

impl fmt::Display for ListingFault {
    fn fmt<W: fmt::Write>(&self, f: &mut fmt::Formatter<W>) -> fmt::Result {
        match self.told() {
            (Some(line), wrong) => write!(f, "line {line}: {wrong}"),
            (None, wrong) => f.write_str(wrong),
        }
    }
}

impl std::error::Error for ListingFault {}

impl From<OutOfMemory> for ListingFault {
    ghost from_gives = { λ _ fault. fault ≡ listing_fault.OutOfMemory };

    fn from(_refused: OutOfMemory) -> ListingFault {
        ListingFault::OutOfMemory
    }
}
