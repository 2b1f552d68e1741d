//! Which of the forms a listing has, by its first line.

ghost use Rattle.std.specs.Prelude.{◌≡◌};
ghost use Rattle.pua_tree.specs.Listing.{knows_hard, knows_types, most_lines_of, most_names_of};

use crate::limits::{MOST_LISTED, MOST_WIDE};
use crate::tree::{MOST_NAMES, MOST_WIDE_NAMES};

/// The form of a listing.
#[derive(Clone, Copy, PartialEq, Eq)]
pub enum Form {
    /// `tree 1`.
    First,
    /// `tree 2`: hard links are known.
    Second,
    /// `tree 3`: the same, in a listing of a whole system, and types of files are known.
    Third,
}

impl Form {
    /// Whether hard links are known.
    pub(crate) fn knows_hard(self) -> bool
        ensures { result ≡ knows_hard self }
    {
        match self {
            Form::First => false,
            Form::Second | Form::Third => true,
        }
    }

    /// Whether types of files are known.
    pub(crate) fn knows_types(self) -> bool
        ensures { result ≡ knows_types self }
    {
        match self {
            Form::First | Form::Second => false,
            Form::Third => true,
        }
    }

    /// The most lines that a listing has with its first.
    pub(crate) fn most_lines(self) -> u32
        ensures { result ≡ most_lines_of self }
    {
        match self {
            Form::First | Form::Second => MOST_LISTED + 1,
            Form::Third => MOST_WIDE + 1,
        }
    }

    /// The most names that a tree has which is listed so, the root counted as one.
    pub(crate) fn most_names(self) -> u32
        ensures { result ≡ most_names_of self }
    {
        match self {
            Form::First | Form::Second => MOST_NAMES,
            Form::Third => MOST_WIDE_NAMES,
        }
    }
}
