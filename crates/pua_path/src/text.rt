//! Path texts.

use crate::errno::Errno;
use crate::limits::MOST_PATH;
use crate::traced::PathTextFault;
use pua_tree::has_short_components;
use std::marker::Model;

/// What a slash at the end of a path adds (this profile).
#[derive(Clone, Copy)]
pub enum Ending {
    /// A final part `.`, where the text has a part.
    Dot,
    /// Nothing.
    Dropped,
}

/// A path text without a fault: 1 to 1,023 bytes without NUL, each component up to 255 bytes.
/// Contracts see its bytes, and what a slash at its end adds.
#[derive(Drop)]
pub struct PathText<'a> {
    bytes: &'a [u8],
    ending: Ending,
}

impl<'a> Model for PathText<'a> {
    ghost use Rattle.std.specs.Prelude.{◌≡◌, None};
    ghost use Rattle.pua_path.specs.Paths.{Text, path_fault};

    ghost Value = { Text };

    ghost view = { λ a. record { bytes = a.bytes.now; ending = a.ending } };

    ghost invariant = { λ a. path_fault a.bytes.now ≡ None };
}

ghost use Rattle.std.specs.Prelude.{◌≡◌, Some, None, MatchResult};
ghost use Rattle.pua_path.specs.Paths.{path_fault, text_fault};

impl<'a> PathText<'a> {
    /// A path of these bytes, and what a slash at its end adds. The first of these faults that it
    /// has: `ENOENT`, it is empty; `ENAMETOOLONG`, it has more than 1,023 bytes, or a component
    /// more than 255; `EINVAL`, it has a NUL (intro(2); `EINVAL`, and that components are judged
    /// before any look-up, are this profile's).
    pub fn read(bytes: &'a [u8], ending: Ending) -> Result<PathText<'a>, Errno>
        ensures { MatchResult result
            (λ text. (path_fault bytes.now ≡ None) ×
            (text ≡ record { bytes = bytes.now; ending = ending }))
            (λ errno. path_fault bytes.now ≡ Some errno) }
    {
        match text_fault(bytes) {
            Some(fault) => Err(fault.errno()),
            None => Ok(PathText { bytes, ending }),
        }
    }

    /// Its bytes.
    pub fn bytes(&self) -> &'a [u8]
        ensures bytes { result.now ≡ self.now.bytes }
        ensures path { path_fault self.now.bytes ≡ None }
    {
        self.bytes
    }

    /// What a slash at its end adds.
    pub(crate) fn ending(&self) -> Ending
        ensures { result ≡ self.now.ending }
    {
        self.ending
    }
}

/// What is wrong with a text that is no path: the first of the faults of `PathText::read` that it
/// has. None where it is a path.
pub fn text_fault(bytes: &[u8]) -> Option<PathTextFault>
    ensures { result ≡ text_fault bytes.now }
{
    if bytes.is_empty() {
        return Some(PathTextFault::EmptyText);
    }
    if bytes.len() > MOST_PATH {
        return Some(PathTextFault::LongText);
    }
    if !has_short_components(bytes) {
        return Some(PathTextFault::LongComponent);
    }
    if bytes.contains(&0) {
        return Some(PathTextFault::NulInText);
    }
    None
}
