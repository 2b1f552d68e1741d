//! What the calls of a script take.

ghost use Rattle.std.specs.Prelude.{◌≡◌, option_map};
ghost use Rattle.pua_advice.specs.Advice.{arguments_of, call_takes, files_taken};
ghost use Rattle.pua_advice.specs.Texts.{taken_text};

use pua_calls::{Call, Rules};
use pua_script::asks_promises;

/// What stands after the word of a call in a line of a script.
#[derive(Clone, Copy, Debug, PartialEq, Eq)]
pub enum Arguments {
    /// Nothing.
    Nothing,
    /// The number of a new process.
    Number,
    /// A path.
    Path,
    /// A link's target, and its path.
    TargetAndPath,
    /// Two paths.
    TwoPaths,
    /// Two lists of promises.
    Promises,
    /// A path and the letters of its veil, or two NULLs.
    PathAndLetters,
    /// Promises of which the call needs one.
    AnyPromises,
    /// The number of a descriptor.
    Descriptor,
    /// The number of a descriptor, a call that opens what there is, and a path.
    ToHold,
    /// The number of a descriptor, of a process, and of one of its descriptors.
    ToTake,
}

impl Arguments {
    /// What stands after this word, if it is the word of a call that there is by these rules.
    pub fn of(rules: Rules, word: &[u8]) -> Option<Arguments>
        ensures { result ≡ arguments_of rules word.now }
    {
        if word == b"exit".as_slice() {
            Some(Arguments::Nothing)
        } else if word == b"fork".as_slice() {
            Some(Arguments::Number)
        } else if word == b"rename".as_slice() || word == b"link".as_slice() {
            Some(Arguments::TwoPaths)
        } else if word == b"pledge".as_slice() {
            Some(Arguments::Promises)
        } else if word == b"unveil".as_slice() {
            Some(Arguments::PathAndLetters)
        } else if asks_promises(rules, word) {
            Some(Arguments::AnyPromises)
        } else {
            taken_by(Call::asked_by(rules, word)).or(Arguments::of_files(rules, word))
        }
    }

    /// What stands after this word in a line about descriptors or the root, which there is by
    /// OpenBSD's rules alone.
    fn of_files(rules: Rules, word: &[u8]) -> Option<Arguments>
        ensures { result ≡ files_taken rules word.now }
    {
        match rules {
            Rules::Standard => None,
            Rules::Openbsd => {
                if word == b"close".as_slice() || word == b"fchdir".as_slice() {
                    Some(Arguments::Descriptor)
                } else if word == b"chroot".as_slice() {
                    Some(Arguments::Path)
                } else if word == b"hold".as_slice() {
                    Some(Arguments::ToHold)
                } else if word == b"take".as_slice() {
                    Some(Arguments::ToTake)
                } else {
                    None
                }
            }
        }
    }

    /// What is said of it after the word.
    pub(crate) fn text(self) -> &'static str
        ensures { result.now ≡ taken_text self }
    {
        match self {
            Arguments::Nothing => " takes nothing",
            Arguments::Number => " takes the number of a new process",
            Arguments::Path => " takes one path",
            Arguments::TargetAndPath => " takes a target and a path",
            Arguments::TwoPaths => " takes two paths",
            Arguments::Promises => " takes two lists of promises, with commas, or - for one",
            Arguments::PathAndLetters => " takes a path and letters, or two -",
            Arguments::AnyPromises => " takes promises with | between them",
            Arguments::Descriptor => " takes the number of a descriptor",
            Arguments::ToHold => " takes a descriptor, a call that opens, and a path",
            Arguments::ToTake => " takes a descriptor, a process, and its descriptor",
        }
    }
}

/// What a call with a path takes.
fn taken_by(call: Option<Call>) -> Option<Arguments>
    ensures { result ≡ option_map call_takes call }
{
    match call {
        None => None,
        Some(Call::Symlink) => Some(Arguments::TargetAndPath),
        Some(_) => Some(Arguments::Path),
    }
}
