//! What lines of scripts ask for.

use crate::any_of::AnyOf;
use crate::fault::ScriptFault;
use crate::origin::Origin;
use pua_calls::{Call, Perms, Promises};
use smallvec::SmallVec;
use std::alloc::{AllocError, Global};
use std::marker::Model;

/// The most bytes of a path that lie in the value itself, so that it asks for no memory.
const MOST_INLINE: usize = 24;

/// The bytes of a path or of a link's target, as a script spells them.
#[derive(Drop)]
pub struct PathBytes {
    bytes: SmallVec<u8, MOST_INLINE>,
}

impl Model for PathBytes {
    ghost use Rattle.std.specs.Prelude.{ℕ, List};

    ghost Value = { List ℕ };

    ghost view = { λ a. a.bytes.items };
}

/// An argument of pledge.
#[derive(Clone, Copy)]
pub enum Given {
    /// It leaves what was given before.
    Null,
    /// These promises.
    Good(Promises),
    /// It has an unknown keyword.
    Unknown,
}

/// What a request asks for.
#[derive(Drop)]
pub enum Action {
    /// A call of the table but symlink, with its path.
    OnPath(Call, PathBytes),
    /// The target, and then the path.
    Symlink(PathBytes, PathBytes),
    /// The old path, and then the new one.
    Rename(PathBytes, PathBytes),
    /// The path of a node, and then that of its further name.
    Link(PathBytes, PathBytes),
    /// The promises, and then the execpromises.
    Pledge(Given, Given),
    /// The path and its permissions, which are None where a letter is unknown.
    Unveil(PathBytes, Option<Perms>),
    /// An unveil with two NULLs.
    Lock,
    /// The number of the new process.
    Fork(u32),
    /// The end of the process.
    Exit,
    /// An open of a path, whose file is kept as the descriptor of this number.
    Hold {
        number: u32,
        call: Call,
        path: PathBytes,
    },
    /// The number of the descriptor that is closed.
    Close(u32),
    /// The number of the descriptor of a directory, which becomes the working directory.
    Fchdir(u32),
    /// The path of the directory that becomes the root of the process.
    Chroot(PathBytes),
    /// The descriptor of this number is to be what another process has as one of its own.
    Take {
        number: u32,
        from: u32,
        theirs: u32,
    },
    /// A call without a path that asks for one of these promises.
    Uses(AnyOf),
    /// Nothing: a line that is blank or has no more than a comment.
    Comment,
}

/// A process's number, and what it asks for. `read_script` alone makes one, so its paths and its
/// target hold no NUL, its numbers lie from 1 to 999,999, those of descriptors from 0 to 1,023, a
/// hold opens, and a symlink has its own action. A line without a request is one of process 0,
/// which there never is, with `Action::Comment`.
#[derive(Drop)]
pub struct Request {
    process: u32,
    action: Action,
}

impl Model for Request {
    ghost use Rattle.pua_script.specs.Requests.{Asked, is_asked};
    ghost use Rattle.std.specs.Prelude.{IsTrue};

    ghost Value = { Asked };

    ghost view = { λ a. record { process = a.process; action = a.action } };

    ghost invariant = { λ a.
        IsTrue (is_asked (record { process = a.process; action = a.action })) };
}

ghost use Rattle.std.specs.Prelude.{◌≡◌, IfOk, IsTrue, List, ℕ, Ok};

impl PathBytes {
    /// The bytes as they are, without their spelling.
    pub fn bytes(&self) -> &[u8]
        ensures { result.now ≡ self.now }
    {
        self.bytes.as_slice()
    }

    /// A copy of these bytes, which asks for memory only where they don't fit into the value.
    pub(crate) fn copied(alloc: Global, bytes: &[u8]) -> Result<PathBytes, AllocError>
        ensures { IfOk result (λ path. path ≡ bytes.now) }
    {
        let bytes = SmallVec::from_slice(alloc, bytes)?;
        Ok(PathBytes { bytes })
    }

    pub(crate) fn new(bytes: Vec<u8>) -> PathBytes
        ensures { result ≡ bytes.items }
    {
        PathBytes {
            bytes: SmallVec::from_vec(bytes),
        }
    }
}

impl Request {
    ghost use Rattle.pua_script.specs.Requests.{Asked, comment, is_asked, is_askable, says_nothing};
    ghost use Rattle.pua_script.specs.Regiven.{with_lists, with_perms};
    ghost use Rattle.pua_script.specs.Added.{IsActionAdded, IsRequestAdded};

    /// The number of the process that asks, 0 for a line on which none does.
    pub fn process(&self) -> u32
        ensures process { result ≡ self.now.process }
        ensures asked { IsTrue (is_asked self.now) }
    {
        self.process
    }

    /// What it asks for.
    pub fn action(&self) -> &Action
        ensures action { result.now ≡ self.now.action }
        ensures asked { IsTrue (is_asked self.now) }
    {
        &self.action
    }

    /// Whether nobody asks on its line, which is blank or a comment.
    pub fn says_nothing(&self) -> bool
        ensures { result ≡ says_nothing self.now.action }
    {
        matches!(self.action, Action::Comment)
    }

    /// Gives a pledge these arguments in the place of its own. Any other request stays as it is.
    pub fn set_lists(&mut self, promises: Given, execpromises: Given)
        ensures { self.new ≡ with_lists promises execpromises self.old }
    {
        if let Action::Pledge(first, second) = &mut self.action {
            *first = promises;
            *second = execpromises;
        }
    }

    /// Gives an unveil of a path these permissions in the place of its own, None for a letter that
    /// is unknown. Any other request stays as it is.
    pub fn set_perms(&mut self, perms: Option<Perms>)
        ensures { self.new ≡ with_perms perms self.old }
    {
        if let Action::Unveil(_, kept) = &mut self.action {
            *kept = perms;
        }
    }

    /// Adds what this process asks for to some requests. `OutOfMemory` is its only error.
    pub(crate) fn add(
        requests: &mut Vec<Request>,
        origin: Origin,
        action: Action,
    ) -> Result<(), ScriptFault>
        requires { IsTrue (is_askable action) }
        ensures { IsActionAdded (Ok action) origin.process
            requests.old.items requests.new.items result }
    {
        let request = Request {
            process: origin.process,
            action,
        };
        let Ok(()) = requests.push(request) else {
            return Err(ScriptFault::OutOfMemory);
        };
        Ok(())
    }

    /// Adds a line on which nobody asks for anything. `OutOfMemory` is its only error.
    pub(crate) fn add_comment(requests: &mut Vec<Request>) -> Result<(), ScriptFault>
        ensures { IsRequestAdded (Ok comment) requests.old.items requests.new.items result }
    {
        let request = Request {
            process: 0,
            action: Action::Comment,
        };
        let Ok(()) = requests.push(request) else {
            return Err(ScriptFault::OutOfMemory);
        };
        Ok(())
    }
}
