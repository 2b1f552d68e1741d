//! Why a request has its answer.

use pua_calls::{Perms, Promises};
use pua_path::{Found, PathFault, PathTextFault, Spot};
use pua_policy::{Covering, Misfit, Place};

/// Of two paths, which one; or the only one.
#[derive(Clone, Copy)]
pub enum Side {
    /// The only path.
    Sole,
    /// The old path of two.
    Old,
    /// The new one.
    New,
}

/// What is wrong with a descriptor.
#[derive(Clone, Copy)]
pub enum FileFault {
    /// A descriptor stands for no open file.
    NotOpen(u32),
    /// A descriptor is of no directory.
    OpenNoDirectory(u32),
    /// Another process has no such descriptor: there is no such process, it has ended, or the
    /// descriptor is closed.
    NotSent { from: u32, theirs: u32 },
    /// Another process may not send what it has open.
    MayNotSend(u32),
    /// What another process has as a descriptor is a directory, and one of both was pledged.
    SendsDirectory { from: u32, theirs: u32 },
}

/// Why a living process does not get what it asks for.
#[derive(Clone, Copy)]
pub enum Fault<'s> {
    /// It has ended.
    Ends,
    /// It holds none of these sets of promises. What it holds has `error` among it, or has not.
    LacksPromises {
        error: bool,
        held: Promises,
        sets: &'s [Promises],
    },
    /// It lacks these of the promises that are needed. What it holds has `error` among it, or has
    /// not.
    LacksPromise {
        error: bool,
        lacks: Promises,
    },
    /// The target of a link is no path.
    BadTarget(PathTextFault),
    /// A path names nothing, and starts elsewhere than at a root that was removed.
    BadPath(Side, PathFault),
    /// A path starts at the root, which was removed.
    NoRoot(Side),
    /// No veil is kept at what a path named, nor at a directory over it.
    Uncovered(Side, Found),
    /// The nearest veil of what a path named lacks letters that are needed.
    LacksLetters {
        side: Side,
        place: Place,
        given: Perms,
        lacks: Perms,
    },
    /// What a path named is wrong for the request.
    Unfit(Side, Found, Misfit),
    /// The new name is inside of what the old path named.
    Inside {
        old: Found,
        new: Found,
    },
    /// A word is no promise, in the execpromises or in the promises.
    UnknownPromise {
        of_exec: bool,
    },
    /// A pledge asks for more than was given, in the execpromises or in the promises.
    AsksPromises {
        of_exec: bool,
        lacks: Promises,
    },
    /// The veils are locked.
    IsLocked,
    /// A letter is no permission.
    UnknownLetter,
    /// An unveil asks for more than is kept at the place.
    AsksLetters {
        place: Place,
        given: Perms,
        lacks: Perms,
    },
    /// As many places have veils as may.
    NoPlaceLeft,
    /// A process was made with this number before.
    NumberTaken(u32),
    /// As many processes were made as may.
    NoProcessLeft,
    /// The tree has no room for the change.
    NoRoom,
    /// A descriptor is not what the request needs.
    WrongFile(FileFault),
}

/// Why a request is answered as it is.
#[derive(Clone, Copy)]
pub enum Reason<'s> {
    /// The process was never made.
    NeverMade,
    /// The process has ended.
    Ended,
    /// It is refused.
    Refused(Fault<'s>),
    /// It is granted.
    Granted,
}

/// What a request passed on its way.
#[derive(Clone, Copy)]
pub enum Fact {
    /// This promise opens it.
    Opened(Promises),
    /// It needs these promises, and they are held.
    Needs(Promises),
    /// A path followed the link at this name of a directory.
    Follows(Side, Spot),
    /// A path names this.
    Names(Side, Found),
    /// What a path names is covered so.
    Under(Side, Covering),
}
