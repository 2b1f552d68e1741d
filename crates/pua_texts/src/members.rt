//! Processes that act together.

use pua_ever::{ExecBound, LastingList};
use pua_policy::Process;

/// One of several processes that act together, and its number.
#[derive(Clone, Copy)]
pub struct Member<'t> {
    /// Its number.
    pub number: u32,
    /// The process.
    pub process: &'t Process,
}

/// The process that stands for several, as [`join`](pua_ever::join) makes it, and what it can ever
/// touch.
#[derive(Clone, Copy)]
pub struct Joined<'t, 'l> {
    /// The process that stands for them.
    pub one: &'t Process,
    /// Its list for ever.
    pub list: &'l LastingList<'t>,
}

/// A process that acts with the help of others, and what its list says of execs.
#[derive(Clone, Copy)]
pub struct Helped<'t, 'l> {
    /// The process.
    pub member: Member<'t>,
    /// The others, those that have ended too.
    pub others: &'l [Member<'t>],
    /// What it says of execs of its own.
    pub own: ExecBound,
    /// What all of them say of execs together.
    pub execs: ExecBound,
}
