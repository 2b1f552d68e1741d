//! What is asked of a process while facts are found.

ghost use Rattle.std.specs.Prelude.{◌≡◌, ℕ, false, None, Some, slice_get};
ghost use Rattle.pua_policy.specs.States.{perms_kept};
ghost use Rattle.pua_policy.specs.declared.place.Place.TheVariants.{Dir as OnDir};

use crate::doing::Allowed;
use pua_calls::Perms;
use pua_policy::{Place, Process};
use pua_tree::NodeId;
use std::collections::BTreeSet;

/// What is asked of a process of the crew. Covers are kept as bits.
#[derive(Drop)]
pub(crate) struct Agent<'t> {
    /// The process.
    pub(crate) process: &'t Process,
    /// Whether it has a veil on a directory, by the number of that.
    pub(crate) veiled: Vec<bool>,
    ghost unveiled: { (dir : ℕ) → slice_get veiled.items dir ≡ Some false →
        perms_kept process.now (OnDir dir) ≡ None },
    /// Its place in the crew.
    pub(crate) place: usize,
    /// Whether it has a veil at a name.
    pub(crate) named: bool,
    /// Whether it may take a name away.
    pub(crate) may_take: bool,
    /// The covers under which it can move something.
    pub(crate) moving: u32,
    /// Those under which it can move a file or program, or give it a further name.
    pub(crate) carrying: u32,
    /// Those under which it can do so with a link.
    pub(crate) carrying_links: u32,
    /// Those under which it can make a directory.
    pub(crate) making_dirs: u32,
    /// Those under which it can make a file.
    pub(crate) making_files: u32,
    /// Those under which it can make a link.
    pub(crate) making_links: u32,
    /// Those under which it can make a socket.
    pub(crate) making_sockets: u32,
    /// Those under which it can make a fifo.
    pub(crate) making_fifos: u32,
    /// Those under which it can make a file a program, or open it to send it to one that does.
    pub(crate) turning: u32,
    /// The numbers of the nodes that it holds open so that it, or one to whom it sends them, can make
    /// programs of them.
    pub(crate) turned: BTreeSet<u32>,
    /// The calls that are allowed to it under each cover.
    pub(crate) calls: Vec<Allowed>,
}

impl Agent<'_> {
    /// The permissions of the veil that it has on a directory, if it has one. They are looked up
    /// only where it has.
    #[inline(always)]
    pub(crate) fn kept(&self, dir: NodeId) -> Option<Perms>
        ensures { result ≡ perms_kept self.now.process.now (OnDir dir) }
    {
        match self.veiled.get(dir.number() as usize) {
            Some(false) => None,
            Some(true) | None => self.process.kept(&Place::Dir(dir)),
        }
    }
}
