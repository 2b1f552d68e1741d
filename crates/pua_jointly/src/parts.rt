//! What each device has its part of, and the numbers of the processes there.

ghost use Rattle.std.specs.Prelude.{◌≡◌, ◌<◌, ◌≤◌, ◌+◌, ◌*◌, ◌^◌, length};

use crate::agent::Agent;
use crate::crew::{Mark, Watch};
use crate::size::Size;
use pua_tree::NodeId;

/// All of which each device has its part, and the devices of directories by their numbers.
#[derive(Clone, Copy)]
pub(crate) struct Parts<'p, 't> {
    /// How much the table is of.
    pub(crate) size: Size,
    /// The processes.
    pub(crate) agents: &'p [Agent<'t>],
    /// The devices, each once.
    pub(crate) kinds: &'p [NodeId],
    ghost hands: { size.shape.hands ≡ length agents.now * length kinds.now },
    /// The device of each directory, by its number.
    pub(crate) devices: &'p [NodeId],
    /// The rows of directories, and of what each process makes.
    pub(crate) seats: &'p [usize],
    /// The names with veils.
    pub(crate) marks: &'p [Mark<'t>],
    /// The watched directories.
    pub(crate) watches: &'p [Watch],
}

/// The part of one device: the processes on it have numbers from the first one on.
#[derive(Clone, Copy)]
pub(crate) struct Share<'p, 't> {
    /// All parts.
    pub(crate) parts: Parts<'p, 't>,
    /// The device.
    pub(crate) device: NodeId,
    /// How many processes on other devices come before those on this one.
    pub(crate) first: usize,
    ghost room: { first + length parts.agents.now ≤ parts.size.shape.hands },
    ghost fits: { first + length parts.agents.now < 2 ^ 64 },
}

/// A process on a device, by its number among those on all devices.
#[derive(Clone, Copy)]
pub(crate) struct HandNumber {
    /// How much the table is of.
    pub(crate) size: Size,
    /// The number.
    pub(crate) hand: usize,
    ghost among: { hand < size.shape.hands },
}
