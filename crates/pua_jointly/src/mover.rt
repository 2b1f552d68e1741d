//! What a process moves on a device.

/// What is asked of a process on a device: it moves what is there, and makes things there.
#[derive(Clone, Copy)]
pub(crate) struct Mover {
    /// Its place in the crew.
    pub(crate) place: usize,
    /// The covers under which it can move a directory.
    pub(crate) moving: u32,
    /// The row of the directories that it makes there.
    pub(crate) made: usize,
    /// The row of where it can put directories of the device.
    pub(crate) landing: usize,
    /// The row of where it can put other things of the device, and of what it can make there.
    pub(crate) drops: usize,
}
