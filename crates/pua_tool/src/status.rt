//! The statuses with which the program ends.

/// What was asked for is done.
pub const DONE: u8 = 0;

/// An input was refused: the table of calls, the listing, the script, the process, or what the
/// audit is asked for.
pub const REFUSED: u8 = 1;

/// The words are no command.
pub const USAGE: u8 = 2;

/// An input can't be read, or the output can't be written.
pub const DEVICE: u8 = 3;

/// A growth of memory was refused.
pub const MEMORY: u8 = 4;
