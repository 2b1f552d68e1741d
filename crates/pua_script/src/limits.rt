//! The limits of scripts and of worlds.

/// A script has no more lines than this (this program's format).
pub const MOST_SCRIPT_LINES: u32 = 60_000;

/// The number of a process is no greater than this (this program's format).
pub const MOST_NUMBER: u32 = 999_999;

/// The number of a descriptor is no greater than this (this profile).
pub const MOST_DESCRIPTOR: u32 = 1_023;

/// A world makes no more processes than this, those that have ended counted (this profile; `EAGAIN`
/// is fork(2)'s).
pub const MOST_PROCESSES: usize = 256;
