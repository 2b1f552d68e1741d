//! Runs the libraries in hostile surroundings: sinks that take a byte at a time and break, readers
//! that give a byte at a time and fail. A line is printed for each case that is not as it has to
//! be, and for each table how many cases it has.

mod broken;
mod called;
mod dripping;
mod reports;

use anyhow::Result;

/// All of it: prints a line for each table.
pub(crate) fn run(rt: &HostRuntime) -> Result<()> {
    broken::run(rt)?;
    reports::run(rt)
}
