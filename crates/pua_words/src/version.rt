//! Which program this is, and with which toolchain it is proved and built.

/// The program's version, and on a line of its own the toolchain, as `rt version` prints it. The
/// toolchain's line is trusted text: nothing compares it with the toolchain that is used, so
/// whoever moves to another one has to write it anew.
pub(crate) const VERSION: &str = "0.1.0\nrattle-kit-13f logic dac8208d650f15bf";
