//! The limits of paths and of resolution.

/// At most so many links are followed in one resolution (this profile; `ELOOP` is open(2)'s).
pub const MOST_LINKS: u8 = 32;

/// A path has at most so many bytes, without the NUL at its end: one less than `PATH_MAX` of
/// `<limits.h>`, which counts it (`ENAMETOOLONG` is intro(2)'s).
pub const MOST_PATH: usize = 1023;
