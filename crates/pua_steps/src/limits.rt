//! The limits of a table of steps.

/// The most symbolic links that are followed on one path, after which it is ELOOP.
pub(crate) const MOST_LINKS: u8 = 32;
