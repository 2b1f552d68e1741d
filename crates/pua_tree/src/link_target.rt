//! What a link may lead to.

ghost use Rattle.std.specs.Prelude.{◌≡◌};
ghost use Rattle.pua_tree.specs.Names.{has_short_components, is_target};

use crate::name::Name;

/// The most bytes that a link's target has: as many as a path (this profile; symlink(2)'s
/// `ENAMETOOLONG`).
pub const MOST_TARGET: usize = 1023;

/// Whether these bytes are a link's target: 1 to 1,023 bytes without NUL, with short components.
pub fn is_target(bytes: &[u8]) -> bool
    ensures { result ≡ is_target bytes.now }
{
    if bytes.is_empty() || bytes.len() > MOST_TARGET || bytes.contains(&0) {
        return false;
    }
    has_short_components(bytes)
}

/// Whether each component of a path or target, a piece between slashes, has at most 255 bytes. A
/// text that has no more is not looked through.
pub fn has_short_components(text: &[u8]) -> bool
    ensures { result ≡ has_short_components text.now }
{
    if text.len() <= Name::MOST {
        return true;
    }
    text.split(|byte| *byte == b'/')
        .all(|component| component.len() <= Name::MOST)
}
