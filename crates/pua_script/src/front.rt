//! Components that are too long, which OpenBSD's rules judge where they stand: after what stands
//! before them.

ghost use Rattle.std.specs.Prelude.{◌≡◌, ◌≤◌, length, option_map};
ghost use Rattle.pua_script.specs.Decide.{before_long, component_start, errno_behind, errno_by};
ghost use Rattle.pua_script.specs.Decide.{front_errno, or_dot};
ghost use Rattle.pua_path.specs.Resolution.{resolution_of_text};
ghost use Rattle.pua_path.specs.declared.found.Last.TheVariants.{Followed};
ghost use Rattle.pua_path.specs.declared.text.Ending.TheVariants.{Dot};

use pua_calls::Rules;
use pua_path::{
    Ending, Errno, Last, PathText, PathTextFault, Probe, Start, resolve_lent, text_fault,
};
use pua_tree::NodeId;

/// The most bytes that a component has.
const MOST_NAME: usize = 255;

/// What stands before a component of more than 255 bytes, where that is the path's fault: a
/// directory's path, which is `.` where nothing stands there. None where the path has no such
/// fault, or another before it.
pub fn before_long(path: &[u8]) -> Option<&[u8]>
    ensures { option_map (λ front. front.now) result ≡ before_long path.now }
{
    match text_fault(path) {
        Some(PathTextFault::LongComponent) => {
            let (front, _) = path.split_at(component_start(path));
            Some(or_dot(front))
        }
        _ => None,
    }
}

/// A text, or one dot where it has no byte.
fn or_dot(text: &[u8]) -> &[u8]
    ensures { result.now ≡ or_dot text.now }
{
    if text.is_empty() {
        return b".".as_slice();
    }
    text
}

/// How many bytes stand before the first component of more than 255 bytes, or before the last one
/// where none has.
fn component_start(path: &[u8]) -> usize
    ensures start { result ≡ component_start 0 0 path.now }
    ensures within { result ≤ length path.now }
{
    let (mut start, mut run) = (0, 0);
    let mut rest = path;
    while let [byte, more @ ..] = rest {
        if *byte == b'/' {
            start = start + run + 1;
            run = 0;
        } else if run == MOST_NAME {
            return start;
        } else {
            run += 1;
        }
        rest = more;
    }
    start
}

/// The errno of a path whose text has a fault with this one: by OpenBSD's rules the fault of what
/// stands before a component that is too long, if that names no directory.
pub(crate) fn errno_by<'t, P: Probe<'t>>(
    probe: &mut P,
    rules: Rules,
    from: Start,
    path: &[u8],
    errno: Errno,
) -> Errno
    ensures errno { result ≡ errno_by rules (P.tree probe.old) from path.now errno }
    ensures tree { P.tree probe.new ≡ P.tree probe.old }
{
    match rules {
        Rules::Standard => errno,
        Rules::Openbsd => match before_long(path) {
            None => errno,
            Some(front) => front_errno(probe, from, front, errno),
        },
    }
}

/// The errno of what stands before it, if that names no directory.
fn front_errno<'t, P: Probe<'t>>(probe: &mut P, from: Start, front: &[u8], errno: Errno) -> Errno
    ensures errno { result ≡ front_errno errno
        (resolution_of_text (P.tree probe.old) from Dot front.now Followed) }
    ensures tree { P.tree probe.new ≡ P.tree probe.old }
{
    probe.known();
    match PathText::read(front, Ending::Dot) {
        Ok(text) => match resolve_lent(probe, from, &text, Last::Followed) {
            Ok(_) => errno,
            Err(front) => front,
        },
        Err(front) => front,
    }
}
