//! Numbers with marks.

ghost use Rattle.std.specs.Prelude.{◌≡◌, ◌<◌, ◌==◌, ◌&&◌, ◌||◌, false, get_or, length, ℕ, IfOk};

use pua_tree::NodeId;
use std::alloc::{AllocError, Global};

/// So many numbers without a mark. The only error is that a growth was refused.
pub(crate) fn no_marks(alloc: Global, count: usize) -> Result<Vec<bool>, AllocError>
    ensures full { IfOk result (λ marked. length marked.items ≡ count) }
    ensures none { IfOk result (λ marked. (at : ℕ) → get_or marked.items at false ≡ false) }
{
    vec![in alloc; false; count]
}

/// Marks a number, if it is so of it.
pub(crate) fn mark(marked: &mut Vec<bool>, number: NodeId, is: bool)
    ensures full { length marked.new.items ≡ length marked.old.items }
    ensures marked { (at : ℕ) → at < length marked.old.items → get_or marked.new.items at false
        ≡ (get_or marked.old.items at false || (number == at && is)) }
{
    let place = number.number() as usize;
    if is && place < marked.len() {
        marked[place] = true;
    }
}

/// Whether a number has a mark.
pub(crate) fn is_marked(marked: &[bool], number: NodeId) -> bool
    ensures { result ≡ get_or marked.now number false }
{
    match marked.get(number.number() as usize) {
        Some(is) => *is,
        None => false,
    }
}
