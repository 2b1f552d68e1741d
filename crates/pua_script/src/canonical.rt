//! The names of texts beside those of paths that are known, as a kernel compares them: as text,
//! before any look-up. It takes no memory.

ghost use Rattle.std.specs.Prelude.{◌≡◌, ◌≤◌, ◌+◌, ◌==◌, option_map, slice_get};
ghost use Rattle.std.specs.List.{slice_split};
ghost use Rattle.pua_tree.specs.Names.{components};
ghost use Rattle.pua_script.specs.Beside.{at_root, beside, has_come, is_same, up};
ghost use Rattle.pua_script.specs.Canonical.{adds_none, canonical};
ghost use Rattle.pua_script.specs.Openings.{are_names};

/// How many of a path's names a text has come down, and how many others from there.
#[derive(Clone, Copy)]
pub(crate) struct Beside {
    pub(crate) come: usize,
    pub(crate) beyond: usize,
}

/// Whether the names of a text, read from the root, are those of a path, or where this asks for it
/// lie below them. Pieces without a byte and `.` are no names, and `..` takes away the name before
/// it.
pub(crate) fn are_names(below: bool, path: &[u8], text: &[u8]) -> bool
    ensures { result ≡ are_names below (components path.now) (canonical text.now) }
{
    has_come(below, path, walk(path, text))
}

/// Where the names of a text lie beside those of a path.
fn walk(path: &[u8], text: &[u8]) -> Beside
    ensures { result ≡ beside (components path.now) at_root
        (slice_split (λ b. b == 47) text.now) }
{
    let mut at = Beside { come: 0, beyond: 0 };
    for piece in text.split(|byte| *byte == b'/') {
        if adds_none(piece) {
            continue;
        }
        if piece == b"..".as_slice() {
            at = up(at);
        } else if at.beyond == 0 && is_same(name_at(path, at.come), piece) {
            at.come += 1;
        } else {
            at.beyond += 1;
        }
    }
    at
}

/// Whether a piece between slashes adds no name.
fn adds_none(piece: &[u8]) -> bool
    ensures { result ≡ adds_none piece.now }
{
    piece.is_empty() || piece == b".".as_slice()
}

/// Up again.
fn up(at: Beside) -> Beside
    ensures at { result ≡ up at }
    ensures within { result.come + result.beyond ≤ at.come + at.beyond }
{
    if at.beyond == 0 {
        Beside {
            come: at.come.saturating_sub(1),
            beyond: at.beyond,
        }
    } else {
        Beside {
            come: at.come,
            beyond: at.beyond - 1,
        }
    }
}

/// Whether a piece is this name.
fn is_same(name: Option<&[u8]>, piece: &[u8]) -> bool
    ensures { result ≡ is_same (option_map (λ n. n.now) name.entry) piece.now }
{
    match name {
        None => false,
        Some(name) => name == piece,
    }
}

/// The name of a path at this index.
fn name_at(path: &[u8], index: usize) -> Option<&[u8]>
    ensures { option_map (λ n. n.now) result ≡ slice_get (components path.now) index }
{
    path.split(|byte| *byte == b'/')
        .filter(|piece| !piece.is_empty())
        .nth(index)
}

/// Whether a text has come down all names of a path, and is below them or at them.
fn has_come(below: bool, path: &[u8], at: Beside) -> bool
    ensures { result ≡ has_come below (components path.now) at }
{
    if name_at(path, at.come).is_some() {
        return false;
    }
    if below { at.beyond > 0 } else { at.beyond == 0 }
}
