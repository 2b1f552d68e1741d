//! Texts that can be read, and their pieces between slashes.

ghost use Rattle.std.specs.Prelude.{◌≡◌, ◌==◌, ◌<◌, ◌∷◌, false, IsTrue, length, position};
ghost use Rattle.pua_tree.specs.Names.{components, has_byte};
ghost use Rattle.pua_path.specs.Paths.{ends_in_slash, part_of};
ghost use Rattle.pua_path.specs.Remaining.{after_slashes, is_piece, is_readable, rest_parts};
ghost use Rattle.pua_path.specs.Pieces.{IsCutAtSlash, are_bytes};

/// What is left of a path, or a link's target: no NUL, and no component of more than 255 bytes.
#[derive(Clone, Copy)]
pub(crate) struct Readable<'a> {
    pub(crate) bytes: &'a [u8],
    pub(crate) ghost readable: { IsTrue (is_readable bytes.now) },
}

/// A piece between slashes that is a part: 1 to 255 bytes that may stand in a name.
#[derive(Clone, Copy)]
pub(crate) struct Piece<'a> {
    pub(crate) bytes: &'a [u8],
    pub(crate) ghost piece: { IsTrue (is_piece bytes.now) },
}

/// The text from its first byte other than a slash on.
pub(crate) fn after_slashes(text: &[u8]) -> &[u8]
    ensures { result.now ≡ after_slashes text.now }
{
    let mut rest = text;
    while let [b'/', more @ ..] = rest {
        rest = more;
    }
    rest
}

/// The text without the slashes at its end.
pub(crate) fn before_slashes(text: &[u8]) -> &[u8]
    ensures components { components result.now ≡ components text.now }
    ensures end { ends_in_slash result.now ≡ false }
    ensures nul { has_byte 0 result.now ≡ has_byte 0 text.now }
{
    let mut rest = text;
    while let Some((byte, more)) = rest.split_last() {
        if *byte != b'/' {
            break;
        }
        rest = more;
    }
    rest
}

/// Where the first slash is.
fn first_slash(text: &[u8]) -> Option<usize>
    ensures { result ≡ position (λ b. b == 47) text.now }
{
    text.iter().position(|byte| *byte == b'/')
}

/// The bytes before the first slash, and the text from that slash on.
fn cut_at_slash(text: &[u8]) -> (&[u8], &[u8])
    ensures cut { IsCutAtSlash text.now result.0.now result.1.now }
    ensures bytes { IsTrue (are_bytes result.0.now) }
{
    match first_slash(text) {
        Some(end) => text.split_at(end),
        None => (text, &[]),
    }
}

/// The piece that is the first part of what is left of a text, and what is left after it.
pub(crate) fn next_piece<'a>(text: Readable<'a>) -> (Piece<'a>, Readable<'a>)
    requires some { 0 < length text.bytes.now }
    ensures { rest_parts text.entry.bytes.now
        ≡ part_of result.0.bytes.now ∷ rest_parts result.1.bytes.now }
{
    let left = after_slashes(text.bytes);
    if left.is_empty() {
        let dot = b".".as_slice();
        return (Piece { bytes: dot }, Readable { bytes: left });
    }
    let (piece, rest) = cut_at_slash(left);
    (Piece { bytes: piece }, Readable { bytes: rest })
}
