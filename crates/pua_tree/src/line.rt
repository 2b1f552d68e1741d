//! The fields of a line of a listing by what they are for.

ghost use Rattle.std.specs.Prelude.{◌≡◌, option_map};
ghost use Rattle.pua_tree.specs.Listing.{file_by, is_mount_word, listing_line, long_kind};
ghost use Rattle.pua_tree.specs.Listing.{plain_kind, typed_kind};
ghost use Rattle.pua_tree.specs.Lines.{line_read};

use crate::field::Fields;
use crate::form::Form;
use crate::node::{FileType, Kind};

/// A line of a listing after its second: its number, the kind of the node that it makes, whether
/// another file system is mounted there, the parent and the name of its row, and a last field,
/// which is a link's target. A hard link has no kind, and its last field is a node; other lines
/// have none, and it is empty here. All but the kind and the mount are as they are spelled.
#[derive(Clone, Copy)]
pub(crate) struct ListingLine<'a> {
    pub(crate) number: &'a [u8],
    pub(crate) kind: Option<Kind>,
    pub(crate) mount: bool,
    pub(crate) parent: &'a [u8],
    pub(crate) name: &'a [u8],
    pub(crate) last: &'a [u8],
}

/// The line that a text without its end is, and None where a field is empty or holds what no field
/// may, the kind is unknown in this form, or there are more or fewer fields than its kind has.
pub(crate) fn read_line(form: Form, text: &[u8]) -> Option<ListingLine<'_>>
    ensures { option_map line_read result ≡ listing_line form text.now }
{
    let fields = Fields::read(text)?;
    match fields.as_slice() {
        [number, word, parent, name] => Some(ListingLine {
            number,
            kind: Some(plain_kind(form.knows_types(), word)?),
            mount: is_mount_word(word),
            parent,
            name,
            last: &[],
        }),
        [number, word, parent, name, last] => Some(ListingLine {
            number,
            kind: long_kind(form.knows_hard(), word)?,
            mount: false,
            parent,
            name,
            last,
        }),
        _ => None,
    }
}

/// The kind that a word names, of those whose lines have no last field, where types of files are
/// known or not.
fn plain_kind(types: bool, word: &[u8]) -> Option<Kind>
    ensures { result ≡ plain_kind types word.now }
{
    match word {
        [b'd', b'i', b'r'] => Some(Kind::Dir),
        [b'f', b'i', b'l', b'e'] => Some(file_by(types)),
        [b'p', b'r', b'o', b'g'] => Some(Kind::Prog),
        _ if types => typed_kind(word),
        _ => None,
    }
}

/// What a `file` is: a plain file where types are known, and else one of which no more is known.
fn file_by(types: bool) -> Kind
    ensures { result ≡ file_by types }
{
    if types {
        Kind::Known(FileType::Plain)
    } else {
        Kind::File
    }
}

/// The kind that a further word names where types of files are known. A file system may be mounted
/// at a directory alone.
fn typed_kind(word: &[u8]) -> Option<Kind>
    ensures { result ≡ typed_kind word.now }
{
    match word {
        [b'a', b'n', b'y'] => Some(Kind::File),
        [b's', b'o', b'c', b'k'] => Some(Kind::Known(FileType::Sock)),
        [b'f', b'i', b'f', b'o'] => Some(Kind::Known(FileType::Fifo)),
        [b'd', b'e', b'v'] => Some(Kind::Known(FileType::Dev)),
        _ if is_mount_word(word) => Some(Kind::Dir),
        _ => None,
    }
}

/// Whether a word is that of a directory at which another file system is mounted.
fn is_mount_word(word: &[u8]) -> bool
    ensures { result ≡ is_mount_word word.now }
{
    matches!(word, [b'm', b'o', b'u', b'n', b't'])
}

/// What a word names, of those whose lines have a last field: the kind of a symbolic link, and no
/// kind for a hard link, where hard links are known.
fn long_kind(hard: bool, word: &[u8]) -> Option<Option<Kind>>
    ensures { result ≡ long_kind hard word.now }
{
    match word {
        [b'l', b'i', b'n', b'k'] => Some(Some(Kind::Link)),
        [b'h', b'a', b'r', b'd'] if hard => Some(None),
        _ => None,
    }
}
