//! The one spelling of bytes in the fields of listings, scripts and output: a visible byte that is
//! no backslash stands for itself, and any other byte is a backslash and three octal digits.

use crate::fault::OutOfMemory;
use std::alloc::Global;
use std::marker::Model;

/// The spelling of one byte: the byte itself, or a backslash and three octal digits. It is kept
/// inline and takes no memory. Contracts see the list of its bytes.
#[derive(Drop)]
pub struct SpelledByte {
    bytes: [u8; 4],
    len: u8,
}

impl Model for SpelledByte {
    ghost use Rattle.std.specs.Prelude.{◌≤◌, ℕ, List, take};

    ghost Value = { List ℕ };

    ghost view = { λ a. take a.len a.bytes };

    ghost invariant = { λ a. a.len ≤ 4 };
}

ghost use Rattle.std.specs.Prelude.{◌≡◌, ◌<◌, ◌≤◌, ◌&&◌, nat_le, ℕ, List, Some, None, length};
ghost use Rattle.std.specs.Prelude.{option_map, IfSome, OnSome, IfOk, IsTrue, MatchOption};
ghost use Rattle.std.specs.List.{list_all};
ghost use Rattle.pua_tree.specs.Spelling.{byte_spelling, escaped_byte, is_octal, is_plain};
ghost use Rattle.pua_tree.specs.Spelling.{bytes_spelled, with_front};
ghost use Rattle.pua_tree.specs.Writes.{room_after};

impl SpelledByte {
    /// Its 1 or 4 bytes.
    pub fn as_bytes(&self) -> &[u8]
        ensures { result.now ≡ self.now }
    {
        &self.bytes[..usize::from(self.len)]
    }
}

/// How a byte is spelled.
pub fn byte_spelling(byte: u8) -> SpelledByte
    ensures { result ≡ byte_spelling byte }
{
    if is_plain(byte) {
        SpelledByte {
            bytes: [byte, 0, 0, 0],
            len: 1,
        }
    } else {
        let digits = [b'0' + byte / 64, b'0' + byte / 8 % 8, b'0' + byte % 8];
        SpelledByte {
            bytes: [b'\\', digits[0], digits[1], digits[2]],
            len: 4,
        }
    }
}

/// The bytes that a text spells, and None where it is no spelling. The memory for them is reserved
/// once; the only error is that this is refused.
pub fn unspelled(alloc: Global, text: &[u8]) -> Result<Option<Vec<u8>>, OutOfMemory>
    ensures { IfOk result (λ o. option_map (λ v. v.items) o ≡ bytes_spelled text.now) }
{
    if are_plain(text) {
        return as_it_stands(alloc, text);
    }
    let Some(len) = unspell_into(text, &mut []) else {
        return Ok(None);
    };
    let mut bytes = vec![in alloc; 0; len]?;
    unspell_into(text, bytes.as_mut_slice());
    Ok(Some(bytes))
}

/// The bytes that a text of plain bytes spells, which are its own.
#[tactic(auto, using(crate::proofs::Spellings::unspelled_as_it_stands))]
fn as_it_stands(alloc: Global, text: &[u8]) -> Result<Option<Vec<u8>>, OutOfMemory>
    requires { IsTrue (list_all is_plain text.now) }
    ensures { IfOk result (λ o. option_map (λ v. v.items) o ≡ bytes_spelled text.now) }
{
    Ok(Some(Vec::from_slice(alloc, text)?))
}

/// Writes the bytes that a text spells into a room, as far as they fit, and answers how many they
/// are; None where the text is no spelling, which leaves a front of the room overwritten.
pub(crate) fn unspell_into(text: &[u8], room: &mut [u8]) -> Option<usize>
    ensures { MatchOption result (bytes_spelled text.now ≡ None)
        (λ len. (bytes : List ℕ) × (bytes_spelled text.now ≡ Some bytes) × (len ≡ length bytes)
        × (room.new ≡ room_after room.old 0 bytes)) }
{
    let mut len = 0;
    let mut rest = text;
    while !rest.is_empty() {
        let (byte, behind) = first_spelled(rest)?;
        if len < room.len() {
            room[len] = byte;
        }
        len += 1;
        rest = behind;
    }
    Some(len)
}

/// The first byte that a text spells, and the text after its spelling.
fn first_spelled(text: &[u8]) -> Option<(u8, &[u8])>
    requires { 0 < length text.now }
    ensures first { MatchOption result (bytes_spelled text.now ≡ None)
        (λ r. bytes_spelled text.now ≡ with_front (Some r.0) (bytes_spelled r.1.now)) }
    ensures shorter { IfSome result (λ r. length r.1.now < length text.now) }
{
    let first = text[0];
    let rest = &text[1..];
    if first == b'\\' {
        let byte = escaped_byte(rest)?;
        Some((byte, &rest[3..]))
    } else if is_plain(first) {
        Some((first, rest))
    } else {
        None
    }
}

/// The byte of the three octal digits at the front of a text, where it is no byte that stands for
/// itself.
fn escaped_byte(text: &[u8]) -> Option<u8>
    ensures byte { result ≡ escaped_byte text.now }
    ensures digits { OnSome result (3 ≤ length text.now) }
{
    let &[a, b, c, ..] = text else {
        return None;
    };
    if !(is_octal(a) && is_octal(b) && is_octal(c)) {
        return None;
    }
    let value = 64 * u16::from(a - b'0') + 8 * u16::from(b - b'0') + u16::from(c - b'0');
    if value > 255 {
        return None;
    }
    let byte = value as u8;
    if is_plain(byte) { None } else { Some(byte) }
}

fn is_octal(byte: u8) -> bool
    ensures { result ≡ is_octal byte }
{
    matches!(byte, b'0'..=b'7')
}

/// Whether a byte stands for itself: it is visible, and no backslash.
pub(crate) fn is_plain(byte: u8) -> bool
    ensures { result ≡ is_plain byte }
{
    is_visible(byte) && byte != b'\\'
}

/// Whether each of some bytes stands for itself where it is printed or read: a visible byte that is
/// no backslash. It is true of no bytes at all, and takes no memory.
pub fn are_plain(bytes: &[u8]) -> bool
    ensures { result ≡ list_all is_plain bytes.now }
{
    bytes
        .iter()
        .fold(true, |plain, byte| plain & is_plain(*byte))
}

/// Whether a byte is a visible character of ASCII, as each byte of a field is.
pub(crate) fn is_visible(byte: u8) -> bool
    ensures { result ≡ (nat_le 33 byte && nat_le byte 126) }
{
    matches!(byte, b'!'..=b'~')
}
