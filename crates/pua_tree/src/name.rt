//! Names in directories.

use crate::fault::NameFault;
use crate::spelling::{is_plain, unspell_into};
use std::cmp::Ordering;
use std::hash::{Hash, Hasher};
use std::marker::Model;

/// The name of a row: 1 to 255 bytes without NUL or slash, and neither `.` nor `..` (intro(2)). It
/// is kept inline, so that a copy takes no memory. Contracts see the list of its bytes.
#[derive(Clone, Copy)]
pub struct Name {
    bytes: [u8; Name::MOST],
    len: u8,
}

impl Model for Name {
    ghost use Rattle.std.specs.Prelude.{◌≡◌, ℕ, List, length, take, IsTrue};
    ghost use Rattle.pua_tree.specs.Names.{is_name, padded_name};

    ghost Value = { List ℕ };

    ghost view = { λ a. take a.len a.bytes };

    ghost invariant = { λ a. (padded_name (take a.len a.bytes) ≡ a.bytes) ×
        (length (take a.len a.bytes) ≡ a.len) × IsTrue (is_name (take a.len a.bytes)) };

    ghost inverse = { λ n. record { bytes = padded_name n; len = length n } };

    ghost inverse_ok = { λ a h i. record { bytes = h.0 i; len = h.1 i } };
}

ghost use Rattle.std.specs.Prelude.{◌≡◌, ◌==◌, ◌≤◌, [], ◌∷◌, length, IsTrue, Some, None};
ghost use Rattle.std.specs.Prelude.{if◌then◌else◌, ◌||◌, MatchResult, Ok, Err};
ghost use Rattle.std.proofs.Common.{rules};
ghost use Rattle.std.specs.Cmp.{partial_order_from_own_ties};
ghost use Rattle.std.specs.Cmp.Rules.{comparing, hashing};
ghost use Rattle.std.specs.Ordering.{nat_cmp, as_partial_cmp};
ghost use Rattle.std.specs.Cmp.Lexicographic.{slice_cmp, pointwise};
ghost use Rattle.std.specs.List.{list_all};
ghost use Rattle.pua_tree.specs.Limits.{most_name};
ghost use Rattle.pua_tree.specs.Names.{is_name, is_name_byte, front, padded_name, same_bytes};
ghost use Rattle.pua_tree.specs.Spelling.{name_of, name_of_bytes, is_plain_in_name};

impl Name {
    /// The most bytes that a name has: `NAME_MAX` of `<limits.h>` (`ENAMETOOLONG` is intro(2)'s).
    pub const MOST: usize = 255;

    /// The name that a text spells, or the first of its faults.
    pub fn read(spelling: &[u8]) -> Result<Name, NameFault>
        ensures { result ≡ name_of spelling.now }
    {
        let mut room = [0; Name::MOST];
        match LentName::read(spelling, &mut room) {
            Ok(name) => Ok(name.name()),
            Err(fault) => Err(fault),
        }
    }

    /// The name of these bytes, if they are a name's.
    #[inline(always)]
    pub fn from_bytes(bytes: &[u8]) -> Option<Name>
        ensures { result ≡ (if is_name bytes.now then Some bytes.now else None) }
    {
        if !is_name(bytes) {
            return None;
        }
        Some(LentName { bytes }.name())
    }

    /// Its bytes, lent as a name's.
    #[inline(always)]
    pub fn lent(&self) -> LentName<'_>
        ensures { result.bytes.now ≡ self.now }
    {
        let bytes = self.bytes();
        LentName { bytes }
    }

    /// A name, to be written over.
    #[inline(always)]
    pub(crate) fn any() -> Name {
        let bytes = b"-".as_slice();
        LentName { bytes }.name()
    }

    /// Writes a lent name over this one. A name made in the place where it is wanted is copied once
    /// less than one that is moved there.
    #[inline(always)]
    pub(crate) fn overwrite(&mut self, name: LentName<'_>)
        ensures { self.new ≡ name.entry.bytes.now }
    {
        let bytes = name.bytes;
        pad(&mut self.bytes, name);
        self.len = bytes.len() as u8;
    }

    /// Does nothing. A caller learns from it what is true of the bytes of every name.
    pub(crate) fn known(&self)
        ensures { IsTrue (is_name self.now) }
    {
        // The prover knows the invariant of a value that is read.
        let _len = &self.len;
    }

    /// The number that its first eight bytes write, the most significant one first, with zeros
    /// after the last byte.
    #[inline(always)]
    fn front(&self) -> u64
        ensures number { result ≡ front 8 0 self.now }
        ensures name { IsTrue (is_name self.now) }
    {
        let bytes = &self.bytes;
        u64::from_be_bytes([
            bytes[0], bytes[1], bytes[2], bytes[3], bytes[4], bytes[5], bytes[6], bytes[7],
        ])
    }

    /// Its bytes.
    #[inline(always)]
    pub fn bytes(&self) -> &[u8]
        ensures bytes { result.now ≡ self.now }
        ensures name { IsTrue (is_name self.now) }
    {
        &self.bytes[..self.len as usize]
    }
}

/// The bytes of a name, lent: where they lie is not copied before a `Name` is wanted.
#[derive(Clone, Copy)]
pub struct LentName<'a> {
    pub bytes: &'a [u8],
    pub ghost name: { IsTrue (is_name bytes.now) },
}

impl<'a> LentName<'a> {
    /// The name that a text spells, or the first of its faults: what `Name::read` answers. It lies
    /// in the text, or in the room where the text has escapes.
    pub(crate) fn read(
        spelling: &'a [u8],
        room: &'a mut [u8; Name::MOST],
    ) -> Result<LentName<'a>, NameFault>
        ensures { MatchResult result (λ name. name_of spelling.now ≡ Ok name.bytes.now)
            (λ fault. name_of spelling.now ≡ Err fault) }
    {
        if !are_plain_in_name(spelling) {
            return LentName::read_escaped(spelling, room);
        }
        if spelling.is_empty() {
            return Err(NameFault::Empty);
        }
        if spelling.len() > Name::MOST {
            return Err(NameFault::TooLong);
        }
        if are_dots(spelling) {
            return Err(NameFault::NotAName);
        }
        Ok(LentName { bytes: spelling })
    }

    /// The name that any text spells, read byte by byte into a room.
    fn read_escaped(
        spelling: &[u8],
        room: &'a mut [u8; Name::MOST],
    ) -> Result<LentName<'a>, NameFault>
        ensures { MatchResult result (λ name. name_of spelling.now ≡ Ok name.bytes.now)
            (λ fault. name_of spelling.now ≡ Err fault) }
    {
        *room = [0; Name::MOST];
        let Some(len) = unspell_into(spelling, room) else {
            return Err(NameFault::BadSpelling);
        };
        if spelling.contains(&b'/') {
            return Err(NameFault::BadSpelling);
        }
        if len > Name::MOST {
            return Err(NameFault::TooLong);
        }
        LentName::judged(&room[..len])
    }

    /// The name of bytes that were spelled, or the first of their faults.
    fn judged(bytes: &'a [u8]) -> Result<LentName<'a>, NameFault>
        ensures { MatchResult result (λ name. name_of_bytes (Some bytes.now) ≡ Ok name.bytes.now)
            (λ fault. name_of_bytes (Some bytes.now) ≡ Err fault) }
    {
        if bytes.contains(&b'/') {
            return Err(NameFault::BadSpelling);
        }
        if bytes.is_empty() {
            return Err(NameFault::Empty);
        }
        if bytes.len() > Name::MOST {
            return Err(NameFault::TooLong);
        }
        if !is_name(bytes) {
            return Err(NameFault::NotAName);
        }
        Ok(LentName { bytes })
    }
}

impl LentName<'_> {
    /// The name, copied.
    #[inline(always)]
    pub fn name(&self) -> Name
        ensures { result ≡ self.now.bytes.now }
    {
        let bytes = self.bytes;
        Name {
            bytes: padded(*self),
            len: bytes.len() as u8,
        }
    }
}

impl PartialEq for Name {
    ghost eq = { pointwise ◌==◌ };

    ghost laws = { Prim.search (comparing, rules) };

    fn eq(&self, other: &Name) -> bool {
        self.bytes() == other.bytes()
    }
}

impl Eq for Name {
    ghost laws = { Prim.search (comparing, rules) };
}

impl Ord for Name {
    ghost cmp = { slice_cmp nat_cmp };

    ghost total = { Prim.search (comparing, rules) };

    ghost matches_partial_cmp = { Prim.search (comparing, rules) };

    ghost matches_eq = { Prim.search (comparing, rules) };

    /// Compares the first eight bytes at one time, and byte by byte only names that begin alike.
    fn cmp(&self, other: &Name) -> Ordering {
        let order = self.front().cmp(&other.front());
        if order.is_ne() {
            return order;
        }
        self.bytes().cmp(other.bytes())
    }
}

impl PartialOrd for Name {
    ghost partial_cmp = { as_partial_cmp (slice_cmp nat_cmp) };

    ghost laws = { partial_order_from_own_ties (Prim.search (comparing, rules))
        (Prim.search (comparing, rules)) };

    fn partial_cmp(&self, other: &Name) -> Option<Ordering> {
        Some(self.cmp(other))
    }
}

impl Hash for Name {
    ghost hash_input = { λ name. name ∷ [] };

    ghost respects_eq = { Prim.search (hashing, rules) };

    /// Feeds the bytes at one time, which is faster than one by one.
    fn hash<H: Hasher>(&self, state: &mut H) {
        state.write(self.bytes());
    }
}

/// Whether the bytes are those of a name.
fn is_name(bytes: &[u8]) -> bool
    ensures { result ≡ is_name bytes.now }
{
    match bytes {
        [] | [b'.'] | [b'.', b'.'] => false,
        _ => bytes.len() <= Name::MOST && are_name_bytes(bytes),
    }
}

/// Whether these bytes are one dot or two.
fn are_dots(bytes: &[u8]) -> bool
    ensures { result ≡ (same_bytes bytes.now (46 ∷ []) || same_bytes bytes.now (46 ∷ 46 ∷ [])) }
{
    matches!(bytes, [b'.'] | [b'.', b'.'])
}

/// Whether each byte stands for itself in the spelling of a name.
fn are_plain_in_name(bytes: &[u8]) -> bool
    ensures { result ≡ list_all is_plain_in_name bytes.now }
{
    bytes
        .iter()
        .fold(true, |plain, byte| plain & is_plain_in_name(*byte))
}

fn is_plain_in_name(byte: u8) -> bool
    ensures { result ≡ is_plain_in_name byte }
{
    is_plain(byte) && byte != b'/'
}

/// Whether each byte may stand in a name.
fn are_name_bytes(bytes: &[u8]) -> bool
    ensures { result ≡ list_all is_name_byte bytes.now }
{
    bytes.iter().all(|byte| is_name_byte(*byte))
}

/// Whether a byte may stand in a name: it is neither NUL nor a slash.
fn is_name_byte(byte: u8) -> bool
    ensures { result ≡ is_name_byte byte }
{
    byte != 0 && byte != b'/'
}

/// The bytes of a name, and zeros after them.
#[inline(always)]
fn padded(name: LentName<'_>) -> [u8; Name::MOST]
    ensures { result ≡ padded_name name.entry.bytes.now }
{
    let mut padded = [0; Name::MOST];
    pad(&mut padded, name);
    padded
}

/// Writes the bytes of a name, and zeros after them.
#[inline(always)]
fn pad(into: &mut [u8; Name::MOST], name: LentName<'_>)
    ensures { into.new ≡ padded_name name.entry.bytes.now }
{
    let bytes = name.bytes;
    *into = [0; Name::MOST];
    into[..bytes.len()].copy_from_slice(bytes);
}
