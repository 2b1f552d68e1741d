//! The text of the pair that an audit resumes after: `CALL:PATH`.

ghost use Rattle.std.specs.Prelude.{◌≡◌, ◌≢◌, ◌≤◌, ◌<◌, ◌==◌, [], Ok, Err, Some, None};
ghost use Rattle.std.specs.Prelude.{IfOk, IfSome, MatchResult, length, get_or, find, position};
ghost use Rattle.std.specs.Prelude.{option_map, vec_capacity};
ghost use Rattle.std.specs.List.{before_first, after_first};
ghost use Rattle.pua_tree.specs.Names.{same_bytes};
ghost use Rattle.pua_tree.specs.Spelling.{spelling};
ghost use Rattle.pua_audit.specs.Begin.{pair_named, word_of_path, word_of_pieces_between};
ghost use Rattle.pua_audit.specs.Starting.{AreLetters, IsRead, pair_in};
ghost use Rattle.pua_audit.specs.declared.base.Base.TheVariants.{Root};

use crate::alphabet::Alphabet;
use crate::base::Base;
use crate::fault::AuditFault;
use pua_calls::{Call, CallTable};
use pua_tree::Name;
use std::alloc::Global;

/// The pair that an audit resumes after: a word, by the places of its letters in the alphabet, and
/// a call.
#[derive(Drop)]
pub(crate) struct Resumption {
    pub(crate) word: Vec<usize>,
    pub(crate) call: Call,
}

/// The pair that a text names: a call that this table has, and a path that begins at this base and
/// has at most so many letters. The errors are `BadResume` where it names none, and `OutOfMemory`
/// where the growth for the word was refused.
pub(crate) fn read_pair(
    alloc: Global,
    table: &CallTable,
    base: Base,
    letters: &Alphabet,
    limit: usize,
    text: &[u8],
) -> Result<Resumption, AuditFault>
    ensures pair { MatchResult result
        (λ r. pair_named table.now base letters.now limit text.now
        ≡ Some (pair_in letters.now r))
        (λ fault. fault ≢ AuditFault.OutOfMemory → (fault ≡ AuditFault.BadResume) ×
        (pair_named table.now base letters.now limit text.now ≡ None)) }
    ensures letters { IfOk result (λ r. AreLetters letters.now limit r.word.items) }
{
    let (name, path) = split_at_colon(text);
    let Some(call) = table.call_named(name) else {
        return Err(AuditFault::BadResume);
    };
    let Ok(mut word) = Vec::with_capacity(alloc, limit) else {
        return Err(AuditFault::OutOfMemory);
    };
    if !read_path(base, letters, limit, path, &mut word) {
        return Err(AuditFault::BadResume);
    }
    Ok(Resumption { word, call })
}

/// What stands before the first colon of a text, and what stands after it.
fn split_at_colon(text: &[u8]) -> (&[u8], &[u8])
    ensures front { result.0.now ≡ before_first (λ b. b == 58) text.now }
    ensures back { result.1.now ≡ after_first (λ b. b == 58) text.now }
{
    match first_colon(text) {
        Some(colon) => (&text[..colon], &text[colon + 1..]),
        None => (text, &[]),
    }
}

fn first_colon(text: &[u8]) -> Option<usize>
    ensures { result ≡ position (λ b. b == 58) text.now }
{
    text.iter().position(|byte| *byte == b':')
}

/// Puts the letters of a path into an empty word, and answers whether it is the printed path of a
/// word within the limit.
fn read_path(
    base: Base,
    letters: &Alphabet,
    limit: usize,
    path: &[u8],
    word: &mut Vec<usize>,
) -> bool
    requires empty { word.old.items ≡ [] }
    requires room { limit ≤ vec_capacity word.old }
    ensures { IsRead letters.now limit
        (word_of_path base letters.now path.now) result word.new.items }
{
    match base {
        Base::Root => read_absolute(letters, limit, path, word),
        Base::Cwd => {
            if path == b".".as_slice() {
                return true;
            }
            read_pieces(letters, limit, path, word)
        }
    }
}

/// As `read_path` at the root: a slash alone, or one before each letter.
fn read_absolute(letters: &Alphabet, limit: usize, path: &[u8], word: &mut Vec<usize>) -> bool
    requires empty { word.old.items ≡ [] }
    requires room { limit ≤ vec_capacity word.old }
    ensures { IsRead letters.now limit
        (word_of_path Root letters.now path.now) result word.new.items }
{
    let [b'/', pieces @ ..] = path else {
        return false;
    };
    if pieces.is_empty() {
        return true;
    }
    read_pieces(letters, limit, pieces, word)
}

/// Puts the letters that pieces between slashes spell into an empty word, and answers whether each
/// spells one and they are within the limit.
fn read_pieces(letters: &Alphabet, limit: usize, text: &[u8], word: &mut Vec<usize>) -> bool
    requires empty { word.old.items ≡ [] }
    requires room { limit ≤ vec_capacity word.old }
    ensures { IsRead letters.now limit
        (word_of_pieces_between letters.now text.now) result word.new.items }
{
    for piece in text.split(|byte| *byte == b'/') {
        if word.len() >= limit {
            return false;
        }
        let Some(place) = spelled_letter(letters, piece) else {
            return false;
        };
        word.push(place).unwrap();
    }
    true
}

/// The place of the letter that a piece spells, if it spells one.
fn spelled_letter(letters: &Alphabet, piece: &[u8]) -> Option<usize>
    ensures letter { option_map (λ i. get_or letters.now i []) result
        ≡ find (λ letter. same_bytes (spelling letter) piece.now) letters.now }
    ensures within { IfSome result (λ i. i < length letters.now) }
{
    letters.known();
    if piece == b"..".as_slice() {
        return letters.place_of(piece).ok();
    }
    let Ok(name) = Name::read(piece) else {
        return None;
    };
    letters.place_of(name.bytes()).ok()
}
