//! What is left of lists of keywords and letters.

ghost use Rattle.std.specs.Prelude.{◌≡◌, ◌==◌, map, filter, IfOk};
ghost use Rattle.std.specs.List.{join_with_byte, slice_split};
ghost use Rattle.pua_calls.specs.Promises.{letter_of, promise_of, promises_of};
ghost use Rattle.pua_tight.specs.Texts.{given_text, or_equals, perms_text, stays_in};
ghost use Rattle.pua_tight.specs.Left.{stays_as_read};

use pua_calls::{Perms, Promises};
use pua_script::Given;
use std::alloc::{AllocError, Global};

/// An argument of pledge with the keywords of a set alone.
pub(crate) fn given_left(alloc: Global, given: Given, field: &[u8]) -> Result<Vec<u8>, AllocError>
    ensures { IfOk result (λ text. text.items ≡ given_text given field.now) }
{
    let Given::Good(set) = given else {
        return copied(alloc, field);
    };
    let words = words_left(alloc, set, field)?;
    let text = joined(alloc, words.as_slice(), b',')?;
    filled(text)
}

/// The letters of an unveil, those of a set alone.
pub(crate) fn perms_left(
    alloc: Global,
    perms: Option<Perms>,
    field: &[u8],
) -> Result<Vec<u8>, AllocError>
    ensures { IfOk result (λ text. text.items ≡ perms_text perms field.now) }
{
    let Some(set) = perms else {
        return copied(alloc, field);
    };
    let text = letters_left(alloc, set, field)?;
    filled(text)
}

/// A text, or `=` where it is empty.
fn filled(text: Vec<u8>) -> Result<Vec<u8>, AllocError>
    ensures { IfOk result (λ filled. filled.items ≡ or_equals text.items) }
{
    let mut text = text;
    if text.is_empty() {
        text.push(b'=')?;
    }
    Ok(text)
}

/// A copy of some bytes.
pub(crate) fn copied(alloc: Global, bytes: &[u8]) -> Result<Vec<u8>, AllocError>
    ensures { IfOk result (λ text. text.items ≡ bytes.now) }
{
    let mut text = Vec::new(alloc);
    text.extend_from_slice(bytes)?;
    Ok(text)
}

/// The words of a list without the keywords that a set lacks.
fn words_left<'a>(
    alloc: Global,
    set: Promises,
    field: &'a [u8],
) -> Result<Vec<&'a [u8]>, AllocError>
    ensures { IfOk result (λ words. map (λ word. word.now) words.items
        ≡ filter (λ word. stays_in set (promise_of word)) (slice_split (λ b. b == 44) field.now)) }
{
    field
        .split(|byte| *byte == b',')
        .filter(|word| stays(set, word))
        .collect(alloc)
}

/// Whether a word of a list stays: it does unless it names a member that the set lacks.
fn stays(set: Promises, word: &[u8]) -> bool
    ensures { result ≡ stays_as_read set (promises_of word.now) }
{
    match Promises::read(word) {
        Ok(named) => set.contains(named),
        Err(_unknown) => true,
    }
}

/// The letters of a field without those that a set lacks.
fn letters_left(alloc: Global, set: Perms, field: &[u8]) -> Result<Vec<u8>, AllocError>
    ensures { IfOk result (λ letters. letters.items
        ≡ filter (λ b. stays_in set (letter_of b)) field.now) }
{
    field
        .iter()
        .copied()
        .filter(|byte| letter_stays(set, *byte))
        .collect(alloc)
}

/// Whether a letter stays: it does unless the set lacks it.
fn letter_stays(set: Perms, byte: u8) -> bool
    ensures { result ≡ stays_in set (letter_of byte) }
{
    match byte {
        b'r' => set.contains(Perms::READ),
        b'w' => set.contains(Perms::WRITE),
        b'x' => set.contains(Perms::EXEC),
        b'c' => set.contains(Perms::CREATE),
        _ => true,
    }
}

/// Words with a byte between each two.
pub(crate) fn joined(alloc: Global, words: &[&[u8]], between: u8) -> Result<Vec<u8>, AllocError>
    ensures { IfOk result (λ text. text.items
        ≡ join_with_byte between (map (λ word. word.now) words.now)) }
{
    let mut text = Vec::new(alloc);
    let Some((first, more)) = words.split_first() else {
        return Ok(text);
    };
    text.extend_from_slice(first)?;
    for word in more {
        text.push(between)?;
        text.extend_from_slice(word)?;
    }
    Ok(text)
}
