//! Of targets and spellings.

use pua_tree::{are_plain, byte_spelling, has_short_components, is_target, unspelled};
use std::alloc::Global;

/// A target has no NUL.
fn target_with_nul() {
    if is_target(b"a\0") {
        unreachable!()
    }
}

/// A component of 256 bytes is not short.
fn component_of_256() {
    if has_short_components(&[b'a'; 256]) {
        unreachable!()
    }
}

/// A backslash does not stand for itself.
fn backslash_taken_for_plain() {
    if are_plain(b"\\") {
        unreachable!()
    }
}

/// The octal digits of a byte begin with the most significant one.
fn octal_digits_reversed() {
    if byte_spelling(b'\n').as_bytes() != b"\\012".as_slice() {
        unreachable!()
    }
}

/// A byte that stands for itself is spelled by one byte.
fn spelled_byte_padded() {
    if byte_spelling(b'a').as_bytes().len() != 1 {
        unreachable!()
    }
}

/// A text of plain bytes spells them all, also where they are more than a name's.
fn plain_text_cut_at_255(alloc: Global) {
    let Ok(read) = unspelled(alloc, &[b'a'; 300]) else {
        return;
    };
    let Some(bytes) = read else { unreachable!() };
    if bytes.len() != 300 {
        unreachable!()
    }
}

/// A text with an octal escape spells all its bytes, also where they are more than a name's.
fn unspelled_cut_at_255(alloc: Global) {
    let mut text = [b'a'; 300];
    text[0] = b'\\';
    text[1] = b'0';
    text[2] = b'0';
    text[3] = b'1';
    let Ok(read) = unspelled(alloc, &text) else {
        return;
    };
    let Some(bytes) = read else { unreachable!() };
    if bytes.len() != 297 {
        unreachable!()
    }
}
