//! Of names.

use pua_tree::Name;
use std::hash::{Hash, Hasher};

/// A name may have 255 bytes where one of them is spelled in octal.
fn name_of_255_too_long() {
    let mut spelling = [b'a'; 258];
    spelling[0] = b'\\';
    spelling[1] = b'0';
    spelling[2] = b'0';
    spelling[3] = b'1';
    if Name::read(&spelling).is_err() {
        unreachable!()
    }
}

/// 256 bytes are no name.
fn name_of_256() {
    if Name::from_bytes(&[b'a'; 256]).is_some() {
        unreachable!()
    }
}

/// A name of one byte has one.
fn name_bytes_padded() {
    let Some(name) = Name::from_bytes(b"a") else {
        unreachable!()
    };
    if name.bytes().len() != 1 {
        unreachable!()
    }
}

/// Names of one length may differ.
fn names_equal_by_length() {
    let Some(first) = Name::from_bytes(b"a") else {
        unreachable!()
    };
    let Some(second) = Name::from_bytes(b"b") else {
        unreachable!()
    };
    if first == second {
        unreachable!()
    }
}

/// A name is the same again where it was lent and copied.
fn lent_name_cut(name: &Name) {
    if name.lent().name() != *name {
        unreachable!()
    }
}

/// A name comes before another where its bytes do.
fn names_in_falling_order() {
    let Some(first) = Name::from_bytes(b"a") else {
        unreachable!()
    };
    let Some(second) = Name::from_bytes(b"b") else {
        unreachable!()
    };
    if first > second {
        unreachable!()
    }
}

/// A name is hashed by its bytes.
fn name_hashed_by_length<H: Hasher + Copy>(name: &Name, start: H) {
    let mut by_name = start;
    name.hash(&mut by_name);
    let mut by_bytes = start;
    by_bytes.write(name.bytes());
    if by_name.finish() != by_bytes.finish() {
        unreachable!()
    }
}
