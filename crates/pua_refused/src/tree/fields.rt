//! Of fields, and of numbers.

use pua_tree::{Fields, NodeId, number_within};

/// A line of six fields has all six.
fn fields_as_slice_short() {
    let Some(fields) = Fields::read(b"a b c d e f") else {
        unreachable!()
    };
    if fields.as_slice().len() != 6 {
        unreachable!()
    }
}

/// A decimal has no leading zero.
fn leading_zero() {
    if number_within(1, 999_999, b"01").is_some() {
        unreachable!()
    }
}

/// A node has the number that it was given, also above those of listings.
fn node_number_capped() {
    if NodeId::new(1_000_000).number() != 1_000_000 {
        unreachable!()
    }
}
