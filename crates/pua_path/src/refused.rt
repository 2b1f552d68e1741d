//! What wrong bodies of functions that are private to this crate would answer: each function meets
//! such an answer and is proved never to, by the contracts of what it calls alone. A function is
//! named for the wrong body, and its doc says what holds.

use crate::limits::MOST_LINKS;
use crate::rest::{LinksLeft, Rest, unread};
use crate::text::{Ending, PathText};
use crate::traced::Links;
use std::alloc::Global;

/// There is room for each link that may be followed.
fn room_for_a_link_less(alloc: Global) {
    let Ok(links) = Links::new(alloc) else {
        return;
    };
    if links.spots.capacity() < MOST_LINKS as usize {
        unreachable!()
    }
}

/// A link's target does not take the part `..` away that is left after the link.
fn dotdot_after_a_link_is_lexical() {
    let (Ok(path), Ok(target)) = (
        PathText::read(b"..", Ending::Dot),
        PathText::read(b"a", Ending::Dot),
    ) else {
        unreachable!()
    };
    let mut rest = Rest::of_text(&path, LinksLeft::ALL);
    let Ok(()) = rest.put(unread(&target)) else {
        unreachable!()
    };
    let (Some(_), Some(_)) = (rest.next(), rest.next()) else {
        unreachable!()
    };
}
