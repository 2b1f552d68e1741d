//! What is left of a path while it is resolved.

use crate::errno::Errno;
use crate::limits::MOST_LINKS;
use crate::piece::{Piece, Readable, after_slashes, before_slashes, next_piece};
use crate::text::{Ending, PathText};
use std::marker::Model;

/// How many texts may lie below the one that is read: one for each link that may be followed.
const WAITING: usize = MOST_LINKS as usize;

/// How many links a resolution may still follow: 32 at most.
#[derive(Clone, Copy)]
pub(crate) struct LinksLeft {
    pub(crate) count: u8,
    pub(crate) ghost few: { count ≤ most_links },
}

impl LinksLeft {
    /// No link was followed yet.
    pub(crate) const ALL: LinksLeft = LinksLeft { count: MOST_LINKS };
}

/// The parts still to be resolved, as texts that lie one on another: what is left of a path, and of
/// the target of each link on the way. The one on top is read first. It takes no memory. Contracts
/// see the parts, and how many links may still be followed: there is room for a text for each.
#[derive(Drop)]
pub(crate) struct Rest<'a> {
    top: &'a [u8],
    below: [&'a [u8]; WAITING],
    depth: usize,
    left: u8,
}

impl<'a> Model for Rest<'a> {
    ghost use Rattle.std.specs.Prelude.{◌≤◌, ◌+◌, ◌++◌, IsTrue, take};
    ghost use Rattle.pua_path.specs.Limits.{most_links};
    ghost use Rattle.pua_path.specs.Remaining.{Remaining, rest_parts, pending_parts, is_stack};

    ghost Value = { Remaining };

    ghost view = { λ a. record
        { parts = rest_parts a.top.now ++ pending_parts (take a.depth a.below); left = a.left } };

    ghost invariant = { λ a. (a.depth + a.left ≤ most_links) ×
        IsTrue (is_stack a.top.now (take a.depth a.below)) };
}

ghost use Rattle.std.specs.Prelude.{◌≡◌, ◌≤◌, ◌<◌, ◌-◌, [], ◌∷◌, ◌++◌};
ghost use Rattle.std.specs.Prelude.{IfErr, MatchOption, OnOk};
ghost use Rattle.pua_path.specs.Limits.{most_links};
ghost use Rattle.pua_path.specs.Paths.{part_of, parts_of};
ghost use Rattle.pua_path.specs.Remaining.{has_no_part, rest_parts};
ghost use Rattle.pua_path.specs.declared.errno.Errno.TheVariants.{ELOOP};
ghost use Rattle.pua_path.specs.declared.text.Ending.TheVariants as ending;

/// What is left of a path where nothing of it is read yet.
pub(crate) fn unread<'a>(text: &PathText<'a>) -> Readable<'a>
    ensures { rest_parts result.bytes.now ≡ parts_of text.now.ending text.now.bytes }
{
    let bytes = text.bytes();
    if let Ending::Dropped = text.ending() {
        let bytes = after_slashes(before_slashes(bytes));
        return Readable { bytes };
    }
    let bytes = after_slashes(bytes);
    Readable { bytes }
}

impl<'a> Rest<'a> {
    /// The parts of a path.
    #[inline(always)]
    pub(crate) fn of_text(text: &PathText<'a>, left: LinksLeft) -> Rest<'a>
        ensures parts { result.parts ≡ parts_of text.now.ending text.now.bytes }
        ensures left { result.left ≡ left.count }
    {
        Rest::of_top(unread(text), left)
    }

    /// The parts of what is left of a text.
    #[inline(always)]
    pub(crate) fn of_top(top: Readable<'a>, left: LinksLeft) -> Rest<'a>
        ensures parts { result.parts ≡ rest_parts top.entry.bytes.now }
        ensures left { result.left ≡ left.count }
    {
        let top = top.bytes;
        Rest {
            top,
            below: [top; WAITING],
            depth: 0,
            left: left.count,
        }
    }

    /// How many links may still be followed.
    pub(crate) fn left(&self) -> u8
        ensures { result ≡ self.now.left }
    {
        self.left
    }

    /// Whether no part is left.
    pub(crate) fn is_done(&self) -> bool
        ensures { result ≡ has_no_part self.now.parts }
    {
        self.top.is_empty()
    }

    /// Takes the first part off, and answers the piece that it is; None where no part is left.
    pub(crate) fn next(&mut self) -> Option<Piece<'a>>
        ensures parts { MatchOption result
            ((self.old.parts ≡ []) × (self.new.parts ≡ []))
            (λ piece. self.old.parts ≡ part_of piece.bytes.now ∷ self.new.parts) }
        ensures left { self.new.left ≡ self.old.left }
    {
        if self.top.is_empty() {
            return None;
        }
        let (piece, rest) = next_piece(Readable { bytes: self.top });
        if rest.bytes.is_empty() && self.depth > 0 {
            self.depth -= 1;
            self.top = self.below[self.depth];
        } else {
            self.top = rest.bytes;
        }
        Some(piece)
    }

    /// Follows a link, if one may still be followed: puts the parts of its target in front of the
    /// others.
    pub(crate) fn put(&mut self, target: Readable<'a>) -> Result<(), Errno>
        ensures ok { OnOk result (0 < self.old.left) }
        ensures err { IfErr result (λ errno. (errno ≡ ELOOP) × (self.old.left ≡ 0)) }
        ensures left { self.new.left ≡ self.old.left - 1 }
        ensures unchanged { self.old.left ≡ 0 → self.new ≡ self.old }
        ensures parts { 0 < self.old.left → self.new.parts
            ≡ parts_of ending.Dot target.entry.bytes.now ++ self.old.parts }
    {
        if self.left == 0 {
            return Err(Errno::ELOOP);
        }
        self.left -= 1;
        let text = after_slashes(target.bytes);
        if text.is_empty() {
            return Ok(());
        }
        if !self.top.is_empty() {
            self.below[self.depth] = self.top;
            self.depth += 1;
        }
        self.top = text;
        Ok(())
    }
}
