//! Blocks of bytes on the way to a sink.

ghost use Rattle.std.specs.Prelude.{◌≡◌, ◌≤◌, ◌+◌, ◌*◌, ◌++◌, ◌∷◌, [], IfOk, OnOk, OnErr};
ghost use Rattle.std.specs.Prelude.{ℕ, List, Option, length, take, vec_capacity};
ghost use Rattle.pua_path.specs.Limits.{most_path};
ghost use Rattle.pua_audit.specs.Coming.{calls_at};
ghost use Rattle.pua_texts.specs.Blocks.{Filled, HandsOn, Passes, PassesOn};
ghost use Rattle.pua_texts.specs.PathLines.{printed_lines};
ghost use Rattle.pua_texts.specs.Tells.{Tells};
ghost use Rattle.pua_io.specs.Sinks.{AddsFront, HasFailed, WritesTo};

use crate::copies::copy_all;
use crate::fault::TextFault;
use crate::line::copy_lines;
use pua_audit::PathLines;
use pua_calls::{Call, MOST_CALL_LINE};
use pua_io::{PutFault, Sink, put_all};
use pua_path::MOST_PATH;
use pua_tree::OutOfMemory;
use std::alloc::Global;
use std::marker::Model;

/// How many bytes are copied for the end of a line: a blank, the name of a call and LF, and blanks
/// after them.
pub(crate) const MOST_END: usize = MOST_CALL_LINE;

/// How many bytes a line takes at most while it is written: each byte of its path may be spelled by
/// four, and those that are copied for its end stand after it.
pub(crate) const MOST_LINE: usize = 4 * MOST_PATH + MOST_END;

/// How many lines a path has at most: that of a first call, and one for each call after it.
pub(crate) const MOST_LINES: usize = Call::COUNT + 1;

/// How many bytes a block has room for.
pub(crate) const BLOCK: usize = 65_536;

/// How many bytes more than are needed are set to zero at one time.
const AHEAD: usize = 1_024;

/// Bytes that are still to be put into a sink, many at one time. Its room is reserved when it is
/// made, so nothing that is added takes memory. Contracts see the bytes.
#[derive(Drop)]
pub(crate) struct Block {
    /// The bytes, and zeros or bytes of before after them: others are copied over those.
    bytes: Vec<u8>,
    /// How many are still to be put.
    len: usize,
}

impl Model for Block {
    ghost use Rattle.std.specs.Prelude.{◌≤◌, ℕ, List, length, take, vec_capacity};

    ghost Value = { List ℕ };

    ghost view = { λ b. take b.len b.bytes.items };

    ghost invariant = { λ b. (b.len ≤ length b.bytes.items) × (65536 ≤ vec_capacity b.bytes) };
}

impl Block {
    /// An empty block. The only error is that a growth was refused.
    pub(crate) fn new(alloc: Global) -> Result<Block, OutOfMemory>
        ensures { IfOk result (λ block. block ≡ []) }
    {
        match Vec::with_capacity(alloc, BLOCK) {
            Ok(bytes) => Ok(Block { bytes, len: 0 }),
            Err(_) => Err(OutOfMemory),
        }
    }

    /// How many bytes are still to be put.
    #[inline(always)]
    pub(crate) fn len(&self) -> usize
        ensures { result ≡ length self.now }
    {
        self.len
    }

    /// The bytes that are still to be put.
    pub(crate) fn bytes(&self) -> &[u8]
        ensures { result.now ≡ self.now }
    {
        &self.bytes.as_slice()[..self.len]
    }

    /// Adds bytes that fit.
    #[inline(always)]
    pub(crate) fn push(&mut self, bytes: &[u8])
        requires fits { length self.old + length bytes.now ≤ BLOCK }
        ensures { self.new ≡ self.old ++ bytes.now }
    {
        fill_to(&mut self.bytes, self.len + bytes.len());
        self.len = copy_all(self.bytes.as_mut_slice(), self.len, bytes);
    }

    /// Leaves the first so many bytes alone.
    pub(crate) fn truncate(&mut self, len: usize)
        ensures { self.new ≡ take len self.old }
    {
        self.len = self.len.min(len);
    }

    /// Puts all bytes where a line might not fit after them, and is empty then.
    pub(crate) fn make_room<S: Sink>(&mut self, sink: &mut S) -> Result<(), PutFault>
        ensures handed { OnOk result (HandsOn self.old self.new (S.written sink.old)
            (S.written sink.new)) }
        ensures unfailed { OnOk result (S.failed sink.new ≡ S.failed sink.old) }
        ensures front { OnErr result (AddsFront self.old (S.written sink.old)
            (S.written sink.new)) }
        ensures failed { OnErr result (HasFailed (S.failed sink.old) (S.failed sink.new)) }
        ensures free { OnOk result (length self.new + MOST_LINE ≤ BLOCK) }
    {
        self.make_room_for(MOST_LINE, sink)
    }

    /// Puts all bytes where so many might not fit after them, and is empty then.
    #[inline(always)]
    fn make_room_for<S: Sink>(&mut self, count: usize, sink: &mut S) -> Result<(), PutFault>
        ensures handed { OnOk result (HandsOn self.old self.new (S.written sink.old)
            (S.written sink.new)) }
        ensures unfailed { OnOk result (S.failed sink.new ≡ S.failed sink.old) }
        ensures front { OnErr result (AddsFront self.old (S.written sink.old)
            (S.written sink.new)) }
        ensures failed { OnErr result (HasFailed (S.failed sink.old) (S.failed sink.new)) }
        ensures free { OnOk result (count ≤ BLOCK → length self.new + count ≤ BLOCK) }
    {
        if self.len > BLOCK.saturating_sub(count) {
            put_all(sink, self.bytes())?;
            self.len = 0;
        }
        Ok(())
    }

    /// Adds the lines of a path that is printed as it is, after room is made for all of them.
    #[inline(always)]
    pub(crate) fn add_plain<S: Sink>(
        &mut self,
        lines: PathLines<'_>,
        sink: &mut S,
    ) -> Result<(), PutFault>
        requires { length lines.path.now ≤ most_path }
        ensures { PassesOn S.written S.failed
            (printed_lines lines.entry.path.now (lines.entry.call ∷ calls_at lines.entry.later))
            result self.old self.new sink.old sink.new }
    {
        let room = MOST_LINES * (lines.path.len() + MOST_END);
        self.make_room_for(room, sink)?;
        fill_to(&mut self.bytes, self.len + room);
        self.len = copy_lines(self.bytes.as_mut_slice(), self.len, lines);
        Ok(())
    }

    /// Adds bytes, of which there are no more than a line takes.
    pub(crate) fn add<S: Sink>(&mut self, bytes: &[u8], sink: &mut S) -> Result<(), PutFault>
        requires short { length bytes.now ≤ MOST_LINE }
        ensures { PassesOn S.written S.failed bytes.now result self.old self.new sink.old sink.new }
    {
        self.make_room(sink)?;
        self.push(bytes);
        Ok(())
    }

    /// Adds bytes that an empty block has room for.
    pub(crate) fn add_all<S: Sink>(&mut self, bytes: &[u8], sink: &mut S) -> Result<(), PutFault>
        requires fits { length bytes.now ≤ BLOCK }
        ensures { PassesOn S.written S.failed bytes.now result self.old self.new sink.old sink.new }
    {
        if self.len > BLOCK - bytes.len() {
            return self.add_text(bytes, sink);
        }
        self.push(bytes);
        Ok(())
    }

    /// Adds a text of any length, by putting the bytes and then the text.
    pub(crate) fn add_text<S: Sink>(&mut self, text: &[u8], sink: &mut S) -> Result<(), PutFault>
        ensures { PassesOn S.written S.failed text.now result self.old self.new sink.old sink.new }
    {
        self.put(sink)?;
        self.len = 0;
        put_all(sink, text)
    }

    /// Puts all bytes.
    pub(crate) fn put<S: Sink>(&self, sink: &mut S) -> Result<(), PutFault>
        ensures { WritesTo S.written S.failed self.now result sink.old sink.new }
    {
        put_all(sink, self.bytes())
    }

    /// Puts all bytes where a text was added whole, and answers what became of it. `Write` where a
    /// put failed, now or while it was added.
    pub(crate) fn finish<S: Sink>(
        &self,
        added: Result<(), PutFault>,
        sink: &mut S,
    ) -> Result<(), TextFault>
        ensures { (text : List ℕ) (a : Option (List ℕ)) (n : ℕ) →
            Passes text added [] self.now a (S.written sink.old) n (S.failed sink.old) →
            Tells text result a (S.written sink.new) n (S.failed sink.new) }
    {
        let Ok(()) = added else {
            return Err(TextFault::Write);
        };
        let Ok(()) = self.put(sink) else {
            return Err(TextFault::Write);
        };
        Ok(())
    }
}

/// Sets zeros after bytes where there are fewer than so many, but no more than a block has room
/// for.
#[inline(always)]
fn fill_to(bytes: &mut Vec<u8>, len: usize)
    ensures { BLOCK ≤ vec_capacity bytes.old → len ≤ BLOCK →
        Filled bytes.old.items bytes.new.items len BLOCK (vec_capacity bytes.new) }
{
    if bytes.len() < len {
        fill_ahead(bytes, len);
    }
}

/// Sets zeros after bytes, so many that few such calls fill a block. Memory after them is left
/// alone: a short text needs none of it.
#[cold]
#[inline(never)]
fn fill_ahead(bytes: &mut Vec<u8>, len: usize)
    ensures { BLOCK ≤ vec_capacity bytes.old → len ≤ BLOCK → length bytes.old.items ≤ len →
        Filled bytes.old.items bytes.new.items len BLOCK (vec_capacity bytes.new) }
{
    let _ = bytes.resize(BLOCK.min(len.saturating_add(AHEAD)), 0);
}
