//! The calls of a line as they are printed, kept from line to line.

ghost use Rattle.std.specs.Prelude.{◌≡◌, ◌<◌, ◌≤◌, ◌+◌, ◌++◌, ◌∷◌, [], if◌then◌else◌, length, map};
ghost use Rattle.pua_calls.specs.Calls.{call_name};
ghost use Rattle.pua_calls.specs.CallSets.{calls_in};
ghost use Rattle.pua_objects.specs.Objects.{with_commas};
ghost use Rattle.pua_texts.specs.Blocks.{PassesOn};

use crate::block::{BLOCK, Block, MOST_LINE};
use crate::line::{MOST_CALL_NAME, add_call};
use pua_calls::{Call, Calls};
use pua_io::{PutFault, Sink};
use pua_objects::ObjectKind;
use pua_tree::OutOfMemory;
use std::alloc::Global;
use std::marker::Model;

/// The names of some calls with commas between them. A line that has the calls of the line before
/// does not spell them again. Contracts see the calls.
#[derive(Drop)]
struct CallsText {
    calls: Calls,
    text: Block,
}

impl Model for CallsText {
    ghost use Rattle.std.specs.Prelude.{◌≡◌, ◌≤◌, ℕ, length, map};
    ghost use Rattle.pua_calls.specs.Calls.{call_name};
    ghost use Rattle.pua_calls.specs.CallSets.{calls_in};
    ghost use Rattle.pua_objects.specs.Objects.{with_commas};

    ghost Value = { ℕ };

    ghost view = { λ a. a.calls };

    ghost invariant = { λ a. (a.text ≡ with_commas (map call_name (calls_in a.calls)))
        × (length a.text ≤ 4108) };
}

impl CallsText {
    /// The text of no calls. The only error is that a growth was refused.
    fn new(alloc: Global) -> Result<CallsText, OutOfMemory> {
        let text = Block::new(alloc)?;
        Ok(CallsText {
            calls: Calls::NONE,
            text,
        })
    }

    /// Keeps the text of these calls.
    fn keep(&mut self, calls: Calls)
        ensures { self.new ≡ calls }
    {
        if calls != self.calls {
            self.text.truncate(0);
            add_names(&mut self.text, calls);
            self.calls = calls;
        }
    }

    /// Adds the names of these calls with commas between them.
    fn add_to<S: Sink>(
        &mut self,
        block: &mut Block,
        calls: Calls,
        sink: &mut S,
    ) -> Result<(), PutFault>
        ensures { PassesOn S.written S.failed
            (with_commas (map call_name (calls_in calls)))
            result block.old block.new sink.old sink.new }
    {
        self.keep(calls);
        block.add(self.text.bytes(), sink)
    }
}

/// The calls of the last line about something, and those of the last line about further names: such
/// lines take turns where each directory stands in another one.
#[derive(Drop)]
pub(crate) struct CallsTexts {
    things: CallsText,
    others: CallsText,
}

impl CallsTexts {
    /// The texts of no calls. The only error is that a growth was refused.
    pub(crate) fn new(alloc: Global) -> Result<CallsTexts, OutOfMemory> {
        let things = CallsText::new(alloc)?;
        let others = CallsText::new(alloc)?;
        Ok(CallsTexts { things, others })
    }

    /// Adds the names of the calls of a line about such a thing with commas between them.
    pub(crate) fn add_calls<S: Sink>(
        &mut self,
        block: &mut Block,
        kind: ObjectKind,
        calls: Calls,
        sink: &mut S,
    ) -> Result<(), PutFault>
        ensures { PassesOn S.written S.failed
            (with_commas (map call_name (calls_in calls)))
            result block.old block.new sink.old sink.new }
    {
        if kind == ObjectKind::Other {
            self.others.add_to(block, calls, sink)
        } else {
            self.things.add_to(block, calls, sink)
        }
    }
}

/// Adds the names of calls with commas between them to a block that has room for a line.
fn add_names(block: &mut Block, calls: Calls)
    requires { length block.old + MOST_LINE ≤ BLOCK }
    ensures names { block.new ≡ block.old ++ with_commas (map call_name (calls_in calls)) }
    ensures short { length block.new < length block.old + MOST_LINE }
{
    let mut is_first = true;
    for call in Call::ALL {
        if calls.contains(call) {
            add_next(block, is_first, call);
            is_first = false;
        }
    }
}

/// Adds the name of a call, with a comma before it unless it is the first of its line.
fn add_next(block: &mut Block, is_first: bool, call: Call)
    requires { length block.old + (MOST_CALL_NAME + 1) ≤ BLOCK }
    ensures name { block.new ≡ block.old ++ ((if is_first then [] else 44 ∷ []) ++ call_name call) }
    ensures short { length block.new ≤ length block.old + (MOST_CALL_NAME + 1) }
{
    if !is_first {
        block.push(b",");
    }
    add_call(block, call);
}
