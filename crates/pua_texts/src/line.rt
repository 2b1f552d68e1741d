//! The lines of the pairs of an audit's text, written in blocks.

ghost use Rattle.std.specs.Prelude.{◌≡◌, ◌≤◌, ◌+◌, ◌*◌, ◌++◌, ◌∷◌, length, IsTrue, take};
ghost use Rattle.pua_tree.specs.Spelling.{spelling};
ghost use Rattle.pua_path.specs.Limits.{most_path};
ghost use Rattle.pua_calls.specs.Calls.{call_name};
ghost use Rattle.pua_audit.specs.Coming.{calls_at};
ghost use Rattle.pua_texts.specs.Lines.{with_end, pair_lines};
ghost use Rattle.pua_texts.specs.PathLines.{path_line, path_lines, printed_line, printed_lines};
ghost use Rattle.pua_texts.specs.Copied.{Copied};
ghost use Rattle.pua_texts.specs.Blocks.{PassesOn};

use crate::block::{BLOCK, Block, MOST_END, MOST_LINE, MOST_LINES};
use crate::copies::{copy_front, overwrite};
use pua_audit::{Audit, PathLines};
use pua_calls::{Call, MOST_CALL_LINE};
use pua_io::{PutFault, Sink};
use pua_path::Probe;
use pua_tree::{are_plain, byte_spelling};

/// How many bytes the name of a call has at most.
pub(crate) const MOST_CALL_NAME: usize = MOST_CALL_LINE - 2;

/// Adds a line for each pair that an audit has still to give to a block, which is put where the
/// next line might not fit. Its memory is used again.
pub(crate) fn add_pairs<'t, P: Probe<'t>, S: Sink>(
    audit: &mut Audit,
    probe: &mut P,
    block: &mut Block,
    sink: &mut S,
) -> Result<(), PutFault>
    requires tree { P.tree probe.old ≡ audit.old.tree }
    ensures lines { PassesOn S.written S.failed (pair_lines audit.old.base audit.old.left)
        result block.old block.new sink.old sink.new }
    ensures tree { P.tree probe.new ≡ audit.new.tree }
{
    while let Some(lines) = audit.next_lines(probe) {
        add_lines(block, lines, sink)?;
    }
    Ok(())
}

/// Adds a line for each of the calls on one path.
#[inline(always)]
fn add_lines<S: Sink>(block: &mut Block, lines: PathLines<'_>, sink: &mut S) -> Result<(), PutFault>
    requires { length lines.path.now ≤ most_path }
    ensures { (IsTrue lines.entry.plain → spelling lines.entry.path.now ≡ lines.entry.path.now) →
        PassesOn S.written S.failed
        (path_lines lines.entry.path.now (lines.entry.call ∷ calls_at lines.entry.later))
        result block.old block.new sink.old sink.new }
{
    if lines.plain {
        return block.add_plain(lines, sink);
    }
    let mut call = lines.call;
    let mut later = lines.later_calls();
    // The proof names the loop by its label.
    'calls: loop {
        add_line(block, lines.path, call, sink)?;
        let Some(next) = later.take_first() else {
            return Ok(());
        };
        call = next;
    }
}

/// Adds the line of a path and a call to a block, which is put where the line might not fit.
fn add_line<S: Sink>(
    block: &mut Block,
    path: &[u8],
    call: Call,
    sink: &mut S,
) -> Result<(), PutFault>
    requires { length path.now ≤ most_path }
    ensures { PassesOn S.written S.failed (path_line path.now call)
        result block.old block.new sink.old sink.new }
{
    block.make_room(sink)?;
    spell(block, path);
    block.push(&call.line()[..call.name().len() + 2]);
    Ok(())
}

/// Copies the lines of a path that is printed as it is to a place in a buffer, and answers where
/// they end. Lines that don't fit are left out. It is a call for each path, since as a part of its
/// callers it would keep in memory what it needs for each line.
#[inline(never)]
pub(crate) fn copy_lines(buffer: &mut [u8], at: usize, lines: PathLines<'_>) -> usize
    ensures { at + MOST_LINES * (length lines.entry.path.now + MOST_END) ≤ length buffer.old →
        Copied buffer.old buffer.new at (printed_lines lines.entry.path.now
        (lines.entry.call ∷ calls_at lines.entry.later)) result }
{
    let mut end = at;
    let mut call = lines.call;
    let mut later = lines.later_calls();
    // The proof names the loop by its label.
    'calls: loop {
        end = copy_line(buffer, end, lines.path, call);
        let Some(next) = later.take_first() else {
            return end;
        };
        call = next;
    }
}

/// Copies the line of a call and of a path that is printed as it is to a place in a buffer, and
/// answers where it ends. What is copied for its end may be longer than that is; where all of this
/// does not fit, nothing is copied, and the answer is the place.
#[inline(always)]
fn copy_line(buffer: &mut [u8], at: usize, path: &[u8], call: Call) -> usize
    ensures copied { at + (length path.now + MOST_END) ≤ length buffer.old →
        Copied buffer.old buffer.new at (printed_line path.now call) result }
    ensures short { at + (length path.now + MOST_END) ≤ length buffer.old →
        result ≤ at + (length path.now + MOST_END) }
{
    let padded = call.line();
    let room = path.len() + MOST_END;
    if room > buffer.len() || at > buffer.len() - room {
        return at;
    }
    let end = at + path.len();
    overwrite(&mut buffer[at..end], path);
    copy_front::<MOST_END>(&mut buffer[end..end + MOST_END], 0, padded);
    end + (call.name().len() + 2)
}

/// Adds a path, or a name of one, to a block as it is printed. Where each byte is spelled by
/// itself, it is copied at one time; what is known to be plain is not looked over.
#[tactic(auto, using(crate::proofs::Pairs::spelling_plain))]
#[inline(always)]
pub(crate) fn add_printed(block: &mut Block, plain: bool, path: &[u8])
    requires short { length path.now ≤ most_path }
    requires plain { IsTrue plain → spelling path.now ≡ path.now }
    requires free { length block.old + 4 * most_path ≤ BLOCK }
    ensures path { block.new ≡ block.old ++ spelling path.now }
    ensures short { length block.new ≤ length block.old + 4 * most_path }
{
    if plain || are_plain(path) {
        block.push(path);
    } else {
        spell(block, path);
    }
}

/// Adds the spelling of a path to a block that has room for it.
fn spell(block: &mut Block, path: &[u8])
    requires { length block.old + 4 * length path.now ≤ BLOCK }
    ensures spelled { block.new ≡ block.old ++ spelling path.now }
    ensures short { length block.new ≤ length block.old + 4 * length path.now }
{
    for byte in path {
        block.push(byte_spelling(*byte).as_bytes());
    }
}

/// Adds the name of a call to a block that has room for the longest.
#[inline(always)]
pub(crate) fn add_call(block: &mut Block, call: Call)
    requires { length block.old + MOST_CALL_NAME ≤ BLOCK }
    ensures name { block.new ≡ block.old ++ call_name call }
    ensures short { length block.new ≤ length block.old + MOST_CALL_NAME }
{
    block.push(call.name().as_bytes());
}
