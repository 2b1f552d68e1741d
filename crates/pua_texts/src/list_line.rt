//! The lines of a list, added to a block one after another.

ghost use Rattle.std.specs.Prelude.{◌≡◌, ◌≤◌, ◌++◌, ◌∷◌, [], length, map};
ghost use Rattle.pua_audit.specs.Reach.{from_root, printed_path};
ghost use Rattle.pua_audit.specs.declared.base.Base.TheVariants as base;
ghost use Rattle.pua_objects.specs.Lines.{kind_word};
ghost use Rattle.pua_tree.specs.Spelling.{spelling};
ghost use Rattle.pua_texts.specs.Blocks.{PassesOn};
ghost use Rattle.pua_texts.specs.EverLines.{kind_of, path_or_new};
ghost use Rattle.pua_texts.specs.ListLines.{lines_text, text_at, whole_line};

use crate::block::{Block, MOST_LINE};
use crate::calls_text::CallsTexts;
use crate::endings::Endings;
use crate::line::add_printed;
use crate::named_lines::NamedLines;
use pua_calls::Calls;
use pua_ever::EverThing;
use pua_io::{PutFault, Sink};
use pua_objects::ObjectKind;
use pua_tree::{FileType, Kind, Name};

/// What a line of a list says, beside the line before it. Without calls it is no line, and only its
/// names are those to which the next line is put.
#[derive(Clone, Copy)]
pub(crate) struct ListLine<'t> {
    /// How many of the names that lead to what the line before is about lead here too.
    pub(crate) depth: usize,
    /// The name after those, if there is one.
    pub(crate) name: Option<&'t Name>,
    /// What it is about.
    pub(crate) thing: EverThing,
    /// The calls on it.
    pub(crate) calls: Calls,
    /// The number of the promises on which the calls rest, where the list says so.
    pub(crate) resting: usize,
    /// Which veil of the process covers it, where the list says so.
    pub(crate) veil: Option<usize>,
}

impl<'t> ListLine<'t> {
    /// The same line.
    pub(crate) fn same(&self) -> ListLine<'t>
        ensures { result ≡ self.now }
    {
        ListLine {
            depth: self.depth,
            name: self.name,
            thing: self.thing,
            calls: self.calls,
            resting: self.resting,
            veil: self.veil,
        }
    }
}

/// Adds lines. A block is put where the next part of a line might not fit, and its memory is used
/// again, so a path may be as long as it is. What a path shares with that of the line before is not
/// spelled again.
pub(crate) fn add_lines<S: Sink>(
    block: &mut Block,
    lines: &mut NamedLines<'_>,
    columns: &Endings,
    texts: &mut CallsTexts,
    sink: &mut S,
) -> Result<(), PutFault>
    ensures { PassesOn S.written S.failed
        (lines_text columns.now lines.old.word lines.old.left)
        result block.old block.new sink.old sink.new }
{
    while let Some(line) = lines.next_line() {
        add_last(block, &line, lines, columns, texts, sink)?;
    }
    Ok(())
}

/// Adds the line that came last, if it has calls.
fn add_last<S: Sink>(
    block: &mut Block,
    line: &ListLine<'_>,
    lines: &mut NamedLines<'_>,
    columns: &Endings,
    texts: &mut CallsTexts,
    sink: &mut S,
) -> Result<(), PutFault>
    ensures lines { lines.new ≡ lines.old }
    ensures line { PassesOn S.written S.failed (text_at columns.now lines.old.word line.now)
        result block.old block.new sink.old sink.new }
{
    if line.calls.is_empty() {
        return Ok(());
    }
    lines.keep_path();
    add_line(block, line, lines, columns, texts, sink)
}

/// Adds the line that came last, about what stands at the end of these names, or is still to be
/// made.
fn add_line<S: Sink>(
    block: &mut Block,
    line: &ListLine<'_>,
    lines: &NamedLines<'_>,
    columns: &Endings,
    texts: &mut CallsTexts,
    sink: &mut S,
) -> Result<(), PutFault>
    ensures { PassesOn S.written S.failed (whole_line columns.now lines.now.word line.now)
        result block.old block.new sink.old sink.new }
{
    let kind = kind_in(line.thing);
    block.add(kind_bytes(kind), sink)?;
    add_place(block, line.thing, lines, sink)?;
    texts.add_calls(block, kind, line.calls, sink)?;
    columns.add_to(block, line.resting, line.veil, sink)
}

/// What kind of thing a line is about.
fn kind_in(thing: EverThing) -> ObjectKind
    ensures { result ≡ kind_of thing }
{
    match thing {
        EverThing::Stands(kind) | EverThing::Comes(kind) => kind,
    }
}

/// The word of a kind, and a blank.
fn kind_bytes(kind: ObjectKind) -> &'static [u8]
    ensures bytes { result.now ≡ kind_word kind ++ 32 ∷ [] }
    ensures short { length result.now ≤ MOST_LINE }
{
    match kind {
        ObjectKind::Node(Kind::Dir) => b"dir ",
        ObjectKind::Node(Kind::File | Kind::Known(FileType::Plain)) => b"file ",
        ObjectKind::Node(Kind::Prog) => b"prog ",
        ObjectKind::Node(Kind::Link) => b"link ",
        ObjectKind::Node(Kind::Known(FileType::Sock)) => b"sock ",
        ObjectKind::Node(Kind::Known(FileType::Fifo)) => b"fifo ",
        ObjectKind::Node(Kind::Known(FileType::Dev)) => b"dev ",
        ObjectKind::Missing => b"missing ",
        ObjectKind::Other => b"other ",
    }
}

/// Adds where something stands, or that it is still to be made, and a blank.
fn add_place<S: Sink>(
    block: &mut Block,
    thing: EverThing,
    lines: &NamedLines<'_>,
    sink: &mut S,
) -> Result<(), PutFault>
    ensures { PassesOn S.written S.failed (path_or_new thing lines.now.word ++ 32 ∷ [])
        result block.old block.new sink.old sink.new }
{
    match thing {
        EverThing::Stands(_) => add_kept_path(block, lines, sink),
        EverThing::Comes(_) => block.add(b"new ", sink),
    }
}

/// Adds the path to what the last line is about as it is printed, and a blank.
fn add_kept_path<S: Sink>(
    block: &mut Block,
    lines: &NamedLines<'_>,
    sink: &mut S,
) -> Result<(), PutFault>
    ensures { PassesOn S.written S.failed (printed_path base.Root lines.now.word ++ 32 ∷ [])
        result block.old block.new sink.old sink.new }
{
    if lines.are_at_root() {
        return block.add(b"/ ", sink);
    }
    let (first, rest) = lines.path();
    block.add_all(first, sink)?;
    add_rest(block, rest, sink)
}

/// Adds the path that leads by these names from the root, as it is printed, and a blank.
pub(crate) fn add_path<S: Sink>(
    block: &mut Block,
    word: &[&Name],
    sink: &mut S,
) -> Result<(), PutFault>
    ensures { PassesOn S.written S.failed
        (printed_path base.Root (map (λ name. name.now) word.now) ++ 32 ∷ [])
        result block.old block.new sink.old sink.new }
{
    if word.is_empty() {
        return block.add(b"/ ", sink);
    }
    add_rest(block, word, sink)
}

/// Adds further names of a path as they are printed, and a blank.
fn add_rest<S: Sink>(block: &mut Block, word: &[&Name], sink: &mut S) -> Result<(), PutFault>
    ensures { PassesOn S.written S.failed
        (spelling (from_root (map (λ name. name.now) word.now)) ++ 32 ∷ [])
        result block.old block.new sink.old sink.new }
{
    for name in word {
        add_name(block, name, sink)?;
    }
    block.add(b" ", sink)
}

/// Adds a slash and a name as it is spelled.
fn add_name<S: Sink>(block: &mut Block, name: &Name, sink: &mut S) -> Result<(), PutFault>
    ensures { PassesOn S.written S.failed
        (47 ∷ spelling name.now)
        result block.old block.new sink.old sink.new }
{
    block.make_room(sink)?;
    block.push(b"/");
    add_printed(block, false, name.bytes());
    Ok(())
}
