//! Lists, written one after another.

ghost use Rattle.std.specs.Prelude.{◌≡◌, ◌++◌, IfOk};
ghost use Rattle.pua_tree.specs.Tree.{Tree};
ghost use Rattle.pua_texts.specs.Blocks.{PassesOn};
ghost use Rattle.pua_texts.specs.ListLines.{list_text, lists_text};
ghost use Rattle.pua_texts.specs.Tells.{TellsTo};

use crate::block::Block;
use crate::calls_text::CallsTexts;
use crate::fault::TextFault;
use crate::named_lines::NamedLines;
use crate::places::VeilPaths;
use crate::process_list::ProcessList;
use pua_io::{PutFault, Sink};
use pua_tree::{FileTree, OutOfMemory};
use std::alloc::Global;
use std::collections::VecDeque;

/// Writes the bytes of a text's front, and then these lists, one after another. `OutOfMemory` where
/// a growth was refused, before anything is written. `Write` only where a put failed in this call,
/// after a front of the text.
pub fn write_lists<'t, T: FileTree, S: Sink>(
    alloc: Global,
    tree: &'t T,
    front: &[u8],
    mut lists: VecDeque<ProcessList<'t>>,
    sink: &mut S,
) -> Result<(), TextFault>
    ensures { TellsTo S.written S.failed
        (front.now ++ lists_text (T.content tree.now) lists.entry.items)
        result sink.old sink.new }
{
    let mut places = VeilPaths::new(alloc, tree)?;
    let mut lines = NamedLines::new(alloc)?;
    let mut texts = CallsTexts::new(alloc)?;
    let mut block = Block::new(alloc)?;
    let added = add_lists(
        &mut block,
        front,
        &mut lists,
        &mut places,
        &mut lines,
        &mut texts,
        sink,
    );
    block.finish(added, sink)
}

/// A list alone. The only error is that a growth was refused.
pub(crate) fn alone<'t>(
    alloc: Global,
    list: ProcessList<'t>,
) -> Result<VecDeque<ProcessList<'t>>, OutOfMemory>
    ensures { IfOk result (λ lists. (t : Tree) → lists_text t lists.items ≡ list_text t list.entry) }
{
    let mut lists = VecDeque::new(alloc);
    lists.push_back(list)?;
    Ok(lists)
}

/// Adds the front of a text to a block, and then lists, one after another.
fn add_lists<'t, T: FileTree, S: Sink>(
    block: &mut Block,
    front: &[u8],
    lists: &mut VecDeque<ProcessList<'t>>,
    places: &mut VeilPaths<'t, T>,
    lines: &mut NamedLines<'t>,
    texts: &mut CallsTexts,
    sink: &mut S,
) -> Result<(), PutFault>
    ensures { PassesOn S.written S.failed
        (front.now ++ lists_text places.old.tree lists.old.items)
        result block.old block.new sink.old sink.new }
{
    block.add_text(front, sink)?;
    while let Some(list) = lists.pop_front() {
        list.add_to(block, places, lines, texts, sink)?;
    }
    Ok(())
}
