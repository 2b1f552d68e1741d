//! The list of a process: what stands before its lines, and the lines.

ghost use Rattle.std.specs.Prelude.{◌≡◌, IfOk};
ghost use Rattle.pua_texts.specs.Blocks.{PassesOn};
ghost use Rattle.pua_texts.specs.ListLines.{list_text};

use crate::block::Block;
use crate::calls_text::CallsTexts;
use crate::endings::Endings;
use crate::list_line::{ListLine, add_lines};
use crate::named_lines::{ListLines, NamedLines};
use crate::places::VeilPaths;
use crate::process_head::ProcessHead;
use pua_io::{PutFault, Sink};
use pua_tree::{FileTree, OutOfMemory};
use std::alloc::Global;
use std::marker::Model;

/// The list of a process, or that of several together, as it is written by
/// [`write_lists`](crate::write_lists).
#[derive(Drop)]
pub struct ProcessList<'t> {
    head: ProcessHead<'t>,
    lines: ListLines<'t>,
    columns: Endings,
}

impl<'t> Model for ProcessList<'t> {
    ghost use Rattle.pua_texts.specs.ListLines.{ListState};

    ghost Value = { ListState };

    ghost view = { λ a. record {
      head = a.head;
      lines = a.lines;
      columns = a.columns;
    } };
}

impl<'t> ProcessList<'t> {
    /// A list of these lines, after which stand these columns. The only error is that a growth was
    /// refused.
    pub(crate) fn new(
        alloc: Global,
        head: ProcessHead<'t>,
        lines: Vec<ListLine<'t>>,
        columns: Endings,
    ) -> Result<ProcessList<'t>, OutOfMemory>
        ensures { IfOk result (λ list. list ≡ record {
          head = head.entry;
          lines = lines.entry.items;
          columns = columns;
        }) }
    {
        let lines = ListLines::new(alloc, lines)?;
        Ok(ProcessList {
            head,
            lines,
            columns,
        })
    }

    /// Adds the list to a block.
    pub(crate) fn add_to<T: FileTree, S: Sink>(
        self,
        block: &mut Block,
        places: &mut VeilPaths<'t, T>,
        lines: &mut NamedLines<'t>,
        texts: &mut CallsTexts,
        sink: &mut S,
    ) -> Result<(), PutFault>
        ensures list { PassesOn S.written S.failed (list_text places.old.tree self.entry)
            result block.old block.new sink.old sink.new }
        ensures tree { places.new.tree ≡ places.old.tree }
    {
        self.head.add_to(block, places, sink)?;
        lines.begin(self.lines);
        add_lines(block, lines, &self.columns, texts, sink)
    }
}
