//! What stands before the lines of a list: its heading, and the state of its process.

ghost use Rattle.std.specs.Prelude.{◌≡◌, IfOk, map, string_bytes};
ghost use Rattle.pua_texts.specs.FileLines.{files_lines};
ghost use Rattle.pua_texts.specs.Blocks.{PassesOn};
ghost use Rattle.pua_texts.specs.ListLines.{head_text};
ghost use Rattle.pua_texts.specs.Lists.{head_of};
ghost use Rattle.pua_texts.specs.States.{living_veils};

use crate::block::Block;
use crate::file_lines::push_files;
use crate::places::VeilPaths;
use crate::root_line::root_text;
use crate::state::{Heading, state_text};
use crate::veil_line::add_veils;
use pua_calls::Perms;
use pua_io::{PutFault, Sink};
use pua_policy::{Place, Process};
use pua_tree::{FileTree, OutOfMemory};
use std::alloc::Global;
use std::marker::Model;

/// The heading of a list and the state of its process, with all memory that writing them takes.
#[derive(Drop)]
pub(crate) struct ProcessHead<'t> {
    text: String,
    veils: Vec<(&'t Place, &'t Perms)>,
    files: String,
}

impl<'t> Model for ProcessHead<'t> {
    ghost use Rattle.std.specs.Prelude.{map, string_bytes};
    ghost use Rattle.pua_texts.specs.Lists.{HeadState};

    ghost Value = { HeadState };

    ghost view = { λ a. record {
      text = string_bytes a.text;
      veils = map (λ veil. (veil.0.now, veil.1.now)) a.veils.items;
      files = string_bytes a.files;
    } };
}

impl<'t> ProcessHead<'t> {
    /// What stands before the lines of a list with this heading, of this process. The only error is
    /// that a growth was refused.
    pub(crate) fn begin<T: FileTree>(
        alloc: Global,
        tree: &T,
        heading: Heading,
        process: &'t Process,
    ) -> Result<ProcessHead<'t>, OutOfMemory>
        ensures { IfOk result (λ head.
            head ≡ head_of (T.content tree.now) heading process.now) }
    {
        let root = root_text(alloc, tree, process)?;
        let Ok(text) = state_text(alloc, heading, root.as_str(), process) else {
            return Err(OutOfMemory);
        };
        let veils = veils_of_living(alloc, process)?;
        let files = files_text(alloc, tree, process)?;
        Ok(ProcessHead { text, veils, files })
    }

    /// This text, these veils, and these lines of what is open.
    pub(crate) fn of(
        text: String,
        veils: Vec<(&'t Place, &'t Perms)>,
        files: String,
    ) -> ProcessHead<'t>
        ensures { result ≡ record {
          text = string_bytes text;
          veils = map (λ veil. (veil.0.now, veil.1.now)) veils.entry.items;
          files = string_bytes files;
        } }
    {
        ProcessHead { text, veils, files }
    }

    /// Adds the heading and the state to a block.
    pub(crate) fn add_to<T: FileTree, S: Sink>(
        &self,
        block: &mut Block,
        places: &mut VeilPaths<'t, T>,
        sink: &mut S,
    ) -> Result<(), PutFault>
        ensures head { PassesOn S.written S.failed (head_text places.old.tree self.now)
            result block.old block.new sink.old sink.new }
        ensures tree { places.new.tree ≡ places.old.tree }
    {
        block.add_text(self.text.as_bytes(), sink)?;
        add_veils(block, self.veils.as_slice(), places, sink)?;
        add_files(block, self.files.as_bytes(), sink)
    }
}

/// Adds the lines of what is open, if there are some. The block is put before them.
fn add_files<S: Sink>(block: &mut Block, lines: &[u8], sink: &mut S) -> Result<(), PutFault>
    ensures { PassesOn S.written S.failed lines.now result block.old block.new sink.old sink.new }
{
    if lines.is_empty() {
        return Ok(());
    }
    block.add_text(lines, sink)
}

/// The lines of what a process has open, if it lives. The only error is that a growth was refused.
pub(crate) fn files_text<T: FileTree>(
    alloc: Global,
    tree: &T,
    process: &Process,
) -> Result<String, OutOfMemory>
    ensures { IfOk result (λ text.
        string_bytes text ≡ files_lines (T.content tree.now) process.now) }
{
    let mut text = String::new(alloc);
    push_files(alloc, &mut text, tree, process)?;
    Ok(text)
}

/// The veils of a process that has not ended.
pub(crate) fn veils_of_living(
    alloc: Global,
    process: &Process,
) -> Result<Vec<(&Place, &Perms)>, OutOfMemory>
    ensures { IfOk result (λ veils.
        map (λ veil. (veil.0.now, veil.1.now)) veils.items ≡ living_veils process.now) }
{
    if process.ended() {
        return Ok(Vec::new(alloc));
    }
    process.veils(alloc)
}
