//! The pairs of an audit, written in blocks after the front of a text.

ghost use Rattle.std.specs.Prelude.{◌≡◌, ◌≢◌, ◌++◌, Ok, Err, IfOk, IfErr, map, option_map};
ghost use Rattle.pua_policy.specs.States.{ProcessState};
ghost use Rattle.pua_audit.specs.Begin.{Beginning, beginning, still_to_come};
ghost use Rattle.pua_texts.specs.Blocks.{PassesOn};
ghost use Rattle.pua_texts.specs.Lines.{pair_lines};
ghost use Rattle.pua_texts.specs.Tells.{TellsTo};

use crate::block::Block;
use crate::fault::TextFault;
use crate::line::add_pairs;
use pua_audit::{Audit, AuditFault, Base};
use pua_calls::CallTable;
use pua_io::{PutFault, Sink};
use pua_path::Counted;
use pua_policy::Process;
use pua_tree::FileTree;
use std::alloc::Global;
use std::marker::Model;

/// An audit, beside the tree that it is of. Contracts see the audit.
#[derive(Drop)]
pub struct AuditList<'t, T: FileTree> {
    probe: Counted<'t, T>,
    audit: Audit,
}

impl<'t, T: FileTree> Model for AuditList<'t, T> {
    ghost use Rattle.std.specs.Prelude.{◌≡◌};
    ghost use Rattle.pua_audit.specs.AuditState.{AuditState};

    ghost Value = { AuditState };

    ghost view = { λ a. a.audit };

    ghost invariant = { λ a. a.probe.tree ≡ a.audit.tree };
}

impl<'t, T: FileTree> AuditList<'t, T> {
    /// Begins the audit of a process over a tree, as [`Audit::begin`] does, and answers each
    /// `AuditFault` where that one does.
    pub fn begin(
        alloc: Global,
        tree: &'t T,
        process: &Process,
        table: &CallTable,
        base: Base,
        candidates: &[&[u8]],
        limit: u8,
        after: Option<&[u8]>,
    ) -> Result<AuditList<'t, T>, AuditFault>
        ensures begun { IfOk result (λ list. (b : Beginning) ×
            (beginning (T.content tree.now) table.now process.now base
            (map (λ s. s.now) candidates.now) limit (option_map (λ s. s.now) after.entry) ≡ Ok b)
            × (list.left ≡ still_to_come b) × (list.base ≡ b.scope.base)) }
        ensures refused { IfErr result (λ fault. fault ≢ AuditFault.OutOfMemory → (h : ProcessState) →
            beginning (T.content tree.now) table.now h base (map
            (λ s. s.now) candidates.now) limit (option_map (λ s. s.now) after.entry)
            ≡ Err fault) }
    {
        let mut probe = Counted::new(tree);
        let audit = Audit::begin(
            alloc, &mut probe, process, table, base, candidates, limit, after,
        )?;
        Ok(AuditList { probe, audit })
    }

    /// Adds the front of a text to a block, and then a line for each pair that the audit has still
    /// to give. The front is put before the audit is asked for its first pair.
    fn add_to<S: Sink>(
        &mut self,
        front: &str,
        block: &mut Block,
        sink: &mut S,
    ) -> Result<(), PutFault>
        ensures { PassesOn S.written S.failed (front.now ++ pair_lines self.old.base self.old.left)
            result block.old block.new sink.old sink.new }
    {
        block.add_text(front.as_bytes(), sink)?;
        add_pairs(&mut self.audit, &mut self.probe, block, sink)
    }
}

/// Writes the front of a text, and then a line for each pair that an audit has still to give.
/// `OutOfMemory` where the room of a block was refused, before anything is written. `Write` only
/// where a put failed in this call, after a front of the text.
pub fn write_audit<T: FileTree, S: Sink>(
    alloc: Global,
    front: &str,
    list: &mut AuditList<'_, T>,
    sink: &mut S,
) -> Result<(), TextFault>
    ensures { TellsTo S.written S.failed (front.now ++ pair_lines list.old.base list.old.left)
        result sink.old sink.new }
{
    let mut block = Block::new(alloc)?;
    let added = list.add_to(front, &mut block, sink);
    block.finish(added, sink)
}
