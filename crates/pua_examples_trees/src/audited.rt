//! An audit beside the tree that it is of, whose looks are counted.

ghost use Rattle.std.specs.Prelude.{◌≡◌};

use anyhow::Result;
use pua_audit::{Audit, AuditFault, Base};
use pua_calls::{Call, CallTable};
use pua_path::{Counted, Probe};
use pua_policy::Process;
use pua_tree::FileTree;
use std::alloc::Global;

/// An audit that was begun over a tree.
#[derive(Drop)]
pub(crate) struct TreeAudit<'t, T: FileTree> {
    probe: Counted<'t, T>,
    audit: Audit,
    ghost same_tree: { probe.tree ≡ audit.tree },
}

/// How often an audit looked at the tree, how many components it read, and how many of its states
/// are live.
#[derive(Clone, Copy)]
pub(crate) struct Taken {
    pub(crate) looks: u64,
    pub(crate) reads: u64,
    pub(crate) live: usize,
}

/// How many lines an audit lent, and how many components were read at most for one of them, or to
/// find that none was left.
#[derive(Clone, Copy)]
pub(crate) struct Lent {
    pub(crate) lines: usize,
    pub(crate) most_reads: u64,
}

impl<'t, T: FileTree> TreeAudit<'t, T> {
    /// The audit of a process from the root, with these candidates and this limit.
    pub(crate) fn begin(
        alloc: Global,
        tree: &'t T,
        process: &Process,
        table: &CallTable,
        candidates: &[&[u8]],
        limit: u8,
    ) -> Result<TreeAudit<'t, T>, AuditFault> {
        let mut probe = Counted::new(tree);
        let audit = Audit::begin(
            alloc,
            &mut probe,
            process,
            table,
            Base::Root,
            candidates,
            limit,
            None,
        )?;
        Ok(TreeAudit { probe, audit })
    }

    /// What it took up to now.
    pub(crate) fn taken(&self) -> Taken {
        Taken {
            looks: self.probe.probes(),
            reads: self.audit.reads(),
            live: self.audit.table_len(),
        }
    }

    /// Whether it lends this line next; whether it lends none, where none is given.
    pub(crate) fn lends(&mut self, wanted: Option<(&[u8], Call)>) -> bool {
        match self.audit.next_line(&mut self.probe) {
            Some(line) => wanted == Some((line.path, line.call)),
            None => wanted.is_none(),
        }
    }

    /// All lines that it has still to lend: each path in plain bytes, and the call after a blank.
    pub(crate) fn lines(&mut self, alloc: Global) -> Result<Vec<u8>> {
        let mut lines = Vec::new(alloc);
        while let Some(line) = self.audit.next_line(&mut self.probe) {
            add_line(&mut lines, line.path, line.call)?;
        }
        Ok(lines)
    }

    /// Counts all lines that it has still to lend.
    pub(crate) fn count(&mut self) -> Lent {
        let mut lines = 0usize;
        let mut most_reads = 0u64;
        let mut before = self.audit.reads();
        while self.audit.next_line(&mut self.probe).is_some() {
            lines = lines.saturating_add(1);
            most_reads = most_reads.max(self.audit.reads().saturating_sub(before));
            before = self.audit.reads();
        }
        let most_reads = most_reads.max(self.audit.reads().saturating_sub(before));
        Lent { lines, most_reads }
    }
}

/// Adds a line.
fn add_line(lines: &mut Vec<u8>, path: &[u8], call: Call) -> Result<()> {
    lines.extend_from_slice(path)?;
    lines.push(b' ')?;
    lines.extend_from_slice(call.name().as_bytes())?;
    Ok(lines.push(b'\n')?)
}
