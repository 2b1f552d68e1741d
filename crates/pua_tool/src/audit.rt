//! The text of an audit.

ghost use Rattle.std.specs.Prelude.{◌≡◌, ◌≢◌, Ok, Err, IfOk, IfErr};
ghost use Rattle.pua_audit.specs.Begin.{Beginning, still_to_come};
ghost use Rattle.pua_calls.specs.declared.rules.Rules.TheVariants as rule;
ghost use Rattle.pua_tool.specs.Begun.{as_replayed};
ghost use Rattle.pua_tool.specs.Answers.{AnswersTo};
ghost use Rattle.pua_tool.specs.Texts.{as_audit, audit_after, audit_text};
ghost use Rattle.pua_tool.specs.Texts.{beginning_of, by_job, wants_of};

use crate::fault::ToolFault;
use crate::fault::WriteFault::{self, NoText};
use crate::job::Job;
use crate::objects::told;
use crate::script::{Replay, replay_script};
use crate::table::TableChoice;
use pua_audit::AuditFault;
use pua_calls::{CallTable, Rules};
use pua_io::Sink;
use pua_policy::Process;
use pua_texts::{AuditList, front_text, write_audit};
use pua_tree::FileTree;
use std::alloc::Global;

/// Writes the text of an audit by the standard rules. It answers what `audit_by` does.
pub fn audit_to<S: Sink>(
    alloc: Global,
    tree_bytes: &[u8],
    script_bytes: &[u8],
    job: &Job<'_>,
    sink: &mut S,
) -> Result<(), WriteFault>
    ensures text { AnswersTo S.written S.failed
        (audit_text (by_job rule.Standard job.now) tree_bytes.now script_bytes.now
        (wants_of job.now)) result sink.old sink.new }
{
    audit_by(alloc, tree_bytes, script_bytes, Rules::Standard, job, sink)
}

/// Writes the text of an audit: for each line of the script its number and what it was answered,
/// then `reach P`, and then a line for each pair of a path and a call that the process is allowed
/// where the script ends, over all paths of at most so many letters, each pair once, in the order
/// of the paths' letters and then of the calls. An audit that is resumed after a pair writes the
/// lines of the pairs after it alone. What a call needs is said by these rules, where the job's
/// text with rows may stand in the place of some.
///
/// The first that holds of `Table`, `Listing`, `Script`, `NoProcess` and `Audit` is answered before
/// anything is written. So is `OutOfMemory`, wherever a growth was refused. `Put` is answered only
/// where a put failed in this call, and a front of the text is then written.
#[tactic(auto, unfolding(crate::specs::Texts::audit_text))]
pub fn audit_by<S: Sink>(
    alloc: Global,
    tree_bytes: &[u8],
    script_bytes: &[u8],
    rules: Rules,
    job: &Job<'_>,
    sink: &mut S,
) -> Result<(), WriteFault>
    ensures text { AnswersTo S.written S.failed
        (audit_text (by_job rules job.now) tree_bytes.now script_bytes.now (wants_of job.now))
        result sink.old sink.new }
{
    let choice = TableChoice {
        rules,
        rows: job.table,
    };
    let replay = replay_script(alloc, tree_bytes, script_bytes, choice)?;
    let written = pairs_to(alloc, &replay, job, sink);
    replay.release();
    written
}

/// Writes the answers of a script, and then the pairs of the audit that a job asks for, where the
/// script ends.
fn pairs_to<S: Sink>(
    alloc: Global,
    replay: &Replay,
    job: &Job<'_>,
    sink: &mut S,
) -> Result<(), WriteFault>
    ensures { AnswersTo S.written S.failed
        (audit_after (as_replayed replay.now) (wants_of job.now)) result sink.old sink.new }
{
    let world = &replay.world;
    let Some(process) = world.process(job.process) else {
        return Err(NoText(ToolFault::NoProcess));
    };
    let mut list = begin(alloc, world.tree(), process, world.table(), job)?;
    let front = front_text(alloc, replay.answers.as_slice(), job.process, job.after)?;
    told(write_audit(alloc, front.as_str(), &mut list, sink))
}

/// Begins the audit of a process that a job asks for, or answers why there is none.
fn begin<'t, T: FileTree>(
    alloc: Global,
    tree: &'t T,
    process: &Process,
    table: &CallTable,
    job: &Job<'_>,
) -> Result<AuditList<'t, T>, ToolFault>
    ensures begun { IfOk result (λ list. (b : Beginning)
        × (beginning_of (T.content tree.now) table.now process.now (wants_of job.now) ≡ Ok b)
        × (list.left ≡ still_to_come b) × (list.base ≡ b.scope.base)) }
    ensures refused { IfErr result (λ fault. fault ≢ ToolFault.OutOfMemory →
        as_audit (beginning_of (T.content tree.now) table.now process.now (wants_of job.now))
        ≡ Err fault) }
{
    let list = AuditList::begin(
        alloc,
        tree,
        process,
        table,
        job.base,
        job.candidates,
        job.limit,
        job.after,
    );
    match list {
        Ok(list) => Ok(list),
        Err(fault) => Err(of_audit(fault)),
    }
}

/// The fault with which an audit does not begin, as the tool reports it.
fn of_audit(fault: AuditFault) -> ToolFault
    ensures memory { fault ≡ AuditFault.OutOfMemory → result ≡ ToolFault.OutOfMemory }
    ensures audit { fault ≢ AuditFault.OutOfMemory → result ≡ ToolFault.Audit fault }
{
    match fault {
        AuditFault::OutOfMemory => ToolFault::OutOfMemory,
        fault => ToolFault::Audit(fault),
    }
}
