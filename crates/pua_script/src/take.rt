//! How a process gets what another one has open.

ghost use Rattle.std.specs.Prelude.{◌≡◌, ℕ, IfOk, OnErr, Option, option_map};
ghost use Rattle.pua_tree.specs.Tree.{Tree};
ghost use Rattle.pua_calls.specs.Calls.{CallTable};
ghost use Rattle.pua_script.specs.Replay.{apply, sent_by, sent_file};
ghost use Rattle.pua_script.specs.declared.answer.Answer.TheVariants.{Okay};
ghost use Rattle.pua_script.specs.declared.request.Action.TheVariants as actions;

use crate::answer::Answer;
use crate::fault::WorldFault;
use crate::process::refuse;
use indexmap::IndexMap;
use pua_calls::Promises;
use pua_path::Errno;
use pua_policy::judge::promised;
use pua_policy::{OpenFile, Process};

/// Which descriptor of which process is taken, and as which.
#[derive(Clone, Copy)]
pub(crate) struct Taking {
    pub number: u32,
    pub from: u32,
    pub theirs: u32,
}

/// Serves a take: from now on a descriptor of the one that asks stands for what the other process
/// has as one of its own (recvmsg(2), after that one's sendmsg(2)). A refused growth leaves all
/// processes as they were.
pub(crate) fn take(
    processes: &mut IndexMap<u32, Process>,
    process: u32,
    taking: Taking,
) -> Result<Answer, WorldFault>
    ensures served { IfOk result (λ answer. (t : Tree) (table : CallTable) →
        (answer, record { tree = t; processes = processes.new.entries })
        ≡ apply table (record { tree = t; processes = processes.old.entries })
        (record { process = process; action = actions.Take taking.number taking.from taking.theirs })) }
    ensures memory { OnErr result ((t : Tree) (table : CallTable) →
        (apply table (record { tree = t; processes = processes.old.entries })
        (record { process = process; action = actions.Take taking.number taking.from taking.theirs })).0
        ≡ Okay) }
    ensures unchanged { OnErr result (processes.new.entries ≡ processes.old.entries) }
{
    let Some(asker) = processes.get(&process) else {
        return Ok(Answer::Gone);
    };
    let sent = sent_by(
        asker.is_pledged(),
        processes.get(&taking.from),
        taking.theirs,
    );
    let Some(asker) = processes.get_mut(&process) else {
        return Ok(Answer::Gone);
    };
    if asker.ended() {
        return Ok(Answer::Gone);
    }
    if let Err(refusal) = promised(asker, Promises::RECVFD) {
        return Ok(refuse(asker, refusal));
    }
    match sent {
        Ok(file) => match asker.open_at(taking.number, file) {
            Ok(()) => Ok(Answer::Okay),
            Err(_) => Err(WorldFault::OutOfMemory),
        },
        Err(errno) => Ok(Answer::Failed(errno)),
    }
}

/// What is sent of what a process has as the descriptor of this number, to one that was pledged or
/// not. `EBADF` where there is no such process or descriptor, or it has ended, `EPERM` where it may
/// not send, and `EINVAL` for a directory, where one of both was pledged.
pub fn sent_by(pledged: bool, sender: Option<&Process>, theirs: u32) -> Result<OpenFile, Errno>
    ensures { result ≡ sent_by pledged (option_map (λ process. process.now) sender.entry) theirs }
{
    let Some(sender) = sender else {
        return Err(Errno::EBADF);
    };
    if sender.ended() {
        return Err(Errno::EBADF);
    }
    let Some(file) = sender.file(theirs) else {
        return Err(Errno::EBADF);
    };
    sent_file(pledged, sender, file)
}

/// The same of an open file.
fn sent_file(pledged: bool, sender: &Process, file: OpenFile) -> Result<OpenFile, Errno>
    ensures { result ≡ sent_file pledged sender.now file }
{
    if !sender.held().contains(Promises::SENDFD) {
        return Err(Errno::EPERM);
    }
    if file.is_directory() && (pledged || sender.is_pledged()) {
        return Err(Errno::EINVAL);
    }
    Ok(file)
}
