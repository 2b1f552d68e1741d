//! The checks of requests about open files.

ghost use Rattle.std.specs.Prelude.{◌≡◌, ℕ, option_map};
ghost use Rattle.pua_script.specs.Decide.{close_by, fchdir_by, take_by};
ghost use Rattle.pua_script.specs.Worlds.{world_of};
ghost use Rattle.pua_why.specs.Checked.{refused_by};
ghost use Rattle.pua_why.specs.Reasons.{errno_sent, faults, faults_of, take_fault};
ghost use Rattle.pua_why.specs.Seen.{fault_seen, file_fault_seen};

use crate::checks::promise_fault;
use crate::told::{Fault, FileFault};
use pua_calls::Promises;
use pua_path::Errno;
use pua_policy::Process;
use pua_script::{World, sent_by};
use pua_tree::FileTree;

/// The fault of a close: the descriptor is closed already.
pub(crate) fn close_fault<'s>(process: &Process, number: u32) -> Option<Fault<'s>>
    ensures { option_map fault_seen result
        ≡ refused_by (close_by faults (faults_of process.now) number) }
{
    match process.file(number) {
        Some(_) => None,
        None => Some(Fault::WrongFile(FileFault::NotOpen(number))),
    }
}

/// The fault of an fchdir: the descriptor is closed, or is of no directory.
pub(crate) fn fchdir_fault<'s>(process: &Process, number: u32) -> Option<Fault<'s>>
    ensures { option_map fault_seen result
        ≡ refused_by (fchdir_by faults (faults_of process.now) number) }
{
    match process.file(number) {
        Some(file) if file.is_directory() => None,
        Some(_) => Some(Fault::WrongFile(FileFault::OpenNoDirectory(number))),
        None => Some(Fault::WrongFile(FileFault::NotOpen(number))),
    }
}

/// The fault of a take, before it is asked what the other process sends: the promise.
pub(crate) fn receive_fault<'s>(process: &Process) -> Option<Fault<'s>>
    ensures { (number from theirs : ℕ) → option_map fault_seen result
        ≡ refused_by (take_by (faults_of process.now) number from theirs) }
{
    promise_fault(process, Promises::RECVFD)
}

/// The fault of a take, whose promise is held: what the other process doesn't send.
pub(crate) fn take_fault<'s, T: FileTree>(
    world: &World<T>,
    process: &Process,
    from: u32,
    theirs: u32,
) -> Option<Fault<'s>>
    ensures { option_map fault_seen result
        ≡ take_fault (world_of world.now) process.now from theirs }
{
    match sent_by(process.is_pledged(), world.process(from), theirs) {
        Ok(_) => None,
        Err(errno) => Some(Fault::WrongFile(errno_sent(from, theirs, errno))),
    }
}

/// Why what another process has as a descriptor is not sent, by the errno that a take is told.
fn errno_sent(from: u32, theirs: u32, errno: Errno) -> FileFault
    ensures { file_fault_seen result ≡ errno_sent from theirs errno }
{
    match errno {
        Errno::EPERM => FileFault::MayNotSend(from),
        Errno::EINVAL => FileFault::SendsDirectory { from, theirs },
        _ => FileFault::NotSent { from, theirs },
    }
}
