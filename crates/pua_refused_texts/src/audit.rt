//! Wrong bodies of `pua_audit`.

ghost use Rattle.std.specs.Prelude.{◌≡◌};

use pua_audit::{Audit, AuditFault, PathLines};
use pua_calls::Call;
use pua_path::Probe;
use pua_tree::OutOfMemory;

/// For a line the tree is asked nothing.
fn asked_tree_for_next_line<'t, P: Probe<'t>>(audit: &mut Audit, probe: &mut P)
    requires { P.tree probe.old ≡ audit.old.tree }
{
    let before = probe.probes();
    let _ = audit.next_line(probe);
    if probe.probes() != before {
        unreachable!()
    }
}

/// The later calls on a path are those that it was lent with.
#[tactic(auto, unfolding(pua_steps::specs::Calls::calls_of))]
fn calls_on_a_path_shifted() {
    let lines = PathLines {
        path: b"/",
        call: Call::Stat,
        later: 1,
        plain: true,
    };
    let mut calls = lines.later_calls();
    let Some(_) = calls.take_first() else {
        unreachable!()
    };
}

/// A later call is the one with its number.
#[tactic(auto, unfolding(pua_steps::specs::Calls::calls_of))]
fn later_call_told_as_another() {
    let lines = PathLines {
        path: b"/",
        call: Call::Stat,
        later: 0b10,
        plain: true,
    };
    let mut calls = lines.later_calls();
    let Some(Call::Lstat) = calls.take_first() else {
        unreachable!()
    };
}

/// Memory that was refused is reported as such.
fn refused_memory_is_a_bad_resume(refused: OutOfMemory) {
    if let AuditFault::BadResume = AuditFault::from(refused) {
        unreachable!()
    }
}
