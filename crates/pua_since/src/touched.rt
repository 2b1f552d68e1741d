//! What a request that was served may have changed.

ghost use Rattle.std.specs.Prelude.{◌≡◌};
ghost use Rattle.pua_since.specs.Concerns.{call_is_own, is_own, touched_by};

use pua_calls::Call;
use pua_script::{Action, Answer, Request};

/// What a request that was served may have changed.
#[derive(Clone, Copy)]
pub(crate) enum Touched {
    /// What this process may do and has open, and nothing else.
    Process(u32),
    /// Anything.
    Anything,
}

/// What a request may have changed that was answered so.
pub(crate) fn touched_by(request: &Request, answer: Answer) -> Touched
    ensures { result ≡ touched_by request.now answer }
{
    match answer {
        Answer::Okay if !is_own(request.action()) => Touched::Anything,
        _ => Touched::Process(request.process()),
    }
}

/// Whether an action that was done changed no more than the process that asked for it.
fn is_own(action: &Action) -> bool
    ensures { result ≡ is_own action.now }
{
    match action {
        Action::OnPath(call, _) => call_is_own(*call),
        Action::Symlink(..) | Action::Rename(..) | Action::Link(..) | Action::Fork(_) => false,
        Action::Pledge(..) | Action::Unveil(..) | Action::Lock | Action::Exit => true,
        Action::Hold { .. } | Action::Close(_) | Action::Fchdir(_) => true,
        Action::Chroot(_) | Action::Take { .. } | Action::Uses(_) | Action::Comment => true,
    }
}

/// Whether a call that was done changed no more than the process that asked for it.
fn call_is_own(call: Call) -> bool
    ensures { result ≡ call_is_own call }
{
    !call.effect().edits()
}
