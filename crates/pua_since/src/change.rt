//! Whether a request that was served may have changed the world.

ghost use Rattle.std.specs.Prelude.{◌≡◌, IsFalse};
ghost use Rattle.pua_since.specs.Changes.{LeavesAsIs, action_changes, call_changes, has_changed};
ghost use Rattle.pua_since.specs.Changes.{has_forked};

use pua_calls::{Call, Effect};
use pua_script::{Action, Answer};

/// Whether a request that was answered so may have changed anything. One that failed changed
/// nothing, nor did a look at what stands, nor a call that asks for promises alone.
pub(crate) fn has_changed(action: &Action, answer: Answer) -> bool
    ensures exact { result ≡ has_changed action.now answer }
    ensures stays { IsFalse result → LeavesAsIs action.now answer }
{
    match answer {
        Answer::Okay => action_changes(action),
        Answer::Killed => true,
        Answer::Failed(_) | Answer::Gone => false,
    }
}

/// Whether a request that was answered so made a process.
pub(crate) fn has_forked(action: &Action, answer: Answer) -> bool
    ensures { result ≡ has_forked action.now answer }
{
    matches!((action, answer), (Action::Fork(_), Answer::Okay))
}

/// Whether an action that was done may have changed anything.
fn action_changes(action: &Action) -> bool
    ensures { result ≡ action_changes action.now }
{
    match action {
        Action::OnPath(call, _) => call_changes(*call),
        Action::Uses(_) | Action::Comment => false,
        _ => true,
    }
}

/// Whether a call that was done may have changed anything.
fn call_changes(call: Call) -> bool
    ensures { result ≡ call_changes call }
{
    !matches!(call.effect(), Effect::Looks)
}
