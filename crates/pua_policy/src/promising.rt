//! By which promises a process may do something.

ghost use Rattle.std.specs.Prelude.{◌≡◌, find};
ghost use Rattle.pua_calls.specs.Promises.{holds};
ghost use Rattle.pua_policy.specs.Reasons.{promising, promising_seen};

use crate::process::Process;
use crate::reason::Promising;
use pua_calls::Promises;

impl Process {
    /// By which of these sets it may do what needs all promises of one of them, the first that it
    /// holds; or why it may not (pledge(2)). `may_any` answers whether it may. Takes no memory.
    pub fn promising<'s>(&self, sets: &'s [Promises]) -> Promising<'s>
        ensures { promising_seen result ≡ promising self.now sets.now }
    {
        if self.ended() {
            return Promising::HasEnded;
        }
        let held = self.held();
        match first_held(held, sets) {
            Some(set) => Promising::Holds(set),
            None => Promising::Lacks {
                error: held.contains(Promises::ERROR),
                held,
                sets,
            },
        }
    }
}

/// The first of these sets that is held.
fn first_held(held: Promises, sets: &[Promises]) -> Option<Promises>
    ensures { result ≡ find (holds held) sets.now }
{
    sets.iter().find(|set| held.contains(**set)).copied()
}
