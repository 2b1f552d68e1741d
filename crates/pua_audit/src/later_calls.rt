//! The calls of further lines with one path.

use crate::pairs::call_at;
use pua_calls::Call;
use pua_steps::CallSet;
use std::marker::Model;

/// The calls of lines that come after another one with the same path, in the order of their
/// numbers. Contracts see a number with a bit for each, as `PathLines` has it.
#[derive(Clone, Copy)]
pub struct LaterCalls {
    pub(crate) numbers: CallSet,
}

impl Model for LaterCalls {
    ghost use Rattle.std.specs.Prelude.{ℕ};

    ghost Value = { ℕ };

    ghost view = { λ a. a.numbers };

    ghost inverse = { λ n. record { numbers = n } };
}

ghost use Rattle.std.specs.Prelude.{◌≡◌, ◌∷◌, [], MatchOption};
ghost use Rattle.pua_audit.specs.Coming.{calls_at};

impl LaterCalls {
    /// Takes the first of them. None where each was taken.
    #[inline(always)]
    pub fn take_first(&mut self) -> Option<Call>
        ensures { MatchOption result ((calls_at self.old ≡ []) × (calls_at self.new ≡ []))
            (λ call. calls_at self.old ≡ call ∷ calls_at self.new) }
    {
        let number = self.numbers.take_first()?;
        Some(call_at(number))
    }
}
