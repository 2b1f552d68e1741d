//! A set of calls that is taken apart.

use crate::calls::take_first;
use pua_calls::Call;
use std::marker::Model;

/// A set of calls by their numbers, from 0 on. Contracts see a number with a bit for each call, the
/// first at bit 0.
#[derive(Clone, Copy)]
pub struct CallSet {
    bits: u32,
}

impl Model for CallSet {
    ghost use Rattle.std.specs.Prelude.{ℕ, ◌<◌, ◌^◌};
    ghost use Rattle.pua_steps.specs.Limits.{call_count};

    ghost Value = { ℕ };

    ghost view = { λ a. a.bits };

    ghost invariant = { λ a. a.bits < 2 ^ call_count };

    ghost inverse = { λ n. record { bits = n } };
}

ghost use Rattle.std.specs.Prelude.{◌≡◌, ◌<◌, ◌∷◌, [], MatchOption};
ghost use Rattle.pua_steps.specs.Limits.{call_count};
ghost use Rattle.pua_steps.specs.Calls.{calls_of};

impl CallSet {
    /// The set of these bits: those of calls, that is.
    #[tactic(auto, using(crate::proofs::Sets::low_calls))]
    pub fn of(bits: u32) -> CallSet
        ensures { calls_of result ≡ calls_of bits }
    {
        CallSet {
            bits: bits % (1 << Call::COUNT),
        }
    }

    /// Takes the first call out of the set. None where it has no call.
    #[tactic(auto, using(crate::proofs::Sets::no_calls))]
    #[inline(always)]
    pub fn take_first(&mut self) -> Option<u8>
        ensures { MatchOption result ((calls_of self.old ≡ []) × (calls_of self.new ≡ []))
            (λ call. (call < call_count) × (calls_of self.old ≡ call ∷ calls_of self.new)) }
    {
        take_first(&mut self.bits)
    }
}
