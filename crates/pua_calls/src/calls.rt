//! Sets of calls.

use std::marker::Model;

/// A set of calls. Contracts see a number with a bit for each call, the first at bit 0.
#[derive(Clone, Copy, PartialEq, Eq, Hash)]
pub struct Calls {
    bits: u32,
}

impl Model for Calls {
    ghost use Rattle.std.specs.Prelude.{ℕ, ◌<◌, ◌^◌};
    ghost use Rattle.pua_calls.specs.Calls.{call_count};

    ghost Value = { ℕ };

    ghost view = { λ a. a.bits };

    ghost invariant = { λ a. a.bits < 2 ^ call_count };

    ghost inverse = { λ n. record { bits = n } };
}

ghost use Rattle.std.specs.Prelude.{◌≡◌, ◌≢◌, ◌↔◌, ◌<◌, ◌^◌, []};
ghost use Rattle.std.specs.Prelude.{◌&&◌, ◌||◌, not, IsTrue};
ghost use Rattle.pua_calls.specs.Calls.{call_count, last_of};
ghost use Rattle.pua_calls.specs.CallSets.{has, calls_in, is_last, keeps_link};

use crate::call::Call;
use pua_path::Last;

impl Calls {
    /// No call.
    pub const NONE: Calls = Calls { bits: 0 };

    /// Whether it has a call.
    pub fn contains(self, call: Call) -> bool
        ensures { result ≡ has self call }
    {
        self.bits >> (call.number() - 1) & 1 == 1
    }

    /// Whether it has no call.
    pub fn is_empty(self) -> bool
        ensures { IsTrue result ↔ (calls_in self ≡ []) }
    {
        self.bits == 0
    }

    /// Its number: a bit for each call, that of the call with number n at bit n - 1.
    pub fn bits(self) -> u32
        ensures number { result ≡ self }
        ensures calls { result < 2 ^ call_count }
    {
        self.bits
    }

    /// Its calls and one more, which it may have already.
    pub fn with(self, call: Call) -> Calls
        ensures here { IsTrue (has result call) }
        ensures others { (other : Call) → other ≢ call → has result other ≡ has self other }
    {
        Calls {
            bits: self.bits | 1 << (call.number() - 1),
        }
    }

    /// Its calls and the others.
    #[tactic(auto, using(crate::proofs::CallBits::has_or, crate::proofs::CallBits::or_below))]
    pub fn union(self, others: Calls) -> Calls
        ensures { (call : Call) → has result call ≡ (has self call || has others call) }
    {
        Calls {
            bits: self.bits | others.bits,
        }
    }

    /// Its calls that are among the others too.
    #[tactic(auto, using(crate::proofs::CallBits::has_and, crate::proofs::CallBits::and_below))]
    pub fn intersection(self, others: Calls) -> Calls
        ensures { (call : Call) → has result call ≡ (has self call && has others call) }
    {
        Calls {
            bits: self.bits & others.bits,
        }
    }

    /// Its calls that are on a link itself, where their path's last part names one.
    pub fn keeping(self) -> Calls
        ensures { (call : Call) → has result call ≡ (has self call && keeps_link call) }
    {
        self.intersection(Calls::by_last(Last::Kept))
    }

    /// Its calls that are on what a link leads to, where their path's last part names one.
    pub fn following(self) -> Calls
        ensures { (call : Call) → has result call ≡ (has self call && not (keeps_link call)) }
    {
        self.intersection(Calls::by_last(Last::Followed))
    }

    /// The calls of which a link at the end of their path is followed, or the others.
    fn by_last(last: Last) -> Calls
        ensures { (call : Call) → has result call ≡ is_last last (last_of call) }
    {
        let mut calls = Calls::NONE;
        for call in Call::ALL {
            if is_last(call, last) {
                calls = calls.with(call);
            }
        }
        calls
    }
}

/// Whether a link at the end of a call's path is followed, or kept.
fn is_last(call: Call, last: Last) -> bool
    ensures { result ≡ is_last last (last_of call) }
{
    match (last, call.last()) {
        (Last::Kept, Last::Kept) | (Last::Followed, Last::Followed) => true,
        (Last::Kept, Last::Followed) | (Last::Followed, Last::Kept) => false,
    }
}
