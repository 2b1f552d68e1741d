//! Sets of calls, a bit for each.

ghost use Rattle.std.specs.Prelude.{◌≡◌, ◌≢◌, ◌<◌, ◌≤◌, ◌^◌, ◌∷◌, ℕ, MatchOption, filter, nat_lt};
ghost use Rattle.std.specs.Int.{bit_at};
ghost use Rattle.pua_steps.specs.Limits.{call_count};
ghost use Rattle.pua_steps.specs.Calls.{calls_of};

/// Takes the first call out of a set: the call of its lowest bit. None where the set has no call.
pub(crate) fn take_first(calls: &mut u32) -> Option<u8>
    requires { calls.old < 2 ^ call_count }
    ensures { MatchOption result ((calls.new ≡ calls.old) × (calls.old ≡ 0))
        (λ call. (calls.new < 2 ^ call_count) × (call < call_count) ×
        (calls_of calls.old ≡ call ∷ calls_of calls.new)) }
{
    let set = *calls;
    if set == 0 {
        return None;
    }
    let call = first_of(set);
    *calls = without(set, call);
    Some(call)
}

/// The first call of a set that has one.
fn first_of(set: u32) -> u8
    requires some { 0 < set }
    requires fits { set < 2 ^ call_count }
    ensures within { result < call_count }
    ensures here { bit_at set result ≡ 1 }
    ensures before { (i : ℕ) → i < result → bit_at set i ≡ 0 }
{
    set.trailing_zeros() as u8
}

/// A set without a call.
fn without(set: u32, call: u8) -> u32
    requires { call < call_count }
    ensures within { result ≤ set }
    ensures here { bit_at result call ≡ 0 }
    ensures others { (i : ℕ) → i < call_count → i ≢ call → bit_at result i ≡ bit_at set i }
{
    set & !(1 << call)
}

/// The calls of a set that come after a call.
pub(crate) fn calls_after(set: u32, call: u8) -> u32
    requires fits { set < 2 ^ call_count }
    requires call { call < call_count }
    ensures fits { result < 2 ^ call_count }
    ensures after { calls_of result ≡ filter (λ other. nat_lt call other) (calls_of set) }
{
    let mut rest = set;
    for other in 0..call + 1 {
        rest = without(rest, other);
    }
    rest
}
