//! Sets of calls.

use pua_calls::{Call, Calls};

/// A set has its calls, and no other.
fn contains_of_none(call: Call) {
    if Calls::NONE.contains(call) {
        unreachable!()
    }
}

/// A set with a call has this call.
fn call_at_the_next_bit() {
    if !Calls::NONE.with(Call::Stat).contains(Call::Stat) {
        unreachable!()
    }
}

/// A set with a call isn't empty.
fn empty_with_a_call(calls: Calls, call: Call) {
    if calls.with(call).is_empty() {
        unreachable!()
    }
}

/// The call with number 1 stands at bit 0 of a set's number.
fn bits_counted_from_one() {
    if Calls::NONE.with(Call::Stat).bits() & 1 != 1 {
        unreachable!()
    }
}

/// A union has the calls of either set.
fn calls_in_common() {
    if !Calls::NONE
        .union(Calls::NONE.with(Call::Stat))
        .contains(Call::Stat)
    {
        unreachable!()
    }
}

/// An intersection has no call that only one of the sets has.
fn common_calls_of_the_others() {
    if Calls::NONE
        .intersection(Calls::NONE.with(Call::Stat))
        .contains(Call::Stat)
    {
        unreachable!()
    }
}

/// Stat is on what a link leads to, and not on the link itself.
fn calls_of_links_turned(calls: Calls) {
    if calls.keeping().contains(Call::Stat) {
        unreachable!()
    }
}

/// Unlink is on a link itself, and not on what it leads to.
fn calls_of_targets_turned(calls: Calls) {
    if calls.following().contains(Call::Unlink) {
        unreachable!()
    }
}
