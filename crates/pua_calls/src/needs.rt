//! What each call needs.

ghost use Rattle.std.specs.Prelude.{◌≡◌, [], ◌∷◌, take, IsTrue, IsFalse};
ghost use Rattle.pua_calls.specs.Calls.{is_known, rule_of, standard_table, openbsd_table};
ghost use Rattle.pua_calls.specs.Calls.{last_of, ending_of};

use crate::call::{Call, Need};
use pua_path::Ending;

/// What a call needs, by the standard table (this profile); of a call that has no set of promises
/// there the first set of those of which it needs one by OpenBSD's.
pub fn need(call: Call) -> Need
    ensures promises { IsTrue (is_known standard_table call) →
        (rule_of standard_table call).alternatives ≡ result.promises ∷ [] }
    ensures further { IsFalse (is_known standard_table call) →
        take 1 (rule_of openbsd_table call).alternatives ≡ result.promises ∷ [] }
    ensures perms { (rule_of standard_table call).perms ≡ result.perms }
    ensures last { result.last ≡ last_of call }
{
    Need {
        promises: call.standard().unwrap_or(call.openbsd().0),
        perms: call.perms(),
        last: call.last(),
    }
}

/// What a slash at the end of the call's path adds (this profile).
pub fn ending(call: Call) -> Ending
    ensures { result ≡ ending_of call }
{
    call.ending()
}
