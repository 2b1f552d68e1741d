//! The promises that some call asks for.

ghost use Rattle.std.specs.Prelude.{◌≡◌, bit_or, flat_map};
ghost use Rattle.pua_calls.specs.Calls.{calls, rule_of};
ghost use Rattle.pua_tight.specs.Tight.{all_asked, all_used, asked_in, union, used_by};

use pua_calls::{Call, CallTable, Promises};
use pua_script::{Action, Request};

/// The promises that some call asks for by a table, or some request that is no call on a path, but
/// `error`.
pub(crate) fn asked_in(table: &CallTable, requests: &[Request]) -> Promises
    ensures { result ≡ asked_in table.now requests.now }
{
    all_asked(table)
        .union(all_used(requests))
        .without(Promises::ERROR)
}

/// The promises for which requests ask that are no calls on a path.
fn all_used(requests: &[Request]) -> Promises
    ensures { result ≡ all_used requests.now }
{
    let mut used = Promises::NONE;
    for request in requests {
        used = with_used(request.action(), used);
    }
    used
}

/// The promises for which a request asks that is no call on a path, and others: a take asks for
/// recvfd, and for sendfd of who sent; a chroot asks for id.
fn with_used(action: &Action, others: Promises) -> Promises
    ensures { result ≡ bit_or (union (used_by action.now)) others }
{
    match action {
        Action::Uses(any) => with_sets(any.sets(), others),
        Action::Take { .. } => with_sets(&[Promises::RECVFD, Promises::SENDFD], others),
        Action::Chroot(_) => with_sets(&[Promises::ID], others),
        _ => others,
    }
}

/// The promises that some call asks for, by its path, or as rename, link, fork or unveil.
fn all_asked(table: &CallTable) -> Promises
    ensures { result ≡ all_asked table.now }
{
    let rename = table.rename();
    let link = table.link();
    let asked = called(table);
    let asked = with_sets(link.new_name().alternatives(), asked);
    let asked = with_sets(link.old_name().alternatives(), asked);
    let asked = with_sets(rename.new_name().alternatives(), asked);
    let asked = with_sets(rename.old_name().alternatives(), asked);
    Promises::PROC.union(Promises::UNVEIL.union(asked))
}

/// Those for which some call with one path asks.
fn called(table: &CallTable) -> Promises
    ensures { result ≡ union (flat_map (λ call. (rule_of table.now call).alternatives) calls) }
{
    let mut asked = Promises::NONE;
    for call in Call::ALL {
        asked = with_sets(table.alternatives(call), asked);
    }
    asked
}

/// The promises of sets, and others.
fn with_sets(sets: &[Promises], others: Promises) -> Promises
    ensures { result ≡ bit_or (union sets.now) others }
{
    let mut asked = others;
    for set in sets {
        asked = asked.union(*set);
    }
    asked
}
