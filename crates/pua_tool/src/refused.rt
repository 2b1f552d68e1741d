//! Wrong bodies of functions that no other crate calls: each claim meets what such a body would
//! answer, and is proved never to, by the contracts of what it calls.

use crate::columns::{Behind, steps_to, trials_behind};
use crate::how::{HowQuestion, find};
use crate::script::Replay;
use pua_calls::{Call, Rules};
use pua_how::{Meant, Planner};
use std::alloc::Global;

/// Where memory was refused, plans may come to a way: of those that were served before
/// `no way found` is written, none does when it is served again.
fn no_way_found_for_want_of_memory(
    alloc: Global,
    replay: &Replay,
    rules: Rules,
    number: u32,
    question: &HowQuestion,
) {
    let Ok(Err(none)) = find(alloc, replay, rules, number, question) else {
        return;
    };
    let (world, call, meant) = (&replay.world, question.call, &question.meant);
    let plans = none.into_plans();
    if let Ok(Ok(_)) = plans.serve(alloc, rules, world, number, call, meant) {
        unreachable!()
    }
}

/// The same of `?`, which a column has for a number of steps.
fn steps_unknown_for_want_of_memory(
    alloc: Global,
    behind: &Behind<'_>,
    planner: &Planner<'_>,
    call: Call,
    meant: &Meant,
) {
    let mut trials = trials_behind(alloc, behind);
    let Ok(Err(none)) = steps_to(&mut trials, planner, call, meant) else {
        return;
    };
    let (world, rules) = (&behind.replay.world, behind.rules);
    let plans = none.into_plans();
    if let Ok(Ok(_)) = plans.serve(alloc, rules, world, behind.number, call, meant) {
        unreachable!()
    }
}
