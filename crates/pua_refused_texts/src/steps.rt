//! Wrong bodies of `pua_steps`.

ghost use Rattle.std.specs.Prelude.{◌<◌, ◌≤◌, ◌*◌, ◌^◌, length};
ghost use Rattle.pua_steps.specs.Ready.{IsReady};
ghost use Rattle.pua_steps.specs.Table.{IsState, IsTable};

use pua_calls::Call;
use pua_steps::{CallSet, Row, State, Steps, Tables, Walk};
use std::alloc::Global;

/// The call that was taken out of a set is not in it any more.
#[tactic(auto, using(crate::proofs::Walks::first_call))]
fn first_call_stays_in_its_set() {
    let mut set = CallSet::of(1);
    let _ = set.take_first();
    if set.take_first().is_some() {
        unreachable!()
    }
}

/// The last bit is that of a call.
#[tactic(auto, using(crate::proofs::Walks::last_call))]
fn last_call_is_no_call() {
    if CallSet::of(1 << (Call::COUNT - 1)).take_first().is_none() {
        unreachable!()
    }
}

/// No letter of new tables was read.
fn tables_begin_with_a_read(alloc: Global) {
    let steps = Steps {
        letters: 0,
        rows: Vec::new(alloc),
    };
    let Ok(tables) = Tables::fill(alloc, steps, 0) else {
        return;
    };
    let Ok(walk) = Walk::begin(alloc, tables, 0, None, 0) else {
        return;
    };
    if walk.reads() != 0 {
        unreachable!()
    }
}

/// The calls of a word that were taken are not given again.
fn calls_that_were_taken_come_again(alloc: Global) {
    let steps = Steps {
        letters: 0,
        rows: Vec::new(alloc),
    };
    let Ok(tables) = Tables::fill(alloc, steps, 0) else {
        return;
    };
    let Ok(mut walk) = Walk::begin(alloc, tables, 1, None, 0) else {
        return;
    };
    if walk.take_calls() == 1 && walk.next_call().is_some() {
        unreachable!()
    }
}

/// Where the empty word has no call, the word of the first pair is not empty.
#[tactic(auto, using(crate::proofs::Walks::one_letter))]
fn word_is_empty(alloc: Global) {
    let missing = Row {
        entries: Vec::new(alloc),
        missing: 1,
    };
    let Ok(rows) = vec![in alloc; missing] else {
        return;
    };
    let Ok(tables) = Tables::fill(alloc, Steps { letters: 1, rows }, 1) else {
        return;
    };
    let base = Some(State { dir: 0, used: 0 });
    let Ok(mut walk) = Walk::begin(alloc, tables, 0, base, 1) else {
        return;
    };
    if walk.next_call().is_some() && walk.word().is_empty() {
        unreachable!()
    }
}

/// Of letters that are said to be unchanged the first is as it was.
fn a_letter_more_unchanged(walk: &mut Walk)
    requires { IsReady walk.old }
{
    let first = walk.word().first().copied();
    let _ = walk.next_call();
    if walk.unchanged() > 0 && walk.word().first().copied() != first {
        unreachable!()
    }
}

/// For a letter of the word after which a walk is resumed, it reads at most 65.
fn search_reads_the_list(alloc: Global, steps: Steps, base: State, letter: usize)
    requires table { IsTable steps }
    requires base { IsState steps base }
    requires fits { 2 * length steps.rows.items < 2 ^ 64 }
    requires letter { letter < steps.letters }
{
    let Ok(tables) = Tables::fill(alloc, steps, 1) else {
        return;
    };
    let Ok(walk) = Walk::resume(alloc, tables, 0, Some(base), 1, &[letter], 0) else {
        return;
    };
    if walk.reads() > 65 {
        unreachable!()
    }
}

/// A walk that is resumed after a call of the empty word reads no letter for it.
fn resume_walks_from_the_first_pair(alloc: Global, steps: Steps, base: State)
    requires table { IsTable steps }
    requires base { IsState steps base }
    requires fits { 2 * length steps.rows.items < 2 ^ 64 }
{
    let Ok(tables) = Tables::fill(alloc, steps, 1) else {
        return;
    };
    let Ok(walk) = Walk::resume(alloc, tables, 0, Some(base), 1, &[], 0) else {
        return;
    };
    if walk.reads() != 0 {
        unreachable!()
    }
}

/// Before the next pair a walk reads at most two letters for each letter of the limit and of the
/// alphabet, since it enters no state from which no word with an allowed call goes on.
fn live_whatever_links_were_used(alloc: Global, steps: Steps, base: State)
    requires table { IsTable steps }
    requires base { IsState steps base }
    requires fits { 3 * length steps.rows.items < 2 ^ 64 }
{
    let most = (steps.letters as u64).saturating_mul(4);
    let Ok(tables) = Tables::fill(alloc, steps, 2) else {
        return;
    };
    let Ok(mut walk) = Walk::begin(alloc, tables, 0, Some(base), 2) else {
        return;
    };
    let _ = walk.next_call();
    if walk.reads() > most {
        unreachable!()
    }
}
