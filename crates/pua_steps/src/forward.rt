//! How many states are live: a pass forward through the table, letter by letter, with the set of
//! numbers of links with which each directory is reached, a bit for each number.

ghost use Rattle.std.specs.Prelude.{◌≡◌, ◌≤◌, ◌<◌, ◌+◌, ◌*◌, ◌-◌, ◌^◌, ◌||◌, ◌&&◌, ◌==◌, nat_le, ℕ};
ghost use Rattle.std.specs.Prelude.{length, get_or, IfOk, IfSome, bit_and, count_ones};
ghost use Rattle.std.specs.Prelude.{option_to_list};
ghost use Rattle.std.specs.Int.{bit_at};
ghost use Rattle.std.specs.List.{AllByRecursion};
ghost use Rattle.pua_steps.specs.Limits.{most_letters, most_links, most_bound};
ghost use Rattle.pua_steps.specs.Live.{IsSized};
ghost use Rattle.pua_steps.specs.Reached.{has_state, lands, lands_some, lands_from, total, AreSets};
ghost use Rattle.pua_steps.specs.Reached.{live_count};
ghost use Rattle.pua_steps.specs.Table.{IsTable, IsState, graph_of};

use crate::live::Live;
use crate::state::State;
use crate::steps::{Entry, Steps};
use std::alloc::{AllocError, Global};

/// The set of all numbers of links, from 0 to `MOST_LINKS`: 2 to the power of 33, less one.
const EVERY: u64 = 8_589_934_591;

/// Adds to `next` what entries lead to from a directory that is reached with a set of numbers of
/// links.
fn spread(entries: &[Entry], set: u64, next: &mut Vec<u64>)
    requires links { AllByRecursion (λ e. e.links ≤ most_links) entries.now }
    requires to { AllByRecursion (λ e. IfSome e.to (λ d. d < length next.old.items)) entries.now }
    requires small { (d : ℕ) → d < length next.old.items →
        get_or next.old.items d 0 < 2 ^ most_bound }
    ensures many { length next.new.items ≡ length next.old.items }
    ensures small { (d : ℕ) → d < length next.old.items →
        get_or next.new.items d 0 < 2 ^ most_bound }
    ensures tells { (d : ℕ) (u : ℕ) → d < length next.old.items → u ≤ most_links →
        has_state next.new.items d u
        ≡ (has_state next.old.items d u || lands_some entries.now set d u) }
{
    for entry in entries {
        entry.land(set, next);
    }
}

impl Entry {
    /// Adds to `next` what the entry leads to from a directory that is reached with a set of
    /// numbers of links.
    fn land(&self, set: u64, next: &mut Vec<u64>)
        requires links { self.now.links ≤ most_links }
        requires to { IfSome self.now.to (λ d. d < length next.old.items) }
        requires small { (d : ℕ) → d < length next.old.items →
            get_or next.old.items d 0 < 2 ^ most_bound }
        ensures many { length next.new.items ≡ length next.old.items }
        ensures small { (d : ℕ) → d < length next.old.items →
            get_or next.new.items d 0 < 2 ^ most_bound }
        ensures tells { (d : ℕ) (u : ℕ) → d < length next.old.items → u ≤ most_links →
            has_state next.new.items d u
            ≡ (has_state next.old.items d u || lands self.now set d u) }
    {
        let Some(to) = self.to else {
            return;
        };
        next[to as usize] |= moved(set, self.links);
    }
}

/// The numbers of a set, each with so many links more, those above `MOST_LINKS` left out.
fn moved(set: u64, links: u8) -> u64
    requires { links ≤ most_links }
    ensures small { result < 2 ^ most_bound }
    ensures bits { (u : ℕ) → u ≤ most_links →
        (bit_at result u == 1) ≡ (nat_le links u && (bit_at set (u - links) == 1)) }
{
    (set << links) & EVERY
}

/// So many empty sets. The only error is that a growth was refused.
fn empty_sets(alloc: Global, dirs: usize) -> Result<Vec<u64>, AllocError>
    ensures many { IfOk result (λ sets. length sets.items ≡ dirs) }
    ensures empty { IfOk result (λ sets. (d : ℕ) → get_or sets.items d 0 ≡ 0) }
{
    let mut sets = Vec::with_capacity(alloc, dirs)?;
    while sets.len() < dirs {
        sets.push(0).unwrap();
    }
    Ok(sets)
}

/// What the steps of all directories lead to from these sets of numbers of links, one set for each
/// directory. The only error is that a growth was refused.
fn step_all(alloc: Global, steps: &Steps, sets: &[u64]) -> Result<Vec<u64>, AllocError>
    requires table { IsTable steps.now }
    requires many { length sets.now ≡ length steps.now.rows.items }
    ensures many { IfOk result (λ next. length next.items ≡ length steps.now.rows.items) }
    ensures small { IfOk result (λ next. (d : ℕ) → d < length steps.now.rows.items →
        get_or next.items d 0 < 2 ^ most_bound) }
    ensures tells { IfOk result (λ next. (d : ℕ) (u : ℕ) → d < length steps.now.rows.items →
        u ≤ most_links →
        has_state next.items d u
        ≡ lands_from steps.now sets.now (length steps.now.rows.items) d u) }
{
    let dirs = steps.rows.len();
    let mut next = empty_sets(alloc, dirs)?;
    for dir in 0..dirs {
        spread(&steps.rows[dir].entries, sets[dir], &mut next);
    }
    Ok(next)
}

/// How many of the states of these sets are live where at most `left` letters may come.
fn live_here(live: &Live, sets: &[u64], left: usize) -> usize
    requires many { length sets.now ≡ live.now.dirs }
    requires layer { left * live.now.dirs + live.now.dirs ≤ length live.now.bounds.items }
    requires bounds { (d : ℕ) → d < live.now.dirs →
        get_or live.now.bounds.items (left * live.now.dirs + d) 0 ≤ most_bound }
    requires small { live.now.dirs * 64 < 2 ^ 64 }
    ensures exact { result ≡ total (λ d. count_ones (bit_and (get_or sets.now d 0)
        (2 ^ get_or live.now.bounds.items (left * live.now.dirs + d) 0 - 1))) live.now.dirs }
    ensures few { result ≤ live.now.dirs * 64 }
{
    let mut count = 0;
    for dir in 0..live.dirs {
        count += below(sets[dir], live.bounds[left * live.dirs + dir]);
    }
    count
}

/// How many members of a set are below a bound.
fn below(set: u64, bound: u8) -> usize
    requires { bound ≤ most_bound }
    ensures exact { result ≡ count_ones (bit_and set (2 ^ bound - 1)) }
    ensures few { result ≤ 64 }
{
    (set & ((1 << bound) - 1)).count_ones() as usize
}

/// The sets before the first letter: of the state in which it stands alone, if there is one. The
/// only error is that a growth was refused.
fn first_sets(alloc: Global, dirs: usize, base: Option<State>) -> Result<Vec<u64>, AllocError>
    requires { IfSome base (λ s. (s.dir < dirs) × (s.used ≤ most_links)) }
    ensures { IfOk result (λ sets. AreSets dirs (option_to_list base) sets.items) }
{
    let mut sets = empty_sets(alloc, dirs)?;
    let Some(state) = base else {
        return Ok(sets);
    };
    sets[state.dir as usize] = moved(1, state.used);
    Ok(sets)
}

impl Live {
    /// How many states are live, where the first letter stands in `base` and words have at most
    /// `limit` letters: states to which words lead, and from which words with an allowed call go
    /// on, counted for each number of letters that may still come. The only error is that a growth
    /// was refused, after which nothing is kept.
    pub(crate) fn count(
        &self,
        alloc: Global,
        steps: &Steps,
        base: Option<State>,
        limit: usize,
    ) -> Result<usize, AllocError>
        requires table { IsTable steps.now }
        requires sized { IsSized steps.now self.now limit }
        requires base { IfSome base (λ s. IsState steps.now s) }
        requires limit { limit ≤ most_letters }
        requires small { self.now.dirs * 1088 < 2 ^ 64 }
        ensures { IfOk result (λ count. count ≡ live_count (graph_of steps.now)
            (length steps.now.rows.items) limit base limit) }
    {
        let mut sets = first_sets(alloc, self.dirs, base)?;
        let mut count = 0;
        for taken in 0..limit {
            count += live_here(self, &sets, limit - taken);
            sets = step_all(alloc, steps, &sets)?;
        }
        Ok(count)
    }
}
