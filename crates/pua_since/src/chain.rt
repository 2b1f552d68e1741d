//! What decides one request after a script.

ghost use Rattle.std.specs.Prelude.{◌≡◌, ◌++◌, ◌∷◌, [], List, IfOk, OnOk, flat_map, map};
ghost use Rattle.std.specs.Prelude.{option_map, string_bytes};
ghost use Rattle.pua_script.specs.AnswerTexts.{with_end};
ghost use Rattle.pua_script.specs.Replay.{world_after};
ghost use Rattle.pua_script.specs.Requests.{Asked};
ghost use Rattle.pua_script.specs.Worlds.{WorldState, apply_to, run_to, state_after_all, world_of};
ghost use Rattle.pua_why.specs.Facts.{facts_of};
ghost use Rattle.pua_why.specs.Seen.{fact_seen};
ghost use Rattle.pua_why.specs.Texts.{chain};
ghost use Rattle.pua_since.specs.Watched.{AreWatched, IsKeptThrough};
ghost use Rattle.pua_since.specs.Dates.{AreDatesOf, AreFactsAt, IsFactAt, fact_line, veil_told};

use crate::reason_line::push_answer;
use crate::watch::Question;
use crate::watches::Watches;
use pua_policy::{Covering, Place};
use pua_script::{Answer, Request, World};
use pua_tree::{FileTree, OutOfMemory};
use pua_why::{Fact, TreePaths, facts, push_fact};
use std::alloc::{AllocError, Global};

/// What decides a request after a script: a line for the promises that let it through, or for the
/// promise that opens it, for each link that its paths follow, for what they name and for the veil
/// that covers that, in the order of the checks and as far as it passes them; and as the last line
/// its answer, with the reason and since which line that is so, or with what opened it, as
/// [`reason_text`](crate::reason_text) would tell it of the script's next line.
///
/// The script's requests were answered so in a world as `before`, which serves them; `after` is the
/// world that they left, and serves the request. The only error is that a growth was refused.
pub fn chain_text<T: FileTree>(
    alloc: Global,
    before: &mut World<T>,
    after: &mut World<T>,
    requests: &[Request],
    answers: &[Answer],
    request: &Request,
) -> Result<String, OutOfMemory>
    ensures { IfOk result (λ text. answers.now ≡ (run_to before.old requests.now).0 →
        after.old ≡ state_after_all before.old requests.now →
        string_bytes text ≡ flat_map with_end
        (chain before.old.table (world_of before.old) requests.now request.now)) }
{
    let passed = facts(alloc, after, request.process(), request.action())?;
    let passed = passed.as_slice();
    let dates = dates_of(alloc, before, requests, answers, request, passed)?;
    let Ok(answer) = after.apply(request) else {
        return Err(OutOfMemory);
    };
    Ok(lines_of(alloc, before, request, passed, answer, &dates)?)
}

/// Since which lines the parts of a chain hold; None where one held from the start.
#[derive(Drop)]
struct Dates {
    /// The reason of its answer.
    answer: Option<usize>,
    /// Of each fact about a veil, since when the veil has its letters; None of the others.
    facts: Vec<Option<usize>>,
}

/// Since which lines the facts of a request and its reason hold after these requests, which are
/// served in this world.
fn dates_of<T: FileTree>(
    alloc: Global,
    world: &mut World<T>,
    requests: &[Request],
    answers: &[Answer],
    request: &Request,
    passed: &[Fact],
) -> Result<Dates, OutOfMemory>
    ensures dates { IfOk result (λ dates. answers.now ≡ (run_to world.old requests.now).0 →
        map fact_seen passed.now ≡ facts_of world.old.table
        (world_after world.old.table (world_of world.old) requests.now) request.now →
        AreDatesOf world.old.table (world_of world.old) requests.now request.now
        (map fact_seen passed.now) dates) }
    ensures world { OnOk result (answers.now ≡ (run_to world.old requests.now).0 →
        world.new ≡ state_after_all world.old requests.now) }
{
    let mut watches = Watches::new(alloc, requests, answers)?;
    let (process, question) = (request.process(), Question::Request(request.action()));
    let own = watches.add(alloc, world, process, question, requests.len())?;
    let veils = watch_facts(alloc, world, process, passed, requests.len(), &mut watches)?;
    watches.serve_all(alloc, world, requests, answers)?;
    Ok(Dates {
        answer: watches.line(own),
        facts: fact_lines(alloc, &watches, veils.as_slice())?,
    })
}

/// Adds a question for each fact of a process about a veil, whose answers are wanted after so many
/// lines, and answers the question's place for each of these facts.
fn watch_facts<'a, T: FileTree>(
    alloc: Global,
    world: &World<T>,
    process: u32,
    passed: &'a [Fact],
    last: usize,
    watches: &mut Watches<'a>,
) -> Result<Vec<Option<usize>>, OutOfMemory>
    ensures places { IfOk result (λ places. AreFactsAt watches.new.watches.items process last
        (map fact_seen passed.now) places.items) }
    ensures watched { OnOk result ((left : List Asked) →
        AreWatched world.now.table (world_of world.now) [] left watches.old →
        AreWatched world.now.table (world_of world.now) [] left watches.new) }
    ensures kept { OnOk result (IsKeptThrough watches.old.watches.items
        watches.new.watches.items) }
{
    let mut veils = Vec::new(alloc);
    for fact in passed {
        let place = watch_fact(alloc, world, process, fact, last, watches)?;
        veils.push(place)?;
    }
    Ok(veils)
}

/// Adds a question for a fact of a process, if it is about a veil, whose answer is wanted after so
/// many lines, and answers the question's place.
fn watch_fact<'a, T: FileTree>(
    alloc: Global,
    world: &World<T>,
    process: u32,
    fact: &'a Fact,
    last: usize,
    watches: &mut Watches<'a>,
) -> Result<Option<usize>, OutOfMemory>
    ensures place { IfOk result (λ place. IsFactAt watches.new.watches.items process last
        (veil_told (fact_seen fact.now)) place) }
    ensures watched { OnOk result ((left : List Asked) →
        AreWatched world.now.table (world_of world.now) [] left watches.old →
        AreWatched world.now.table (world_of world.now) [] left watches.new) }
    ensures kept { OnOk result (IsKeptThrough watches.old.watches.items
        watches.new.watches.items) }
{
    let Some(place) = veil_told(fact) else {
        return Ok(None);
    };
    let place = watches.add(alloc, world, process, Question::Veil(place), last)?;
    Ok(Some(place))
}

/// Since which lines the questions at these places have their answers; None where there is none.
fn fact_lines(
    alloc: Global,
    watches: &Watches<'_>,
    places: &[Option<usize>],
) -> Result<Vec<Option<usize>>, OutOfMemory>
    ensures { IfOk result (λ lines.
        lines.items ≡ map (fact_line watches.now.watches.items) places.now) }
{
    let mut lines = Vec::new(alloc);
    for place in places {
        lines.push(fact_line(watches, *place))?;
    }
    Ok(lines)
}

/// Since which line the question at a place has its answer; None where there is none.
fn fact_line(watches: &Watches<'_>, place: Option<usize>) -> Option<usize>
    ensures { result ≡ fact_line watches.now.watches.items place }
{
    watches.line(place?)
}

/// The place of the veil that a fact is about.
fn veil_told(fact: &Fact) -> Option<&Place>
    ensures { option_map (λ place. place.now) result ≡ veil_told (fact_seen fact.now) }
{
    match fact {
        Fact::Under(_, Covering::By(place, _)) => Some(place),
        _ => None,
    }
}

/// A line for each fact of a request that is asked in a world, and one for its answer.
fn lines_of<T: FileTree>(
    alloc: Global,
    world: &World<T>,
    request: &Request,
    passed: &[Fact],
    answer: Answer,
    dates: &Dates,
) -> Result<String, AllocError>
    ensures { IfOk result (λ text. (s : WorldState) (done : List Asked) →
        world.now ≡ state_after_all s done →
        answer ≡ (apply_to (state_after_all s done) request.now).0 →
        map fact_seen passed.now
        ≡ facts_of s.table (world_after s.table (world_of s) done) request.now →
        AreDatesOf s.table (world_of s) done request.now (map fact_seen passed.now) dates.now →
        string_bytes text ≡ flat_map with_end (chain s.table (world_of s) done request.now)) }
{
    let mut text = String::new(alloc);
    let Ok(mut paths) = TreePaths::new(alloc, world.tree()) else {
        return Err(AllocError);
    };
    for (fact, line) in passed.iter().zip(&dates.facts) {
        push_fact(alloc, &mut text, &mut paths, world.tree(), fact, *line)?;
        text.push_str("\n")?;
    }
    let (process, action) = (request.process(), request.action());
    push_answer(
        alloc,
        &mut text,
        world,
        process,
        action,
        answer,
        dates.answer,
    )?;
    text.push_str("\n")?;
    Ok(text)
}
