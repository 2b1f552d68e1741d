//! The lines of a run with reasons.

ghost use Rattle.std.specs.Prelude.{◌≡◌, ◌++◌, ◌∷◌, [], ℕ, List, Ok, IfOk, OnOk, decimal, flat_map};
ghost use Rattle.std.specs.Prelude.{string_bytes};
ghost use Rattle.pua_calls.specs.declared.rules.Rules.{Rules};
ghost use Rattle.pua_script.specs.AnswerTexts.{with_end};
ghost use Rattle.pua_script.specs.Requests.{Asked};
ghost use Rattle.pua_script.specs.Scripts.{request_by, script_by};
ghost use Rattle.std.specs.Slice.Iter.{iter_rest};
ghost use Rattle.pua_script.specs.Worlds.{apply_to, run_to, state_after_all, world_of};
ghost use Rattle.pua_why.specs.Reasons.{reason};
ghost use Rattle.pua_why.specs.Texts.{answer_words, date_of, line_said, reason_tail, why_lines};
ghost use Rattle.pua_since.specs.Dates.{AreKnown, ArePlacesOf, IsRequestAt, question_line};
ghost use Rattle.pua_since.specs.Dates.{places_left};
ghost use Rattle.pua_since.specs.Watched.{AreWatched, IsKeptThrough};

use crate::reason_line::push_answer;
use crate::watch::Question;
use crate::watches::Watches;
use bstr::ByteSlice;
use indexmap::IndexMap;
use itoa::Buffer;
use pua_script::{Answer, Request, World};
use pua_tree::{FileTree, OutOfMemory};
use std::alloc::{AllocError, Global};
use std::slice::Iter;

/// The questions of a script's lines, and for each line that is not answered `ok` the place of its
/// own among them, in the order of the lines.
///
/// Lines with the same bytes ask the same, so each is asked about once.
pub(crate) fn watch_lines<'a, T: FileTree>(
    alloc: Global,
    world: &World<T>,
    script_bytes: &[u8],
    requests: &'a [Request],
    answers: &[Answer],
    watches: &mut Watches<'a>,
) -> Result<Vec<usize>, OutOfMemory>
    ensures places { IfOk result (λ places. (rules : Rules) →
        script_by rules script_bytes.now ≡ Ok requests.now →
        answers.now ≡ (run_to world.now requests.now).0 →
        ArePlacesOf watches.new.watches.items 0 requests.now answers.now places.items) }
    ensures watched { OnOk result ((left : List Asked) →
        AreWatched world.now.table (world_of world.now) [] left watches.old →
        AreWatched world.now.table (world_of world.now) [] left watches.new) }
    ensures kept { OnOk result (IsKeptThrough watches.old.watches.items
        watches.new.watches.items) }
{
    let mut known = IndexMap::new(alloc);
    let mut places = Vec::new(alloc);
    let lines = script_bytes.lines().zip(requests.iter().zip(answers));
    for (done, (line, (request, answer))) in lines.enumerate() {
        if let Answer::Okay = answer {
            continue;
        }
        let place = place_of(alloc, world, request, done, line, &mut known, watches)?;
        places.push(place)?;
    }
    Ok(places)
}

/// The place of the question of a line after so many others: of an earlier one with the same
/// bytes, or its own.
fn place_of<'a, 'l, T: FileTree>(
    alloc: Global,
    world: &World<T>,
    request: &'a Request,
    done: usize,
    line: &'l [u8],
    known: &mut IndexMap<&'l [u8], usize>,
    watches: &mut Watches<'a>,
) -> Result<usize, OutOfMemory>
    ensures place { IfOk result (λ place. (rules : Rules) (n : ℕ) →
        AreKnown rules watches.old.watches.items known.old.entries →
        request_by rules n line.now ≡ Ok request.now →
        IsRequestAt watches.new.watches.items place request.now done) }
    ensures known { OnOk result ((rules : Rules) (n : ℕ) →
        AreKnown rules watches.old.watches.items known.old.entries →
        request_by rules n line.now ≡ Ok request.now →
        AreKnown rules watches.new.watches.items known.new.entries) }
    ensures watched { OnOk result ((left : List Asked) →
        AreWatched world.now.table (world_of world.now) [] left watches.old →
        AreWatched world.now.table (world_of world.now) [] left watches.new) }
    ensures kept { OnOk result (IsKeptThrough watches.old.watches.items
        watches.new.watches.items) }
{
    if let Some(place) = known.get(&line) {
        watches.extend(*place, done);
        return Ok(*place);
    }
    let question = Question::Request(request.action());
    let place = watches.add(alloc, world, request.process(), question, done)?;
    known.insert(line, place)?;
    Ok(place)
}

/// A line for each request, with the number of its line, what it is answered, and if that is not
/// `ok`, why and since which line, and else by which promise it was opened, if one opened it. The
/// world is the one before them, and serves them; the questions of those that are not answered `ok`
/// stand at these places.
pub(crate) fn lines_text<T: FileTree>(
    alloc: Global,
    world: &mut World<T>,
    requests: &[Request],
    answers: &[Answer],
    places: &[usize],
    watches: &mut Watches<'_>,
) -> Result<String, OutOfMemory>
    ensures text { IfOk result (λ text. answers.now ≡ (run_to world.old requests.now).0 →
        AreWatched world.old.table (world_of world.old) [] requests.now watches.old →
        ArePlacesOf watches.old.watches.items 0 requests.now answers.now places.now →
        string_bytes text ≡ flat_map with_end
        (why_lines world.old.table (world_of world.old) [] 1 requests.now)) }
    ensures watched { OnOk result (answers.now ≡ (run_to world.old requests.now).0 →
        AreWatched world.old.table (world_of world.old) [] requests.now watches.old →
        AreWatched world.old.table (world_of world.old) requests.now [] watches.new) }
    ensures world { OnOk result (answers.now ≡ (run_to world.old requests.now).0 →
        world.new ≡ state_after_all world.old requests.now) }
    ensures kept { OnOk result (IsKeptThrough watches.old.watches.items
        watches.new.watches.items) }
{
    let mut text = String::new(alloc);
    let mut left = places.iter();
    for (done, (request, answer)) in requests.iter().zip(answers).enumerate() {
        let line = next_line(watches, *answer, &mut left);
        let number = done + 1;
        push_line(alloc, &mut text, number, world, request, *answer, line)?;
        watches.serve(alloc, world, request, *answer, number)?;
    }
    Ok(text)
}

/// Since which line the next of these questions has its answer, which is asked about a request with
/// this answer; None where that is `ok`, so that it has no question.
fn next_line(watches: &Watches<'_>, answer: Answer, left: &mut Iter<'_, usize>) -> Option<usize>
    ensures line { result ≡ question_line watches.now.watches.items answer (iter_rest left.old) }
    ensures left { iter_rest left.new ≡ places_left answer (iter_rest left.old) }
{
    match answer {
        Answer::Okay => None,
        _ => watches.line(*left.next()?),
    }
}

/// Adds the line of the request with this number, unless nobody asks there.
fn push_line<T: FileTree>(
    alloc: Global,
    text: &mut String,
    number: usize,
    world: &World<T>,
    request: &Request,
    answer: Answer,
    line: Option<usize>,
) -> Result<(), AllocError>
    ensures { OnOk result (answer ≡ (apply_to world.now request.now).0 →
        string_bytes text.new ≡ string_bytes text.old ++ flat_map with_end (line_said request.now
        (decimal number ++ 32 ∷ (answer_words world.now.table (world_of world.now) request.now
        ++ reason_tail world.now.table (world_of world.now) request.now
        (date_of (reason world.now.table (world_of world.now) request.now) line))))) }
{
    if request.says_nothing() {
        return Ok(());
    }
    push_request(alloc, text, number, world, request, answer, line)
}

/// Adds the line of a request with this number.
fn push_request<T: FileTree>(
    alloc: Global,
    text: &mut String,
    number: usize,
    world: &World<T>,
    request: &Request,
    answer: Answer,
    line: Option<usize>,
) -> Result<(), AllocError>
    ensures { OnOk result (answer ≡ (apply_to world.now request.now).0 →
        string_bytes text.new ≡ string_bytes text.old ++ with_end (decimal number ++ 32 ∷
        (answer_words world.now.table (world_of world.now) request.now
        ++ reason_tail world.now.table (world_of world.now) request.now
        (date_of (reason world.now.table (world_of world.now) request.now) line)))) }
{
    let mut digits = Buffer::new();
    text.push_str(digits.format(number))?;
    text.push_str(" ")?;
    let (process, action) = (request.process(), request.action());
    push_answer(alloc, text, world, process, action, answer, line)?;
    text.push_str("\n")
}

/// The text of a run of a script with reasons: a line for each of its requests, with its number,
/// what it is answered, and if that is not `ok`, why, and since which line the reason holds, unless
/// it held from the start; and else by which promise it was opened, if one opened it. The script was
/// read from these bytes, and its requests were answered so, in a world as this one, which serves
/// them. The only error is that a growth was refused.
pub fn reason_text<T: FileTree>(
    alloc: Global,
    world: &mut World<T>,
    script_bytes: &[u8],
    requests: &[Request],
    answers: &[Answer],
) -> Result<String, OutOfMemory>
    ensures { IfOk result (λ text. (rules : Rules) →
        script_by rules script_bytes.now ≡ Ok requests.now →
        answers.now ≡ (run_to world.old requests.now).0 →
        string_bytes text ≡ flat_map with_end
        (why_lines world.old.table (world_of world.old) [] 1 requests.now)) }
{
    let mut watches = Watches::new(alloc, requests, answers)?;
    let places = watch_lines(alloc, world, script_bytes, requests, answers, &mut watches)?;
    lines_text(
        alloc,
        world,
        requests,
        answers,
        places.as_slice(),
        &mut watches,
    )
}
