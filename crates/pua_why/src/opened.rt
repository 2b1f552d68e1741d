//! Which promise opens what a process would be refused else, and answers that are told with it.

ghost use Rattle.std.specs.Prelude.{◌≡◌, ◌++◌, IfOk, map, OnErr, OnOk, option_map, Some};
ghost use Rattle.std.specs.Prelude.{string_bytes};
ghost use Rattle.pua_script.specs.AnswerTexts.{answer_text as answer_word};
ghost use Rattle.pua_script.specs.Openings.{opening_of, opening_seen};
ghost use Rattle.pua_script.specs.Worlds.{apply_to, state_after_all, world_of};
ghost use Rattle.pua_why.specs.Openings.{if_okay, opener, opener_by, opener_on, ServesFirst};
ghost use Rattle.pua_why.specs.Openings.{opener_text, told_line, told_text, told_to};
ghost use Rattle.pua_why.specs.Seen.{line_seen, told_seen};

use crate::checks::call_fault;
use pua_calls::{Call, CallTable};
use pua_path::Links;
use pua_policy::Process;
use pua_script::{Action, Answer, Opening, Request, Script, World, opening_of};
use pua_tree::{FileTree, OutOfMemory};
use std::alloc::{AllocError, Global};
use std::fmt::Write;

/// What a request is answered, and what opened it.
#[derive(Clone, Copy)]
pub struct ToldAnswer {
    /// The answer.
    pub answer: Answer,
    /// The keyword of the promise by which the request was let through, where it is refused without
    /// openings. By the standard rules none is.
    pub opener: Option<&'static str>,
}

/// Serves the requests of a script in their order, as [`World::run`] does, and tells for each line
/// its answer with the promise that opened it, None where nobody asks. `OutOfMemory` where a growth
/// was refused: some of the first requests were then served.
pub fn run_told<T: FileTree>(
    alloc: Global,
    world: &mut World<T>,
    script: &Script,
) -> Result<Vec<Option<ToldAnswer>>, OutOfMemory>
    ensures told { IfOk result (λ told. map line_seen told.items
        ≡ told_to world.old.table (world_of world.old) script.now) }
    ensures left { OnOk result (world.new ≡ state_after_all world.old script.now) }
    ensures in_part { OnErr result (ServesFirst world.old script.now world.new) }
{
    let requests = script.requests();
    let mut answers = Vec::with_capacity(alloc, requests.len())?;
    for request in requests {
        let told = serve_told(alloc, world, request)?;
        answers.push(told)?;
    }
    Ok(answers)
}

/// Serves one request, and tells its answer with the promise that opened it, None where nobody asks.
/// `OutOfMemory` where a growth was refused; the world is then as it was.
pub fn serve_told<T: FileTree>(
    alloc: Global,
    world: &mut World<T>,
    request: &Request,
) -> Result<Option<ToldAnswer>, OutOfMemory>
    ensures told { IfOk result (λ told.
        line_seen told ≡ told_line world.old.table (world_of world.old) request.now) }
    ensures left { OnOk result (world.new ≡ (apply_to world.old request.now).1) }
    ensures unchanged { OnErr result (world.new ≡ world.old) }
{
    let promise = opener(alloc, world, request.process(), request.action())?;
    let Ok(answer) = world.apply(request) else {
        return Err(OutOfMemory);
    };
    if request.says_nothing() {
        return Ok(None);
    }
    Ok(Some(ToldAnswer {
        answer,
        opener: if_okay(answer, promise),
    }))
}

/// Adds an answer, and by which promise it was opened.
pub fn push_told(text: &mut String, told: &ToldAnswer) -> Result<(), AllocError>
    ensures { OnOk result (string_bytes text.new
        ≡ string_bytes text.old ++ told_text (told_seen told.now)) }
{
    push_word(text, told.answer)?;
    push_opener(text, told.opener)
}

/// Adds what a request was answered. Most were done, so that is copied and not displayed.
fn push_word(text: &mut String, answer: Answer) -> Result<(), AllocError>
    ensures { OnOk result (string_bytes text.new ≡ string_bytes text.old ++ answer_word answer) }
{
    match answer {
        Answer::Okay => text.push_str("ok"),
        _ => write!(text, "{answer}"),
    }
}

/// Adds by which promise a request was opened, if one opened it.
pub fn push_opener(text: &mut String, promise: Option<&'static str>) -> Result<(), AllocError>
    ensures { OnOk result (string_bytes text.new ≡ string_bytes text.old
        ++ opener_text (option_map (λ keyword. keyword.now) promise.entry)) }
{
    match promise {
        Some(promise) => write!(text, " by {promise}"),
        None => Ok(()),
    }
}

/// By which promise a request would be opened, if a process of this number asked it now and nothing
/// else refused it: the promise of its opening, where without openings it is refused. The only error
/// is that a growth was refused.
pub fn opener<T: FileTree>(
    alloc: Global,
    world: &World<T>,
    number: u32,
    action: &Action,
) -> Result<Option<&'static str>, OutOfMemory>
    ensures { IfOk result (λ promise. option_map (λ keyword. keyword.now) promise
        ≡ opener world.now.table (world_of world.now)
        (record { process = number; action = action.now })) }
{
    if !world.table().rules().has_openings() {
        return Ok(None);
    }
    match world.process(number) {
        Some(process) => opener_on(alloc, world.tree(), world.table(), process, action),
        None => Ok(None),
    }
}

/// The same of a process.
fn opener_on<T: FileTree>(
    alloc: Global,
    tree: &T,
    table: &CallTable,
    process: &Process,
    action: &Action,
) -> Result<Option<&'static str>, OutOfMemory>
    ensures { IfOk result (λ promise. option_map (λ keyword. keyword.now) promise
        ≡ opener_on table.now (T.content tree.now) action.now process.now) }
{
    match action {
        Action::OnPath(call, path) => {
            opener_asked(alloc, tree, table, process, *call, path.bytes())
        }
        Action::Hold { call, path, .. } => {
            opener_asked(alloc, tree, table, process, *call, path.bytes())
        }
        _ => Ok(None),
    }
}

/// The same of a call on a path.
fn opener_asked<T: FileTree>(
    alloc: Global,
    tree: &T,
    table: &CallTable,
    process: &Process,
    call: Call,
    path: &[u8],
) -> Result<Option<&'static str>, OutOfMemory>
    ensures { IfOk result (λ promise. option_map (λ keyword. keyword.now) promise
        ≡ opener_by table.now (T.content tree.now) process.now call path.now
        (opening_of table.now process.now call path.now)) }
{
    match opening_of(table, process, call, path) {
        Some(row) => opener_past(alloc, tree, table, process, call, path, row),
        None => Ok(None),
    }
}

/// The promise of an opening, where the call is refused without openings. Most requests have no
/// opening, and room for links is taken only for one that has.
fn opener_past<T: FileTree>(
    alloc: Global,
    tree: &T,
    table: &CallTable,
    process: &Process,
    call: Call,
    path: &[u8],
    row: &Opening,
) -> Result<Option<&'static str>, OutOfMemory>
    ensures { IfOk result (λ promise. option_map (λ keyword. keyword.now) promise
        ≡ opener_by table.now (T.content tree.now) process.now call path.now
        (Some (opening_seen row.now))) }
{
    let mut links = Links::new(alloc)?;
    Ok(opener_by(tree, table, process, call, path, row, &mut links))
}

/// The promise of an opening, where the call is refused without openings.
#[tactic(auto, using(crate::proofs::Openers::let_through))]
fn opener_by<T: FileTree>(
    tree: &T,
    table: &CallTable,
    process: &Process,
    call: Call,
    path: &[u8],
    row: &Opening,
    links: &mut Links,
) -> Option<&'static str>
    ensures { option_map (λ promise. promise.now) result ≡ opener_by table.now
        (T.content tree.now) process.now call path.now (Some (opening_seen row.now)) }
{
    match call_fault(tree, table, process, call, path, links) {
        None => None,
        Some(_) => Some(row.promise),
    }
}

/// A promise, if it is told of an answer: only what is answered `ok` was opened.
fn if_okay(answer: Answer, promise: Option<&'static str>) -> Option<&'static str>
    ensures { option_map (λ keyword. keyword.now) result
        ≡ if_okay answer (option_map (λ keyword. keyword.now) promise.entry) }
{
    match answer {
        Answer::Okay => promise,
        _ => None,
    }
}
