//! The text of the lists of processes with what they were before each program that they started.

ghost use Rattle.std.specs.Prelude.{◌≡◌, ◌++◌, map, Ok, IfOk, OnOk};
ghost use Rattle.pua_script.specs.Family.{is_exec, is_member};
ghost use Rattle.pua_script.specs.Worlds.{run_to, world_of};
ghost use Rattle.pua_why.specs.Openings.{told_to};
ghost use Rattle.pua_why.specs.Seen.{line_seen};
ghost use Rattle.pua_texts.specs.Lines.{answer_lines};
ghost use Rattle.pua_texts.specs.ObjectLines.{image_list_of};
ghost use Rattle.pua_tool.specs.Answers.{AnswersTo};
ghost use Rattle.pua_tool.specs.ImageTexts.{image_if, images_after, images_asked, images_from};
ghost use Rattle.pua_tool.specs.ImageTexts.{images_text, is_replaced};
ghost use Rattle.pua_tool.specs.Texts.{choice_of};
ghost use Rattle.pua_tool.specs.TwoWorlds.{IsTwoWorlds, as_served};

use crate::fault::WriteFault;
use crate::kept_text::KeptText;
use crate::objects::{numbers_of, put_behind};
use crate::script::ProgramTree;
use crate::table::TableChoice;
use crate::two_worlds::{TwoWorlds, two_worlds};
use pua_calls::{Call, Rules};
use pua_io::Sink;
use pua_script::{Action, Answer, Request, World};
use pua_texts::{answer_text, begin_image, begin_objects, write_lists};
use pua_tree::OutOfMemory;
use pua_why::{ToldAnswer, serve_told};
use pua_words::Processes;
use std::alloc::Global;

/// Writes the lists of processes as they were before each program that they started, in the order
/// of the script's lines, and then those of now.
#[tactic(auto, unfolding(crate::specs::ImageTexts::images_text))]
pub(crate) fn images_to<S: Sink>(
    alloc: Global,
    tree_bytes: &[u8],
    script_bytes: &[u8],
    table: TableChoice<'_>,
    whose: &Processes,
    sink: &mut S,
) -> Result<(), WriteFault>
    ensures text { AnswersTo S.written S.failed
        (images_text (choice_of table.entry) tree_bytes.now script_bytes.now whose.now)
        result sink.old sink.new }
{
    let mut worlds = two_worlds(alloc, tree_bytes, script_bytes, table)?;
    let written = write_asked(alloc, &mut worlds, table.rules, whose, sink);
    worlds.release();
    written
}

/// Writes the lists of the processes that are asked for.
fn write_asked<S: Sink>(
    alloc: Global,
    worlds: &mut TwoWorlds,
    rules: Rules,
    whose: &Processes,
    sink: &mut S,
) -> Result<(), WriteFault>
    ensures { IsTwoWorlds worlds.old → AnswersTo S.written S.failed
        (images_asked rules (as_served worlds.old) whose.now) result sink.old sink.new }
{
    let numbers = numbers_of(alloc, &worlds.after, whose)?;
    write_all(alloc, worlds, rules, numbers.as_slice(), sink)
}

/// Writes the lists of these processes, which were made.
fn write_all<S: Sink>(
    alloc: Global,
    worlds: &mut TwoWorlds,
    rules: Rules,
    numbers: &[u32],
    sink: &mut S,
) -> Result<(), WriteFault>
    ensures { IsTwoWorlds worlds.old → AnswersTo S.written S.failed
        (Ok (images_after rules (as_served worlds.old) numbers.now)) result sink.old sink.new }
{
    let (requests, answers) = (worlds.script.requests(), worlds.answers.as_slice());
    let front = front_of(alloc, &mut worlds.before, rules, numbers, requests, answers)?;
    let lists = begin_objects(alloc, &worlds.after, rules, numbers)?;
    put_behind(alloc, worlds.after.tree(), front.as_slice(), lists, sink)
}

/// What stands before the lists of now: the answers to these requests, which this world serves, and
/// the lists of these processes as they were. The only error is that a growth was refused.
fn front_of(
    alloc: Global,
    world: &mut World<ProgramTree>,
    rules: Rules,
    numbers: &[u32],
    requests: &[Request],
    answers: &[Answer],
) -> Result<Vec<u8>, OutOfMemory>
    ensures { IfOk result (λ front. answers.now ≡ (run_to world.old requests.now).0 →
        front.items ≡ answer_lines 1 (told_to world.old.table (world_of world.old) requests.now)
        ++ images_from rules world.old.table (world_of world.old) numbers.now 1 requests.now) }
{
    let bytes = Vec::new(alloc);
    let mut images = KeptText { bytes, failed: 0 };
    let told = add_images(alloc, &mut images, world, rules, numbers, requests, answers)?;
    let lines = answer_text(alloc, told.as_slice())?;
    let mut front = Vec::from_slice(alloc, lines.as_bytes())?;
    front.extend_from_slice(images.bytes.as_slice())?;
    Ok(front)
}

/// Adds the lists of these processes as they were before those of these requests by which they are
/// replaced, and answers what the requests were answered, each with what opened it. The world is the
/// one before them, and serves them; these are their answers.
fn add_images(
    alloc: Global,
    text: &mut KeptText,
    world: &mut World<ProgramTree>,
    rules: Rules,
    numbers: &[u32],
    requests: &[Request],
    answers: &[Answer],
) -> Result<Vec<Option<ToldAnswer>>, OutOfMemory>
    ensures shown { OnOk result (answers.now ≡ (run_to world.old requests.now).0 →
        text.new.bytes.items ≡ text.old.bytes.items
        ++ images_from rules world.old.table (world_of world.old) numbers.now 1 requests.now) }
    ensures told { IfOk result (λ told. answers.now ≡ (run_to world.old requests.now).0 →
        map line_seen told.items ≡ told_to world.old.table (world_of world.old) requests.now) }
{
    let mut told = Vec::with_capacity(alloc, requests.len())?;
    for (done, (request, answer)) in requests.iter().zip(answers).enumerate() {
        let line = done + 1;
        add_image_of(alloc, text, world, rules, numbers, request, *answer, line)?;
        let said = serve_told(alloc, world, request)?;
        told.push(said)?;
    }
    Ok(told)
}

/// Adds the list of the process that is replaced by this request, with this answer, if it is one of
/// these. The only error is that a growth was refused.
fn add_image_of(
    alloc: Global,
    text: &mut KeptText,
    world: &World<ProgramTree>,
    rules: Rules,
    numbers: &[u32],
    request: &Request,
    answer: Answer,
    line: usize,
) -> Result<(), OutOfMemory>
    ensures { OnOk result (text.new.bytes.items ≡ text.old.bytes.items
        ++ image_if (is_replaced numbers.now request.now answer)
        (image_list_of line rules world.now.table (world_of world.now) request.now.process)) }
{
    if is_replaced(numbers, request, answer) {
        return add_image(alloc, text, world, rules, request.process(), line);
    }
    Ok(())
}

/// Whether one of these processes starts a program by this request, with this answer.
fn is_replaced(numbers: &[u32], request: &Request, answer: Answer) -> bool
    ensures { result ≡ is_replaced numbers.now request.now answer }
{
    is_exec(request.action()) && answer == Answer::Okay && is_member(numbers, request.process())
}

fn is_exec(action: &Action) -> bool
    ensures { result ≡ is_exec action.now }
{
    matches!(action, Action::OnPath(Call::Exec, _))
}

fn is_member(numbers: &[u32], process: u32) -> bool
    ensures { result ≡ is_member numbers.now process }
{
    numbers.iter().any(|number| *number == process)
}

/// Adds the list of a process as it is before the line with this number. The only error is that a
/// growth was refused.
fn add_image(
    alloc: Global,
    text: &mut KeptText,
    world: &World<ProgramTree>,
    rules: Rules,
    number: u32,
    line: usize,
) -> Result<(), OutOfMemory>
    ensures { OnOk result (text.new.bytes.items ≡ text.old.bytes.items
        ++ image_list_of line rules world.now.table (world_of world.now) number) }
{
    let lists = begin_image(alloc, world, rules, number, line)?;
    match write_lists(alloc, world.tree(), &[], lists, text) {
        Ok(()) => Ok(()),
        Err(_) => Err(OutOfMemory),
    }
}
