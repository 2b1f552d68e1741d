//! The text of the lists of processes with reasons.

ghost use Rattle.std.specs.Prelude.{◌≡◌, ◌++◌, Ok};
ghost use Rattle.pua_script.specs.Scripts.{script_by};
ghost use Rattle.pua_tool.specs.Texts.{choice_of};
ghost use Rattle.pua_tool.specs.TwoWorlds.{IsTwoWorlds, as_served};
ghost use Rattle.pua_texts.specs.WhyLines.{why_lists_of};
ghost use Rattle.pua_tool.specs.Answers.{AnswersTo};
ghost use Rattle.pua_tool.specs.WhyTexts.{objects_why_text, reason_lines, why_lists_asked};

use crate::fault::WriteFault;
use crate::objects::{numbers_of, put_lists};
use crate::table::TableChoice;
use crate::two_worlds::{TwoWorlds, two_worlds};
use pua_calls::Rules;
use pua_io::Sink;
use pua_since::{dated_text, veils_of};
use pua_texts::begin_reasons;
use pua_words::Processes;
use std::alloc::Global;

/// Writes the lists of processes with reasons, one after another.
#[tactic(auto, unfolding(crate::specs::WhyTexts::objects_why_text))]
pub(crate) fn objects_why_to<S: Sink>(
    alloc: Global,
    tree_bytes: &[u8],
    script_bytes: &[u8],
    table: TableChoice<'_>,
    whose: &Processes,
    sink: &mut S,
) -> Result<(), WriteFault>
    ensures text { AnswersTo S.written S.failed
        (objects_why_text (choice_of table.entry) tree_bytes.now script_bytes.now whose.now)
        result sink.old sink.new }
{
    let mut worlds = two_worlds(alloc, tree_bytes, script_bytes, table)?;
    let written = write_asked(alloc, script_bytes, &mut worlds, table.rules, whose, sink);
    worlds.release();
    written
}

/// Writes the lines of a script with reasons, and then the lists of the processes that are asked
/// for.
fn write_asked<S: Sink>(
    alloc: Global,
    script_bytes: &[u8],
    worlds: &mut TwoWorlds,
    rules: Rules,
    whose: &Processes,
    sink: &mut S,
) -> Result<(), WriteFault>
    ensures { script_by rules script_bytes.now ≡ Ok worlds.old.script → IsTwoWorlds worlds.old →
        AnswersTo S.written S.failed (why_lists_asked rules (as_served worlds.old) whose.now)
        result sink.old sink.new }
{
    let numbers = numbers_of(alloc, &worlds.after, whose)?;
    write_all(alloc, script_bytes, worlds, rules, numbers.as_slice(), sink)
}

/// Writes the lines of a script with reasons, and then the lists of these processes.
fn write_all<S: Sink>(
    alloc: Global,
    script_bytes: &[u8],
    worlds: &mut TwoWorlds,
    rules: Rules,
    numbers: &[u32],
    sink: &mut S,
) -> Result<(), WriteFault>
    ensures { script_by rules script_bytes.now ≡ Ok worlds.old.script → IsTwoWorlds worlds.old →
        AnswersTo S.written S.failed (Ok (reason_lines (as_served worlds.old)
        ++ why_lists_of rules (as_served worlds.old) numbers.now)) result sink.old sink.new }
{
    let (requests, answers) = (worlds.script.requests(), worlds.answers.as_slice());
    let veils = veils_of(alloc, &worlds.after, numbers)?;
    let veils = veils.as_slice();
    let (front, lines) = dated_text(
        alloc,
        &mut worlds.before,
        script_bytes,
        requests,
        answers,
        veils,
    )?;
    let lists = begin_reasons(alloc, &worlds.after, rules, numbers, lines.as_slice())?;
    put_lists(alloc, worlds.after.tree(), front.as_str(), lists, sink)
}
