//! Answers with their reasons, as they are written.

ghost use Rattle.std.specs.Prelude.{◌≡◌, ◌++◌, codes, OnOk, string_bytes};
ghost use Rattle.pua_script.specs.Worlds.{apply_to, world_of};
ghost use Rattle.pua_why.specs.Openings.{opener, opener_text};
ghost use Rattle.pua_why.specs.Reasons.{reason};
ghost use Rattle.pua_why.specs.Seen.{reason_seen};
ghost use Rattle.pua_why.specs.Texts.{answer_words, date_of, reason_tail, reason_text, since_text};
ghost use Rattle.pua_why.specs.Texts.{spaced_words};

use pua_script::{Action, Answer, World};
use pua_tree::FileTree;
use pua_why::{Fault, Reason, TreePaths, opener, push_opener, push_reason, push_since, reason};
use std::alloc::{AllocError, Global};
use std::fmt::Write;

/// Adds what a request is answered in a world: if that is `ok`, by which promise it was opened, if
/// one opened it; and else why, and since which line, if there is one.
pub(crate) fn push_answer<T: FileTree>(
    alloc: Global,
    text: &mut String,
    world: &World<T>,
    process: u32,
    action: &Action,
    answer: Answer,
    line: Option<usize>,
) -> Result<(), AllocError>
    ensures { OnOk result
        (answer ≡ (apply_to world.now (record { process = process; action = action.now })).0 →
        string_bytes text.new ≡ string_bytes text.old
        ++ (answer_words world.now.table (world_of world.now)
        (record { process = process; action = action.now })
        ++ reason_tail world.now.table (world_of world.now)
        (record { process = process; action = action.now })
        (date_of (reason world.now.table (world_of world.now)
        (record { process = process; action = action.now })) line))) }
{
    match answer {
        Answer::Okay => push_okay(alloc, text, world, process, action),
        _ => push_undone(alloc, text, world, process, action, answer, line),
    }
}

/// Adds what a request is answered that is not done, why, and since which line, if there is one.
fn push_undone<T: FileTree>(
    alloc: Global,
    text: &mut String,
    world: &World<T>,
    process: u32,
    action: &Action,
    answer: Answer,
    line: Option<usize>,
) -> Result<(), AllocError>
    ensures { OnOk result
        (answer ≡ (apply_to world.now (record { process = process; action = action.now })).0 →
        string_bytes text.new ≡ string_bytes text.old
        ++ (answer_words world.now.table (world_of world.now)
        (record { process = process; action = action.now })
        ++ since_text (date_of (reason world.now.table (world_of world.now)
        (record { process = process; action = action.now })) line))) }
{
    let Ok(reason) = reason(alloc, world, process, action, answer) else {
        return Err(AllocError);
    };
    write!(text, "{answer}")?;
    push_words(alloc, text, world, &reason)?;
    push_since(text, date_of(&reason, line))
}

/// Adds that a request is done, and by which promise it was opened, if one opened it.
fn push_okay<T: FileTree>(
    alloc: Global,
    text: &mut String,
    world: &World<T>,
    process: u32,
    action: &Action,
) -> Result<(), AllocError>
    ensures { OnOk result (string_bytes text.new ≡ string_bytes text.old ++ (codes "ok"
        ++ opener_text (opener world.now.table (world_of world.now)
        (record { process = process; action = action.now })))) }
{
    let Ok(promise) = opener(alloc, world, process, action) else {
        return Err(AllocError);
    };
    text.push_str("ok")?;
    push_opener(text, promise)
}

/// Adds the words of a reason, by the paths of a world's tree, with a blank before them, if it has
/// any.
fn push_words<T: FileTree>(
    alloc: Global,
    text: &mut String,
    world: &World<T>,
    reason: &Reason<'_>,
) -> Result<(), AllocError>
    ensures { OnOk result (string_bytes text.new ≡ string_bytes text.old
        ++ spaced_words (reason_text world.now.tree (reason_seen reason.now))) }
{
    // These have no path, and a script may have many: no room for names is taken for them.
    match reason {
        Reason::NeverMade => return text.push_str(" never made"),
        Reason::Ended => return text.push_str(" ended"),
        Reason::Refused(_) | Reason::Granted => {}
    }
    let Ok(mut paths) = TreePaths::new(alloc, world.tree()) else {
        return Err(AllocError);
    };
    let mut words = String::new(alloc);
    push_reason(alloc, &mut words, &mut paths, reason)?;
    push_spaced(text, words.as_str())
}

/// Adds words with a blank before them, if there are any.
fn push_spaced(text: &mut String, words: &str) -> Result<(), AllocError>
    ensures { OnOk result
        (string_bytes text.new ≡ string_bytes text.old ++ spaced_words words.now) }
{
    if words.is_empty() {
        return Ok(());
    }
    text.push_str(" ")?;
    text.push_str(words)
}

/// Since which line a reason holds. That a process was never made held from the start, and a full
/// tree has no such line.
fn date_of(reason: &Reason<'_>, line: Option<usize>) -> Option<usize>
    ensures { result ≡ date_of (reason_seen reason.now) line }
{
    match reason {
        Reason::Granted | Reason::NeverMade | Reason::Refused(Fault::NoRoom) => None,
        Reason::Ended | Reason::Refused(_) => line,
    }
}
