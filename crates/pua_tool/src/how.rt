//! The text of a way to what a process can ever touch.

ghost use Rattle.std.specs.Prelude.{◌≡◌, ◌≢◌, ◌++◌, ℕ, List, None, Ok, Err, IfErr, IfOk, OnOk};
ghost use Rattle.std.specs.Prelude.{Result, false, flat_map, map, string_bytes};
ghost use Rattle.pua_calls.specs.TmpTable.{tmp_table};
ghost use Rattle.pua_texts.specs.Lines.{with_end};
ghost use Rattle.pua_how.specs.Outlooks.{IsOutlook};
ghost use Rattle.pua_how.specs.Steps.{NoneComes};
ghost use Rattle.pua_script.specs.Replay.{kept_at};
ghost use Rattle.pua_tool.specs.Answers.{AnswersTo};
ghost use Rattle.pua_tool.specs.Begun.{as_replayed};
ghost use Rattle.pua_tool.specs.HowTexts.{IsHowAsked, IsHowText, follows_link as is_link_followed};
ghost use Rattle.pua_tool.specs.HowTexts.{question_of};
ghost use Rattle.pua_tool.specs.HowTexts.{things_asked, told_without, way_wanted};
ghost use Rattle.pua_tool.specs.Questions.{AreMeant, AreWayTo, IsQuestion, found_text};
ghost use Rattle.pua_tool.specs.Texts.{choice_of};

use crate::ever_fault::reason_of;
use crate::fault::{ToolFault, WriteFault};
use crate::objects::put_text;
use crate::script::{Replay, replay_script};
use crate::table::TableChoice;
use pua_calls::{Call, CallTable, Rules};
use pua_ever::{ExecBound, bounded_exec, list_lasting, why_refused};
use pua_how::{
    Meant, NoWay, Outlook, PathQuestion, Planner, Target, WayLine, find_meant, find_outlook,
};
use pua_io::Sink;
use pua_path::Last;
use pua_policy::Process;
use pua_tree::{FileTree, Kind, OutOfMemory};
use pua_words::HowWords;
use std::alloc::{AllocError, Global};

/// Writes a way by which a process comes to a call on something, where the script has been served:
/// lines of a script, each of this process, each answered `ok` after the script and the lines
/// before it, none an exec but the last one, which is the call, on a path that leads to what was
/// asked about wherever that is then. What is asked about is what a line of the list for ever is
/// about, by the path that the line has: what stands there, by any of its names, or the missing
/// name; where several are meant, any of them, or that of the kind that is given. Without a way it
/// writes one line: `never`, where no line of the list for ever about it has the call, and so none
/// ever comes; `never before an exec`, where the list holds until a program is started; or `no way
/// found`, where a line has the call, and none of the plans that were laid comes to it, which says
/// nothing of other ways.
///
/// The first that holds of `Table`, `Listing`, `Script`, `NoProcess`, `CanUnveil`, `LacksC`,
/// `RenameLacksC`, `LinkLacksC`, `HowCall`, `HowPath`, `HowThing` and `HowLink` is answered before
/// anything is written. So is `OutOfMemory`, wherever a growth was refused. `Put` is answered only
/// where a put failed in this call, and a front of the text is then written.
pub fn how_to<S: Sink>(
    alloc: Global,
    tree_bytes: &[u8],
    script_bytes: &[u8],
    table: TableChoice<'_>,
    words: &HowWords<'_>,
    sink: &mut S,
) -> Result<(), WriteFault>
    ensures text { (answer : Result (List ℕ) ToolFault)
        × IsHowText (choice_of table.entry) tree_bytes.now script_bytes.now (way_wanted words.now) answer
        × AnswersTo S.written S.failed answer result sink.old sink.new }
{
    let text = how_text(alloc, tree_bytes, script_bytes, table, words)?;
    put_text(text.as_str(), sink)
}

/// The text.
fn how_text(
    alloc: Global,
    tree_bytes: &[u8],
    script_bytes: &[u8],
    table: TableChoice<'_>,
    words: &HowWords<'_>,
) -> Result<String, ToolFault>
    ensures done { IfOk result (λ text. IsHowText (choice_of table.entry) tree_bytes.now
        script_bytes.now (way_wanted words.now) (Ok (string_bytes text))) }
    ensures refused { IfErr result (λ fault. fault ≢ ToolFault.OutOfMemory →
        IsHowText (choice_of table.entry) tree_bytes.now script_bytes.now (way_wanted words.now)
        (Err fault)) }
{
    let replay = replay_script(alloc, tree_bytes, script_bytes, table)?;
    let text = text_behind(alloc, &replay, table.rules, words);
    replay.release();
    text
}

/// The text where a replay ends, in lines that are read by these rules.
fn text_behind(
    alloc: Global,
    replay: &Replay,
    rules: Rules,
    words: &HowWords<'_>,
) -> Result<String, ToolFault>
    ensures done { IfOk result (λ text. IsHowAsked rules (as_replayed replay.now)
        (way_wanted words.now) (Ok (string_bytes text))) }
    ensures refused { IfErr result (λ fault. fault ≢ ToolFault.OutOfMemory →
        IsHowAsked rules (as_replayed replay.now) (way_wanted words.now) (Err fault)) }
{
    let question = asked_of(alloc, replay, words)?;
    if !question.outlook.listed {
        return Ok(never_text(alloc, question.outlook.execs)?);
    }
    let found = find(alloc, replay, rules, words.process, &question)?;
    Ok(told(alloc, &found)?)
}

/// What is asked about after a script, with what the list for ever says of it.
#[derive(Drop)]
pub(crate) struct HowQuestion {
    pub(crate) call: Call,
    pub(crate) meant: Meant,
    pub(crate) outlook: Outlook,
}

/// What is asked about where a replay ends.
fn asked_of(alloc: Global, replay: &Replay, words: &HowWords<'_>) -> Result<HowQuestion, ToolFault>
    ensures asked { IfOk result (λ question.
        IsQuestion (as_replayed replay.now) (way_wanted words.now) question) }
    ensures refused { IfErr result (λ fault. fault ≢ ToolFault.OutOfMemory → (last : ℕ)
        × (question_of (as_replayed replay.now) (way_wanted words.now) last ≡ Err fault)) }
{
    let world = &replay.world;
    let Some(process) = world.process(words.process) else {
        return Err(ToolFault::NoProcess);
    };
    let (tree, table) = (world.tree(), world.table());
    if let Some(reason) = why_refused(process, table) {
        return Err(reason_of(words.process, reason));
    }
    let Some(call) = table.call_named(words.call) else {
        return Err(ToolFault::HowCall);
    };
    let meant = meant_by(alloc, tree, process, words)?;
    let things = meant.targets.as_slice();
    if follows_link(tree, call, things) {
        return Err(ToolFault::HowLink(call));
    }
    let outlook = outlook_of(alloc, tree, process, table, things, call)?;
    Ok(HowQuestion {
        call,
        meant,
        outlook,
    })
}

/// All that may be meant, if something is.
fn meant_by<T: FileTree>(
    alloc: Global,
    tree: &T,
    process: &Process,
    words: &HowWords<'_>,
) -> Result<Meant, ToolFault>
    ensures meant { IfOk result (λ meant.
        AreMeant (T.content tree.now) process.now (way_wanted words.now) meant.targets.items) }
    ensures refused { IfErr result (λ fault. fault ≢ ToolFault.OutOfMemory →
        (last : ℕ)
        × (things_asked (T.content tree.now) process.now (way_wanted words.now) last ≡ Err fault)) }
{
    let Some(asking) = PathQuestion::read(alloc, words.path)? else {
        return Err(ToolFault::HowPath);
    };
    let meant = find_meant(alloc, tree, process, &asking, words.kind)?;
    if meant.targets.is_empty() {
        return Err(ToolFault::HowThing);
    }
    Ok(meant)
}

/// Whether a link is meant and the call is on the link's target. Of what a name may mean, what
/// stands there is the first.
fn follows_link<T: FileTree>(tree: &T, call: Call, things: &[Target]) -> bool
    ensures { result ≡ is_link_followed (T.content tree.now) call things.now }
{
    let is_link = match things.first() {
        Some(Target::Node(node)) => matches!(tree.kind(*node), Some(Kind::Link)),
        Some(Target::NewLink(_)) => true,
        _ => false,
    };
    is_link && matches!(call.last(), Last::Followed)
}

/// What the list for ever says about the thing, which goes by the table with tmppath. The only
/// error is that a growth was refused: where there is a list.
fn outlook_of<T: FileTree>(
    alloc: Global,
    tree: &T,
    process: &Process,
    table: &CallTable,
    things: &[Target],
    call: Call,
) -> Result<Outlook, OutOfMemory>
    ensures { IfOk result (λ found.
        IsOutlook (T.content tree.now) (tmp_table table.now) process.now things.now call found) }
{
    let wide = table.with_tmppath();
    let both = bounded_exec(alloc, process, &wide)?;
    let Ok(list) = list_lasting(alloc, tree, process, both.as_ref(), &wide) else {
        return Err(OutOfMemory);
    };
    Ok(find_outlook(tree, &list, things, call))
}

/// A way to what is asked about, after the script; [`NoWay`] exactly where none of the plans that
/// are laid is one. `NoProcess` where the process was never made, and `OutOfMemory` where a growth
/// was refused.
pub(crate) fn find(
    alloc: Global,
    replay: &Replay,
    rules: Rules,
    number: u32,
    question: &HowQuestion,
) -> Result<Result<Vec<WayLine>, NoWay>, ToolFault>
    ensures way { IfOk result (λ found. IfOk found (λ lines.
        AreWayTo rules (as_replayed replay.now) number question.now lines.items)) }
    ensures none { IfOk result (λ found. IfErr found (NoneComes rules
        (as_replayed replay.now).table number question.now.call question.now.meant.targets.items
        (as_replayed replay.now).world)) }
    ensures refused { IfErr result (λ fault. fault ≢ ToolFault.OutOfMemory →
        (fault ≡ ToolFault.NoProcess)
        × (kept_at (as_replayed replay.now).world number ≡ None)) }
{
    let world = &replay.world;
    let Some(process) = world.process(number) else {
        return Err(ToolFault::NoProcess);
    };
    let planner = Planner::new(alloc, world.tree(), process, world.table())?;
    let plans = planner.find_plans(question.call, &question.meant)?;
    let (call, meant) = (question.call, &question.meant);
    Ok(plans.serve(alloc, rules, world, number, call, meant)?)
}

/// The lines of a way, or the line that none was found.
fn told(alloc: Global, found: &Result<Vec<WayLine>, NoWay>) -> Result<String, AllocError>
    ensures { IfOk result (λ text. string_bytes text
        ≡ found_text (λ lines. lines.items) found.now) }
{
    let mut text = String::new(alloc);
    match found {
        Ok(lines) => push_lines(&mut text, lines.as_slice())?,
        Err(_) => text.push_str("no way found\n")?,
    }
    Ok(text)
}

/// Adds lines, each with its end.
fn push_lines(text: &mut String, lines: &[WayLine]) -> Result<(), AllocError>
    ensures { OnOk result (string_bytes text.new ≡ string_bytes text.old
        ++ flat_map with_end (map (λ line. string_bytes line.text) lines.now)) }
{
    for line in lines {
        text.push_str(line.text.as_str())?;
        text.push('\n')?;
    }
    Ok(())
}

/// The line of what is said where no line of the list for ever has the call.
fn never_text(alloc: Global, execs: ExecBound) -> Result<String, AllocError>
    ensures { IfOk result (λ text. string_bytes text ≡ with_end (told_without false execs)) }
{
    let mut text = String::new(alloc);
    text.push_str(never(execs))?;
    Ok(text)
}

/// The same as it stands in the program.
fn never(execs: ExecBound) -> &'static str
    ensures { result.now ≡ with_end (told_without false execs) }
{
    match execs {
        ExecBound::Open => "never before an exec\n",
        _ => "never\n",
    }
}
