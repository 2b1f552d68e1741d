//! The text of a list, whosever it is, of whatever time, with whatever columns.

ghost use Rattle.std.specs.Prelude.{◌≡◌, ℕ, List, Result};
ghost use Rattle.pua_tool.specs.Answers.{AnswersTo};
ghost use Rattle.pua_tool.specs.ListTexts.{IsHelpedBy, IsHelpedWith, IsListBy, IsListOf};
ghost use Rattle.pua_tool.specs.ListTexts.{IsListText, IsListWith, IsWaysText, asks_for_ways};
ghost use Rattle.pua_tool.specs.ListTexts.{is_plain_below, lasting_text};
ghost use Rattle.pua_tool.specs.ListTexts.{lasting_why_text, with_images_text};
ghost use Rattle.pua_tool.specs.Texts.{choice_of, given_bytes};

use crate::beside::beside_to;
use crate::ever::ever_to;
use crate::ever_how::ever_how_to;
use crate::ever_why::ever_why_to;
use crate::fault::ToolFault;
use crate::fault::WriteFault::{self, NoText};
use crate::images::images_to;
use crate::objects::objects_to;
use crate::objects_why::objects_why_to;
use crate::table::TableChoice;
use crate::together::together_to;
use pua_io::Sink;
use pua_words::{Columns, ListWords, Processes, Time};
use std::alloc::Global;

/// Writes a list: for each line of the script its number and what it was answered, with columns of
/// reasons as [`run_why_to`](crate::run_why_to) has it; and then what is listed.
///
/// A list of now is one of each process that is asked for, one after another: `objects P`, the
/// lines of its state where the script ends, and a line `KIND PATH CALLS` for each object on which
/// a call is allowed, each once: a directory, its further names, then what has or could have a name
/// in it by the bytes of the names, each directory followed by what is below it. Paths begin at the
/// root and may have any length.
///
/// The state of a process that has ended is `process ended`, and it has no objects. Otherwise it is
/// `process alive`; `rules openbsd` where the rules that are chosen are those; `promises` and
/// `execpromises` with the keywords, `=` for none, and `-` where no pledge gave any; `unveil` with
/// `locked`, with `given-up` where it isn't locked and lacks the promise `unveil`, or with `open`;
/// by OpenBSD's rules `opening PATH CALLS` for each path that a promise opens by itself, with
/// `veils` after it where the veils are asked for it; and for each veil that is kept, in the order
/// in which their places were first kept, `veil PATH LETTERS`: where its place stands now, `-`
/// where its directory was removed, and its letters, `=` for none; or `no veils`. What a call needs
/// is said by the table of calls that is chosen.
///
/// The list for ever of one process is `ever P`, the same lines of its state, but that a process
/// which never pledged has each opening; and a line `KIND PATH CALLS` for each thing that stands or
/// could stand now on which a call can ever be allowed by what the process and all that it forks do
/// themselves; in the end a line `KIND new CALLS` for what they can make: `dir`, `other` for the
/// further names of such a directory, `file` and `link`. Where a line has `exec`, a line of the
/// state before those of the veils says what becomes of the list when a program is started: `exec
/// bounded`, where what is started has the veils, and no more than the execpromises, and the list
/// has what it can touch too; or `exec open`, and the list holds until an exec of theirs succeeds.
/// The calls of a line are all that can ever be allowed on the thing, wherever it is moved; where
/// promises open paths by themselves, and the process holds tmppath, with the calls that this
/// promise opens, wherever the veils let them through. After a line of what stands at a name with a
/// veil of its own, and can be taken away, stands a line of the missing name. Of a process that has
/// ended there is a list, without a line.
///
/// The list for ever of several processes, or of all, is one, of what they can touch together:
/// `ever P,Q,..`, and of each process the lines `process P alive`, `promises`, `execpromises` and
/// `unveil`, or `process P ended`. Where one of them lives, there follows what is told once of all
/// that live, as of one: whose rules they are, what becomes of the list at an exec, what promises
/// open by themselves, and the veils; and a line for each thing on which a call can ever be allowed
/// to them or to what they fork, by what they do together. A process that has ended adds nothing to
/// the list.
///
/// With the help of others there is a list for ever of each process that is asked for, one after
/// another. Its heading is `ever P beside Q,R,..`, with the numbers of those that help but P itself,
/// or `ever P` where there is no other. Its lines are as in a list for ever of P, with each call that
/// can ever be allowed to P by what it and those of the others that live do together, whatever veils
/// they have. `exec bounded` says that one of them can start a program, and that the list is of all
/// that is started, too; `exec open` that what one of them starts isn't bounded.
///
/// With what processes were, a list stands before those of now for each line by which one of the
/// processes that are asked for started a program and was answered `ok`, in the order of these
/// lines: `objects P before LINE`, and behind this heading what the list of now of that process has
/// where the lines before it are the whole script. There is none for ever, and none with columns.
///
/// The columns of reasons stand after each object's line, `PROMISES PLACE LETTERS LINE`: the
/// promises on which its calls rest, of each call the first set that is held, `=` for none; and of
/// the veil that covers it where it is, its letters, `=` for none, and since which line it has them
/// there; three times `-` where the process has no veils. In a list for ever stand the place, the
/// letters and the line of each veil under which the thing can come to stand, and that lets one of
/// its calls through. The column of ways stands after the
/// calls of each line that has calls which the list of now lacks on what the line is about: a blank
/// and these calls in their order, with commas between them, each with a blank and the number of
/// steps of a way to it on what the line's path and kind mean, as [`how_to`](crate::how_to) writes
/// one; or `?`, where none was found. Each plan is served in a copy of the world that the script
/// left. At or below a path, the list with this column has those of its lines whose names begin with
/// those of the path, in their order, and none of `new`: ways are looked for to the calls of these
/// alone. The path is spelled as a list prints it.
///
/// The first that holds of these is answered before anything is written: `PlainBelow`, `SeveralWhy`,
/// `NowHow`, `SeveralHow`, `EverImages`, `WhyImages`, `ImagesBeside`, `NowBeside`, `WhyBeside` or
/// `HowBeside`, where there is no such list; `Table`, `Listing` and `Script`; `NoProcess`; of a
/// list for ever that of `CanUnveil`, `LacksC`, `RenameLacksC` and `LinkLacksC` which the first
/// process has that has one, those whose lists are asked for before those that help; of a list of
/// several `OtherVeils`, of the first that lives and the first after it that lives and has another
/// place with a veil, or other letters at one; and at or below a path `BelowPath` and `BelowThing`.
/// So is `OutOfMemory`, wherever a growth was refused. `Put` is answered only where a put failed in
/// this call, and a front of the text is then written.
pub fn list_to<S: Sink>(
    alloc: Global,
    tree_bytes: &[u8],
    script_bytes: &[u8],
    table: TableChoice<'_>,
    list: &ListWords<'_>,
    sink: &mut S,
) -> Result<(), WriteFault>
    ensures text { (answer : Result (List ℕ) ToolFault)
        × IsListText (choice_of table.entry) tree_bytes.now script_bytes.now list.now answer
        × AnswersTo S.written S.failed answer result sink.old sink.new }
{
    if is_plain_below(list) {
        return Err(NoText(ToolFault::PlainBelow));
    }
    sound_to(alloc, tree_bytes, script_bytes, table, list, sink)
}

/// Whether what is at or below a path is asked for, and no ways to it.
fn is_plain_below(list: &ListWords<'_>) -> bool
    ensures { result ≡ is_plain_below list.now }
{
    list.below.is_some() && !asks_for_ways(list.span, list.columns)
}

/// Whether ways are asked for in a list for ever.
fn asks_for_ways(span: Time, columns: Columns) -> bool
    ensures { result ≡ asks_for_ways span columns }
{
    matches!((span, columns), (Time::Ever, Columns::How))
}

/// Writes a list, at or below a path only where ways are asked for.
fn sound_to<S: Sink>(
    alloc: Global,
    tree_bytes: &[u8],
    script_bytes: &[u8],
    table: TableChoice<'_>,
    list: &ListWords<'_>,
    sink: &mut S,
) -> Result<(), WriteFault>
    ensures text { (answer : Result (List ℕ) ToolFault)
        × IsListOf list.now.beside list.now.images list.now.span list.now.columns
        (given_bytes list.now.below) list.now.whose (choice_of table.entry) tree_bytes.now
        script_bytes.now answer
        × AnswersTo S.written S.failed answer result sink.old sink.new }
{
    match &list.beside {
        Some(helping) => { helped_to(alloc, tree_bytes, script_bytes, table, list, helping, sink) }
        None => unhelped_to(alloc, tree_bytes, script_bytes, table, list, sink),
    }
}

/// Writes a list for ever with the help of others.
fn helped_to<S: Sink>(
    alloc: Global,
    tree_bytes: &[u8],
    script_bytes: &[u8],
    table: TableChoice<'_>,
    list: &ListWords<'_>,
    helping: &Processes,
    sink: &mut S,
) -> Result<(), WriteFault>
    ensures text { (answer : Result (List ℕ) ToolFault)
        × IsHelpedWith list.now.images list.now.span list.now.columns list.now.whose helping.now
        (choice_of table.entry) tree_bytes.now script_bytes.now answer
        × AnswersTo S.written S.failed answer result sink.old sink.new }
{
    if list.images {
        return Err(NoText(ToolFault::ImagesBeside));
    }
    plain_helped_to(alloc, tree_bytes, script_bytes, table, list, helping, sink)
}

/// Writes such a list without what processes were.
fn plain_helped_to<S: Sink>(
    alloc: Global,
    tree_bytes: &[u8],
    script_bytes: &[u8],
    table: TableChoice<'_>,
    list: &ListWords<'_>,
    helping: &Processes,
    sink: &mut S,
) -> Result<(), WriteFault>
    ensures text { (answer : Result (List ℕ) ToolFault)
        × IsHelpedBy list.now.span list.now.columns list.now.whose helping.now
        (choice_of table.entry) tree_bytes.now script_bytes.now answer
        × AnswersTo S.written S.failed answer result sink.old sink.new }
{
    let (tree, script, whose) = (tree_bytes, script_bytes, &list.whose);
    match (list.span, list.columns) {
        (Time::Now, _) => Err(NoText(ToolFault::NowBeside)),
        (Time::Ever, Columns::Why) => Err(NoText(ToolFault::WhyBeside)),
        (Time::Ever, Columns::How) => Err(NoText(ToolFault::HowBeside)),
        (Time::Ever, Columns::Plain) => {
            beside_to(alloc, tree, script, table, whose, helping, sink)
        }
    }
}

/// Writes a list without the help of others.
fn unhelped_to<S: Sink>(
    alloc: Global,
    tree_bytes: &[u8],
    script_bytes: &[u8],
    table: TableChoice<'_>,
    list: &ListWords<'_>,
    sink: &mut S,
) -> Result<(), WriteFault>
    ensures text { (answer : Result (List ℕ) ToolFault)
        × IsListWith list.now.images list.now.span list.now.columns (given_bytes list.now.below)
        list.now.whose (choice_of table.entry) tree_bytes.now script_bytes.now answer
        × AnswersTo S.written S.failed answer result sink.old sink.new }
{
    if list.images {
        return with_images_to(alloc, tree_bytes, script_bytes, table, list, sink);
    }
    alone_to(alloc, tree_bytes, script_bytes, table, list, sink)
}

/// Writes a list with what processes were before each program that they started.
fn with_images_to<S: Sink>(
    alloc: Global,
    tree_bytes: &[u8],
    script_bytes: &[u8],
    table: TableChoice<'_>,
    list: &ListWords<'_>,
    sink: &mut S,
) -> Result<(), WriteFault>
    ensures { AnswersTo S.written S.failed
        (with_images_text list.now.span list.now.columns list.now.whose (choice_of table.entry)
        tree_bytes.now script_bytes.now) result sink.old sink.new }
{
    match (list.span, list.columns) {
        (Time::Now, Columns::Plain) => {
            images_to(alloc, tree_bytes, script_bytes, table, &list.whose, sink)
        }
        (Time::Now, Columns::Why) => Err(NoText(ToolFault::WhyImages)),
        (Time::Now, Columns::How) => Err(NoText(ToolFault::NowHow)),
        (Time::Ever, _) => Err(NoText(ToolFault::EverImages)),
    }
}

/// Writes a list of what processes are now, or for ever.
fn alone_to<S: Sink>(
    alloc: Global,
    tree_bytes: &[u8],
    script_bytes: &[u8],
    table: TableChoice<'_>,
    list: &ListWords<'_>,
    sink: &mut S,
) -> Result<(), WriteFault>
    ensures text { (answer : Result (List ℕ) ToolFault)
        × IsListBy list.now.span list.now.columns (given_bytes list.now.below) list.now.whose
        (choice_of table.entry) tree_bytes.now script_bytes.now answer
        × AnswersTo S.written S.failed answer result sink.old sink.new }
{
    let (tree, script, whose) = (tree_bytes, script_bytes, &list.whose);
    match (list.span, list.columns) {
        (Time::Now, Columns::Plain) => objects_to(alloc, tree, script, table, whose, sink),
        (Time::Now, Columns::Why) => objects_why_to(alloc, tree, script, table, whose, sink),
        (Time::Now, Columns::How) => Err(NoText(ToolFault::NowHow)),
        (Time::Ever, Columns::Plain) => lasting_to(alloc, tree, script, table, whose, sink),
        (Time::Ever, Columns::Why) => reasons_to(alloc, tree, script, table, whose, sink),
        (Time::Ever, Columns::How) => {
            ways_to(alloc, tree, script, table, list.below, whose, sink)
        }
    }
}

/// Writes the list for ever of one process, or of several together.
fn lasting_to<S: Sink>(
    alloc: Global,
    tree_bytes: &[u8],
    script_bytes: &[u8],
    table: TableChoice<'_>,
    whose: &Processes,
    sink: &mut S,
) -> Result<(), WriteFault>
    ensures text { AnswersTo S.written S.failed
        (lasting_text (choice_of table.entry) tree_bytes.now script_bytes.now whose.now)
        result sink.old sink.new }
{
    match whose {
        Processes::One(number) => ever_to(alloc, tree_bytes, script_bytes, table, *number, sink),
        Processes::Named(_) | Processes::All => {
            together_to(alloc, tree_bytes, script_bytes, table, whose, sink)
        }
    }
}

/// Writes the list for ever of one process with what lets calls through.
fn reasons_to<S: Sink>(
    alloc: Global,
    tree_bytes: &[u8],
    script_bytes: &[u8],
    table: TableChoice<'_>,
    whose: &Processes,
    sink: &mut S,
) -> Result<(), WriteFault>
    ensures text { AnswersTo S.written S.failed
        (lasting_why_text (choice_of table.entry) tree_bytes.now script_bytes.now whose.now)
        result sink.old sink.new }
{
    match whose {
        Processes::One(number) => {
            ever_why_to(alloc, tree_bytes, script_bytes, table, *number, sink)
        }
        Processes::Named(_) | Processes::All => Err(NoText(ToolFault::SeveralWhy)),
    }
}

/// Writes the list for ever of one process with the number of steps of ways, or its lines at or
/// below a path.
fn ways_to<S: Sink>(
    alloc: Global,
    tree_bytes: &[u8],
    script_bytes: &[u8],
    table: TableChoice<'_>,
    path: Option<&[u8]>,
    whose: &Processes,
    sink: &mut S,
) -> Result<(), WriteFault>
    ensures text { (answer : Result (List ℕ) ToolFault)
        × IsWaysText (choice_of table.entry) tree_bytes.now script_bytes.now
        (given_bytes path.entry) whose.now answer
        × AnswersTo S.written S.failed answer result sink.old sink.new }
{
    match whose {
        Processes::One(number) => {
            ever_how_to(alloc, tree_bytes, script_bytes, table, *number, path, sink)
        }
        Processes::Named(_) | Processes::All => Err(NoText(ToolFault::SeveralHow)),
    }
}
