//! Reasons and facts as they are written.

ghost use Rattle.std.specs.Prelude.{◌≡◌, ◌≤◌, ◌++◌, ◌∷◌, [], ℕ, List, codes, if◌then◌else◌, IfOk, OnOk, map};
ghost use Rattle.std.specs.Prelude.{length, string_bytes};
ghost use Rattle.pua_calls.specs.Promises.{lacking};
ghost use Rattle.pua_path.specs.declared.traced.PathFault.TheVariants as faults;
ghost use Rattle.pua_script.specs.Decide.{New};
ghost use Rattle.pua_why.specs.Seen.{fact_seen, fault_seen, file_fault_seen, reason_seen};
ghost use Rattle.pua_why.specs.Seen.{side_seen};
ghost use Rattle.pua_policy.specs.Verdict.{object_of, object_word};
ghost use Rattle.pua_why.specs.Texts.{covering_dated, fact_dated, fault_text, found_text};
ghost use Rattle.pua_why.specs.Texts.{file_fault_text, joined_words};
ghost use Rattle.pua_why.specs.Texts.{letters_text, misfit_text, of_exec_text};
ghost use Rattle.pua_why.specs.Texts.{or_equals, path_fault_text, place_text, promises_text};
ghost use Rattle.pua_why.specs.Texts.{reason_text, side_text, since_text, spot_text, target_text};
ghost use Rattle.pua_why.specs.Texts.{text_fault_text, veil_text};

use crate::told::{Fact, Fault, FileFault, Reason, Side};
use crate::tree_paths::{TreePaths, push_spelled};
use pua_calls::{Perms, Promises};
use pua_path::{Found, MOST_PATH, PathFault, PathTextFault, Spot, Stop};
use pua_policy::{Covering, MOST_PLACES, Misfit, Place};
use pua_script::MOST_PROCESSES;
use pua_tree::{FileTree, Kind, Name, NodeId};
use std::alloc::{AllocError, Global};
use std::fmt::Write;

/// Adds the words of a reason to a text: what is granted has none. Paths are those of the tree as
/// it stands where the reason holds. The only error is that a growth was refused.
pub fn push_reason<T: FileTree>(
    alloc: Global,
    text: &mut String,
    paths: &mut TreePaths<'_, T>,
    reason: &Reason<'_>,
) -> Result<(), AllocError>
    ensures text { OnOk result (string_bytes text.new
        ≡ string_bytes text.old ++ reason_text paths.old.tree (reason_seen reason.now)) }
    ensures tree { paths.new.tree ≡ paths.old.tree }
{
    match reason {
        Reason::NeverMade => text.push_str("never made"),
        Reason::Ended => text.push_str("ended"),
        Reason::Refused(fault) => push_fault(alloc, text, paths, fault),
        Reason::Granted => Ok(()),
    }
}

/// Adds the words of a fault to a text.
fn push_fault<T: FileTree>(
    alloc: Global,
    text: &mut String,
    paths: &mut TreePaths<'_, T>,
    fault: &Fault<'_>,
) -> Result<(), AllocError>
    ensures text { OnOk result (string_bytes text.new
        ≡ string_bytes text.old ++ fault_text paths.old.tree (fault_seen fault.now)) }
    ensures tree { paths.new.tree ≡ paths.old.tree }
{
    match *fault {
        Fault::Ends => text.push_str("ended"),
        Fault::LacksPromises { held, sets, .. } => push_lacks(alloc, text, held, sets),
        Fault::LacksPromise { lacks, .. } => push_no(alloc, text, lacks),
        Fault::BadTarget(fault) => push_target(text, fault),
        Fault::BadPath(side, ref fault) => push_bad_path(text, paths, side, fault),
        Fault::NoRoot(side) => push_no_root(text, side),
        Fault::Uncovered(side, ref found) => push_uncovered(text, paths, side, found),
        Fault::LacksLetters {
            side,
            ref place,
            given,
            lacks,
        } => {
            text.push_str(side_word(side))?;
            push_letters(text, paths, place, given, lacks)
        }
        Fault::Unfit(side, ref found, ref misfit) => {
            push_unfit(text, paths, side, found, *misfit)
        }
        Fault::Inside { ref old, ref new } => push_inside(text, paths, old, new),
        Fault::UnknownPromise { of_exec } => push_unknown(text, of_exec),
        Fault::AsksPromises { of_exec, lacks } => push_asks(alloc, text, of_exec, lacks),
        Fault::IsLocked => text.push_str("locked"),
        Fault::UnknownLetter => text.push_str("unknown letter"),
        Fault::AsksLetters {
            ref place,
            given,
            lacks,
        } => push_letters(text, paths, place, given, lacks),
        Fault::NoPlaceLeft => write!(text, "{MOST_PLACES} places have veils"),
        Fault::NumberTaken(number) => write!(text, "process {number} exists"),
        Fault::NoProcessLeft => write!(text, "{MOST_PROCESSES} processes were made"),
        Fault::NoRoom => text.push_str("tree is full"),
        Fault::WrongFile(ref fault) => push_file_fault(text, fault),
    }
}

/// The word before the reason of one path of two.
fn side_word(side: Side) -> &'static str
    ensures { result.now ≡ side_text (side_seen side) }
{
    match side {
        Side::Sole => "",
        Side::Old => "old: ",
        Side::New => "new: ",
    }
}

/// Adds what of each of these sets is not held.
fn push_lacks(
    alloc: Global,
    text: &mut String,
    held: Promises,
    sets: &[Promises],
) -> Result<(), AllocError>
    ensures { OnOk result
        (string_bytes text.new ≡ string_bytes text.old ++ joined_words (codes ", ")
        (map (λ set. codes "no " ++ promises_text set) (map (lacking held) sets.now))) }
{
    let mut is_first = true;
    for set in sets {
        push_lack(alloc, text, is_first, set.without(held))?;
        is_first = false;
    }
    Ok(())
}

/// Adds what of a set is not held, with a comma before it unless it is the first.
fn push_lack(
    alloc: Global,
    text: &mut String,
    is_first: bool,
    lacks: Promises,
) -> Result<(), AllocError>
    ensures { OnOk result (string_bytes text.new ≡ string_bytes text.old
        ++ ((if is_first then [] else codes ", ") ++ (codes "no " ++ promises_text lacks))) }
{
    if !is_first {
        text.push_str(", ")?;
    }
    push_no(alloc, text, lacks)
}

/// Adds what is not held.
fn push_no(alloc: Global, text: &mut String, lacks: Promises) -> Result<(), AllocError>
    ensures { OnOk result (string_bytes text.new
        ≡ string_bytes text.old ++ (codes "no " ++ promises_text lacks)) }
{
    text.push_str("no ")?;
    push_promises(alloc, text, lacks)
}

/// Adds the keywords of promises with commas between them, and `=` for none. The only error is that
/// a growth was refused.
pub fn push_promises(alloc: Global, text: &mut String, promises: Promises) -> Result<(), AllocError>
    ensures { OnOk result (string_bytes text.new
        ≡ string_bytes text.old ++ promises_text promises) }
{
    let Ok(names) = promises.names(alloc) else {
        return Err(AllocError);
    };
    let keywords = joined(alloc, names.as_slice())?;
    text.push_str(shown(keywords.as_str()))
}

/// Names with commas between them.
#[tactic(auto, using(crate::proofs::Joining::joined_is))]
fn joined(alloc: Global, names: &[&str]) -> Result<String, AllocError>
    ensures { IfOk result (λ text. string_bytes text
        ≡ joined_words (codes ",") (map (λ name. name.now) names.now)) }
{
    let mut text = String::new(alloc);
    let mut is_first = true;
    for name in names {
        push_next(&mut text, is_first, name)?;
        is_first = false;
    }
    Ok(text)
}

/// Adds a name, with a comma before it unless it is the first.
fn push_next(text: &mut String, is_first: bool, name: &str) -> Result<(), AllocError>
    ensures { OnOk result (string_bytes text.new ≡ string_bytes text.old
        ++ ((if is_first then [] else codes ",") ++ name.now)) }
{
    if !is_first {
        text.push_str(",")?;
    }
    text.push_str(name)
}

/// The letters of permissions, and `=` for none.
pub fn letters(perms: Perms) -> &'static str
    ensures letters { result.now ≡ letters_text perms }
    ensures short { length result.now ≤ 4 }
{
    let letters = perms.letters();
    if letters.is_empty() { "=" } else { letters }
}

/// A text, or `=` where it is empty.
fn shown(text: &str) -> &str
    ensures { result.now ≡ or_equals text.now }
{
    if text.is_empty() { "=" } else { text }
}

/// Adds which letters a veil lacks.
fn push_letters<T: FileTree>(
    text: &mut String,
    paths: &mut TreePaths<'_, T>,
    place: &Place,
    given: Perms,
    lacks: Perms,
) -> Result<(), AllocError>
    ensures text { OnOk result (string_bytes text.new
        ≡ string_bytes text.old ++ (codes "no " ++ letters_text lacks ++ codes " in "
        ++ veil_text paths.old.tree place.now given)) }
    ensures tree { paths.new.tree ≡ paths.old.tree }
{
    text.push_str("no ")?;
    text.push_str(letters(lacks))?;
    text.push_str(" in ")?;
    push_veil(text, paths, place, given)
}

/// Adds a veil: its letters, and where it is kept.
pub(crate) fn push_veil<T: FileTree>(
    text: &mut String,
    paths: &mut TreePaths<'_, T>,
    place: &Place,
    given: Perms,
) -> Result<(), AllocError>
    ensures text { OnOk result (string_bytes text.new
        ≡ string_bytes text.old ++ veil_text paths.old.tree place.now given) }
    ensures tree { paths.new.tree ≡ paths.old.tree }
{
    text.push_str("veil ")?;
    text.push_str(letters(given))?;
    text.push_str(" on ")?;
    push_place(text, paths, place)
}

/// Adds where a place is. The only error is that a growth was refused.
pub fn push_place<T: FileTree>(
    text: &mut String,
    paths: &mut TreePaths<'_, T>,
    place: &Place,
) -> Result<(), AllocError>
    ensures text { OnOk result (string_bytes text.new
        ≡ string_bytes text.old ++ place_text paths.old.tree place.now) }
    ensures tree { paths.new.tree ≡ paths.old.tree }
{
    match place {
        Place::Dir(dir) => paths.push_dir(text, *dir),
        Place::Slot(dir, name) => paths.push_spot(text, *dir, name),
    }
}

/// Adds where something was found.
pub(crate) fn push_found<T: FileTree>(
    text: &mut String,
    paths: &mut TreePaths<'_, T>,
    found: &Found,
) -> Result<(), AllocError>
    ensures text { OnOk result (string_bytes text.new
        ≡ string_bytes text.old ++ found_text paths.old.tree found.now) }
    ensures tree { paths.new.tree ≡ paths.old.tree }
{
    match found {
        Found::Whole { dir, .. } => paths.push_dir(text, *dir),
        Found::Slot { dir, name, .. } => paths.push_spot(text, *dir, name),
    }
}

/// Adds what is wrong with a descriptor.
fn push_file_fault(text: &mut String, fault: &FileFault) -> Result<(), AllocError>
    ensures { OnOk result (string_bytes text.new
        ≡ string_bytes text.old ++ file_fault_text (file_fault_seen fault.now)) }
{
    match *fault {
        FileFault::NotOpen(number) => write!(text, "descriptor {number} is closed"),
        FileFault::OpenNoDirectory(number) => write!(text, "descriptor {number} is no directory"),
        FileFault::NotSent { from, theirs } => {
            write!(text, "process {from} has no descriptor {theirs}")
        }
        FileFault::MayNotSend(from) => write!(text, "process {from} has no sendfd"),
        FileFault::SendsDirectory { from, theirs } => {
            write!(text, "descriptor {theirs} of process {from} is a directory")
        }
    }
}

/// Adds the words of a text that is no path.
fn push_text_words(text: &mut String, fault: PathTextFault) -> Result<(), AllocError>
    ensures { OnOk result (string_bytes text.new
        ≡ string_bytes text.old ++ text_fault_text fault) }
{
    match fault {
        PathTextFault::EmptyText => text.push_str("is empty"),
        PathTextFault::LongText => write!(text, "has more than {MOST_PATH} bytes"),
        PathTextFault::LongComponent => {
            write!(text, "has a component of more than {} bytes", Name::MOST)
        }
        PathTextFault::NulInText => text.push_str("has a NUL"),
    }
}

/// Adds what is wrong with a link's target.
fn push_target(text: &mut String, fault: PathTextFault) -> Result<(), AllocError>
    ensures { OnOk result (string_bytes text.new
        ≡ string_bytes text.old ++ (codes "target " ++ text_fault_text fault)) }
{
    text.push_str("target ")?;
    push_text_words(text, fault)
}

/// Adds why a path names nothing.
fn push_bad_path<T: FileTree>(
    text: &mut String,
    paths: &mut TreePaths<'_, T>,
    side: Side,
    fault: &PathFault,
) -> Result<(), AllocError>
    ensures text { OnOk result (string_bytes text.new ≡ string_bytes text.old
        ++ (side_text (side_seen side) ++ path_fault_text paths.old.tree fault.now)) }
    ensures tree { paths.new.tree ≡ paths.old.tree }
{
    text.push_str(side_word(side))?;
    match fault {
        PathFault::InText(fault) => push_text_fault(text, *fault),
        PathFault::NoStart => text.push_str("working directory is removed"),
        PathFault::Stops(stop) => push_stop(text, paths, stop),
    }
}

/// Adds that a path starts at a root that was removed.
fn push_no_root(text: &mut String, side: Side) -> Result<(), AllocError>
    ensures { OnOk result (string_bytes text.new
        ≡ string_bytes text.old ++ (side_text (side_seen side) ++ codes "root is removed")) }
{
    text.push_str(side_word(side))?;
    text.push_str("root is removed")
}

/// Adds what is wrong with a path's text.
fn push_text_fault(text: &mut String, fault: PathTextFault) -> Result<(), AllocError>
    ensures { OnOk result (string_bytes text.new
        ≡ string_bytes text.old ++ (codes "path " ++ text_fault_text fault)) }
{
    text.push_str("path ")?;
    push_text_words(text, fault)
}

/// Adds where a path leads no further.
fn push_stop<T: FileTree>(
    text: &mut String,
    paths: &mut TreePaths<'_, T>,
    stop: &Stop,
) -> Result<(), AllocError>
    ensures text { OnOk result (string_bytes text.new
        ≡ string_bytes text.old ++ path_fault_text paths.old.tree (faults.Stops stop.now)) }
    ensures tree { paths.new.tree ≡ paths.old.tree }
{
    match stop {
        Stop::NoEntry(spot) => push_at(text, paths, spot, " is missing"),
        Stop::NoDirectory(spot) => push_at(text, paths, spot, " is no directory"),
        Stop::LinkBeyond(spot) => push_at(text, paths, spot, " is link 33"),
    }
}

/// Adds what a fact says of a name in a directory.
fn push_at<T: FileTree>(
    text: &mut String,
    paths: &mut TreePaths<'_, T>,
    spot: &Spot,
    words: &str,
) -> Result<(), AllocError>
    ensures text { OnOk result (string_bytes text.new
        ≡ string_bytes text.old ++ (spot_text paths.old.tree spot.now ++ words.now)) }
    ensures tree { paths.new.tree ≡ paths.old.tree }
{
    paths.push_spot(text, spot.0, &spot.1)?;
    text.push_str(words)
}

/// Adds that no veil covers what a path named.
fn push_uncovered<T: FileTree>(
    text: &mut String,
    paths: &mut TreePaths<'_, T>,
    side: Side,
    found: &Found,
) -> Result<(), AllocError>
    ensures text { OnOk result (string_bytes text.new
        ≡ string_bytes text.old ++ (side_text (side_seen side)
        ++ codes "no veil on " ++ found_text paths.old.tree found.now ++ codes " or above")) }
    ensures tree { paths.new.tree ≡ paths.old.tree }
{
    text.push_str(side_word(side))?;
    text.push_str("no veil on ")?;
    push_found(text, paths, found)?;
    text.push_str(" or above")
}

/// Adds what is wrong with what a path named.
fn push_unfit<T: FileTree>(
    text: &mut String,
    paths: &mut TreePaths<'_, T>,
    side: Side,
    found: &Found,
    misfit: Misfit,
) -> Result<(), AllocError>
    ensures text { OnOk result (string_bytes text.new ≡ string_bytes text.old
        ++ (side_text (side_seen side) ++ misfit_text (found_text paths.old.tree found.now) misfit)) }
    ensures tree { paths.new.tree ≡ paths.old.tree }
{
    text.push_str(side_word(side))?;
    push_misfit(text, paths, found, misfit)
}

/// Adds what is wrong with what was found.
fn push_misfit<T: FileTree>(
    text: &mut String,
    paths: &mut TreePaths<'_, T>,
    found: &Found,
    misfit: Misfit,
) -> Result<(), AllocError>
    ensures text { OnOk result (string_bytes text.new
        ≡ string_bytes text.old ++ misfit_text (found_text paths.old.tree found.now) misfit) }
    ensures tree { paths.new.tree ≡ paths.old.tree }
{
    let (of_object, words) = misfit_words(misfit);
    if of_object {
        push_so(text, paths, found, words)
    } else {
        text.push_str(words)
    }
}

/// The words of a misfit, and whether the thing that was found stands before them.
fn misfit_words(misfit: Misfit) -> (bool, &'static str)
    ensures { (object : List ℕ) → misfit_text object misfit
        ≡ (if result.0 then object ++ result.1.now else result.1.now) }
{
    match misfit {
        Misfit::Missing => (true, " is missing"),
        Misfit::Exists => (true, " exists"),
        Misfit::IsDirectory => (true, " is a directory"),
        Misfit::IsNoFile => (true, " is a directory"),
        Misfit::IsNoDirectory => (true, " is no directory"),
        Misfit::IsNoLink => (true, " is no link"),
        Misfit::IsNoProgram => (true, " is no program"),
        Misfit::IsNotEmpty => (true, " is not empty"),
        Misfit::ByDot => (false, "path ends in ."),
        Misfit::ByDotDot => (false, "path ends in .."),
        Misfit::ByNothing => (false, "path has no component"),
        Misfit::IsSocket => (true, " is a socket"),
        Misfit::IsNoSocket => (true, " is no socket"),
        Misfit::InUse => (true, " exists"),
        Misfit::IsMountPoint => (true, " is a mount point"),
        Misfit::IsElsewhere => (true, " is on another file system"),
    }
}

/// Adds where something was found, and what is wrong with it.
fn push_so<T: FileTree>(
    text: &mut String,
    paths: &mut TreePaths<'_, T>,
    found: &Found,
    words: &str,
) -> Result<(), AllocError>
    ensures text { OnOk result (string_bytes text.new
        ≡ string_bytes text.old ++ (found_text paths.old.tree found.now ++ words.now)) }
    ensures tree { paths.new.tree ≡ paths.old.tree }
{
    push_found(text, paths, found)?;
    text.push_str(words)
}

/// Adds that the new name is inside of what the old path named.
fn push_inside<T: FileTree>(
    text: &mut String,
    paths: &mut TreePaths<'_, T>,
    old: &Found,
    new: &Found,
) -> Result<(), AllocError>
    ensures text { OnOk result (string_bytes text.new ≡ string_bytes text.old ++ (side_text New
        ++ found_text paths.old.tree new.now ++ codes " is inside "
        ++ found_text paths.old.tree old.now)) }
    ensures tree { paths.new.tree ≡ paths.old.tree }
{
    text.push_str("new: ")?;
    push_found(text, paths, new)?;
    text.push_str(" is inside ")?;
    push_found(text, paths, old)
}

/// Whether a reason is about execpromises.
fn of_exec_words(of_exec: bool) -> &'static str
    ensures { result.now ≡ of_exec_text of_exec }
{
    if of_exec { " in execpromises" } else { "" }
}

/// Adds that a word is no promise.
fn push_unknown(text: &mut String, of_exec: bool) -> Result<(), AllocError>
    ensures { OnOk result (string_bytes text.new
        ≡ string_bytes text.old ++ (codes "unknown promise" ++ of_exec_text of_exec)) }
{
    text.push_str("unknown promise")?;
    text.push_str(of_exec_words(of_exec))
}

/// Adds what a pledge asks for beyond what was given.
fn push_asks(
    alloc: Global,
    text: &mut String,
    of_exec: bool,
    lacks: Promises,
) -> Result<(), AllocError>
    ensures { OnOk result (string_bytes text.new ≡ string_bytes text.old
        ++ ((codes "no " ++ promises_text lacks) ++ of_exec_text of_exec)) }
{
    push_no(alloc, text, lacks)?;
    text.push_str(of_exec_words(of_exec))
}

/// Adds a fact to a text, as the tree of the moment has it: of a veil since which line it is on its
/// place, if there is such a line. The only error is that a growth was refused.
pub fn push_fact<T: FileTree>(
    alloc: Global,
    text: &mut String,
    paths: &mut TreePaths<'_, T>,
    tree: &T,
    fact: &Fact,
    line: Option<usize>,
) -> Result<(), AllocError>
    ensures text { OnOk result (paths.old.tree ≡ T.content tree.now →
        string_bytes text.new ≡ string_bytes text.old
        ++ fact_dated (T.content tree.now) line (fact_seen fact.now)) }
    ensures tree { paths.new.tree ≡ paths.old.tree }
{
    match fact {
        Fact::Opened(promise) => push_opened(alloc, text, *promise),
        Fact::Needs(set) => push_needs(alloc, text, *set),
        Fact::Follows(side, spot) => push_link(text, paths, tree, *side, spot),
        Fact::Names(side, found) => push_named(text, paths, tree, *side, found),
        Fact::Under(side, over) => push_covering(text, paths, *side, over, line),
    }
}

/// Adds since which line something holds, if there is such a line.
pub fn push_since(text: &mut String, line: Option<usize>) -> Result<(), AllocError>
    ensures { OnOk result (string_bytes text.new ≡ string_bytes text.old ++ since_text line) }
{
    match line {
        Some(line) => write!(text, " since line {line}"),
        None => Ok(()),
    }
}

/// Adds which promise opens a call.
fn push_opened(alloc: Global, text: &mut String, promise: Promises) -> Result<(), AllocError>
    ensures { OnOk result (string_bytes text.new
        ≡ string_bytes text.old ++ (codes "opened by " ++ promises_text promise)) }
{
    text.push_str("opened by ")?;
    push_promises(alloc, text, promise)
}

/// Adds which promises are needed.
fn push_needs(alloc: Global, text: &mut String, set: Promises) -> Result<(), AllocError>
    ensures { OnOk result (string_bytes text.new
        ≡ string_bytes text.old ++ (codes "needs " ++ promises_text set)) }
{
    text.push_str("needs ")?;
    push_promises(alloc, text, set)
}

/// Adds a link, and where it leads.
fn push_link<T: FileTree>(
    text: &mut String,
    paths: &mut TreePaths<'_, T>,
    tree: &T,
    side: Side,
    spot: &Spot,
) -> Result<(), AllocError>
    ensures text { OnOk result (paths.old.tree ≡ T.content tree.now →
        string_bytes text.new ≡ string_bytes text.old ++ (side_text (side_seen side)
        ++ codes "link " ++ spot_text (T.content tree.now) spot.now ++ codes " to "
        ++ target_text (T.content tree.now) spot.now)) }
    ensures tree { paths.new.tree ≡ paths.old.tree }
{
    text.push_str(side_word(side))?;
    text.push_str("link ")?;
    paths.push_spot(text, spot.0, &spot.1)?;
    text.push_str(" to ")?;
    push_led(text, tree, spot)
}

/// Adds where a link leads.
fn push_led<T: FileTree>(text: &mut String, tree: &T, spot: &Spot) -> Result<(), AllocError>
    ensures { OnOk result (string_bytes text.new
        ≡ string_bytes text.old ++ target_text (T.content tree.now) spot.now) }
{
    let node = tree.look(spot.0, &spot.1).unwrap_or(NodeId::ROOT);
    match tree.target(node) {
        Some(target) => push_spelled(text, target),
        None => Ok(()),
    }
}

/// Adds what a path names.
fn push_named<T: FileTree>(
    text: &mut String,
    paths: &mut TreePaths<'_, T>,
    tree: &T,
    side: Side,
    found: &Found,
) -> Result<(), AllocError>
    ensures text { OnOk result (paths.old.tree ≡ T.content tree.now →
        string_bytes text.new ≡ string_bytes text.old ++ (side_text (side_seen side)
        ++ codes "names " ++ object_word (object_of (T.content tree.now) found.now)
        ++ 32 ∷ found_text (T.content tree.now) found.now)) }
    ensures tree { paths.new.tree ≡ paths.old.tree }
{
    text.push_str(side_word(side))?;
    text.push_str("names ")?;
    text.push_str(kind_word(tree, found))?;
    text.push_str(" ")?;
    push_found(text, paths, found)
}

/// The word of what was found.
fn kind_word<T: FileTree>(tree: &T, found: &Found) -> &'static str
    ensures { result.now ≡ object_word (object_of (T.content tree.now) found.now) }
{
    match *found {
        Found::Whole { .. } => Kind::Dir.word(),
        Found::Slot { node: Some(id), .. } => match tree.kind(id) {
            Some(kind) => kind.word(),
            None => "missing",
        },
        Found::Slot { node: None, .. } => "missing",
    }
}

/// Adds what covers an object.
fn push_covering<T: FileTree>(
    text: &mut String,
    paths: &mut TreePaths<'_, T>,
    side: Side,
    over: &Covering,
    line: Option<usize>,
) -> Result<(), AllocError>
    ensures text { OnOk result (string_bytes text.new ≡ string_bytes text.old
        ++ (side_text (side_seen side) ++ covering_dated paths.old.tree line over.now)) }
    ensures tree { paths.new.tree ≡ paths.old.tree }
{
    text.push_str(side_word(side))?;
    match over {
        Covering::InView => text.push_str("no veils"),
        Covering::NoneOver => Ok(()),
        Covering::By(place, given) => {
            push_veil(text, paths, place, *given)?;
            push_since(text, line)
        }
    }
}
