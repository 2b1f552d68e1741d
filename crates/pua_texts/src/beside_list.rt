//! The list for ever of a process with the help of others: its heading, its state, and what it can
//! ever touch.

ghost use Rattle.std.specs.Prelude.{◌≡◌, ◌++◌, [], List, IfOk, OnOk, string_bytes};
ghost use Rattle.pua_ever.specs.Ever.{EverLine as Told};
ghost use Rattle.pua_ever.specs.EverList.{AreEverTold};
ghost use Rattle.pua_texts.specs.BesideLines.{beside_bounds, beside_heading, beside_list};
ghost use Rattle.pua_texts.specs.BesideLines.{beside_living, beside_own, others_text};
ghost use Rattle.pua_texts.specs.ListLines.{list_text};
ghost use Rattle.pua_texts.specs.Members.{beside_of, named_by};

use crate::endings::Endings;
use crate::ever_list::ever_lines;
use crate::member_states::push_numbers;
use crate::members::{Helped, Member};
use crate::process_head::{ProcessHead, files_text, veils_of_living};
use crate::process_list::ProcessList;
use crate::root_line::root_text;
use crate::state::{
    Time, push_execs, push_held, push_line, push_opened, push_receives, push_unveiled,
};
use pua_calls::Rules;
use pua_ever::EverRow;
use pua_tree::{FileTree, OutOfMemory};
use std::alloc::{AllocError, Global};
use std::fmt::Write;

/// The list of these rows, which is that of a process with the help of others over a tree; its state
/// says whose rules the table of calls is by. The only error is that a growth was refused.
pub fn begin_beside<'t, T: FileTree>(
    alloc: Global,
    tree: &T,
    rules: Rules,
    helped: &Helped<'t, '_>,
    rows: &[EverRow<'t>],
) -> Result<ProcessList<'t>, OutOfMemory>
    ensures { IfOk result (λ list. (told : List Told) →
        AreEverTold (T.content tree.now) [] rows.now told [] → list_text (T.content tree.now) list
        ≡ beside_list rules (T.content tree.now) (beside_of helped.now) told) }
{
    let root = root_text(alloc, tree, helped.member.process)?;
    let text = head_text(alloc, rules, root.as_str(), helped)?;
    let veils = veils_of_living(alloc, helped.member.process)?;
    let files = files_text(alloc, tree, helped.member.process)?;
    let head = ProcessHead::of(text, veils, files);
    let lines = ever_lines(alloc, rows)?;
    ProcessList::new(alloc, head, lines, Endings::plain(alloc))
}

/// The heading of such a list, and the lines of the state of its process before those of its veils,
/// among them this one of its root. The only error is that a growth was refused.
fn head_text(
    alloc: Global,
    rules: Rules,
    root: &str,
    helped: &Helped<'_, '_>,
) -> Result<String, AllocError>
    ensures { IfOk result (λ text. string_bytes text
        ≡ beside_heading (beside_of helped.now)
        ++ beside_own rules root.now (beside_of helped.now)) }
{
    let mut text = heading_text(alloc, helped)?;
    push_own(alloc, &mut text, rules, root, helped)?;
    Ok(text)
}

fn heading_text(alloc: Global, helped: &Helped<'_, '_>) -> Result<String, AllocError>
    ensures { IfOk result (λ text. string_bytes text ≡ beside_heading (beside_of helped.now)) }
{
    let mut text = String::new(alloc);
    write!(text, "ever {}", helped.member.number)?;
    push_others(&mut text, helped.others)?;
    writeln!(text)?;
    Ok(text)
}

/// Adds the numbers of the others, if there are some.
fn push_others(text: &mut String, others: &[Member<'_>]) -> Result<(), AllocError>
    ensures { OnOk result (string_bytes text.new
        ≡ string_bytes text.old ++ others_text (named_by others.now)) }
{
    if others.is_empty() {
        return Ok(());
    }
    text.push_str(" beside ")?;
    push_numbers(text, others)
}

/// Adds the lines of a state before those of the veils: an ended process has one.
fn push_own(
    alloc: Global,
    text: &mut String,
    rules: Rules,
    root: &str,
    helped: &Helped<'_, '_>,
) -> Result<(), AllocError>
    ensures { OnOk result (string_bytes text.new
        ≡ string_bytes text.old ++ beside_own rules root.now (beside_of helped.now)) }
{
    if helped.member.process.ended() {
        return push_line(text, "process ", "ended");
    }
    push_living(alloc, text, rules, root, helped)
}

/// Adds the lines of a living process.
fn push_living(
    alloc: Global,
    text: &mut String,
    rules: Rules,
    root: &str,
    helped: &Helped<'_, '_>,
) -> Result<(), AllocError>
    ensures { OnOk result (string_bytes text.new
        ≡ string_bytes text.old ++ beside_living rules root.now (beside_of helped.now)) }
{
    push_line(text, "process ", "alive")?;
    push_held(alloc, text, rules, helped.member.process)?;
    push_bounds(alloc, text, rules, root, helped)
}

/// Adds what becomes of the list at an exec of one of them, that the process can still receive
/// files, this line of its root, what promises open by themselves, and that there is no veil. The
/// only error is that a growth was refused.
fn push_bounds(
    alloc: Global,
    text: &mut String,
    rules: Rules,
    root: &str,
    helped: &Helped<'_, '_>,
) -> Result<(), AllocError>
    ensures { OnOk result (string_bytes text.new
        ≡ string_bytes text.old ++ beside_bounds rules root.now (beside_of helped.now)) }
{
    let process = helped.member.process;
    push_execs(text, Time::Ever(helped.execs))?;
    push_receives(text, rules, Time::Ever(helped.own), process)?;
    text.push_str(root)?;
    push_opened(alloc, text, rules, Time::Ever(helped.own), process)?;
    push_unveiled(text, process)
}
