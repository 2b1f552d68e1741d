//! The heading of a list of several processes, and the state of each.

ghost use Rattle.std.specs.Prelude.{◌≡◌, ◌∷◌, ◌++◌, [], IfOk, OnOk, if◌then◌else◌};
ghost use Rattle.std.specs.Prelude.{decimal, flat_map, map, string_bytes};
ghost use Rattle.pua_objects.specs.Objects.{with_commas};
ghost use Rattle.pua_texts.specs.Members.{named_by};
ghost use Rattle.pua_texts.specs.TogetherLines.{member_lines, together_heading};

use crate::file_lines::push_files;
use crate::members::Member;
use crate::root_line::root_text;
use crate::state::push_held;
use pua_calls::Rules;
use pua_tree::{FileTree, OutOfMemory};
use std::alloc::{AllocError, Global};
use std::fmt::Write;

/// The heading of a list of these processes, and the state of each of them over a tree. The only
/// error is that a growth was refused.
pub(crate) fn states_text<T: FileTree>(
    alloc: Global,
    tree: &T,
    rules: Rules,
    members: &[Member<'_>],
) -> Result<String, OutOfMemory>
    ensures { IfOk result (λ text. string_bytes text ≡ together_heading (named_by members.now)
        ++ flat_map (member_lines rules (T.content tree.now)) (named_by members.now)) }
{
    let mut text = String::from_str(alloc, "ever ")?;
    push_numbers(&mut text, members)?;
    writeln!(text)?;
    push_states(alloc, &mut text, tree, rules, members)?;
    Ok(text)
}

/// Adds the numbers of processes with commas between them.
pub(crate) fn push_numbers(text: &mut String, members: &[Member<'_>]) -> Result<(), AllocError>
    ensures { OnOk result (string_bytes text.new ≡ string_bytes text.old
        ++ with_commas (map (λ member. decimal member.0) (named_by members.now))) }
{
    let mut is_first = true;
    for member in members {
        push_number(text, is_first, member.number)?;
        is_first = false;
    }
    Ok(())
}

/// Adds a number, with a comma before it unless it is the first.
fn push_number(text: &mut String, is_first: bool, number: u32) -> Result<(), AllocError>
    ensures { OnOk result (string_bytes text.new ≡ string_bytes text.old
        ++ ((if is_first then [] else 44 ∷ []) ++ decimal number)) }
{
    if is_first {
        return write!(text, "{number}");
    }
    write!(text, ",{number}")
}

/// Adds the state of each of these processes.
fn push_states<T: FileTree>(
    alloc: Global,
    text: &mut String,
    tree: &T,
    rules: Rules,
    members: &[Member<'_>],
) -> Result<(), OutOfMemory>
    ensures { OnOk result (string_bytes text.new ≡ string_bytes text.old
        ++ flat_map (member_lines rules (T.content tree.now)) (named_by members.now)) }
{
    for member in members {
        push_state(alloc, text, tree, rules, member)?;
    }
    Ok(())
}

/// Adds the state of a process: its number, whether it lives, by which rules, what it holds, its
/// root, and what it has open.
fn push_state<T: FileTree>(
    alloc: Global,
    text: &mut String,
    tree: &T,
    rules: Rules,
    member: &Member<'_>,
) -> Result<(), OutOfMemory>
    ensures { OnOk result (string_bytes text.new ≡ string_bytes text.old
        ++ member_lines rules (T.content tree.now) (member.now.number, member.now.process.now)) }
{
    if member.process.ended() {
        writeln!(text, "process {} ended", member.number)?;
        return Ok(());
    }
    writeln!(text, "process {} alive", member.number)?;
    push_held(alloc, text, rules, member.process)?;
    let root = root_text(alloc, tree, member.process)?;
    text.push_str(root.as_str())?;
    push_files(alloc, text, tree, member.process)
}
