//! The list for ever of several processes together: its heading, their states, and what they can
//! touch.

ghost use Rattle.std.specs.Prelude.{◌≡◌, IfOk};
ghost use Rattle.pua_calls.specs.Calls.{CallTable};
ghost use Rattle.pua_texts.specs.ListLines.{list_text, lists_text};
ghost use Rattle.pua_texts.specs.Members.{IsJointOf, named_by};
ghost use Rattle.pua_texts.specs.TogetherLines.{one_of, together_list};

use crate::endings::Endings;
use crate::ever_list::ever_lines;
use crate::lists::alone;
use crate::member_states::states_text;
use crate::members::{Joined, Member};
use crate::process_head::ProcessHead;
use crate::process_list::ProcessList;
use crate::state::{Time, push_bounds};
use pua_calls::Rules;
use pua_tree::{FileTree, OutOfMemory};
use std::alloc::Global;
use std::collections::VecDeque;

/// The list of what these processes can ever touch together over a tree, alone, which is that of the
/// one that stands for those of them that live; without one no process lives, and the list has only
/// their states. It says whose rules the table of calls is by. The only error is that a growth was
/// refused.
pub fn begin_together<'t, 'l, T: FileTree>(
    alloc: Global,
    tree: &T,
    rules: Rules,
    members: &'l [Member<'t>],
    joint: Option<Joined<'t, 'l>>,
) -> Result<VecDeque<ProcessList<'t>>, OutOfMemory>
    ensures { IfOk result (λ lists. (table : CallTable) →
        IsJointOf (T.content tree.now) table (one_of table (named_by members.now)) joint.entry →
        lists_text (T.content tree.now) lists.items
        ≡ together_list rules table (T.content tree.now) (named_by members.now)) }
{
    alone(alloc, begin_list(alloc, tree, rules, members, joint)?)
}

/// The list of these processes. The only error is that a growth was refused.
fn begin_list<'t, T: FileTree>(
    alloc: Global,
    tree: &T,
    rules: Rules,
    members: &[Member<'_>],
    joint: Option<Joined<'t, '_>>,
) -> Result<ProcessList<'t>, OutOfMemory>
    ensures { IfOk result (λ list. (table : CallTable) →
        IsJointOf (T.content tree.now) table (one_of table (named_by members.now)) joint.entry →
        list_text (T.content tree.now) list
        ≡ together_list rules table (T.content tree.now) (named_by members.now)) }
{
    let mut text = states_text(alloc, tree, rules, members)?;
    let files = String::new(alloc);
    let Some(joint) = joint else {
        let head = ProcessHead::of(text, Vec::new(alloc), files);
        return ProcessList::new(alloc, head, Vec::new(alloc), Endings::plain(alloc));
    };
    let time = Time::Ever(joint.list.execs);
    push_bounds(alloc, &mut text, rules, time, "", joint.one)?;
    let head = ProcessHead::of(text, joint.one.veils(alloc)?, files);
    let lines = ever_lines(alloc, joint.list.rows.as_slice())?;
    ProcessList::new(alloc, head, lines, Endings::plain(alloc))
}
