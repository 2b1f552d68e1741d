//! Whether a list for ever has a call on what is asked about.

ghost use Rattle.std.specs.Prelude.{◌≡◌};
ghost use Rattle.std.specs.List.{list_any};
ghost use Rattle.pua_calls.specs.Calls.{CallTable};
ghost use Rattle.pua_policy.specs.States.{ProcessState};
ghost use Rattle.pua_ever.specs.EverList.{thing_of};
ghost use Rattle.pua_ever.specs.LastingList.{IsLasting};
ghost use Rattle.pua_how.specs.Outlooks.{IsOutlook, row_has, same_target};
ghost use Rattle.pua_how.specs.Steps.{is_some_by};
ghost use Rattle.pua_how.specs.Targets.{is_about as about_it};

use crate::about::target_of;
use crate::target::Target;
use pua_calls::Call;
use pua_ever::{EverRow, ExecBound, LastingList};
use pua_tree::{FileTree, NodeId};

/// What the list for ever that holds longest says of a call on what is asked about.
#[derive(Clone, Copy, PartialEq, Eq)]
pub struct Outlook {
    /// Whether a line about it has the call.
    pub listed: bool,
    /// What the list says of execs.
    pub execs: ExecBound,
}

/// Whether a line of the list for ever that holds longest has a call on one of these things. Where
/// none has, the call is never allowed there to the process and to what it forks by their own
/// doing, as long as no exec of theirs succeeds, or through every exec where all that they start is
/// bounded; on paths that they can spell, where they can never leave their root.
pub fn find_outlook<T: FileTree>(
    tree: &T,
    list: &LastingList<'_>,
    things: &[Target],
    call: Call,
) -> Outlook
    ensures { (table : CallTable) (h : ProcessState) →
        IsLasting (T.content tree.now) table h list.now →
        IsOutlook (T.content tree.now) table h things.now call result }
{
    Outlook {
        listed: some_listed(tree, list.rows.as_slice(), things, call),
        execs: list.execs,
    }
}

/// Whether a row about one of these things has the call.
fn some_listed<T: FileTree>(tree: &T, rows: &[EverRow<'_>], things: &[Target], call: Call) -> bool
    ensures { result ≡ list_any
        (λ asked. list_any (row_has (T.content tree.now) asked call) rows.now) things.now }
{
    for asked in things {
        if is_listed(tree, rows, asked, call) {
            return true;
        }
    }
    false
}

/// Whether a row about a thing has the call.
fn is_listed<T: FileTree>(tree: &T, rows: &[EverRow<'_>], asked: &Target, call: Call) -> bool
    ensures { result ≡ list_any (row_has (T.content tree.now) asked.now call) rows.now }
{
    for row in rows {
        if has_on(tree, row, asked, call) {
            return true;
        }
    }
    false
}

/// Whether a row is about a thing and has the call.
fn has_on<T: FileTree>(tree: &T, row: &EverRow<'_>, asked: &Target, call: Call) -> bool
    ensures { result ≡ row_has (T.content tree.now) asked.now call row.now }
{
    is_about(tree, row, asked) && row.line.calls.contains(call)
}

/// Whether a row is about a thing.
fn is_about<T: FileTree>(tree: &T, row: &EverRow<'_>, asked: &Target) -> bool
    ensures { result ≡ is_some_by (about_it asked.now) (thing_of (T.content tree.now) row.now) }
{
    match target_of(tree, NodeId::ROOT, row) {
        Some(own) => is_same(asked, &own),
        None => false,
    }
}

/// Whether two things are one; of what can be made, by whichever last number.
fn is_same(asked: &Target, own: &Target) -> bool
    ensures { result ≡ same_target asked.now own.now }
{
    match (asked, own) {
        (Target::Directory(one), Target::Directory(other))
        | (Target::Others(one), Target::Others(other))
        | (Target::Node(one), Target::Node(other)) => one == other,
        (Target::Name(dir, name), Target::Name(other, called)) => dir == other && name == called,
        (Target::NewDirectory(_), Target::NewDirectory(_))
        | (Target::NewOthers(_), Target::NewOthers(_))
        | (Target::NewFile(_), Target::NewFile(_))
        | (Target::NewLink(_), Target::NewLink(_))
        | (Target::NewSock(_), Target::NewSock(_))
        | (Target::NewFifo(_), Target::NewFifo(_)) => true,
        _ => false,
    }
}
