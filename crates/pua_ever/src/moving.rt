//! What a process can move.

ghost use Rattle.std.specs.Prelude.{◌≡◌, Some};
ghost use Rattle.std.specs.List.{list_any};
ghost use Rattle.pua_policy.specs.States.{may_any as may_any_of};
ghost use Rattle.pua_ever.specs.Ever.{can_link as gives_names, can_move as moves};
ghost use Rattle.pua_ever.specs.Ever.{may_rename as renames, is_yes as says_yes};

use crate::destinations::has_c;
use crate::prospects::may_link;
use pua_calls::{CallTable, Promises};
use pua_path::Last;
use pua_policy::{Cover, May, Process, judge};
use pua_tree::Kind;

/// Whether a process can move what has this cover: it has `c` and what rename's old name needs, and
/// the process holds the promises of both names.
pub fn can_move(process: &Process, table: &CallTable, cover: &Cover) -> bool
    ensures { result ≡ moves table.now process.now cover.now }
{
    let old_name = table.rename().old_name();
    may_rename(process, table)
        && has_c(*cover)
        && judge::cover_fault(*cover, old_name.perms()).is_none()
}

/// Whether a process can move what has one of these covers.
pub(crate) fn moves_any(process: &Process, table: &CallTable, covers: &[Cover]) -> bool
    ensures { result ≡ list_any (moves table.now process.now) covers.now }
{
    covers.iter().any(|cover| can_move(process, table, cover))
}

/// Whether a process can give what is of this kind, and no directory, a further name by link, by
/// what covers it.
pub fn can_link(process: &Process, table: &CallTable, kind: Kind, cover: Cover) -> bool
    ensures { result ≡ gives_names table.now process.now (Some kind) cover }
{
    let old_name = table.link().old_name();
    if !may_link(process, table) || judge::cover_fault(cover, old_name.perms()).is_some() {
        return false;
    }
    kind != Kind::Link || old_name.last() == Last::Kept
}

/// Whether a process holds the promises of both of rename's names.
fn may_rename(process: &Process, table: &CallTable) -> bool
    ensures { result ≡ renames table.now process.now }
{
    let rename = table.rename();
    may_any(process, rename.old_name().alternatives())
        && may_any(process, rename.new_name().alternatives())
}

/// Whether a process holds one of these sets of promises.
pub fn may_any(process: &Process, alternatives: &[Promises]) -> bool
    ensures { result ≡ says_yes (may_any_of process.now alternatives.now) }
{
    process.may_any(alternatives) == May::Yes
}
