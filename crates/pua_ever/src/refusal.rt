//! Why there is no list of what a process can ever touch.

ghost use Rattle.std.specs.Prelude.{◌≡◌, ◌⊎◌, true, None, Option, find};
ghost use Rattle.pua_policy.specs.States.{is_ended};
ghost use Rattle.pua_script.specs.Laws.{IsConfined};
ghost use Rattle.pua_ever.specs.Laws.{EditsNeedC};
ghost use Rattle.pua_ever.specs.Refusals.{lacks_c, changing_calls};
ghost use Rattle.pua_ever.specs.Refusals.{both_need_c as pair_needs_c, new_needs_c as makes_by_c};
ghost use Rattle.pua_ever.specs.Refusals.{refusal as refusal_of};

use pua_calls::{Call, CallTable, PairNeed, Perms, Promises};
use pua_policy::{May, Process};

/// Why there is no list of what a process can ever touch.
#[derive(Clone, Copy, PartialEq, Eq)]
pub enum EverRefusal {
    /// The process can still put veils, so nothing is for ever: it is not locked, and holds
    /// `unveil`.
    CanUnveil,
    /// By the table this call, which makes a name or takes one away, does not need `c`: then what
    /// has no `c` does not stay, which the list rests on.
    LacksC(Call),
    /// The same of rename(2), by one of its two names.
    RenameLacksC,
    /// The same of link(2), by its new name.
    LinkLacksC,
}

/// Why there is no list of what a process and all that it forks can ever touch, by a table of what
/// calls need; None where there is one. Of two reasons the process's comes first, then that of the
/// first of rmdir, unlink, create, mkdir, symlink, bind, mknod, rename and link. A process that has
/// ended can put no veil, so it has a list, without a line.
pub fn why_refused(process: &Process, table: &CallTable) -> Option<EverRefusal>
    ensures exact { result ≡ refusal_of table.now process.now }
    ensures none { result ≡ None → EditsNeedC table.now }
    ensures confined { result ≡ None → IsConfined process.now ⊎ (is_ended process.now ≡ true) }
{
    process.known();
    reason(process, table)
}

/// The first reason.
fn reason(process: &Process, table: &CallTable) -> Option<EverRefusal>
    ensures { result ≡ refusal_of table.now process.now }
{
    if !process.locked() && process.may(Promises::UNVEIL) == May::Yes {
        return Some(EverRefusal::CanUnveil);
    }
    if let Some(call) = first_without_c(table) {
        return Some(EverRefusal::LacksC(call));
    }
    if !both_need_c(table.rename()) {
        return Some(EverRefusal::RenameLacksC);
    }
    if !new_needs_c(table.link()) {
        return Some(EverRefusal::LinkLacksC);
    }
    None
}

/// Whether both names of a request with two paths need `c`.
fn both_need_c(pair: &PairNeed) -> bool
    ensures { result ≡ pair_needs_c pair.now }
{
    pair.old_name().perms().contains(Perms::CREATE) && new_needs_c(pair)
}

/// Whether the new name of a request with two paths needs `c`.
fn new_needs_c(pair: &PairNeed) -> bool
    ensures { result ≡ makes_by_c pair.now }
{
    pair.new_name().perms().contains(Perms::CREATE)
}

/// The first of the calls that make a name or take one away that does not need `c`.
fn first_without_c(table: &CallTable) -> Option<Call>
    ensures { result ≡ find (lacks_c table.now) changing_calls }
{
    let removing = Call::ALL.iter().filter(|call| call.effect().removes());
    let making = Call::ALL.iter().filter(|call| call.effect().makes());
    removing
        .chain(making)
        .find(|call| !table.perms(**call).contains(Perms::CREATE))
        .copied()
}
