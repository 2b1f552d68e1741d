//! Files that can be made programs.

ghost use Rattle.std.specs.Prelude.{◌≡◌, ◌&&◌, ◌||◌};
ghost use Rattle.std.specs.List.{list_any};
ghost use Rattle.pua_calls.specs.CallSets.{has};
ghost use Rattle.pua_calls.specs.declared.call.Call.{Call as AnyCall};
ghost use Rattle.pua_ever.specs.Ever.{is_exec_call, may_start, turning_calls};

use pua_calls::{Call, Calls};
use pua_tree::{FileType, Kind};

/// The calls on a file that stands, by those on a file and those on a program under the same
/// covers: exec too where a descriptor or one of them can make it a program.
pub(crate) fn on_file(turned: bool, as_file: Calls, as_program: Calls) -> Calls
    ensures { (call : AnyCall) → has result call ≡ (has as_file call
        || ((turned || list_any (has as_file) turning_calls)
        && (is_exec_call call && has as_program call))) }
{
    if turned || can_turn(as_file) {
        return on_new_file(as_file, as_program);
    }
    as_file
}

/// The same of a file that is made, whose mode is given with it.
pub fn on_new_file(as_file: Calls, as_program: Calls) -> Calls
    ensures { (call : AnyCall) → has result call
        ≡ (has as_file call || (is_exec_call call && has as_program call)) }
{
    if as_program.contains(Call::Exec) {
        return as_file.with(Call::Exec);
    }
    as_file
}

/// Whether what is of this kind is a plain file or may be one: a kernel starts no other, once it is
/// written and its mode lets it (execve(2)).
pub fn may_start(kind: Kind) -> bool
    ensures { result ≡ may_start kind }
{
    matches!(kind, Kind::File | Kind::Known(FileType::Plain))
}

/// Whether one of the calls on a file writes it or sets its mode.
pub fn can_turn(calls: Calls) -> bool
    ensures { result ≡ list_any (has calls) turning_calls }
{
    Call::ALL
        .iter()
        .filter(|call| call.turns())
        .any(|call| calls.contains(*call))
}
