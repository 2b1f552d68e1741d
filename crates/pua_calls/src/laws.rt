//! Laws and worked examples of promises, permissions and tables of calls, each the contract of a
//! function that does nothing, or that hands out the constants of which it speaks.

ghost use Rattle.std.specs.Prelude.{◌≡◌, [], ◌∷◌, Ok, codes, map};
ghost use Rattle.pua_calls.specs.Calls.{call_count, calls};
ghost use Rattle.pua_calls.specs.Tables.{most_alternatives};
ghost use Rattle.pua_calls.specs.Promises.{promises_of, other_promises, perms_of};
ghost use Rattle.pua_calls.specs.TableExamples.{OpenbsdRows, TableRows};

use crate::call::Call;
use crate::perms::Perms;
use crate::promises::Promises;
use crate::table::MOST_ALTERNATIVES;

/// The constants of `Promises` that are one promise, in the order of their keywords: each is what
/// its keyword names.
pub fn promise_constants() -> [Promises; 15]
    ensures { map Ok result ≡ map promises_of (codes "chown" ∷ codes "cpath" ∷ codes "dpath"
        ∷ codes "error" ∷ codes "exec" ∷ codes "fattr" ∷ codes "id" ∷ codes "proc" ∷ codes "recvfd"
        ∷ codes "rpath" ∷ codes "sendfd" ∷ codes "tmppath" ∷ codes "unix" ∷ codes "unveil" ∷ codes "wpath" ∷ []) }
{
    [
        Promises::CHOWN,
        Promises::CPATH,
        Promises::DPATH,
        Promises::ERROR,
        Promises::EXEC,
        Promises::FATTR,
        Promises::ID,
        Promises::PROC,
        Promises::RECVFD,
        Promises::RPATH,
        Promises::SENDFD,
        Promises::TMPPATH,
        Promises::UNIX,
        Promises::UNVEIL,
        Promises::WPATH,
    ]
}

/// The constants of `Promises` that are more or less than one promise: none, and what every keyword
/// but `error` names.
pub fn promise_bounds() -> (Promises, Promises)
    ensures none { promises_of [] ≡ Ok result.0 }
    ensures all_but_error { other_promises (codes "error") ≡ Ok result.1 }
{
    (Promises::NONE, Promises::ALL_BUT_ERROR)
}

/// The constants of `Perms`: none, and what each letter names.
pub fn permission_constants() -> [Perms; 5]
    ensures { map Ok result
        ≡ map perms_of ([] ∷ codes "r" ∷ codes "w" ∷ codes "x" ∷ codes "c" ∷ []) }
{
    [
        Perms::NONE,
        Perms::READ,
        Perms::WRITE,
        Perms::EXEC,
        Perms::CREATE,
    ]
}

/// Every call is listed, in the order of their numbers, and there may be as many alternatives of a
/// call as the definitions say.
pub fn limits_law()
    ensures calls { Call.ALL ≡ calls }
    ensures count { Call.COUNT ≡ call_count }
    ensures alternatives { MOST_ALTERNATIVES ≡ most_alternatives }
{}

/// Examples of texts and of the tables that they give, or what refuses them; and of OpenBSD's rules
/// as a table, and of a text over them.
#[tactic(auto, using(crate::proofs::TableExamples::table_rows, crate::proofs::TableExamples::openbsd_rows))]
pub fn table_examples()
    ensures texts { TableRows }
    ensures openbsd { OpenbsdRows }
{}
