//! What promises open by themselves, by the rules of OpenBSD's kernel.

ghost use Rattle.std.specs.Prelude.{◌≡◌, ◌&&◌, find, map, option_map};
ghost use Rattle.pua_path.specs.Paths.{is_absolute};
ghost use Rattle.pua_calls.specs.Promises.{holds};
ghost use Rattle.pua_script.specs.Openings.{has_call, is_opened, is_opening};
ghost use Rattle.pua_script.specs.Openings.{opening_of, opening_seen, openings, opens_call};

use crate::canonical::are_names;
use crate::rename::ends_in_slash;
use pua_calls::{Call, CallTable, Promises};
use pua_policy::Process;

/// The calls that a promise allows on a path, whatever promises are held beside it.
#[derive(Clone, Copy)]
pub struct Opening {
    /// The keyword of the promise.
    pub promise: &'static str,
    /// The promise alone, as [`Promises::bits`] has it, so that no request reads the keyword.
    pub(crate) bits: u64,
    /// The path; with a slash at its end it is each path below.
    pub path: &'static str,
    /// The calls.
    pub calls: &'static [Call],
    /// Whether the veils are asked as for any path. Else none of them hides the file.
    pub asks_veils: bool,
}

// The bits of the promises that open something.
const DNS: u64 = 1 << 5;

const GETPW: u64 = 1 << 12;

const STDIO: u64 = 1 << 25;

const TMPPATH: u64 = 1 << 27;

const TTY: u64 = 1 << 28;

/// In the order of the promises.
static OPENINGS: [Opening; 14] = [
    Opening {
        promise: "dns",
        bits: DNS,
        path: "/etc/resolv.conf",
        calls: &[Call::Stat, Call::OpenRead],
        asks_veils: false,
    },
    Opening {
        promise: "dns",
        bits: DNS,
        path: "/etc/hosts",
        calls: &[Call::OpenRead],
        asks_veils: false,
    },
    Opening {
        promise: "dns",
        bits: DNS,
        path: "/etc/services",
        calls: &[Call::OpenRead],
        asks_veils: false,
    },
    Opening {
        promise: "dns",
        bits: DNS,
        path: "/etc/protocols",
        calls: &[Call::OpenRead],
        asks_veils: false,
    },
    Opening {
        promise: "getpw",
        bits: GETPW,
        path: "/etc/pwd.db",
        calls: &[Call::OpenRead],
        asks_veils: false,
    },
    Opening {
        promise: "getpw",
        bits: GETPW,
        path: "/etc/group",
        calls: &[Call::OpenRead],
        asks_veils: false,
    },
    Opening {
        promise: "getpw",
        bits: GETPW,
        path: "/etc/netid",
        calls: &[Call::OpenRead],
        asks_veils: false,
    },
    Opening {
        promise: "getpw",
        bits: GETPW,
        path: "/var/run/ypbind.lock",
        calls: &[Call::Stat, Call::OpenRead],
        asks_veils: false,
    },
    Opening {
        promise: "getpw",
        bits: GETPW,
        path: "/var/yp/binding/",
        calls: &[Call::OpenRead],
        asks_veils: false,
    },
    Opening {
        promise: "stdio",
        bits: STDIO,
        path: "/dev/null",
        calls: &[Call::OpenRead, Call::OpenWrite, Call::OpenBoth],
        asks_veils: false,
    },
    Opening {
        promise: "stdio",
        bits: STDIO,
        path: "/etc/localtime",
        calls: &[Call::Stat, Call::OpenRead],
        asks_veils: false,
    },
    Opening {
        promise: "stdio",
        bits: STDIO,
        path: "/usr/share/zoneinfo/",
        calls: &[Call::OpenRead],
        asks_veils: false,
    },
    Opening {
        promise: "tmppath",
        bits: TMPPATH,
        path: "/tmp/",
        calls: &[Call::Create, Call::Unlink, Call::CreateBoth],
        asks_veils: true,
    },
    Opening {
        promise: "tty",
        bits: TTY,
        path: "/dev/tty",
        calls: &[Call::OpenRead, Call::OpenWrite, Call::OpenBoth],
        asks_veils: true,
    },
];

/// All openings, in the order of their promises.
pub fn openings() -> &'static [Opening]
    ensures { map opening_seen result.now ≡ openings }
{
    OPENINGS.as_slice()
}

/// Whether the canonical names of an absolute text are those of this path, or where the path ends in
/// a slash lie below it.
fn is_opened(path: &[u8], text: &[u8]) -> bool
    ensures { result ≡ is_opened path.now text.now }
{
    is_absolute(text) && are_names(ends_in_slash(path), path, text)
}

/// Whether a text begins at the root.
fn is_absolute(text: &[u8]) -> bool
    ensures { result ≡ is_absolute text.now }
{
    matches!(text, [b'/', ..])
}

/// Whether a call is one of these.
fn has_call(calls: &[Call], call: Call) -> bool
    ensures { result ≡ has_call call calls.now }
{
    calls.iter().any(|other| other.number() == call.number())
}

/// Whether an opening has this call, and its path is this text.
fn opens_call(call: Call, text: &[u8], row: &Opening) -> bool
    ensures { result ≡ opens_call call text.now (opening_seen row.now) }
{
    has_call(row.calls, call) && is_opened(row.path.as_bytes(), text)
}

/// Whether an opening's promise is one of these, it has this call, and its path is this text. The
/// promise costs least, and is asked first.
fn is_opening(promises: Promises, call: Call, text: &[u8], row: &Opening) -> bool
    ensures { result
        ≡ (holds promises row.now.bits && opens_call call text.now (opening_seen row.now)) }
{
    promises.bits() & row.bits == row.bits && opens_call(call, text, row)
}

/// The first opening that has this call, whose path is this text, and whose promise is one of
/// these.
fn opening_in(promises: Promises, call: Call, text: &[u8]) -> Option<&'static Opening>
    ensures { option_map (λ row. opening_seen row.now) result
        ≡ find (is_opening promises call text.now) openings }
{
    OPENINGS
        .as_slice()
        .iter()
        .find(|row| is_opening(promises, call, text, row))
}

/// Which opening lets a process's call through, whatever promises are held beside it: by OpenBSD's
/// rules, where the process lives, and a pledge gave it the opening's promise.
pub fn opening_of(
    table: &CallTable,
    process: &Process,
    call: Call,
    text: &[u8],
) -> Option<&'static Opening>
    ensures { option_map (λ row. opening_seen row.now) result
        ≡ opening_of table.now process.now call text.now }
{
    if table.rules().has_openings() && !process.ended() {
        let promises = process.promises().unwrap_or(Promises::NONE);
        opening_in(promises, call, text)
    } else {
        None
    }
}
