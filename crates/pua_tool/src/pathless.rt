//! The calls without a path that promises let through, by OpenBSD's rules.

ghost use Rattle.std.specs.Prelude.{◌≡◌, ◌++◌, OnOk, flat_map, map, string_bytes};
ghost use Rattle.pua_tool.specs.Pathless.{behind_words, pathless, pathless_of, pathless_told};

use pua_calls::Promises;
use std::alloc::{AllocError, Global};

/// Adds the names of the calls without a path that these promises let through, after a blank, with
/// commas between them; of most promises there are none. The only error is that a growth was
/// refused.
#[tactic(auto, unfolding(crate::specs::Pathless::pathless_of))]
pub(crate) fn push_pathless(
    alloc: Global,
    text: &mut String,
    promises: Promises,
) -> Result<(), AllocError>
    ensures { OnOk result (string_bytes text.new ≡ string_bytes text.old ++ pathless_of promises) }
{
    let Ok(keywords) = promises.names(alloc) else {
        return Err(AllocError);
    };
    push_all(text, keywords.as_slice())
}

/// Adds those of each of the promises with these keywords.
fn push_all(text: &mut String, keywords: &[&str]) -> Result<(), AllocError>
    ensures { OnOk result (string_bytes text.new ≡ string_bytes text.old
        ++ flat_map pathless_told (map (λ keyword. keyword.now) keywords.now)) }
{
    for keyword in keywords {
        push_calls(text, keyword)?;
    }
    Ok(())
}

/// Adds those of the promise with this keyword.
fn push_calls(text: &mut String, keyword: &str) -> Result<(), AllocError>
    ensures { OnOk result (string_bytes text.new ≡ string_bytes text.old
        ++ pathless_told keyword.now) }
{
    push_behind(text, pathless(keyword))
}

/// Adds names of calls after a blank, if there are some.
fn push_behind(text: &mut String, calls: &str) -> Result<(), AllocError>
    ensures { OnOk result (string_bytes text.new ≡ string_bytes text.old
        ++ behind_words calls.now) }
{
    if calls.is_empty() {
        return Ok(());
    }
    text.push_str(" ")?;
    text.push_str(calls)
}

/// The calls without a path that ask for the promise with this keyword, alone or as one of several
/// (pledge(2), and its sources); no text where there are none. The manual page has the same table.
fn pathless(keyword: &str) -> &'static str
    ensures { result.now ≡ pathless keyword.now }
{
    if keyword == "dns" {
        "connect,getsockname,socket"
    } else if keyword == "flock" {
        "fcntl,flock"
    } else if keyword == "id" {
        "getpriority,setegid,seteuid,setgid,setgroups,setlogin,setpriority,setregid,setresgid,setresuid,setreuid,setrlimit,setuid"
    } else if keyword == "inet" {
        "accept,accept4,bind,connect,getpeername,getsockname,listen,socket"
    } else if keyword == "proc" {
        "getpriority,kill,setpgid,setpriority,setrlimit,setsid"
    } else if keyword == "route" {
        "socket"
    } else if keyword == "settime" {
        "adjfreq,adjtime,settimeofday"
    } else if keyword == "unix" {
        "accept,accept4,getpeername,getsockname,listen,socket"
    } else {
        ""
    }
}
