//! Scripts, and how they are read.

use crate::fault::ScriptFault;
use crate::limits::MOST_SCRIPT_LINES;
use crate::line::add_request;
use crate::request::Request;
use bstr::ByteSlice;
use pua_calls::Rules;
use std::alloc::Global;
use std::marker::Model;

/// The requests of a script, in the order of its lines. Contracts see the list of them.
#[derive(Drop)]
pub struct Script {
    requests: Vec<Request>,
}

impl Model for Script {
    ghost use Rattle.std.specs.Prelude.{List};
    ghost use Rattle.pua_script.specs.Requests.{Asked};

    ghost Value = { List Asked };

    ghost view = { λ a. a.requests.items };
}

ghost use Rattle.std.specs.Prelude.{◌≡◌, ◌≢◌, MatchResult, Ok, Err};
ghost use Rattle.pua_script.specs.Scripts.{script, script_by};

impl Script {
    /// The requests, the first line's first.
    pub fn requests(&self) -> &[Request]
        ensures { result.now ≡ self.now }
    {
        self.requests.as_slice()
    }

    /// The requests, as a vector of one's own.
    pub fn into_requests(self) -> Vec<Request>
        ensures { result.items ≡ self }
    {
        self.requests
    }
}

/// Reads a script by this project's own rules: one request a line, 60,000 lines at most. A line
/// ends in LF or CRLF; the last end may be missing. The format is this program's own.
///
/// The error is the first fault of the first line that has one, with that line's number;
/// `TooMany` where none of the first 60,000 has one and there are more; `OutOfMemory` where a
/// growth was refused. A line after the 60,000th is never read into.
pub fn read_script(alloc: Global, bytes: &[u8]) -> Result<Script, ScriptFault>
    ensures { MatchResult result (λ requests. script bytes.now ≡ Ok requests)
        (λ fault. fault ≢ ScriptFault.OutOfMemory → script bytes.now ≡ Err fault) }
{
    read_script_by(alloc, Rules::Standard, bytes)
}

/// Reads a script with the calls that there are by these rules, as [`read_script`] does by those of
/// this project.
pub fn read_script_by(alloc: Global, rules: Rules, bytes: &[u8]) -> Result<Script, ScriptFault>
    ensures { MatchResult result (λ requests. script_by rules bytes.now ≡ Ok requests)
        (λ fault. fault ≢ ScriptFault.OutOfMemory → script_by rules bytes.now ≡ Err fault) }
{
    let mut requests = Vec::new(alloc);
    let mut number = 0;
    for line in bytes.lines() {
        if number == MOST_SCRIPT_LINES {
            return Err(ScriptFault::TooMany);
        }
        number += 1;
        add_request(alloc, rules, &mut requests, number, line)?;
    }
    Ok(Script { requests })
}
