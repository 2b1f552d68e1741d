//! Why scripts are refused, and why a request was not served.

ghost use Rattle.std.specs.Prelude.{◌≡◌};
ghost use Rattle.pua_script.specs.FaultTexts.{script_told};

use std::fmt;
use thiserror::Error;

/// Why bytes are no script: the fault of the first line that has one, with the number of that line,
/// counted from 1.
#[derive(Clone, Copy, Debug, PartialEq, Eq)]
pub enum ScriptFault {
    /// The line or a field is empty, a byte is one that no field has, or the process is no decimal
    /// from 1 to 999,999.
    BadLine(u32),
    /// No call, an unknown call, another number of arguments than the call has, or the number of a
    /// new process that is no decimal from 1 to 999,999.
    BadCall(u32),
    /// A path or a target is no spelling, or holds a NUL.
    BadPath(u32),
    /// A list of keywords has an empty word, an unveil has one NULL alone, or a word of a call
    /// without a path is no promise, is `error`, or stands twice.
    BadList(u32),
    /// None of the first 60,000 lines has a fault, and there are more.
    TooMany,
    /// A growth of memory was refused.
    OutOfMemory,
}

impl ScriptFault {
    /// The number of the line that is to blame, if one is, and what is wrong.
    pub fn told(&self) -> (Option<u32>, &'static str)
        ensures line { result.0 ≡ (script_told self.now).0 }
        ensures wrong { result.1.now ≡ (script_told self.now).1 }
    {
        match self {
            ScriptFault::BadLine(line) => (Some(*line), "bad line"),
            ScriptFault::BadCall(line) => (Some(*line), "bad call"),
            ScriptFault::BadPath(line) => (Some(*line), "bad path"),
            ScriptFault::BadList(line) => (Some(*line), "bad list"),
            ScriptFault::TooMany => (None, "too many lines"),
            ScriptFault::OutOfMemory => (None, "out of memory"),
        }
    }
}

impl fmt::Display for ScriptFault {
    fn fmt<W: fmt::Write>(&self, f: &mut fmt::Formatter<W>) -> fmt::Result {
        match self.told() {
            (Some(line), wrong) => write!(f, "line {line}: {wrong}"),
            (None, wrong) => f.write_str(wrong),
        }
    }
}

impl std::error::Error for ScriptFault {}

/// Why a request was not served.
#[derive(Clone, Copy, Debug, PartialEq, Eq, Error)]
pub enum WorldFault {
    /// A growth of memory was refused.
    #[error("out of memory")]
    OutOfMemory,
}
