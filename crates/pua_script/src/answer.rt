//! What a request is answered.

use pua_path::Errno;
use std::fmt;

/// What a request is answered. It is displayed as `ok`, the errno's name, `killed` or `gone`.
#[derive(Clone, Copy, PartialEq, Eq)]
pub enum Answer {
    /// It was done.
    Okay,
    /// It failed, and changed nothing.
    Failed(Errno),
    /// It was not promised, and ended the process.
    Killed,
    /// The process has ended before, or was never made.
    Gone,
}

impl fmt::Display for Answer {
    ghost use Rattle.std.specs.Prelude.{Some};
    ghost use Rattle.pua_script.specs.AnswerTexts.{answer_text};

    ghost output = { λ answer. Some (answer_text answer) };

    fn fmt<W: fmt::Write>(&self, f: &mut fmt::Formatter<W>) -> fmt::Result {
        match self {
            Answer::Okay => f.write_str("ok"),
            Answer::Failed(errno) => errno.fmt(f),
            Answer::Killed => f.write_str("killed"),
            Answer::Gone => f.write_str("gone"),
        }
    }
}
