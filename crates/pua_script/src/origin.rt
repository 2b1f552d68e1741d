//! Where requests come from.

use std::marker::Model;

/// Where a request comes from: the number of its line, and the process that asks, whose number
/// lies from 1 to 999,999.
#[derive(Clone, Copy)]
pub(crate) struct Origin {
    pub(crate) line: u32,
    pub(crate) process: u32,
}

impl Model for Origin {
    ghost use Rattle.std.specs.Prelude.{IsTrue};
    ghost use Rattle.pua_script.specs.Requests.{is_process_number};
    ghost use Rattle.pua_script.specs.Added.{LineOf};

    ghost Value = { LineOf };

    ghost view = { λ a. record { line = a.line; process = a.process } };

    ghost invariant = { λ a. IsTrue (is_process_number a.process) };

    ghost inverse = { λ a. record { line = a.line; process = a.process } };
}
