//! What a call does where it is allowed.

ghost use Rattle.std.specs.Prelude.{◌≡◌};
ghost use Rattle.pua_calls.specs.Effects.{makes, removes, edits};

use pua_tree::Kind;

/// What a call does where it is allowed.
#[derive(Clone, Copy)]
pub enum Effect {
    /// It changes nothing that is kept here: neither names, nor kinds of nodes, nor what a process
    /// is.
    Looks,
    /// It makes a node of this kind, where nothing has the name; of a file, whatever the rules know
    /// of one that is made (`Rules::file`).
    Makes(Kind),
    /// It takes the name away.
    Removes,
    /// The directory becomes that of the process.
    Enters,
    /// The process becomes the program.
    Starts,
}

impl Effect {
    /// Whether it makes a name.
    pub fn makes(self) -> bool
        ensures { result ≡ makes self }
    {
        matches!(self, Effect::Makes(_))
    }

    /// Whether it takes a name away.
    pub fn removes(self) -> bool
        ensures { result ≡ removes self }
    {
        matches!(self, Effect::Removes)
    }

    /// Whether it makes a name or takes one away.
    pub fn edits(self) -> bool
        ensures { result ≡ edits self }
    {
        self.makes() || self.removes()
    }
}
