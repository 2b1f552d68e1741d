//! Which line says how the program is used.

ghost use Rattle.std.specs.Prelude.{◌≡◌, map};
ghost use Rattle.pua_words.specs.Usages.{line_for, usage_line_text};

use crate::help;

/// The lines that say how the program is used, of which words that are no command get one.
#[derive(Clone, Copy)]
pub enum UsageLine {
    /// How runs and audits are asked for.
    Program,
    /// How a list of objects is asked for, of now or for ever.
    Objects,
    /// How it is asked why a request is answered as it is.
    Why,
    /// How the listing of the tree after a script is asked for.
    Tree,
    /// How a script is asked for without what none of its answers needs.
    Tight,
    /// How a way is asked for to what can ever be touched.
    How,
}

impl UsageLine {
    /// The line for these words, should they be no command. The first of them alone decides: the
    /// line of runs and audits also stands for no words, and for a first word that is no command.
    pub fn of(words: &[&str]) -> UsageLine
        ensures { result ≡ line_for (map (λ word. word.now) words.now) }
    {
        match words.first() {
            Some(first) if *first == "objects" => UsageLine::Objects,
            Some(first) if *first == "why" => UsageLine::Why,
            Some(first) if *first == "tree" => UsageLine::Tree,
            Some(first) if *first == "tight" => UsageLine::Tight,
            Some(first) if *first == "how" => UsageLine::How,
            _ => UsageLine::Program,
        }
    }

    /// The line, without its end.
    pub fn text(self) -> &'static str
        ensures { result.now ≡ usage_line_text self }
    {
        match self {
            UsageLine::Program => help::PROGRAM_USAGE,
            UsageLine::Objects => help::OBJECTS_USAGE,
            UsageLine::Why => help::WHY_USAGE,
            UsageLine::Tree => help::TREE_USAGE,
            UsageLine::Tight => help::TIGHT_USAGE,
            UsageLine::How => help::HOW_USAGE,
        }
    }
}
