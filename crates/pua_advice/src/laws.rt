//! Laws and worked examples of advices, each the contract of a function that does nothing.

ghost use Rattle.pua_advice.specs.Examples.{ArgumentRows, BlameRows, CallRows, FileRows, FormRows};
ghost use Rattle.pua_advice.specs.Examples.{TextRows, UsesRows};
ghost use Rattle.pua_advice.specs.Laws.{RefusedAreAdvised, ScriptsAreAdvised, UnknownAreNone};

/// Examples of what is said of lines, and how.
#[tactic(auto, using(crate::specs::Examples::form_rows, crate::specs::Examples::call_rows, crate::specs::Examples::argument_rows, crate::specs::Examples::uses_rows, crate::specs::Examples::file_rows, crate::specs::Examples::blame_rows, crate::specs::Examples::text_rows))]
pub fn advice_examples()
    ensures forms { FormRows }
    ensures calls { CallRows }
    ensures arguments { ArgumentRows }
    ensures uses { UsesRows }
    ensures files { FileRows }
    ensures blames { BlameRows }
    ensures texts { TextRows }
{}

/// Something is said of each line that is refused, and nothing of any other; so something is said
/// of each script that is refused, but of one with too many lines.
pub fn advice_law()
    ensures lines { RefusedAreAdvised }
    ensures scripts { ScriptsAreAdvised }
{}

/// A word that is said to be the name of no call is none's by these rules, whatever stands after
/// it.
pub fn calls_law()
    ensures { UnknownAreNone }
{}
