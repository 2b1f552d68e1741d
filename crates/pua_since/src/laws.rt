//! Worked examples, each the contract of a function that does nothing.

ghost use Rattle.pua_since.specs.Examples.{ChangeRows, SinceRows, TouchRows};

/// Examples of requests that may have changed a world, of what they touch, and of the lines since
/// which something holds.
#[tactic(auto, using(crate::specs::Examples::change_rows, crate::specs::Examples::touch_rows, crate::specs::Examples::since_rows))]
pub fn since_examples()
    ensures changes { ChangeRows }
    ensures touches { TouchRows }
    ensures dates { SinceRows }
{}
