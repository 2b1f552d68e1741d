//! Worked examples, the contract of a function that does nothing.

ghost use Rattle.pua_io.specs.Examples.{CountRows};

/// Examples of the counts of puts, flushes and reads.
#[tactic(auto, using(crate::specs::Examples::count_rows))]
pub fn io_examples()
    ensures { CountRows }
{}
