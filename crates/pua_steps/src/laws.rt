//! Laws and worked examples, each the contract of a function that does nothing.

ghost use Rattle.pua_steps.specs.Examples.{LiveRows, StepsRows, OrderRows};
ghost use Rattle.pua_steps.specs.Telling.{EntriesTell};
ghost use Rattle.pua_steps.specs.Within.{ReachIsWithin};

/// Examples of tables of steps: how many of their states are live, which pairs they reach, and
/// which of these come after a pair.
pub fn steps_examples()
    ensures live { LiveRows }
    ensures reach { StepsRows }
    ensures order { OrderRows }
{}

/// The pairs of a table are of its letters, and of calls that there are. The bound of an entry is
/// above just those numbers of links, followed before it, with which a call is allowed on its
/// letter or on a word that goes on from it. The lists keep an entry just where that is so for some
/// number of links, and all entries of a directory in which calls are allowed on letters without
/// entries.
#[tactic(auto, using(crate::proofs::Within::reach_is_within, crate::proofs::Telling::entries_tell))]
pub fn steps_laws()
    ensures within { ReachIsWithin }
    ensures entries { EntriesTell }
{}
