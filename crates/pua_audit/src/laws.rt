//! Laws and worked examples of reaches, each the contract of a function that does nothing.

ghost use Rattle.std.specs.Prelude.{◌≡◌};
ghost use Rattle.pua_audit.specs.Limits.{most_candidates, most_letters};
ghost use Rattle.pua_audit.specs.Laws.{AlphabetRises, ClosedReaches, LiveStatesFew, LiveStatesLive};
ghost use Rattle.pua_audit.specs.Laws.{ReachIsAlong, ReachRises};
ghost use Rattle.pua_audit.specs.Graphs.{GraphsReach, LiveStatesCount, MasksList};
ghost use Rattle.pua_audit.specs.Entries.{EntriesStand};
ghost use Rattle.pua_audit.specs.Table.{TablesStand};
ghost use Rattle.pua_audit.specs.PairTexts.{ResumeTextsName};
ghost use Rattle.pua_audit.specs.Renumbering.{ReachNeedsRows};
ghost use Rattle.pua_audit.specs.SubLists.{FewerReachLess};
ghost use Rattle.pua_audit.specs.Examples.{ReachRows, RootRows};

use crate::limits::{MOST_CANDIDATES, MOST_LETTERS};

/// The limits are those of the definitions.
pub fn limits_law()
    ensures letters { MOST_LETTERS ≡ most_letters }
    ensures candidates { MOST_CANDIDATES ≡ most_candidates }
{}

/// Examples of small reaches, and of those of a process that has a root of its own.
pub fn reach_examples()
    ensures reaches { ReachRows }
    ensures roots { RootRows }
{}

/// The reach has each pair once, in order.
#[tactic(auto, using(crate::proofs::Rising::alphabet_rises, crate::proofs::Rising::reach_rises))]
pub fn reach_laws()
    ensures alphabet { AlphabetRises }
    ensures reach { ReachRises }
{}

/// Of what an audit begins with (a tree, letters that are names or two dots, and words with paths
/// that are not too long) the reach is what is allowed letter by letter, and nothing where the
/// process has ended or its base was removed.
#[tactic(auto, using(crate::proofs::Audited::reaches_along, crate::proofs::Audited::closed_reaches))]
pub fn walk_laws()
    ensures along { ReachIsAlong }
    ensures closed { ClosedReaches }
{}

/// The list of the live states has just the states that are live, each once. So what
/// `Audit::table_len` answers is the number of live states. They are at most 33 N (L + 1), over a
/// tree with N nodes and for words of at most L letters: each is a directory, a number of links
/// from 0 to 32, and a number of letters from 0 to L.
#[tactic(auto, using(crate::proofs::Unique::live_states_live, crate::proofs::FewStates::few_states))]
pub fn live_law()
    ensures exact { LiveStatesLive }
    ensures few { LiveStatesFew }
{}

/// A text names a pair to resume after exactly where it is the text of that pair: the name of a
/// call that the table has, a colon, and the printed path of a word over the alphabet within the
/// limit.
pub fn resume_text_law()
    ensures { ResumeTextsName }
{}

/// The pairs of a graph of steps that stands for a tree and a process are those that are allowed
/// letter by letter, and the live states are as many as the graph's own. Following a letter once,
/// with no link used before, gives all that such a graph has of the letter after any number of
/// links. A set of calls, a bit for each, lists the calls whose bits it has. The graph of a table
/// stands for a judge where each row has the letters of its directory right.
pub fn graph_laws()
    ensures reach { GraphsReach }
    ensures entries { EntriesStand }
    ensures masks { MasksList }
    ensures live { LiveStatesCount }
    ensures tables { TablesStand }
{}

/// Over the same letters and with the same limit, the reach of who is allowed no further pair lies
/// within that of the other.
#[tactic(auto, using(crate::proofs::SubLists::fewer_reach_less))]
pub fn within_law()
    ensures { FewerReachLess }
{}

/// A reach asks a tree for its rows and nodes alone: over a tree with the same ones it is the same,
/// whatever number is the next.
#[tactic(auto, using(crate::proofs::Renumbering::reach_needs_rows))]
pub fn rows_law()
    ensures { ReachNeedsRows }
{}
