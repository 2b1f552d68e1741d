//! Laws and worked examples of resolution, each the contract of a function that does nothing.

ghost use Rattle.std.specs.Prelude.{◌≡◌};
ghost use Rattle.pua_path.specs.Limits.{most_links, most_path};
ghost use Rattle.pua_path.specs.Examples.{ResolutionRows, RootRows, StepRows, TraceRows};
ghost use Rattle.pua_path.specs.Laws.{FollowDecides, KeptFollowsNone, LastsFollow, LinksDecide};
ghost use Rattle.pua_path.specs.Laws.{ResolutionComposes, ResolutionsFit};
ghost use Rattle.pua_path.specs.Laws.{StepsCompose, StepsFollow};
ghost use Rattle.pua_path.specs.Goes.{ComingResolves, TracesArrive};
ghost use Rattle.pua_path.specs.TraceLaws.{TextTracesAnswer, TracesAnswer, TracesHold};

use crate::limits::{MOST_LINKS, MOST_PATH};

/// Examples of what texts and parts name, and of how texts go.
pub fn resolution_examples()
    ensures texts { ResolutionRows }
    ensures roots { RootRows }
    ensures steps { StepRows }
    ensures traces { TraceRows }
{}

/// The limits are those of the definitions.
pub fn limits_law()
    ensures links { MOST_LINKS ≡ most_links }
    ensures path { MOST_PATH ≡ most_path }
{}

/// Resolution may be cut before any part.
pub fn resolution_law()
    ensures { ResolutionComposes }
{}

/// Steps along parts and then the last part are the resolution of them all.
pub fn steps_law()
    ensures { StepsCompose }
{}

/// What parts name, and how many links are followed, does not depend on how many may be. So what a
/// part names where no link was used before decides it for any number used before, as `last` and as
/// `step` answer; and a last part that is kept is the same for each.
pub fn links_law()
    ensures parts { LinksDecide }
    ensures steps { StepsFollow }
    ensures lasts { LastsFollow }
    ensures follow { FollowDecides }
    ensures kept { KeptFollowsNone }
{}

/// What a path names is of the tree: its directory lives, and its row is as the tree has it; what
/// was found by a name stands at that name; and it is no link where the last part is followed. The
/// same is true of what a last part names in a living directory. A step leads to a living
/// directory, and no more links are used than may be followed.
pub fn fitting_law()
    ensures { ResolutionsFit }
{}

/// A trace answers as the resolution does.
#[tactic(auto, using(crate::proofs::Answering::traces_answer, crate::proofs::Answering::text_traces_answer))]
pub fn trace_law()
    ensures parts { TracesAnswer }
    ensures texts { TextTracesAnswer }
{}

/// What a trace says stands in the tree stands there, and its links are counted.
#[tactic(auto, using(crate::proofs::Holding::traces_hold))]
pub fn stop_law()
    ensures { TracesHold }
{}

/// A trace says how a path goes, one part after another, to what it names or to where it stops; and
/// the resolution goes so.
#[tactic(auto, using(crate::proofs::Going::traces_arrive, crate::proofs::Going::coming_resolves))]
pub fn going_law()
    ensures arrive { TracesArrive }
    ensures resolve { ComingResolves }
{}
