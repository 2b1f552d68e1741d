//! Laws and worked examples of what processes may do, each the contract of a function that does
//! nothing.

ghost use Rattle.std.specs.Prelude.{◌≡◌};
ghost use Rattle.pua_policy.specs.Laws.{VeilsAreKept, CoverNeedsUnveil, NearestCounts};
ghost use Rattle.pua_policy.specs.Laws.{KeptPlacesNarrow, CoversDescend, HeldNeverGrows};
ghost use Rattle.pua_policy.specs.Laws.{PledgesNarrow, StatesAreLeft};
ghost use Rattle.pua_policy.specs.ReasonLaws.{CoveringsHold, LackingsHold, MisfitsHold};
ghost use Rattle.pua_policy.specs.ReasonLaws.{PromisingsAnswer, PromisingsHold};
ghost use Rattle.pua_policy.specs.Limits.{most_places};
ghost use Rattle.pua_policy.specs.Examples.{CoverRows, VerdictRows, LastCheckRows, SetRows};
ghost use Rattle.pua_policy.specs.Examples.{ReasonRows};
ghost use Rattle.pua_policy.specs.Examples.{RuleRows};

use crate::process::MOST_PLACES;

/// There may be as many places as the definitions say.
pub fn limits_law()
    ensures { MOST_PLACES ≡ most_places }
{}

/// Examples of what veils leave.
pub fn cover_examples()
    ensures { CoverRows }
{}

/// Examples of what promises and veils allow, the last check of each call on each kind of object,
/// sets of calls, why something is allowed or not, and where OpenBSD's rules answer otherwise.
pub fn verdict_examples()
    ensures verdicts { VerdictRows }
    ensures checks { LastCheckRows }
    ensures sets { SetRows }
    ensures reasons { ReasonRows }
    ensures rules { RuleRows }
{}

/// The veils of a process are exactly the places with their last permissions. Of all events only
/// an unveil changes what they leave; a successful exec is no event, and may drop them all. The
/// nearest veil alone counts, and an unveil at a kept place leaves no object more than it had.
pub fn cover_laws()
    ensures kept { VeilsAreKept }
    ensures unveils { CoverNeedsUnveil }
    ensures nearest { NearestCounts }
    ensures narrows { KeptPlacesNarrow }
{}

/// Covers go down from directory to directory: a directory, or a name in one, has the permissions
/// of its own veil, and without one what the veils leave of the names in the directory over it.
pub fn descent_law()
    ensures { CoversDescend }
{}

/// No event brings back a promise but `error`, so no pledge makes a call allowed by a table that
/// does not ask for it.
pub fn promise_laws()
    ensures held { HeldNeverGrows }
    ensures allowed { PledgesNarrow }
{}

/// What a process keeps is what its history left, event by event and after an exec; and what a
/// history lets a process do is said of what it left.
#[tactic(auto, using(crate::proofs::StatesLeft::states_are_left))]
pub fn standing_law()
    ensures { StatesAreLeft }
{}

/// What a set lacks of another suffices beside the set, and whatever suffices has it. The reason
/// about promises names the set that is held, the first one, or what each set lacks; and whether
/// promises allow a call follows from the reason.
pub fn lacking_law()
    ensures sets { LackingsHold }
    ensures promises { PromisingsHold }
    ensures answers { PromisingsAnswer }
{}

/// The veil that a reason names as covering an object is the nearest, and would decide with any
/// other letters; or none stands on the way up; or none is kept. What is left of the object follows
/// from the reason.
#[tactic(auto, using(crate::proofs::NearestVeil::coverings_hold))]
pub fn covering_law()
    ensures { CoveringsHold }
{}

/// The misfit that a reason names is one of the object.
#[tactic(auto, using(crate::proofs::Misfits::misfits_hold))]
pub fn misfit_law()
    ensures { MisfitsHold }
{}
