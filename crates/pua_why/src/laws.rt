//! Laws and worked examples of reasons, each the contract of a function that does nothing.

ghost use Rattle.pua_why.specs.Examples.{FileRows, OpeningRows, RootRows, WhyRows};
ghost use Rattle.pua_why.specs.Laws.{AnswersAreTold, CallFaultsHold, ChainsEnd, GrantsAreTold};
ghost use Rattle.pua_why.specs.Laws.{PairsAreTold};
ghost use Rattle.pua_why.specs.Laws.{ReasonsGiveAnswers, ReasonsGiveDecisions};
ghost use Rattle.pua_why.specs.Laws.{ReasonsGiveVerdicts, ReasonsSince, WhyLinesTellMore};
ghost use Rattle.pua_why.specs.Checked.{ChecksTell};
ghost use Rattle.pua_why.specs.Columns.{CoveringsIn};
ghost use Rattle.pua_why.specs.Since.{SinceHolds};
ghost use Rattle.pua_why.specs.Truths.{CheckFaultsHold, FullTreesAreFull, RequestFaultsHold};
ghost use Rattle.pua_why.specs.Unknown.{UnknownsAreTold};

/// Examples of reasons, of what promises open, of descriptors, and of roots.
pub fn why_examples()
    ensures reasons { WhyRows }
    ensures openings { OpeningRows }
    ensures files { FileRows }
    ensures roots { RootRows }
{}

/// A decision is a function of what is reasoned: a reason never contradicts a refusal, nor that of a
/// call without openings the verdict.
pub fn verdict_law()
    ensures decisions { ReasonsGiveDecisions }
    ensures verdicts { ReasonsGiveVerdicts }
{}

/// The answer of a request is a function of its reason.
pub fn answer_law()
    ensures { ReasonsGiveAnswers }
{}

/// A reason is what the checks tell before a request is served, and its answer.
#[tactic(auto, using(crate::proofs::Checking::checks_tell))]
pub fn checks_law()
    ensures { ChecksTell }
{}

/// What holds at the end held all the time, or since the line that is named.
pub fn since_law()
    ensures tests { SinceHolds }
    ensures reasons { ReasonsSince }
{}

/// With reasons each line is the line without them, and more.
pub fn line_law()
    ensures { WhyLinesTellMore }
{}

/// Answers that are told with what opened them are the answers, and by the standard rules nothing is
/// told to have opened any.
#[tactic(auto, using(crate::proofs::ToldAnswers::answers_are_told))]
pub fn told_law()
    ensures { AnswersAreTold }
{}

/// A chain has the facts on which a call rests, or the promise that opens it, and ends with the line
/// of the request as a script's line.
pub fn chain_law()
    ensures ends { ChainsEnd }
    ensures grants { GrantsAreTold }
    ensures pairs { PairsAreTold }
    ensures further { CoveringsIn }
{}

/// What a fault of a call on a path says is true.
pub fn fault_law()
    ensures { CallFaultsHold }
{}

/// What a fault of a request says is true, and a request has no other faults than its own. A tree
/// that a fault calls full lacks the room that the change wants.
pub fn truth_law()
    ensures checks { CheckFaultsHold }
    ensures requests { RequestFaultsHold }
    ensures full { FullTreesAreFull }
{}

/// A request that is refused for a word that is no promise, or a letter that is no permission, has
/// a reason that names it.
pub fn unknown_law()
    ensures { UnknownsAreTold }
{}
