//! Laws and worked examples of tightened scripts, each the contract of a function that does
//! nothing.

ghost use Rattle.pua_tight.specs.Examples.{OpenedRows, TightRows, UseRows, WithoutRows};
ghost use Rattle.pua_tight.specs.Examples.{WrittenRows};
ghost use Rattle.pua_tight.specs.JointLaws.{ScriptsComeToNoMore, TightComesToNoMore};
ghost use Rattle.pua_tight.specs.JointLaws.{WithinActsNoMoreJointly, WithinAllowsNoMoreJointly};
ghost use Rattle.pua_tight.specs.JointLaws.{WithinHasNoMoreJointLines, WithinListsNoMoreJointly};
ghost use Rattle.pua_tight.specs.JointLaws.{WorldsComeToNoMore};
ghost use Rattle.pua_tight.specs.Laws.{RulesRestOnOne, ScriptsAreTightened};
ghost use Rattle.pua_tight.specs.Laws.{FuturesAreWithin, RequestKeepsWithin, ScriptsKeepWithin};
ghost use Rattle.pua_tight.specs.Laws.{TightensScripts, TightIsLeast, TightIsMinimal};
ghost use Rattle.pua_tight.specs.Laws.{TextsAreRead, TightTextsAreRead};
ghost use Rattle.pua_tight.specs.Trials.{TriedOneByOne};
ghost use Rattle.pua_tight.specs.Laws.{WithinAllowsNoMore, WithinGrantsNoMore, WithinListsNoMore};
ghost use Rattle.pua_tight.specs.Laws.{WithinLastsNoMore, WithinListsNoMoreForEver};

/// Examples of scripts with the tightened ones, of the bytes that are written of them, and of what
/// their words are needed for.
#[tactic(auto, using(crate::specs::Examples::tight_rows, crate::specs::Examples::opened_rows, crate::specs::Examples::written_rows, crate::specs::Examples::without_rows, crate::specs::Examples::use_rows))]
pub fn tight_examples()
    ensures words { TightRows }
    ensures opened { OpenedRows }
    ensures texts { WrittenRows }
    ensures without { WithoutRows }
    ensures uses { UseRows }
{}

/// A script that is another one but for keywords of pledges and letters of unveils that were left
/// out, and is answered as it line by line, leaves the same tree and the same processes, each of
/// which may do nothing more: over any tree, on any path, now or after whatever is granted later.
pub fn narrower_law()
    ensures step { RequestKeepsWithin }
    ensures scripts { ScriptsKeepWithin }
    ensures allows { WithinAllowsNoMore }
    ensures lists { WithinListsNoMore }
    ensures ever { WithinListsNoMoreForEver }
    ensures lasting { WithinLastsNoMore }
    ensures grants { WithinGrantsNoMore }
    ensures futures { FuturesAreWithin }
{}

/// Any processes of a thinned script that is answered as the given one come to touch no more, all
/// of them together, than those of the same numbers in the given one: each line of a joint list has
/// one in the other's, about the same thing, with all of its calls. So it is with less help, and
/// with what they start, where what is not bounded in the given script does not count in the
/// thinned one; and who starts nothing there starts nothing here. A tightened script is such a one.
pub fn joint_law()
    ensures allows { WithinAllowsNoMoreJointly }
    ensures lists { WithinListsNoMoreJointly }
    ensures lines { WithinHasNoMoreJointLines }
    ensures acting { WithinActsNoMoreJointly }
    ensures worlds { WorldsComeToNoMore }
    ensures scripts { ScriptsComeToNoMore }
    ensures tight { TightComesToNoMore }
{}

/// A tightened script is the given one but for what was left out, is answered as it line by line,
/// and leaves the same tree and the same processes, each of which may do nothing more. It is what
/// trials leave, one after another, each of the whole script that those before it left.
pub fn tight_law()
    ensures tightens { TightensScripts }
    ensures trials { TriedOneByOne }
{}

/// Without any one keyword or letter more that may be left out, some line is answered otherwise:
/// one pass, from the last line to the first, leaves nothing to a second.
pub fn minimal_law()
    ensures { TightIsMinimal }
{}

/// Where each request of a script rests on one set of promises, if it is allowed at all, and no
/// promise that may be left out opens one of its paths by itself, nothing else that may be left out
/// of the script, so that it is answered as before, leaves less than the tightened one has. By the
/// standard rules each request does, and none is opened; by OpenBSD's each does but a chown or
/// fchown, and a call without a path that asks for one of several promises, and a promise that
/// opens a path may be left out only where a call without a path asks for it.
pub fn least_law()
    ensures least { TightIsLeast }
    ensures rules { RulesRestOnOne }
    ensures lines { ScriptsAreTightened }
{}

/// What is written of a tightened script is read as the tightened requests, so that these laws are
/// of its bytes: whatever keywords and letters requests are given without, the bytes without them
/// are a script of these requests.
pub fn text_law()
    ensures written { TextsAreRead }
    ensures tight { TightTextsAreRead }
{}
