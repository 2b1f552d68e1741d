//! Worked examples of texts, and laws on every future of a world and on trees of the same content,
//! each the contract of a function that does nothing.

ghost use Rattle.std.specs.Prelude.{◌≡◌};
ghost use Rattle.pua_tool.specs.Alike.{AnswersAlike, LinesAlike};
ghost use Rattle.pua_tool.specs.BesideWritten.{BesideAsWritten};
ghost use Rattle.pua_tool.specs.EverHowExamples.{EverHowRows};
ghost use Rattle.pua_tool.specs.Examples.{FaultTextRows, FrontRows, HowTextRows, ReasonTextRows};
ghost use Rattle.pua_tool.specs.Examples.{TextRows, TightTextRows};
ghost use Rattle.pua_tool.specs.Fewest.{TightAsWritten};
ghost use Rattle.pua_tool.specs.Forever.{EverAsWritten};
ghost use Rattle.pua_tool.specs.FrontLaws.{FrontLines, FrontRequests};
ghost use Rattle.pua_tool.specs.Images.{ImagesAsWritten};
ghost use Rattle.pua_tool.specs.Listed.{ObjectsAsWritten};
ghost use Rattle.pua_tool.specs.Never.{NeverAsWritten};
ghost use Rattle.pua_tool.specs.ReadBack.{TreeAsWritten};
ghost use Rattle.pua_tool.specs.Reasoned.{ReasonsAsWritten};
ghost use Rattle.pua_tool.specs.Several.{TogetherAsWritten};
ghost use Rattle.pua_tool.specs.Headline.{IsOfHistories};
ghost use Rattle.pua_tool.specs.Futures.{Confinement, ConfinementAsRead, Narrowing};
ghost use Rattle.pua_tool.specs.Futures.{NarrowingAsRead, NarrowingNow};
ghost use Rattle.pua_tool.specs.TreeExamples.{TreeTextRows};
ghost use Rattle.pua_script.specs.Futures.{RulesNarrow};
ghost use Rattle.pua_script.specs.Tightening.{OthersLeave, OthersLeaveAlways};

use pua_ever::{through_law, together_law};
use pua_jointly::jointly_law;
use pua_listing::read_back_law;
use pua_objects::{root_law, soundness_law};
use pua_script::{bytes_law, openings_law, pasts_law};
use pua_texts::state_law;
use pua_tree::FileTree;

/// Examples of whole texts, and of what refuses them.
#[tactic(auto, using(crate::specs::Examples::text_rows, crate::specs::Examples::reason_text_rows, crate::specs::Examples::tight_text_rows, crate::specs::Examples::how_text_rows, crate::specs::Examples::fault_text_rows, crate::specs::Examples::front_rows))]
pub fn text_examples()
    ensures texts { TextRows }
    ensures reasons { ReasonTextRows }
    ensures tightened { TightTextRows }
    ensures ways { HowTextRows }
    ensures faults { FaultTextRows }
    ensures fronts { FrontRows }
{}

/// Narrowing ("Every future of a locked process" in docs/DEFINITIONS.md): over each tree the later
/// reach of each member of the family of a process that can put no veil any more lies within the
/// reach that the process has over the same tree now, as long as no member's exec succeeds; from
/// the working directory it does where no member's chdir succeeds. This holds for each table of
/// calls in which no call needs `error`, and so for all that a command reads. It is no bound on
/// what is reached as the tree changes. A request of another process leaves a process what it
/// keeps.
pub fn narrowing()
    ensures reach { Narrowing }
    ensures now { NarrowingNow }
    ensures read { NarrowingAsRead }
    ensures others { OthersLeave }
    ensures alone { OthersLeaveAlways }
{}

/// Confinement (in the same place): where such a family alone asks, and no member's exec succeeds,
/// each row whose object the process can't touch with `c` now stays, and where the process doesn't
/// hold cpath the tree does. That page has the tables for which this holds; the standard rules and
/// those of OpenBSD are among them, so both hold of what a command reads without a table of its
/// own. A row that stays says nothing of its file's contents.
pub fn confined()
    ensures rows { Confinement }
    ensures read { ConfinementAsRead }
    ensures rules { RulesNarrow }
{}

/// Where there is a text of lists with what processes were, and one of the processes that are asked
/// for started a program by a line and was answered `ok`, there stands a list of it as it was: but
/// for its heading, that which is printed of this process, behind the answers, of the script that
/// ends before this line.
#[tactic(auto, using(crate::proofs::ImagesWritten::images_as_written))]
pub fn images_text_law()
    ensures { ImagesAsWritten }
{}

/// Where there is a text of a list of objects of a process, it is the answers and the list of the
/// process, each line of which stands in it; and whatever path is spelled from where the paths of
/// the process start, if a call is allowed on it, what it names has a line with the call. A call that
/// is answered ok and has no such line is on a path that a promise opens, which has its line
/// `opening`. And each call of each line is allowed on the line's own path, or on that of each
/// further name, where the root of the process is that of the tree.
pub fn objects_text_law()
    ensures { ObjectsAsWritten }
{
    root_law();
    soundness_law();
    openings_law();
    state_law();
}

/// Where there is a text of a list for ever, it is the answers and the list of the process, which
/// is complete: whatever is asked after the script, as long as nobody else changes the tree, and
/// all that the family starts is bounded or no exec of theirs succeeds. It goes by the table with
/// tmppath (`CallTable::with_tmppath`): what that one allows then has its line too. A call that is
/// then answered ok and has no such line is on a path that a promise opens, which has its line
/// `opening`.
pub fn ever_text_law()
    ensures { EverAsWritten }
{
    openings_law();
    state_law();
    through_law();
}

/// Where there is a text of a list for ever of several processes, it is the answers, their states
/// and the list of the one that stands for those that live, which is complete: whatever these and
/// what they fork ask for, as long as nobody else changes the tree, and all that they start is
/// bounded or no exec of theirs succeeds, each call that is then allowed to one of them has a line
/// in the text; also where the table with tmppath alone allows it, by which the list goes.
pub fn together_text_law()
    ensures { TogetherAsWritten }
{
    together_law();
}

/// Where there is a text of lists for ever with the help of others, it is the answers and a list of
/// each process that is asked for, which is complete: whatever the process, those of the others that
/// live, and what they fork ask for, as long as nobody else changes the tree, and all that they
/// start is bounded or no exec of theirs succeeds, each call that is then allowed to the process or
/// to one of its family has a line in its list; also where the table with tmppath alone allows it,
/// by which the lists go. A call that is then answered ok to one of that family and has no such line
/// is on a path that a promise opens, which has its line `opening`. What each process says of execs
/// is so, with the fewest programs that count.
pub fn beside_text_law()
    ensures { BesideAsWritten }
{
    openings_law();
    state_law();
    through_law();
    jointly_law();
}

/// Where there is a text of a run with reasons, or of the list of a process with them, each line's
/// reason is true: the answer follows from the reason, what the reason says holds of the world
/// after the lines before, and since the line that it names the same request had the same reason,
/// and just before that line another. In the list each line has the promises on which its calls
/// rest, which are held, the veil that covers it, and the line since which that veil has its
/// letters. What a reason names as lacking is exactly what still lacked.
#[tactic(auto, using(crate::proofs::Reasoned::reasons_as_written))]
pub fn reasons_text_law()
    ensures { ReasonsAsWritten }
{}

/// Where the text of a way says `never`, or `never before an exec`, the call is allowed to no
/// member of the process's family on anything that is meant, by whatever path from wherever:
/// whatever is asked after the script, as long as nobody else changes the tree; and where it says
/// the latter, as long as no exec of theirs succeeds. Nor does the table with tmppath allow it then.
#[tactic(auto, using(crate::proofs::Never::never_as_written))]
pub fn never_text_law()
    ensures { NeverAsWritten }
{}

/// Where there is a text of a tightened script, it is a script again, the given one but for words
/// that were left out: its run has the same answers, and by the standard rules the same text; each
/// process may do no more, and without any one word more some line is answered otherwise. Where each
/// request rests on one set of promises, and no promise that may be left out opens a path by itself,
/// whatever else is left out so that all is answered as before has all that it has: by the rules
/// alone, without a table's rows, by the standard ones of every script, by OpenBSD's of every script
/// without chown, fchown, and a call without a path that asks for one of several promises or for one
/// that opens another call's path.
#[tactic(auto, using(crate::proofs::Fewest::tight_as_written))]
pub fn tight_text_law()
    ensures { TightAsWritten }
{}

/// Where there is a text of the tree that a script leaves, it is a listing again, of the same tree
/// but for the numbers of nodes.
pub fn tree_text_law()
    ensures { TreeAsWritten }
{
    read_back_law();
    bytes_law();
}

/// What `narrowing`, `confined`, and the laws of texts say of states holds of histories: wherever a
/// script ends, what a process keeps is what is left of its history, by a replay that keeps the
/// events of each process. So a reader who believes histories alone has each of them, word by word.
pub fn headline_law()
    ensures { IsOfHistories }
{
    pasts_law();
}

/// Over any two trees of the same content, however each is kept, a script is answered the same by a
/// table of calls and leaves the same tree, and an audit of a process where it ends has the same
/// lines.
pub fn trees_alike<S: FileTree, T: FileTree>(first: &S, second: &T)
    requires { S.content first.now ≡ T.content second.now }
    ensures answers { AnswersAlike (S.content first.now) (T.content second.now) }
    ensures lines { LinesAlike (S.content first.now) (T.content second.now) }
{
    first.known();
    second.known();
}

/// The first lines of a script, to the byte, are read as the first of its lines, and there are none
/// exactly where it has fewer; and the requests of a script's first lines are the first of its
/// requests. So with `--at N` a text is of the world that the script's first N requests leave.
pub fn front_law()
    ensures lines { FrontLines }
    ensures requests { FrontRequests }
{}

/// Examples of columns.
#[tactic(auto, using(crate::specs::EverHowExamples::ever_how_rows))]
pub fn column_examples()
    ensures { EverHowRows }
{}

/// Examples of the listings of trees that scripts leave.
#[tactic(auto, using(crate::specs::TreeExamples::tree_text_rows))]
pub fn tree_examples()
    ensures { TreeTextRows }
{}
