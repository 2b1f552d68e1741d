//! Laws and worked examples, each the contract of a function that does nothing.

ghost use Rattle.pua_ever.specs.ComingExamples.{ComingRows};
ghost use Rattle.pua_ever.specs.EnclosedExamples.{EnclosedRows};
ghost use Rattle.pua_ever.specs.EnclosedForEver.{EnclosedStay, WithoutShownExec};
ghost use Rattle.pua_ever.specs.EnclosedForEver.{EnclosedThroughExecs, EnclosedWithExecs};
ghost use Rattle.pua_ever.specs.EnclosedForEver.{EverInside, EverShown, EverShownAfterRead};
ghost use Rattle.pua_ever.specs.EnclosedForEver.{EverShownLasts, InsideThroughExecs};
ghost use Rattle.pua_ever.specs.Examples.{EverRows, MovedRows, StartedRows};
ghost use Rattle.pua_ever.specs.Laws.{EverAfterRead, EverAsRead, EverBeside, EverComplete, EverOfMany};
ghost use Rattle.pua_ever.specs.Laws.{EverWithExecs, OkaysAreForeseen};
ghost use Rattle.pua_ever.specs.Laws.{NowWithinEver};
ghost use Rattle.pua_ever.specs.Laws.{NewPlacesStand, ReplaysKeepPlaces, RulesEditByC};
ghost use Rattle.pua_ever.specs.Laws.{StartsForeseen, WithoutExec};
ghost use Rattle.pua_ever.specs.Through.{EverLasts, EverLastsAfterRead, EverThroughExecs};
ghost use Rattle.pua_ever.specs.Through.{FamiliesConfineThrough, FamiliesGoAlong};
ghost use Rattle.pua_ever.specs.Through.{FamiliesNarrowThrough, NowWithinLasting, StartsThroughExecs};
ghost use Rattle.pua_ever.specs.ThroughExamples.{ThroughRows};
ghost use Rattle.pua_ever.specs.Together.{EverTogether, JoinedTurns, TogetherAfterRead};
ghost use Rattle.pua_ever.specs.Together.{TogetherLasts, TogetherStarts};
ghost use Rattle.pua_ever.specs.TogetherExamples.{TogetherRows};

/// Whatever a process that can put no veil any more and what it forks ask for, as long as nobody
/// else changes the tree and no exec of theirs succeeds: if a call of one of them is then allowed
/// on what a path names, the line of that thing in the list of the beginning has the call. So it is
/// of several processes with the same veils, of execs that let them do no more, and after a
/// listing and a script as a command reads them. What one of them is then answered ok has its line,
/// or a promise opens its text that was held in the beginning. Where no line has an exec, none can
/// succeed; and a file that is made, or that a call of its line can make a program, or that was
/// held open so that it could be written or its mode be set, has exec in its line wherever it could
/// be started, were it one. Requests go by a table, and the list by its
/// `with_tmppath`, so that what tmppath makes and frees has its lines too; and so in all laws here.
pub fn ever_law()
    ensures complete { EverComplete }
    ensures many { EverOfMany }
    ensures beside { EverBeside }
    ensures execs { EverWithExecs }
    ensures okays { OkaysAreForeseen }
    ensures exec { WithoutExec }
    ensures starts { StartsForeseen }
    ensures read { EverAsRead }
    ensures after_read { EverAfterRead }
{}

/// The list of the objects of now lies within the list for ever: each line of now has one there by
/// the same names, about the same thing, with all of its calls.
pub fn now_law()
    ensures { NowWithinEver }
{}

/// Each veil stands on a number that was given, in a new world and in each that a replay leaves;
/// and the standard rules and those of OpenBSD are tables that the laws speak of.
#[tactic(auto, using(crate::proofs::VeilPlacesGiven::new_places, crate::proofs::VeilPlacesGiven::replays_keep_places, crate::proofs::Rules::rules_edit_by_c))]
pub fn premises_law()
    ensures new { NewPlacesStand }
    ensures places { ReplaysKeepPlaces }
    ensures rules { RulesEditByC }
{}

/// Examples of what can ever be touched.
#[tactic(auto, using(crate::specs::Examples::ever_rows))]
pub fn ever_examples()
    ensures { EverRows }
{}

/// Examples of what can be moved, and so be touched.
#[tactic(auto, using(crate::specs::Examples::moved_rows))]
pub fn moving_examples()
    ensures { MovedRows }
{}

/// Examples of the veils under which things come to stand.
#[tactic(auto, using(crate::specs::ComingExamples::coming_rows))]
pub fn coming_examples()
    ensures { ComingRows }
{}

/// Examples of what can be started that was no program.
#[tactic(auto, using(crate::specs::Examples::started_rows))]
pub fn program_examples()
    ensures { StartedRows }
{}

/// The same through execs, where all that is started is bounded by the execpromises: each of the
/// family holds what the process held, or what it handed down, under the same veils, and each call
/// that is then allowed to one of them has its line in the list of the beginning. So it is of
/// several processes that act together, of files that are made programs, and after a listing and a
/// script as a command reads them. The list of the objects of now lies within it.
pub fn through_law()
    ensures along { FamiliesGoAlong }
    ensures narrows { FamiliesNarrowThrough }
    ensures confines { FamiliesConfineThrough }
    ensures through { EverThroughExecs }
    ensures starts { StartsThroughExecs }
    ensures lasts { EverLasts }
    ensures read { EverLastsAfterRead }
    ensures now { NowWithinLasting }
{}

/// Examples of what can ever be touched through execs.
#[tactic(auto, using(crate::specs::ThroughExamples::through_rows))]
pub fn through_examples()
    ensures { ThroughRows }
{}

/// Several processes with the same veils, in whichever order, that can put no more: whatever they
/// and what they fork ask for, as long as nobody else changes the tree and no exec of theirs
/// succeeds, each call that is then allowed to one of them has its line in the list of the one that
/// stands for all of them. So it is through execs, where all that they start is bounded, and after
/// a listing and a script as a command reads them. A file that is made, or that a call of its line
/// can make a program, or that any of them held open so that it could be written or its mode be
/// set, has exec in its line wherever it could be started, were it a program.
pub fn together_law()
    ensures together { EverTogether }
    ensures turns { JoinedTurns }
    ensures starts { TogetherStarts }
    ensures lasts { TogetherLasts }
    ensures read { TogetherAfterRead }
{}

/// Examples of what several processes can ever touch together.
#[tactic(auto, using(crate::specs::TogetherExamples::together_rows))]
pub fn together_examples()
    ensures { TogetherRows }
{}

/// A process that is enclosed in its root and lacks the promise by which a root is changed is so for
/// ever: whatever it and what it forks ask for, as long as nobody else changes the tree and no exec
/// of theirs succeeds, each of them stays so, the rows outside of the root stay, and what is at or
/// below it was there, or was made there. So it is of several processes with one root, and through
/// execs, where all that is started is bounded and lacks that promise. Each call that is then
/// allowed to one of them, on a path that it can spell, has its line in the list of the beginning,
/// cut at the root where they are so, and so after a listing and a script as a command reads them.
/// Where no line of that list has an exec, none can succeed.
pub fn enclosed_law()
    ensures stay { EnclosedStay }
    ensures many { EnclosedWithExecs }
    ensures through { EnclosedThroughExecs }
    ensures inside { EverInside }
    ensures shown { EverShown }
    ensures exec { WithoutShownExec }
    ensures inside_through { InsideThroughExecs }
    ensures lasts { EverShownLasts }
    ensures after_read { EverShownAfterRead }
{}

/// Examples of lists for ever that are cut at a root.
#[tactic(auto, using(crate::specs::EnclosedExamples::enclosed_rows))]
pub fn enclosed_examples()
    ensures { EnclosedRows }
{}
