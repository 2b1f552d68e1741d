//! A law on what a list says of a state, the contract of a function that does nothing.

ghost use Rattle.pua_texts.specs.FileLines.{FilesArePrinted};
ghost use Rattle.pua_texts.specs.States.{ConfinedIsPrinted, OpeningsArePrinted, StateIsPrinted};
ghost use Rattle.pua_texts.specs.States.{VeilsArePrinted};

/// The state of a process that has not ended has four lines, the line `rules openbsd` by those
/// rules and then one for each opening of its promises, and one for each of its veils or `no
/// veils`. The line `promises` has the keyword of each promise that was given and not given up, and
/// no other keyword, or `-` where none were ever given; so has `execpromises` of those for an exec.
/// A process that is locked or doesn't hold `unveil`, and so can put no veil any more, has the line
/// `unveil locked` or `unveil given-up`, and only such a process has one of them. Each veil has its
/// line. By OpenBSD's rules so has each opening: what is opened to the process now in a list of the
/// present, and what a promise opens that it holds in a list for ever. Each descriptor has its
/// lines, and among them stands that of each name of what it stands for, unless that is a
/// directory.
#[tactic(auto, using(crate::proofs::States::confined_is_printed, crate::proofs::StateLaw::state_is_printed, crate::proofs::StateLaw::veils_are_printed, crate::proofs::OpeningsPrinted::openings_are_printed, crate::proofs::FileLines::files_are_printed))]
pub fn state_law()
    ensures confined { ConfinedIsPrinted }
    ensures state { StateIsPrinted }
    ensures veils { VeilsArePrinted }
    ensures openings { OpeningsArePrinted }
    ensures files { FilesArePrinted }
{}
