//! Laws and worked examples, each the contract of a function that does nothing.

ghost use Rattle.pua_how.specs.Examples.{AskedRows, ListedRows, OfRows, StepRows, WayRows};
ghost use Rattle.pua_ever.specs.ShownForEver.{shown_lasting};
ghost use Rattle.pua_ever.specs.Through.{ever_lasting};
ghost use Rattle.pua_how.specs.Laws.{LinesMeanTheirOwn, NeverComes, NeverComesShown};
ghost use Rattle.pua_how.specs.Laws.{NeverComesThrough, WaysAreListed};

use pua_ever::{enclosed_law, ever_law, through_law};

/// Whatever a process that can put no veil any more and what it forks ask for, as long as nobody
/// else changes the tree and no exec of theirs succeeds: a call that no line of the list for ever
/// about a thing has is then allowed to none of them on that thing. The same holds through execs
/// for the list that holds longest, where all that they start is bounded. So it is of what is shown
/// of this, which is cut at the root of a process that can never leave it. And a call to which there
/// is a way has a line. Requests go by a table, and the lists by its `CallTable::with_tmppath`.
pub fn how_law()
    ensures never { NeverComes }
    ensures through { NeverComesThrough }
    ensures shown { NeverComesShown }
    ensures listed { WaysAreListed }
{
    ever_law();
    through_law();
    enclosed_law();
}

/// The path and the kind of a line of the list for ever that holds longest, asked for a way, mean
/// what the line is about, and nothing else; so of a line of what is shown of it.
pub fn meaning_law()
    ensures lasting { LinesMeanTheirOwn ever_lasting }
    ensures shown { LinesMeanTheirOwn shown_lasting }
{}

/// Examples of what is asked about, by a path too, of ways, and of steps that come to one.
#[tactic(auto, using(crate::specs::Examples::of_rows, crate::specs::Examples::way_rows, crate::specs::Examples::step_rows, crate::specs::Examples::asked_rows))]
pub fn how_examples()
    ensures of { OfRows }
    ensures ways { WayRows }
    ensures steps { StepRows }
    ensures asked { AskedRows }
{}

/// Examples of what the list for ever has of something.
#[tactic(auto, using(crate::specs::Examples::listed_rows))]
pub fn listed_examples()
    ensures { ListedRows }
{}
