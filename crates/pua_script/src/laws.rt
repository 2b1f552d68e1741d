//! Laws and worked examples of scripts and of what they are answered, each the contract of a
//! function that does nothing.

ghost use Rattle.std.specs.Prelude.{◌≡◌};
ghost use Rattle.pua_script.specs.Examples.{ExecRows, LinkRows, MountRows, PairRows, RenameRows};
ghost use Rattle.pua_script.specs.Examples.{ReplayRows};
ghost use Rattle.pua_script.specs.Examples.{CommentRows, FileRows, OpeningRows, RootRows, ScriptRows};
ghost use Rattle.pua_script.specs.Examples.{SocketRows, UsesRows};
ghost use Rattle.pua_script.specs.Guards.{ChangesAreGranted, DecisionsAreGuarded};
ghost use Rattle.pua_script.specs.Limits.{most_descriptor, most_number, most_processes};
ghost use Rattle.pua_script.specs.Limits.{most_script_lines};
ghost use Rattle.pua_script.specs.Laws.{ChangesLackRoom, DecisionsArePossible, RefusalsLackNoRoom};
ghost use Rattle.pua_script.specs.Laws.{ReplayComposes, RequestsLackRoom};
ghost use Rattle.pua_script.specs.ScriptGrammar.{ScriptsAreRead};
ghost use Rattle.pua_calls.specs.declared.rules.Rules.{Rules};
ghost use Rattle.pua_script.specs.Pasts.{KeepsPasts};

use crate::limits::{MOST_DESCRIPTOR, MOST_NUMBER, MOST_PROCESSES, MOST_SCRIPT_LINES};

/// The constants are the limits that the definitions speak of.
pub fn limits_law()
    ensures lines { MOST_SCRIPT_LINES ≡ most_script_lines }
    ensures numbers { MOST_NUMBER ≡ most_number }
    ensures descriptors { MOST_DESCRIPTOR ≡ most_descriptor }
    ensures processes { MOST_PROCESSES ≡ most_processes }
{}

/// Examples of what is no script.
pub fn script_examples()
    ensures { ScriptRows }
{}

/// Examples of scripts and their answers, of what a rename and a link check first, of these and of
/// an exec by OpenBSD's rules, of descriptors and of what promises open by these, and of an exec by
/// which a locked process reaches more.
pub fn replay_examples()
    ensures replays { ReplayRows }
    ensures renames { RenameRows }
    ensures links { LinkRows }
    ensures pairs { PairRows }
    ensures mounts { MountRows }
    ensures sockets { SocketRows }
    ensures uses { UsesRows }
    ensures files { FileRows }
    ensures roots { RootRows }
    ensures comments { CommentRows }
    ensures openings { OpeningRows }
    ensures execs { ExecRows }
{}

/// A list of requests may be cut anywhere.
pub fn replay_law()
    ensures { ReplayComposes }
{}

/// A request that is granted passed the checks of its kind: the promises, what its paths name, what
/// the veils leave of it, and its kind. So what is to change says what was checked. What a promise
/// opens was asked for none; but whatever it changes passes the checks of the table by which lists
/// for ever go.
pub fn decide_law()
    ensures guarded { DecisionsAreGuarded }
    ensures granted { ChangesAreGranted }
{}

/// A replay, which keeps what is left of histories, answers as the one that keeps the histories
/// does; its tree is the same, and its processes keep what is left of those histories.
pub fn pasts_law()
    ensures { KeepsPasts }
{}

/// Bytes are read as a list of requests exactly where their lines spell it, by any rules.
pub fn script_law()
    ensures { (rules : Rules) → ScriptsAreRead rules }
{}

/// A request is answered `ENOSPC` exactly where it was granted a change that adds a node or a name,
/// and the tree has no room for it: no check before a change is answered so, and what was checked
/// leaves the change no other fault.
pub fn room_law()
    ensures possible { DecisionsArePossible }
    ensures changes { ChangesLackRoom }
    ensures refusals { RefusalsLackNoRoom }
    ensures requests { RequestsLackRoom }
{}
