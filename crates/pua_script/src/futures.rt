//! Laws on what becomes of a process that can put no veil any more, because it is locked or does
//! not hold `unveil`, whatever is asked afterwards. Each is the contract of a function that does
//! nothing.

ghost use Rattle.pua_script.specs.Bytes.{ListingsListByteTrees, ReplaysKeepByteTrees};
ghost use Rattle.pua_script.specs.Bytes.{ReplaysKeepTrees, RequestsKeepTrees, ScriptsAskInBytes};
ghost use Rattle.pua_script.specs.Devices.{RequestsKeepDevices};
ghost use Rattle.pua_script.specs.Confinement.{EachRequestSpares, FamiliesConfine, PromisesChange};
ghost use Rattle.pua_script.specs.ErrorTables.{ErrorTables};
ghost use Rattle.pua_script.specs.Futures.{ReadTablesNarrow, RulesNarrow};
ghost use Rattle.pua_script.specs.Holding.{FamiliesHold};
ghost use Rattle.pua_script.specs.OpeningLaws.{OkaysAreAccounted, OpeningsAreHeld, OpeningsNarrow};
ghost use Rattle.pua_script.specs.OpeningLaws.{TmpTableAllows};
ghost use Rattle.pua_script.specs.Tightening.{EachRequestNarrows, FamiliesNarrow, ForksCopy};
ghost use Rattle.pua_script.specs.Tightening.{OthersLeave, OthersLeaveAlways};

/// A request leaves the state of each process but the one that asks: its promises and execpromises,
/// its veils and lock, its directory, its open files, and whether it has ended. A process that is
/// forked begins with the state of the one that forked it.
#[tactic(auto, using(crate::proofs::Others::others_leave, crate::proofs::Others::others_leave_always, crate::proofs::Others::forks_copy))]
pub fn others_law()
    ensures one { OthersLeave }
    ensures many { OthersLeaveAlways }
    ensures forks { ForksCopy }
{}

/// A request, whoever makes it, leaves a process that can put no veil any more so: its unveils are
/// the same, it has no further promise but `error`, and over each tree it may do no more than
/// before. Two things are excepted: its own exec that succeeds, and on relative paths its own chdir
/// or fchdir that does.
pub fn steps_law()
    ensures { EachRequestNarrows }
{}

/// The same of each member of its family over any list of requests, as long as no member's exec
/// succeeds. The family are the process and those that a member forks from then on.
pub fn families_law()
    ensures { FamiliesNarrow }
{}

/// What such a process and its family have open later, the process has open now, or its promises
/// and veils of now let it open over some tree, by a call that opens or by what a promise opens by
/// itself: as long as no member's exec succeeds, and no member takes a descriptor from others.
pub fn holding_law()
    ensures { FamiliesHold }
{}

/// What promises open is by those that are held: a process that can put no veil any more has no
/// further opening, whatever is asked; and a call on a path that is answered ok is allowed by the
/// verdict, or a promise opens its text. What a table allows is allowed by the one by which lists
/// for ever go.
pub fn openings_law()
    ensures held { OpeningsAreHeld }
    ensures narrow { OpeningsNarrow }
    ensures okays { OkaysAreAccounted }
    ensures tmp { TmpTableAllows }
{}

/// What a family alone asks for leaves each row whose object it can't touch with `c`, with the
/// node, the kind, the target and the cover, as long as no member's exec succeeds, where the table
/// asks rmdir, unlink and both names of rename for `c` and each tree on the way is one; and without
/// certain promises it leaves the tree, where the calls that make a name or take one away need one
/// of these, and the new names of rename and link, and where tmppath is one of them if promises
/// open calls. A single request of any process does so by the
/// state that it had before. A row that stays says nothing of what is written to its file: link
/// takes no name away, so that where it needs less of its old name, as by OpenBSD's rules, the file
/// may be given a further name and be written by that.
pub fn confined_law()
    ensures requests { EachRequestSpares }
    ensures lists { FamiliesConfine }
    ensures promises { PromisesChange }
{}

/// Requests whose texts are bytes leave a tree whose links lead to bytes, if those of the tree
/// before do. So do the links of each tree that is read as a listing, and the texts of each script
/// are bytes.
pub fn bytes_law()
    ensures one { RequestsKeepTrees }
    ensures many { ReplaysKeepTrees }
    ensures last { ReplaysKeepByteTrees }
    ensures listings { ListingsListByteTrees }
    ensures scripts { ScriptsAskInBytes }
{}

/// A request leaves each directory that lives on behind it on the device on which it was: a rename
/// that would take it elsewhere is refused (rename(2)), and no request mounts a file system.
pub fn devices_law()
    ensures { RequestsKeepDevices }
{}

/// The standard rules, and those of OpenBSD, are of those that the laws speak of: no call needs
/// `error`, rmdir, unlink and both names of rename need `c`, and the calls that make a name or take
/// one away need cpath, as the new names of rename and link do; by OpenBSD's rules cpath, unix, dpath
/// or tmppath, which opens such calls. Of a table that a text gives over such rules no more is asked
/// than of these calls.
pub fn table_law()
    ensures rules { RulesNarrow }
    ensures read { ReadTablesNarrow }
{}

/// An example of a table by which a call needs `error`: a locked process pledges it and may make
/// the call, which it might not before.
#[tactic(auto, using(crate::specs::ErrorTables::error_tables))]
pub fn error_table_examples()
    ensures { ErrorTables }
{}
