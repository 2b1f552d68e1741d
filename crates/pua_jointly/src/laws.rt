//! Laws and worked examples, each the contract of a function that does nothing.

ghost use Rattle.pua_jointly.specs.JointLasting.{JointlyTold};
ghost use Rattle.pua_jointly.specs.JointStarts.{JointHeldListed, JointStartsListed};
ghost use Rattle.pua_jointly.specs.JointTable.{TableLaw};
ghost use Rattle.pua_jointly.specs.Jointly.{JointListsGrow, JointlyAfterRead, JointlyComplete};
ghost use Rattle.pua_jointly.specs.Jointly.{JointlyGrows, JointlyLasts, JointlyThrough};
ghost use Rattle.pua_jointly.specs.Jointly.{JointlyWithin};
ghost use Rattle.pua_jointly.specs.JointlyExamples.{JointlyRows};

/// Several processes with veils and promises of their own, and what they fork: whatever they ask
/// for, all of them together, each call that is then allowed to one of them has its line in the
/// joint list of that one. So it is through execs, where all that they start is bounded, and after
/// a listing and a script. Requests go by a table, and the lists by its `CallTable::with_tmppath`.
/// So it is of a list as it is printed, of a process and of what it starts where that counts, as
/// long as no exec is answered ok of those who start what isn't bounded. Who has more help has no
/// less in its list. A file on which exec would be allowed to one of them, were it a program, has
/// exec in its list, if a call of any of them could make it one, or what one of them held open, or
/// one of them could open it, or held it open, and send it to another one that sets its mode.
pub fn jointly_law()
    ensures within { JointlyWithin }
    ensures complete { JointlyComplete }
    ensures through { JointlyThrough }
    ensures read { JointlyAfterRead }
    ensures lasts { JointlyLasts }
    ensures grows { JointlyGrows }
    ensures lists { JointListsGrow }
    ensures starts { JointStartsListed }
    ensures held { JointHeldListed }
    ensures told { JointlyTold }
{}

/// Examples of what processes with veils of their own can ever touch together.
#[tactic(auto, using(crate::proofs::JointlyRows::jointly_rows))]
pub fn jointly_examples()
    ensures { JointlyRows }
{}

/// The table of a crew: once nothing more follows from what is in it, it has all that the crew can
/// come to do, and nothing else.
pub fn crew_table_law()
    ensures { TableLaw }
{}
