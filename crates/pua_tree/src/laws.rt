//! Laws and worked examples of the definitions of this crate, each the contract of a function
//! that does nothing.

ghost use Rattle.pua_tree.specs.Laws.{TreesAreTheirRows, EditsKeepDevices, EditsKeepTrees};
ghost use Rattle.pua_tree.specs.Laws.{LimitsAreTheirs};
ghost use Rattle.pua_tree.specs.Grammar.{ListingsAreRead, ListingsListTrees, SecondFormsAgree, ThirdFormsAgree};
ghost use Rattle.pua_tree.specs.Grammar.{SpellingsAreRead};
ghost use Rattle.pua_tree.specs.Examples.{ListingRows, FaultOrderRows, NameRows, EditRows};
ghost use Rattle.pua_tree.specs.Examples.{DeviceRows, ExampleIsTree};

/// Trees with the same rows, the same living nodes, each of the same kind and target, and the same
/// next number are equal.
pub fn tree_law()
    ensures { TreesAreTheirRows }
{}

/// What each edit leaves is a tree again, whose next number is no lower.
pub fn edits_keep_trees()
    ensures { EditsKeepTrees }
{}

/// A directory that lives on after an edit is on the device on which it was, as long as a directory
/// that moves stays on its own.
pub fn edits_keep_devices()
    ensures { EditsKeepDevices }
{}

/// The constants of this crate are the limits of its definitions.
pub fn limits_law()
    ensures { LimitsAreTheirs }
{}

/// Bytes are read as a tree exactly where they are a listing of it, and what a listing lists is a
/// tree. A listing under `tree 1` lists the same tree under `tree 2`, and so does one under `tree
/// 2` under `tree 3`.
pub fn listing_law()
    ensures read { ListingsAreRead }
    ensures trees { ListingsListTrees }
    ensures forms { SecondFormsAgree }
    ensures wide { ThirdFormsAgree }
{}

/// Bytes have one spelling, and it is read as them.
pub fn spelling_law()
    ensures { SpellingsAreRead }
{}

/// Examples of listings, and of the devices that they list.
#[tactic(auto, using(crate::specs::Examples::listing_rows, crate::specs::Examples::device_rows, crate::specs::Examples::example_is_tree))]
pub fn listing_examples()
    ensures listings { ListingRows }
    ensures devices { DeviceRows }
    ensures tree { ExampleIsTree }
{}

/// Examples of lines and names with two faults, of which the first is answered.
#[tactic(auto, using(crate::specs::Examples::fault_order_rows, crate::specs::Examples::name_rows))]
pub fn fault_order_examples()
    ensures lines { FaultOrderRows }
    ensures names { NameRows }
{}

/// Examples of edits.
#[tactic(auto, using(crate::specs::Examples::edit_rows))]
pub fn edit_examples()
    ensures { EditRows }
{}
