//! Laws and worked examples of listings of trees, each the contract of a function that does
//! nothing.

ghost use Rattle.pua_listing.specs.Examples.{ListedRows};
ghost use Rattle.pua_listing.specs.Laws.{ListingsReadBack};

/// The listing of a tree is read as the same tree, but for the numbers of its nodes.
#[tactic(auto, using(crate::proofs::ReadBack::listings_read_back))]
pub fn read_back_law()
    ensures { ListingsReadBack }
{}

/// Examples of listings of trees.
#[tactic(auto, using(crate::specs::Examples::listed_rows))]
pub fn listed_examples()
    ensures { ListedRows }
{}
