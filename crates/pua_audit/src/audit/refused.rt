//! What a wrong body of this module would answer where only a private field shows it: the function
//! meets such an answer and is proved never to, by the contracts of what it calls alone. It is
//! named for the wrong body, and its doc says what holds.

use super::Audit;

/// All reads of the walk are counted.
fn half_of_the_reads(audit: &Audit) {
    if audit.reads() != audit.pairs.walk.reads() {
        unreachable!()
    }
}
