//! Where a word leads.

/// Where a word leads: a directory by its place among the rows of the table, and how many links
/// were followed on the way, at most `MOST_LINKS`.
#[derive(Clone, Copy)]
pub struct State {
    pub dir: u32,
    pub used: u8,
}
