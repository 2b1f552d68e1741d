//! Which table of calls is gone by.

use pua_calls::Rules;

/// Which table of calls is gone by: whose rules, and a text with rows that stand in the place of
/// theirs.
#[derive(Clone, Copy)]
pub struct TableChoice<'a> {
    /// Whose rules they are.
    pub rules: Rules,
    /// The text with rows; None for the rules as they are.
    pub rows: Option<&'a [u8]>,
}

impl TableChoice<'static> {
    /// The standard table, without a text: what is gone by where nothing else is asked for.
    pub const STANDARD: TableChoice<'static> = TableChoice {
        rules: Rules::Standard,
        rows: None,
    };
}
