//! The words of a request that name calls of a kernel beside those with a number.

ghost use Rattle.std.specs.Prelude.{◌≡◌, map};
ghost use Rattle.pua_calls.specs.Calls.{neighbours};
ghost use Rattle.pua_calls.specs.Neighbours.{call_asked_by, neighbour_by, neighbour_of};

use crate::call::{Call, NEIGHBOURS, Neighbour};
use crate::rules::Rules;

impl Call {
    /// The call that a request asks for by this word, if there is one: by these rules the call of
    /// this name, or, by OpenBSD's alone, the call as which this neighbour is read.
    pub fn asked_by(rules: Rules, word: &[u8]) -> Option<Call>
        ensures { result ≡ call_asked_by rules word.now }
    {
        Call::read_by(rules, word).or(neighbour_by(rules, word))
    }
}

/// The call as which a neighbour with this name is read, if there is one by rules.
fn neighbour_by(rules: Rules, word: &[u8]) -> Option<Call>
    ensures { result ≡ neighbour_by rules word.now }
{
    match rules {
        Rules::Standard => None,
        Rules::Openbsd => neighbour_in(neighbours(), word),
    }
}

/// All neighbours.
fn neighbours() -> &'static [Neighbour]
    ensures { map (λ row. (row.name.now, row.call)) result.now ≡ neighbours }
{
    NEIGHBOURS.as_slice()
}

/// The call of the first of some rows that has this name.
fn neighbour_in(rows: &[Neighbour], word: &[u8]) -> Option<Call>
    ensures { map (λ row. (row.name.now, row.call)) rows.now ≡ neighbours →
        result ≡ neighbour_of word.now }
{
    let row = rows
        .iter()
        .find(|row| row.name.as_bytes() == word)
        .copied()?;
    Some(row.call)
}
