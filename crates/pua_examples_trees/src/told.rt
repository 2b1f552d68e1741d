//! The lines that are printed, each by one function of its form: what prints is long to prove, and
//! all else hands it texts. Whether there is a line is chosen here too, since a choice is long to
//! prove inside a loop.

use anyhow::Result;

/// Prints what became of something.
pub fn tell(rt: &HostRuntime, what: &str, word: &str) -> Result<()> {
    Ok(println!(rt; "{what}: {word}")?)
}

/// Prints whether something is as expected.
pub fn tell_expected(rt: &HostRuntime, what: &str, holds: bool) -> Result<()> {
    let word = if holds {
        "as expected"
    } else {
        "not as expected"
    };
    tell(rt, what, word)
}

/// Prints how many there were of something.
pub fn count(rt: &HostRuntime, what: &str, number: usize, of: &str) -> Result<()> {
    Ok(println!(rt; "{what}: {number} {of}")?)
}

/// Prints what became of something, unless it is as it has to be. It fails where that can't be
/// told.
pub fn tell_unless(rt: &HostRuntime, holds: Result<bool>, what: &str, word: &str) -> Result<()> {
    if holds? {
        return Ok(());
    }
    tell(rt, what, word)
}

/// Prints that the case of a number is not as it has to be, unless it is. It fails where that can't
/// be told.
pub fn wrong_unless(
    rt: &HostRuntime,
    holds: Result<bool>,
    what: &str,
    number: usize,
) -> Result<()> {
    if holds? {
        return Ok(());
    }
    Ok(println!(rt; "{what} {number}: wrong")?)
}
