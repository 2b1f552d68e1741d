//! The bytes of a script without what is left out of it.

ghost use Rattle.std.specs.Prelude.{◌≡◌, ◌==◌, map, IfOk};
ghost use Rattle.std.specs.List.{slice_split};
ghost use Rattle.pua_tight.specs.Texts.{thinned_text};
ghost use Rattle.pua_tight.specs.Left.{nth_text};

use crate::line::line_left;
use crate::words::copied;
use pua_calls::Rules;
use pua_script::Request;
use std::alloc::{AllocError, Global};

/// The bytes of a script that is read by these rules, whose lines have these requests, each with
/// the words that it has of those that stand there.
pub(crate) fn thinned_text(
    alloc: Global,
    rules: Rules,
    requests: &[Request],
    bytes: &[u8],
) -> Result<Vec<u8>, AllocError>
    ensures { IfOk result (λ text. text.items ≡ thinned_text rules requests.now bytes.now) }
{
    let lines = lines_of(alloc, bytes)?;
    let mut text = Vec::new(alloc);
    for (place, line) in lines.iter().enumerate() {
        if place > 0 {
            text.push(b'\n')?;
        }
        let line = nth_left(alloc, rules, requests, place, line)?;
        text.extend_from_slice(line.as_slice())?;
    }
    Ok(text)
}

/// What stands between line feeds.
fn lines_of<'a>(alloc: Global, bytes: &'a [u8]) -> Result<Vec<&'a [u8]>, AllocError>
    ensures { IfOk result (λ lines. map (λ line. line.now) lines.items
        ≡ slice_split (λ b. b == 10) bytes.now) }
{
    bytes.split(|byte| *byte == b'\n').collect(alloc)
}

/// The line at a place, as its request has it, if there is one.
fn nth_left(
    alloc: Global,
    rules: Rules,
    requests: &[Request],
    place: usize,
    line: &[u8],
) -> Result<Vec<u8>, AllocError>
    ensures { IfOk result (λ text. text.items ≡ nth_text rules requests.now place line.now) }
{
    match requests.get(place) {
        Some(request) => line_left(alloc, rules, request.action(), line),
        None => copied(alloc, line),
    }
}
