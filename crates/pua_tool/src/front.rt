//! The first lines of a script, for how things stood after one of its lines.

ghost use Rattle.std.specs.Prelude.{◌≡◌, ◌≤◌, ◌==◌, Ok, Err, IfErr, IfOk, length};
ghost use Rattle.std.specs.Prelude.{option_map, position};
ghost use Rattle.pua_tool.specs.Fronts.{first_lines, line_size, script_at};

use crate::fault::ToolFault;

/// The part of a script that is served: all of it, or its first lines up to the one that is named.
/// `NoLine` where there is no such line.
pub(crate) fn script_at(script: &[u8], at: Option<u32>) -> Result<&[u8], ToolFault>
    ensures served { IfOk result (λ front. script_at at script.now ≡ Ok front.now) }
    ensures refused { IfErr result (λ fault. script_at at script.now ≡ Err fault) }
{
    match at {
        Some(line) => first_lines(script, line).ok_or(ToolFault::NoLine(line)),
        None => Ok(script),
    }
}

/// The bytes of the first lines, as many as are asked for, with their ends; None where there are
/// fewer. The last line of all needs no end.
fn first_lines(bytes: &[u8], count: u32) -> Option<&[u8]>
    ensures { option_map (λ front. front.now) result ≡ first_lines count bytes.now }
{
    let mut end = 0;
    for _ in 0..count {
        let (_, rest) = bytes.split_at(end);
        if rest.is_empty() {
            return None;
        }
        end += line_size(rest);
    }
    Some(bytes.split_at(end).0)
}

/// How many bytes the first line has, with its end.
fn line_size(bytes: &[u8]) -> usize
    ensures size { result ≡ line_size bytes.now }
    ensures within { result ≤ length bytes.now }
{
    match first_end(bytes) {
        Some(before) => before + 1,
        None => bytes.len(),
    }
}

/// Where the first line's end is.
fn first_end(bytes: &[u8]) -> Option<usize>
    ensures { result ≡ position (λ b. b == 10) bytes.now }
{
    bytes.iter().position(|byte| *byte == b'\n')
}
