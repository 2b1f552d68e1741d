//! One line of a script without what is left out of it.

ghost use Rattle.std.specs.Prelude.{◌≡◌, ◌==◌, map, IfOk};
ghost use Rattle.std.specs.List.{join_with_byte, slice_split};
ghost use Rattle.std.specs.Str.Lines.{strip_carriage_return};
ghost use Rattle.pua_script.specs.declared.request.Action.TheVariants.{Pledge};
ghost use Rattle.pua_tight.specs.Texts.{ended_text, fields_text, line_text};
ghost use Rattle.pua_tight.specs.Left.{veil_fields};

use crate::words::{given_left, joined, perms_left};
use pua_calls::{Perms, Rules};
use pua_script::{Action, Given, text_in};
use std::alloc::{AllocError, Global};

/// The line of a request that is read by these rules, with the words that it has of those that
/// stand there. A comment stays, and what ends the line.
#[tactic(auto, using(crate::proofs::Comments::said_short))]
pub(crate) fn line_left(
    alloc: Global,
    rules: Rules,
    action: &Action,
    line: &[u8],
) -> Result<Vec<u8>, AllocError>
    ensures { IfOk result (λ text. text.items ≡ ended_text rules action.now line.now) }
{
    let said = text_in(rules, bare_line(line));
    let mut text = text_left(alloc, action, said)?;
    text.extend_from_slice(&line[said.len()..])?;
    Ok(text)
}

/// A line without the carriage return at its end, if it has one.
fn bare_line(line: &[u8]) -> &[u8]
    ensures { result.now ≡ strip_carriage_return line.now }
{
    match line {
        [bare @ .., b'\r'] => bare,
        _ => line,
    }
}

/// What the line of a request says.
fn text_left(alloc: Global, action: &Action, text: &[u8]) -> Result<Vec<u8>, AllocError>
    ensures { IfOk result (λ left. left.items ≡ line_text action.now text.now) }
{
    let fields = fields_of(alloc, text)?;
    match action {
        Action::Pledge(promises, execpromises) => {
            pledge_left(alloc, *promises, *execpromises, fields.as_slice())
        }
        Action::Unveil(_, perms) => unveil_left(alloc, *perms, fields.as_slice()),
        _ => joined(alloc, fields.as_slice(), b' '),
    }
}

/// What stands between single spaces.
fn fields_of<'a>(alloc: Global, line: &'a [u8]) -> Result<Vec<&'a [u8]>, AllocError>
    ensures { IfOk result (λ fields. map (λ field. field.now) fields.items
        ≡ slice_split (λ b. b == 32) line.now) }
{
    line.split(|byte| *byte == b' ').collect(alloc)
}

/// The fields of a pledge with these arguments, with spaces between them.
fn pledge_left(
    alloc: Global,
    promises: Given,
    execpromises: Given,
    fields: &[&[u8]],
) -> Result<Vec<u8>, AllocError>
    ensures { IfOk result (λ text. text.items ≡ join_with_byte 32
        (fields_text (Pledge promises execpromises) (map (λ field. field.now) fields.now))) }
{
    let [process, word, a, b] = fields else {
        return joined(alloc, fields, b' ');
    };
    let a = given_left(alloc, promises, a)?;
    let b = given_left(alloc, execpromises, b)?;
    let fields = [*process, *word, a.as_slice(), b.as_slice()];
    joined(alloc, fields.as_slice(), b' ')
}

/// The fields of an unveil with these letters, with spaces between them.
fn unveil_left(alloc: Global, perms: Option<Perms>, fields: &[&[u8]]) -> Result<Vec<u8>, AllocError>
    ensures { IfOk result (λ text. text.items ≡ join_with_byte 32
        (veil_fields perms (map (λ field. field.now) fields.now))) }
{
    let [process, word, path, letters] = fields else {
        return joined(alloc, fields, b' ');
    };
    let letters = perms_left(alloc, perms, letters)?;
    let fields = [*process, *word, *path, letters.as_slice()];
    joined(alloc, fields.as_slice(), b' ')
}
