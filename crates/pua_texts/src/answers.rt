//! The lines with what a script was answered.

ghost use Rattle.std.specs.Prelude.{◌≡◌, ◌++◌, ◌∷◌, IfOk, map, OnOk, string_bytes, option_map};
ghost use Rattle.pua_why.specs.Openings.{told_text};
ghost use Rattle.pua_why.specs.Seen.{line_seen, told_seen};
ghost use Rattle.pua_texts.specs.Lines.{answer_line, answer_lines, front_of, with_end};

use itoa::Buffer;
use pua_why::{ToldAnswer, push_told};
use std::alloc::{AllocError, Global};
use std::fmt::Write;

/// A line for each answer, with the number of its line in the script, counted from 1, and the
/// promise by which it was opened, if one opened it. A line of the script where nobody asks has
/// none.
pub fn answer_text(alloc: Global, answers: &[Option<ToldAnswer>]) -> Result<String, AllocError>
    ensures { IfOk result (λ text. string_bytes text
        ≡ answer_lines 1 (map line_seen answers.now)) }
{
    let mut text = String::new(alloc);
    let mut digits = Buffer::new();
    for (place, told) in answers.iter().enumerate() {
        push_line(&mut text, digits.format(place + 1), told)?;
    }
    Ok(text)
}

/// Adds the line of an answer, if there is one, to the line whose number has these digits.
fn push_line(text: &mut String, digits: &str, told: &Option<ToldAnswer>) -> Result<(), AllocError>
    ensures { OnOk result (string_bytes text.new ≡ string_bytes text.old
        ++ answer_line digits.now (line_seen told.now)) }
{
    match told {
        None => Ok(()),
        Some(told) => push_answer(text, digits, told),
    }
}

/// Adds the line of an answer to a request whose number has these digits.
fn push_answer(text: &mut String, digits: &str, told: &ToldAnswer) -> Result<(), AllocError>
    ensures { OnOk result (string_bytes text.new ≡ string_bytes text.old ++ with_end (digits.now
        ++ 32 ∷ told_text (told_seen told.now))) }
{
    text.push_str(digits)?;
    text.push_str(" ")?;
    push_told(text, told)?;
    text.push_str("\n")
}

/// What stands before the lines of the pairs: the answers and the heading, except in an audit that
/// is resumed, which doesn't write them again.
pub fn front_text(
    alloc: Global,
    answers: &[Option<ToldAnswer>],
    process: u32,
    after: Option<&[u8]>,
) -> Result<String, AllocError>
    ensures { IfOk result (λ text. string_bytes text
        ≡ front_of (option_map (λ s. s.now) after.entry) process (map line_seen answers.now)) }
{
    if after.is_some() {
        return Ok(String::new(alloc));
    }
    let mut text = answer_text(alloc, answers)?;
    writeln!(text, "reach {process}")?;
    Ok(text)
}
