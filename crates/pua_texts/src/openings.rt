//! What promises open by themselves, by the rules of OpenBSD's kernel, as lines.

ghost use Rattle.std.specs.Prelude.{◌≡◌, ◌++◌, ◌∷◌, [], if◌then◌else◌, map, OnOk};
ghost use Rattle.std.specs.Prelude.{string_bytes};
ghost use Rattle.pua_calls.specs.Calls.{call_name};
ghost use Rattle.pua_calls.specs.Promises.{keywords_of};
ghost use Rattle.pua_objects.specs.Objects.{with_commas};
ghost use Rattle.pua_script.specs.Openings.{opening_seen};
ghost use Rattle.pua_texts.specs.Openings.{line_if, opened_by, opening_line, opening_lines};
ghost use Rattle.pua_texts.specs.Openings.{veils_word};

use pua_calls::{Call, Promises};
use pua_script::{Opening, openings};
use std::alloc::{AllocError, Global};
use std::fmt::Write;

/// Adds a line for each opening of these promises, in their order. The only error is that a growth
/// was refused.
pub(crate) fn push_openings(
    alloc: Global,
    text: &mut String,
    promises: Promises,
) -> Result<(), AllocError>
    ensures { OnOk result (string_bytes text.new
        ≡ string_bytes text.old ++ opening_lines (keywords_of promises)) }
{
    let Ok(keywords) = promises.names(alloc) else {
        return Err(AllocError);
    };
    push_all(text, keywords.as_slice())
}

/// Adds a line for each opening of the promises with these keywords.
fn push_all(text: &mut String, keywords: &[&str]) -> Result<(), AllocError>
    ensures { OnOk result (string_bytes text.new ≡ string_bytes text.old
        ++ opening_lines (map (λ keyword. keyword.now) keywords.now)) }
{
    for keyword in keywords {
        push_opened_by(text, keyword)?;
    }
    Ok(())
}

/// Adds a line for each opening of one promise.
fn push_opened_by(text: &mut String, keyword: &str) -> Result<(), AllocError>
    ensures { OnOk result (string_bytes text.new ≡ string_bytes text.old ++ opened_by keyword.now) }
{
    for row in openings() {
        push_if(text, row, keyword)?;
    }
    Ok(())
}

/// Adds the line of an opening, if it is that of this promise.
fn push_if(text: &mut String, row: &Opening, keyword: &str) -> Result<(), AllocError>
    ensures { OnOk result (string_bytes text.new ≡ string_bytes text.old
        ++ line_if keyword.now (opening_seen row.now)) }
{
    if row.promise != keyword {
        return Ok(());
    }
    push_row(text, row)
}

/// Adds the line of an opening.
fn push_row(text: &mut String, row: &Opening) -> Result<(), AllocError>
    ensures { OnOk result (string_bytes text.new ≡ string_bytes text.old
        ++ opening_line (opening_seen row.now)) }
{
    write!(text, "opening {} ", row.path)?;
    push_calls(text, row.calls)?;
    writeln!(text, "{}", veils_word(row.asks_veils))
}

/// Adds the names of calls with commas between them.
fn push_calls(text: &mut String, calls: &[Call]) -> Result<(), AllocError>
    ensures { OnOk result (string_bytes text.new ≡ string_bytes text.old
        ++ with_commas (map call_name calls.now)) }
{
    let mut is_first = true;
    for call in calls {
        push_call(text, is_first, *call)?;
        is_first = false;
    }
    Ok(())
}

/// Adds the name of a call, with a comma before it unless it is the first.
fn push_call(text: &mut String, is_first: bool, call: Call) -> Result<(), AllocError>
    ensures { OnOk result (string_bytes text.new ≡ string_bytes text.old
        ++ ((if is_first then [] else 44 ∷ []) ++ call_name call)) }
{
    if !is_first {
        text.push_str(",")?;
    }
    text.push_str(call.name())
}

/// That the veils are asked, where they are.
fn veils_word(asked: bool) -> &'static str
    ensures { result.now ≡ veils_word asked }
{
    if asked { " veils" } else { "" }
}
