//! The text of what the words of a script are needed by.

ghost use Rattle.std.specs.Prelude.{◌≡◌, ◌≢◌, ◌++◌, Err, IfErr, IfOk, Ok, OnOk};
ghost use Rattle.std.specs.Prelude.{decimal, string_bytes, suc};
ghost use Rattle.pua_texts.specs.Lines.{with_end};
ghost use Rattle.pua_tool.specs.Answers.{AnswersTo};
ghost use Rattle.pua_tool.specs.Texts.{choice_of};
ghost use Rattle.pua_tool.specs.TightTexts.{calls_for, need_text, tight_why_text, use_lines};
ghost use Rattle.pua_tool.specs.TightTexts.{use_text, word_text, words_by};

use crate::fault::{ToolFault, WriteFault};
use crate::objects::put_text;
use crate::pathless::push_pathless;
use crate::script::read_table;
use crate::table::TableChoice;
use pua_calls::Rules;
use pua_io::Sink;
use pua_tight::{Piece, WordUse, word_uses};
use pua_why::{letters, push_promises};
use std::alloc::{AllocError, Global};
use std::fmt::Write;

/// Writes what each promise and letter of a script is needed by, of those that
/// [`tight_to`](crate::tight_to) may leave out, in the order of the script's lines, and in a line
/// in the order in which that one tries them: `N promises WORD needed by M`, where M is the first
/// line that is answered otherwise without it, all else being tightened, or `N promises WORD
/// spare`, where it is left out. It is `execpromises` for the second argument of a pledge, and
/// `veil` for a letter. By OpenBSD's rules the calls without a path that ask for a promise stand
/// after `spare`, where there are some: a line `uses` alone says that such a call is made.
///
/// The first that holds of `Table`, `Listing` and `Script` is answered before anything is written.
/// So is `OutOfMemory`, wherever a growth was refused. `Put` is answered only where a put failed in
/// this call, and a front of the text is then written.
pub fn tight_why_to<S: Sink>(
    alloc: Global,
    tree_bytes: &[u8],
    script_bytes: &[u8],
    table: TableChoice<'_>,
    sink: &mut S,
) -> Result<(), WriteFault>
    ensures text { AnswersTo S.written S.failed
        (tight_why_text (choice_of table.entry) tree_bytes.now script_bytes.now)
        result sink.old sink.new }
{
    let text = text_of(alloc, tree_bytes, script_bytes, table)?;
    put_text(text.as_str(), sink)
}

/// A line for each word that may be left out, or the first fault: the table's, the listing's, or
/// the script's. `OutOfMemory` where a growth was refused.
fn text_of(
    alloc: Global,
    tree_bytes: &[u8],
    script_bytes: &[u8],
    table: TableChoice<'_>,
) -> Result<String, ToolFault>
    ensures done { IfOk result (λ text. tight_why_text (choice_of table.entry) tree_bytes.now
        script_bytes.now ≡ Ok (string_bytes text)) }
    ensures refused { IfErr result (λ fault. fault ≢ ToolFault.OutOfMemory →
        (tight_why_text (choice_of table.entry) tree_bytes.now script_bytes.now ≡ Err fault)) }
{
    let rules = table.rules;
    let words = words_by(alloc, tree_bytes, script_bytes, table)?;
    Ok(lines_of(alloc, rules, words.as_slice())?)
}

/// The words that may be left out of a script, with what needs each, or the first fault: the
/// table's, the listing's, or the script's. `OutOfMemory` where a growth was refused.
fn words_by(
    alloc: Global,
    tree_bytes: &[u8],
    script_bytes: &[u8],
    table: TableChoice<'_>,
) -> Result<Vec<WordUse>, ToolFault>
    ensures done { IfOk result (λ words. words_by (choice_of table.entry) tree_bytes.now
        script_bytes.now ≡ Ok words.items) }
    ensures refused { IfErr result (λ fault. fault ≢ ToolFault.OutOfMemory →
        (words_by (choice_of table.entry) tree_bytes.now script_bytes.now ≡ Err fault)) }
{
    let rules = table.rules;
    let table = read_table(alloc, table)?;
    Ok(word_uses(alloc, tree_bytes, script_bytes, rules, &table)?)
}

/// A line for each word, by these rules.
fn lines_of(alloc: Global, rules: Rules, words: &[WordUse]) -> Result<String, AllocError>
    ensures { IfOk result (λ text. string_bytes text ≡ use_lines rules words.now) }
{
    let mut text = String::new(alloc);
    for word in words {
        push_use(alloc, &mut text, rules, word)?;
    }
    Ok(text)
}

/// Adds the line of a word, and its end.
fn push_use(
    alloc: Global,
    text: &mut String,
    rules: Rules,
    used: &WordUse,
) -> Result<(), AllocError>
    ensures { OnOk result (string_bytes text.new
        ≡ string_bytes text.old ++ with_end (use_text rules used.now)) }
{
    push_number(text, used.line)?;
    text.push_str(" ")?;
    push_word(alloc, text, &used.word)?;
    text.push_str(" ")?;
    push_need(alloc, text, rules, &used.word, used.needed_by)?;
    text.push_str("\n")
}

/// Adds the number of the line at an index. Lines are counted from 1, so it can be above the
/// greatest index.
fn push_number(text: &mut String, index: usize) -> Result<(), AllocError>
    ensures { OnOk result (string_bytes text.new ≡ string_bytes text.old ++ decimal (suc index)) }
{
    let number = index as u128 + 1;
    write!(text, "{number}")
}

/// Adds which argument has a word, and the word.
fn push_word(alloc: Global, text: &mut String, piece: &Piece) -> Result<(), AllocError>
    ensures { OnOk result (string_bytes text.new ≡ string_bytes text.old ++ word_text piece.now) }
{
    match piece {
        Piece::InPromises(word) => {
            text.push_str("promises ")?;
            push_promises(alloc, text, *word)
        }
        Piece::InExecpromises(word) => {
            text.push_str("execpromises ")?;
            push_promises(alloc, text, *word)
        }
        Piece::InVeil(letter) => {
            text.push_str("veil ")?;
            text.push_str(letters(*letter))
        }
    }
}

/// Adds by which line a word is needed.
fn push_need(
    alloc: Global,
    text: &mut String,
    rules: Rules,
    word: &Piece,
    needed_by: Option<usize>,
) -> Result<(), AllocError>
    ensures { OnOk result (string_bytes text.new
        ≡ string_bytes text.old ++ need_text rules word.now needed_by) }
{
    let Some(index) = needed_by else {
        text.push_str("spare")?;
        return push_calls_for(alloc, text, rules, word);
    };
    text.push_str("needed by ")?;
    push_number(text, index)
}

/// Adds the calls without a path that ask for a promise, by OpenBSD's rules.
fn push_calls_for(
    alloc: Global,
    text: &mut String,
    rules: Rules,
    word: &Piece,
) -> Result<(), AllocError>
    ensures { OnOk result (string_bytes text.new
        ≡ string_bytes text.old ++ calls_for rules word.now) }
{
    match rules {
        Rules::Standard => Ok(()),
        Rules::Openbsd => push_calls_by(alloc, text, word),
    }
}

/// Adds those of the promise of a word; a letter of a veil has none.
fn push_calls_by(alloc: Global, text: &mut String, word: &Piece) -> Result<(), AllocError>
    ensures { OnOk result (string_bytes text.new
        ≡ string_bytes text.old ++ calls_for Rules.Openbsd word.now) }
{
    match word {
        Piece::InPromises(promise) => push_pathless(alloc, text, *promise),
        Piece::InExecpromises(promise) => push_pathless(alloc, text, *promise),
        Piece::InVeil(_) => Ok(()),
    }
}
