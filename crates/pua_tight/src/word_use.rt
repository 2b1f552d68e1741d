//! What each word of a script is needed for.

ghost use Rattle.std.specs.Prelude.{◌≡◌, ◌≢◌, Err, IfOk, IfErr, Ok, map};
ghost use Rattle.pua_script.specs.Replay.{answers_to, new_world};
ghost use Rattle.pua_tight.specs.Uses.{use_by, uses_over, words_from};
ghost use Rattle.pua_tight.specs.Left.{lines_by};

use crate::asked::asked_in;
use crate::fault::TightFault;
use crate::line_pieces::line_pieces;
use crate::piece::Piece;
use crate::start::Start;
use crate::tighten::{begin, tighten};
use crate::trial::{Trial, add_trials, other_without};
use crate::wanted::Wanted;
use pua_calls::{CallTable, Promises, Rules};
use pua_script::{Answer, Request};
use pua_tree::OutOfMemory;
use std::alloc::{AllocError, Global};

/// A word of a script that may be left out, and what needs it.
#[derive(Clone, Copy)]
pub struct WordUse {
    /// The index of its line, the first line's 0.
    pub line: usize,
    /// The word.
    pub word: Piece,
    /// The index of the first line that is answered otherwise, where it is left out of the
    /// tightened script; None where none is, since the tightened script doesn't have it.
    pub needed_by: Option<usize>,
}

/// What each word of a script is needed for that may be left out, in the order of the lines, and in
/// a line in the order of keywords, of the promises first, and of the letters r, w, x, c. Which may
/// be left out, and what the tightened script is, is as for [`tight_text`](crate::tight_text), and
/// so are the errors.
pub fn word_uses(
    alloc: Global,
    tree_bytes: &[u8],
    script_bytes: &[u8],
    rules: Rules,
    table: &CallTable,
) -> Result<Vec<WordUse>, TightFault>
    ensures done { IfOk result (λ uses.
        uses_over rules table.now tree_bytes.now script_bytes.now ≡ Ok uses.items) }
    ensures refused { IfErr result (λ fault. fault ≢ TightFault.OutOfMemory →
        (uses_over rules table.now tree_bytes.now script_bytes.now ≡ Err fault)) }
{
    let (wanted, mut requests) = begin(alloc, tree_bytes, script_bytes, rules, table)?;
    let words = words_of(
        alloc,
        asked_in(table, requests.as_slice()),
        requests.as_slice(),
        wanted.answers.as_slice(),
    )?;
    tighten(&wanted, &mut requests)?;
    Ok(uses_of(alloc, &wanted, words.as_slice(), &mut requests)?)
}

/// The words that may be left out of a script's requests, where some call asks for these promises.
fn words_of(
    alloc: Global,
    asked: Promises,
    requests: &[Request],
    answers: &[Answer],
) -> Result<Vec<Trial>, AllocError>
    ensures { IfOk result (λ words. words.items
        ≡ words_from 0 (lines_by asked requests.now answers.now)) }
{
    let mut words = Vec::new(alloc);
    for (line, request) in requests.iter().enumerate() {
        let pieces = line_pieces(alloc, asked, request, answers.get(line))?;
        add_trials(&mut words, line, pieces.as_slice())?;
    }
    Ok(words)
}

/// What words are needed for, of a tightened script, which is answered as is wanted.
fn uses_of(
    alloc: Global,
    wanted: &Wanted<'_>,
    words: &[Trial],
    requests: &mut Vec<Request>,
) -> Result<Vec<WordUse>, OutOfMemory>
    ensures { IfOk result (λ uses.
        answers_to wanted.now.table.now (new_world wanted.now.tree) requests.old.items
        ≡ wanted.now.answers.items →
        uses.items ≡ map (use_by wanted.now.table.now (new_world wanted.now.tree)
        wanted.now.answers.items requests.old.items) words.now) }
{
    let mut start = Start::first(wanted)?;
    let mut uses = Vec::new(alloc);
    for word in words {
        let needed_by = other_without(wanted, &mut start, word, requests)?;
        let word = WordUse {
            line: word.line,
            word: word.piece,
            needed_by,
        };
        uses.push(word)?;
    }
    start.end();
    Ok(uses)
}
