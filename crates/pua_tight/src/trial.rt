//! Trials: a script without a word, where all of it is then answered as before.

ghost use Rattle.std.specs.Prelude.{◌≡◌, ◌++◌, map, IfOk, IsFalse, OnOk};
ghost use Rattle.pua_script.specs.Replay.{answers_to, new_world};
ghost use Rattle.pua_tight.specs.Laws.{leave_out};
ghost use Rattle.pua_tight.specs.Trials.{trials_from};
ghost use Rattle.pua_tight.specs.Starts.{IsStart};
ghost use Rattle.pua_tight.specs.Uses.{first_other};
ghost use Rattle.pua_tight.specs.Left.{lines_by, put_back_at};

use crate::arguments::Arguments;
use crate::line_pieces::line_pieces;
use crate::piece::Piece;
use crate::start::Start;
use crate::wanted::Wanted;
use pua_calls::Promises;
use pua_script::{Answer, Request};
use pua_tree::OutOfMemory;
use std::alloc::{AllocError, Global};

/// A piece of the line at an index.
#[derive(Clone, Copy)]
pub(crate) struct Trial {
    pub(crate) line: usize,
    pub(crate) piece: Piece,
}

/// What may be left out of a script's requests, the last line's first, where some call asks for
/// these promises: nothing of a line that was not answered ok.
pub(crate) fn trials_of(
    alloc: Global,
    asked: Promises,
    requests: &[Request],
    answers: &[Answer],
) -> Result<Vec<Trial>, AllocError>
    ensures { IfOk result (λ trials. trials.items
        ≡ trials_from 0 (lines_by asked requests.now answers.now)) }
{
    let mut trials = Vec::new(alloc);
    for line in (0..requests.len()).rev() {
        let pieces = line_pieces(alloc, asked, &requests[line], answers.get(line))?;
        add_trials(&mut trials, line, pieces.as_slice())?;
    }
    Ok(trials)
}

/// Adds the pieces of the line at an index.
pub(crate) fn add_trials(
    trials: &mut Vec<Trial>,
    line: usize,
    pieces: &[Piece],
) -> Result<(), AllocError>
    ensures { IfOk result (λ _. trials.new.items ≡ trials.old.items
        ++ map (λ piece. record { line = line; piece = piece }) pieces.now) }
{
    for piece in pieces {
        let piece = *piece;
        trials.push(Trial { line, piece })?;
    }
    Ok(())
}

/// The index of the first request that is answered otherwise than is wanted, where this piece is
/// left out of a script that is answered as is wanted, if there is one. The requests are as before,
/// unless an error is answered.
pub(crate) fn other_without(
    wanted: &Wanted<'_>,
    start: &mut Start,
    trial: &Trial,
    requests: &mut Vec<Request>,
) -> Result<Option<usize>, OutOfMemory>
    ensures other { IfOk result (λ other.
        answers_to wanted.now.table.now (new_world wanted.now.tree) requests.old.items
        ≡ wanted.now.answers.items →
        IsStart wanted.now.table.now (new_world wanted.now.tree) requests.old.items
        start.old →
        other ≡ first_other (answers_to wanted.now.table.now (new_world wanted.now.tree)
        (leave_out trial.now.line trial.now.piece requests.old.items)) wanted.now.answers.items) }
    ensures start { OnOk result
        (IsStart wanted.now.table.now (new_world wanted.now.tree) requests.old.items
        start.old → IsStart wanted.now.table.now (new_world wanted.now.tree)
        requests.old.items start.new) }
    ensures kept { IfOk result (λ _. requests.new.items ≡ requests.old.items) }
{
    if !has_piece(trial, requests.as_slice()) {
        return Ok(None);
    }
    start.go_near(wanted, requests.as_slice(), trial.line)?;
    let kept = leave_out(trial, requests);
    let other = start.first_other(wanted, requests.as_slice())?;
    put_back(trial.line, kept, requests);
    Ok(other)
}

/// Whether a script has a piece.
fn has_piece(trial: &Trial, requests: &[Request]) -> bool
    ensures { IsFalse result →
        leave_out trial.now.line trial.now.piece requests.now ≡ requests.now }
{
    match requests.get(trial.line) {
        Some(request) => Arguments::of(request).have(&trial.piece),
        None => false,
    }
}

/// Leaves a piece out of a script, and answers what the arguments of its line were.
pub(crate) fn leave_out(trial: &Trial, requests: &mut Vec<Request>) -> Arguments
    ensures left { requests.new.items
        ≡ leave_out trial.now.line trial.now.piece requests.old.items }
    ensures back { put_back_at trial.now.line result requests.new.items ≡ requests.old.items }
{
    let Some(request) = requests.get_mut(trial.line) else {
        return Arguments::Others;
    };
    let kept = Arguments::of(request);
    let less = kept.without(&trial.piece);
    less.give(request);
    kept
}

/// Gives the line at an index other arguments, if it is of their kind.
pub(crate) fn put_back(line: usize, arguments: Arguments, requests: &mut Vec<Request>)
    ensures { requests.new.items ≡ put_back_at line arguments requests.old.items }
{
    if let Some(request) = requests.get_mut(line) {
        arguments.give(request);
    }
}
