//! What may be left out of a request.

ghost use Rattle.std.specs.Prelude.{◌≡◌, [], ◌∷◌, ◌++◌, map, filter, option_copied, IfOk};
ghost use Rattle.pua_calls.specs.Promises.{holds, keyword_rows};
ghost use Rattle.pua_tight.specs.Tight.{bits_in, pieces_of};
ghost use Rattle.pua_tight.specs.Left.{pieces_by};
ghost use Rattle.pua_tight.specs.declared.piece.Piece.TheVariants.{InPromises, InExecpromises, InVeil};

use crate::piece::Piece;
use pua_calls::{Perms, Promises};
use pua_script::{Action, Answer, Given, Request};
use std::alloc::{AllocError, Global};

/// What may be left out of a line, where some call asks for these promises: nothing, unless it is
/// answered ok.
pub(crate) fn line_pieces(
    alloc: Global,
    asked: Promises,
    request: &Request,
    answer: Option<&Answer>,
) -> Result<Vec<Piece>, AllocError>
    ensures { IfOk result (λ pieces. pieces.items
        ≡ pieces_by asked request.now (option_copied answer.entry)) }
{
    match answer {
        Some(Answer::Okay) => pieces_of(alloc, asked, request.action()),
        _ => Ok(Vec::new(alloc)),
    }
}

/// What may be left out of a request that is answered ok, where these promises are asked for by
/// some call: keywords in their order, of the promises first, and letters in the order r, w, x, c.
fn pieces_of(alloc: Global, asked: Promises, action: &Action) -> Result<Vec<Piece>, AllocError>
    ensures { IfOk result (λ pieces. pieces.items ≡ pieces_of asked action.now) }
{
    match action {
        Action::Pledge(promises, execpromises) => {
            pledge_pieces(alloc, asked, *promises, *execpromises)
        }
        Action::Unveil(_, Some(perms)) => veil_pieces(alloc, *perms),
        _ => Ok(Vec::new(alloc)),
    }
}

/// The keywords of a pledge that some call asks for.
fn pledge_pieces(
    alloc: Global,
    asked: Promises,
    promises: Given,
    execpromises: Given,
) -> Result<Vec<Piece>, AllocError>
    ensures { IfOk result (λ pieces. pieces.items ≡ map InPromises (bits_in asked promises)
        ++ map InExecpromises (bits_in asked execpromises)) }
{
    let promises = bits_in(alloc, asked, promises)?;
    let execpromises = bits_in(alloc, asked, execpromises)?;
    let first = promises.iter().map(|bit| Piece::InPromises(*bit));
    let second = execpromises.iter().map(|bit| Piece::InExecpromises(*bit));
    first.chain(second).collect(alloc)
}

/// The letters of an unveil.
fn veil_pieces(alloc: Global, perms: Perms) -> Result<Vec<Piece>, AllocError>
    ensures { IfOk result (λ pieces. pieces.items
        ≡ map InVeil (filter (holds perms) (1 ∷ 2 ∷ 4 ∷ 8 ∷ []))) }
{
    let letters = [Perms::READ, Perms::WRITE, Perms::EXEC, Perms::CREATE];
    letters
        .iter()
        .filter(|letter| perms.contains(**letter))
        .map(|letter| Piece::InVeil(*letter))
        .collect(alloc)
}

/// The keywords of an argument of pledge that some call asks for, each as a set of one.
fn bits_in(alloc: Global, asked: Promises, given: Given) -> Result<Vec<Promises>, AllocError>
    ensures { IfOk result (λ bits. bits.items ≡ bits_in asked given) }
{
    let Given::Good(set) = given else {
        return Ok(Vec::new(alloc));
    };
    members(alloc, set.intersection(asked))
}

/// The members of a set, each as a set of one.
fn members(alloc: Global, set: Promises) -> Result<Vec<Promises>, AllocError>
    ensures { IfOk result (λ bits. bits.items
        ≡ filter (holds set) (map (λ row. row.1) keyword_rows)) }
{
    let mut bits = Vec::new(alloc);
    for index in 0..Promises::KEYWORDS {
        let Some(keyword) = set.keyword(index) else {
            continue;
        };
        if let Ok(bit) = Promises::read(keyword.as_bytes()) {
            bits.push(bit)?;
        }
    }
    Ok(bits)
}
