//! Lines in pieces, as they are written without memory.

ghost use Rattle.std.specs.Prelude.{◌≡◌, ◌++◌};
ghost use Rattle.pua_io.specs.Sinks.{Writes};
ghost use Rattle.pua_texts.specs.Lines.{with_end};
ghost use Rattle.pua_tool.specs.Pieces.{line_of, piece_text};

use itoa::Buffer;
use pua_advice::WrongPart;
use pua_io::{PutFault, Sink, put_all};
use pua_tree::byte_spelling;
use std::fmt;

/// A piece of a line.
#[derive(Clone, Copy)]
pub(crate) enum Piece<'a> {
    /// A text.
    Text(&'a str),
    /// A number, in decimal.
    Number(u32),
    /// What an advice is about.
    About(WrongPart<'a>),
}

/// A piece of no bytes.
const NOTHING: Piece<'static> = Piece::Text("");

/// The pieces of the line of a fault; those that a line doesn't need have no bytes.
pub(crate) type Pieces = [Piece<'static>; 5];

/// A line of one text.
pub(crate) fn one(text: &'static str) -> Pieces
    ensures { line_of result ≡ with_end text.now }
{
    [Piece::Text(text), NOTHING, NOTHING, NOTHING, NOTHING]
}

/// A line of three pieces, of which the first and the last are texts.
pub(crate) fn three(first: &'static str, second: Piece<'static>, third: &'static str) -> Pieces
    ensures { line_of result ≡ first.now ++ piece_text second.entry ++ with_end third.now }
{
    [
        Piece::Text(first),
        second,
        Piece::Text(third),
        NOTHING,
        NOTHING,
    ]
}

/// A line of five pieces, of which the second and the fourth need not be texts.
pub(crate) fn five(
    first: &'static str,
    second: Piece<'static>,
    third: &'static str,
    fourth: Piece<'static>,
    fifth: &'static str,
) -> Pieces
    ensures { line_of result ≡ first.now ++ piece_text second.entry ++ third.now
        ++ piece_text fourth.entry ++ with_end fifth.now }
{
    [
        Piece::Text(first),
        second,
        Piece::Text(third),
        fourth,
        Piece::Text(fifth),
    ]
}

/// Writes a line of these pieces, and its end.
pub(crate) fn put_line<E: Sink>(err: &mut E, pieces: &[Piece]) -> Result<(), PutFault>
    ensures { Writes (line_of pieces.now) result (E.written err.old) (E.written err.new)
        (E.failed err.old) (E.failed err.new) }
{
    for piece in pieces {
        put_piece(err, piece)?;
    }
    put_all(err, "\n".as_bytes())
}

/// Writes a piece.
fn put_piece<E: Sink>(err: &mut E, piece: &Piece) -> Result<(), PutFault>
    ensures { Writes (piece_text piece.now) result (E.written err.old) (E.written err.new)
        (E.failed err.old) (E.failed err.new) }
{
    match piece {
        Piece::Text(text) => put_all(err, text.as_bytes()),
        Piece::Number(number) => put_all(err, Buffer::new().format(*number).as_bytes()),
        Piece::About(WrongPart::Line) => put_all(err, &[]),
        Piece::About(WrongPart::Word(word)) => put_all(err, word),
        Piece::About(WrongPart::Byte(byte)) => put_all(err, byte_spelling(*byte).as_bytes()),
    }
}

impl fmt::Display for Piece<'_> {
    fn fmt<W: fmt::Write>(&self, f: &mut fmt::Formatter<W>) -> fmt::Result {
        match self {
            Piece::Text(text) => f.write_str(text),
            Piece::Number(number) => write!(f, "{number}"),
            Piece::About(subject) => write!(f, "{subject}"),
        }
    }
}
