//! The arguments of a request, as far as words may be left out of them.

ghost use Rattle.std.specs.Prelude.{◌≡◌, IsFalse};
ghost use Rattle.pua_tight.specs.Tight.{given_without as given_left};
ghost use Rattle.pua_tight.specs.Left.{arguments_of, arguments_left, with_arguments};

use crate::piece::Piece;
use pua_calls::{Perms, Promises};
use pua_script::{Action, Given, Request};

/// The arguments of a request, as far as words may be left out of them.
#[derive(Clone, Copy)]
pub(crate) enum Arguments {
    /// The promises of a pledge, and its execpromises.
    Lists(Given, Given),
    /// The permissions of an unveil of a path.
    Letters(Option<Perms>),
    /// There are none.
    Others,
}

impl Arguments {
    /// Those of a request.
    pub(crate) fn of(request: &Request) -> Arguments
        ensures { result ≡ arguments_of request.now.action }
    {
        match request.action() {
            Action::Pledge(promises, execpromises) => Arguments::Lists(*promises, *execpromises),
            Action::Unveil(_, perms) => Arguments::Letters(*perms),
            _ => Arguments::Others,
        }
    }

    /// These without a piece.
    pub(crate) fn without(&self, piece: &Piece) -> Arguments
        ensures { result ≡ arguments_left piece.now self.now }
    {
        match (self, piece) {
            (Arguments::Lists(promises, execpromises), Piece::InPromises(bit)) => {
                Arguments::Lists(given_without(*promises, *bit), *execpromises)
            }
            (Arguments::Lists(promises, execpromises), Piece::InExecpromises(bit)) => {
                Arguments::Lists(*promises, given_without(*execpromises, *bit))
            }
            (Arguments::Letters(Some(perms)), Piece::InVeil(bit)) => {
                Arguments::Letters(Some(perms.without(*bit)))
            }
            _ => *self,
        }
    }

    /// Whether they have a piece. Without one that they don't have they are as they were.
    pub(crate) fn have(&self, piece: &Piece) -> bool
        ensures { IsFalse result → arguments_left piece.now self.now ≡ self.now }
    {
        match (self, piece) {
            (Arguments::Lists(promises, _), Piece::InPromises(bit)) => given_has(*promises, *bit),
            (Arguments::Lists(_, execpromises), Piece::InExecpromises(bit)) => {
                given_has(*execpromises, *bit)
            }
            (Arguments::Letters(Some(perms)), Piece::InVeil(bit)) => {
                perms.without(*bit).bits() != perms.bits()
            }
            _ => false,
        }
    }

    /// Gives them to a request, if it is of their kind.
    pub(crate) fn give(&self, request: &mut Request)
        ensures { request.new ≡ with_arguments self.now request.old }
    {
        match self {
            Arguments::Lists(promises, execpromises) => request.set_lists(*promises, *execpromises),
            Arguments::Letters(perms) => request.set_perms(*perms),
            Arguments::Others => {}
        }
    }
}

/// An argument of pledge without a keyword.
fn given_without(given: Given, bit: Promises) -> Given
    ensures { result ≡ given_left bit given }
{
    match given {
        Given::Good(set) => Given::Good(set.without(bit)),
        _ => given,
    }
}

/// Whether an argument of pledge has a keyword.
fn given_has(given: Given, bit: Promises) -> bool
    ensures { IsFalse result → given_left bit given ≡ given }
{
    match given {
        Given::Good(set) => set.without(bit).bits() != set.bits(),
        _ => false,
    }
}
