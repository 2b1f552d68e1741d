//! A line of the list for ever.

ghost use Rattle.std.specs.Prelude.{◌≡◌};
ghost use Rattle.pua_tree.specs.Tree.{Tree};
ghost use Rattle.pua_audit.specs.Reach.{Word};
ghost use Rattle.pua_calls.specs.CallSets.{has};
ghost use Rattle.pua_ever.specs.Ever.{Thing};
ghost use Rattle.pua_ever.specs.EverLines.{IsThing, line_with};
ghost use Rattle.pua_ever.specs.Through.{can_come as comes_by, let_through as let_through_by};

use crate::made::Made;
use pua_calls::Calls;
use pua_objects::ObjectKind;
use pua_tree::{FileType, Kind};

/// What a line is about.
#[derive(Clone, Copy, PartialEq, Eq)]
pub enum EverThing {
    /// Something that stands or could stand in the tree now.
    Stands(ObjectKind),
    /// Whatever can be made: a directory, the further names of such a directory, a file, a link, a
    /// socket or a fifo.
    Comes(ObjectKind),
}

impl EverThing {
    /// Whether it stands or could stand now, or is made by one of these calls.
    fn can_come(self, passes: Calls) -> bool
        ensures { (t : Tree) (about : Thing) → IsThing t about self →
            result ≡ comes_by (has passes) about }
    {
        match self {
            EverThing::Stands(_) => true,
            EverThing::Comes(kind) => is_made_by(kind, passes),
        }
    }
}

/// Whether a call by which such a thing is made is among these.
fn is_made_by(kind: ObjectKind, calls: Calls) -> bool
    ensures { (t : Tree) (about : Thing) → IsThing t about (EverThing.Comes kind) →
        result ≡ comes_by (has calls) about }
{
    match kind {
        ObjectKind::Node(Kind::File | Kind::Known(FileType::Plain)) => Made::File.is_made_by(calls),
        ObjectKind::Node(Kind::Link) => Made::Link.is_made_by(calls),
        ObjectKind::Node(Kind::Known(FileType::Sock)) => Made::Sock.is_made_by(calls),
        ObjectKind::Node(Kind::Known(FileType::Fifo)) => Made::Fifo.is_made_by(calls),
        _ => Made::Dir.is_made_by(calls),
    }
}

/// A line of the list, but for the names that lead there.
#[derive(Clone, Copy, PartialEq, Eq)]
pub struct EverLine {
    /// What it is about.
    pub thing: EverThing,
    /// The calls that can ever be allowed on it.
    pub calls: Calls,
}

impl EverLine {
    /// The line with those of its calls that are let through: none on what is made by a call that
    /// isn't.
    pub fn let_through(self, passes: Calls) -> EverLine
        ensures thing { result.thing ≡ self.thing }
        ensures line { (t : Tree) (word : Word) (about : Thing) → IsThing t about self.thing →
            line_with word about result
            ≡ let_through_by (has passes) (line_with word about self) }
    {
        let calls = if self.thing.can_come(passes) {
            self.calls.intersection(passes)
        } else {
            Calls::NONE
        };
        EverLine {
            thing: self.thing,
            calls,
        }
    }
}
