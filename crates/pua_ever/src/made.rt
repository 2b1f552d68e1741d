//! What can be made.

ghost use Rattle.std.specs.Prelude.{◌≡◌, ◌∷◌, Some};
ghost use Rattle.std.specs.List.{list_any};
ghost use Rattle.pua_objects.specs.Lines.{kind_word};
ghost use Rattle.pua_calls.specs.CallSets.{has};
ghost use Rattle.pua_script.specs.Decide.{made_by};
ghost use Rattle.pua_ever.specs.Ever.{file_makers, is_made_by, is_some_file, new_word};
ghost use Rattle.pua_ever.specs.EverLines as left;
ghost use Rattle.pua_ever.specs.EverLines.{made_left, new_of};

use pua_calls::{Call, Calls, Effect};
use pua_objects::ObjectKind;
use pua_tree::{FileType, Kind};

/// What can be made.
#[derive(Clone, Copy)]
pub enum Made {
    /// A directory.
    Dir,
    /// The further names of such a directory.
    Others,
    /// A file.
    File,
    /// A link.
    Link,
    /// A socket.
    Sock,
    /// A fifo.
    Fifo,
}

impl Made {
    /// The next one, in the order of the lines; None after the last.
    pub fn after(self) -> Option<Made>
        ensures { made_left (Some self) ≡ left.Coming (new_of self) ∷ made_left result }
    {
        match self {
            Made::Dir => Some(Made::Others),
            Made::Others => Some(Made::File),
            Made::File => Some(Made::Link),
            Made::Link => Some(Made::Sock),
            Made::Sock => Some(Made::Fifo),
            Made::Fifo => None,
        }
    }

    /// Whether a call that makes it is among these.
    pub fn is_made_by(self, calls: Calls) -> bool
        ensures { result ≡ is_made_by (has calls) (new_of self) }
    {
        match self {
            Made::Dir | Made::Others => calls.contains(Call::Mkdir),
            Made::File => makes_file(calls),
            Made::Link => calls.contains(Call::Symlink),
            Made::Sock => calls.contains(Call::Bind),
            Made::Fifo => calls.contains(Call::Mknod),
        }
    }

    /// What a line says that it is.
    pub fn kind(self) -> ObjectKind
        ensures { kind_word result ≡ new_word (new_of self) }
    {
        match self {
            Made::Dir => ObjectKind::Node(Kind::Dir),
            Made::Others => ObjectKind::Other,
            Made::File => ObjectKind::Node(Kind::File),
            Made::Link => ObjectKind::Node(Kind::Link),
            Made::Sock => ObjectKind::Node(Kind::Known(FileType::Sock)),
            Made::Fifo => ObjectKind::Node(Kind::Known(FileType::Fifo)),
        }
    }
}

/// Whether a call that makes a file is among these.
fn makes_file(calls: Calls) -> bool
    ensures { result ≡ list_any (has calls) file_makers }
{
    Call::ALL
        .iter()
        .filter(|call| makes_a_file(**call))
        .any(|call| calls.contains(*call))
}

/// Whether a call makes a file.
fn makes_a_file(call: Call) -> bool
    ensures { result ≡ is_some_file (made_by call) }
{
    matches!(call.effect(), Effect::Makes(Kind::File))
}
