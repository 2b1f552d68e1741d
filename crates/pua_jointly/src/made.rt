//! What can be made, in the table of a crew.

ghost use Rattle.std.specs.Prelude.{◌≡◌, ◌<◌};
ghost use Rattle.pua_ever.specs.EverLines.{new_of};
ghost use Rattle.pua_jointly.specs.JointPlace.{new_bit};
ghost use Rattle.pua_jointly.specs.JointWords.{carried_kind};

use pua_ever::Made;
use pua_tree::{FileType, Kind};

/// The bit of what can be made in the table of a crew.
pub(crate) fn made_bit(made: Made) -> u32
    ensures bit { result ≡ new_bit (new_of made) }
    ensures low { result < 6 }
{
    match made {
        Made::Dir => 0,
        Made::Others => 1,
        Made::File => 2,
        Made::Link => 3,
        Made::Sock => 4,
        Made::Fifo => 5,
    }
}

/// What it is in a tree, as far as is asked of what is carried: whether it is a link.
pub(crate) fn made_node(made: Made) -> Kind
    ensures { result ≡ carried_kind (new_of made) }
{
    match made {
        Made::Dir | Made::Others => Kind::Dir,
        Made::File => Kind::File,
        Made::Link => Kind::Link,
        Made::Sock => Kind::Known(FileType::Sock),
        Made::Fifo => Kind::Known(FileType::Fifo),
    }
}
