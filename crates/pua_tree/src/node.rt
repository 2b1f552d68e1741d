//! Nodes of a tree: their numbers and kinds.

use std::marker::Model;

/// The number of a node, which stays its own as long as the tree lives. Contracts see the number.
#[derive(Clone, Copy, PartialEq, Eq, PartialOrd, Ord, Hash)]
pub struct NodeId {
    number: u32,
}

impl Model for NodeId {
    ghost use Rattle.std.specs.Prelude.{ℕ};

    ghost Value = { ℕ };

    ghost view = { λ a. a.number };

    ghost inverse = { λ n. record { number = n } };
}

ghost use Rattle.std.specs.Prelude.{◌≡◌, ◌<◌};
ghost use Rattle.pua_tree.specs.Kinds.{about_kind, kind_count};

impl NodeId {
    /// The root of every tree.
    pub const ROOT: NodeId = NodeId { number: 0 };

    /// The node of this number, whether or not a tree has one.
    pub fn new(number: u32) -> NodeId
        ensures { result ≡ number }
    {
        NodeId { number }
    }

    /// Its number.
    pub fn number(self) -> u32
        ensures { result ≡ self }
    {
        self.number
    }
}

/// The type of a file (stat(2)), where it is known.
#[derive(Clone, Copy, PartialEq, Eq, Hash)]
pub enum FileType {
    /// A plain file.
    Plain,
    /// A socket.
    Sock,
    /// A fifo.
    Fifo,
    /// A device.
    Dev,
}

/// What a node is.
#[derive(Clone, Copy, PartialEq, Eq, Hash)]
pub enum Kind {
    /// A directory.
    Dir,
    /// A file that can't be executed, of which no more is known: it may be a plain file, a socket,
    /// a fifo or a device.
    File,
    /// A file that can be executed.
    Prog,
    /// A symbolic link, which has a target.
    Link,
    /// A file that can't be executed, of this type.
    Known(FileType),
}

/// What is said of a kind, in one place.
#[derive(Clone, Copy)]
struct AboutKind {
    number: usize,
    word: &'static str,
}

impl Kind {
    /// How many kinds there are.
    pub const COUNT: usize = 8;

    /// What is said of it.
    fn about(self) -> AboutKind
        ensures number { result.number ≡ (about_kind self).number }
        ensures low { result.number < kind_count }
        ensures word { result.word.now ≡ (about_kind self).word }
    {
        match self {
            Kind::Dir => AboutKind {
                number: 0,
                word: "dir",
            },
            Kind::File => AboutKind {
                number: 1,
                word: "file",
            },
            Kind::Prog => AboutKind {
                number: 2,
                word: "prog",
            },
            Kind::Link => AboutKind {
                number: 3,
                word: "link",
            },
            Kind::Known(FileType::Plain) => AboutKind {
                number: 4,
                word: "file",
            },
            Kind::Known(FileType::Sock) => AboutKind {
                number: 5,
                word: "sock",
            },
            Kind::Known(FileType::Fifo) => AboutKind {
                number: 6,
                word: "fifo",
            },
            Kind::Known(FileType::Dev) => AboutKind {
                number: 7,
                word: "dev",
            },
        }
    }

    /// Its number, counted from 0.
    pub fn number(self) -> usize
        ensures number { result ≡ (about_kind self).number }
        ensures low { result < kind_count }
    {
        self.about().number
    }

    /// Its word in lists and reasons: a plain file's is that of a file of which no more is known.
    pub fn word(self) -> &'static str
        ensures { result.now ≡ (about_kind self).word }
    {
        self.about().word
    }
}
