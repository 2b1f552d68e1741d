//! The promises of a process.

use bitflags::{Flag, Flags};
use std::marker::Model;

/// A set of keywords, a bit for each.
#[derive(Clone, Copy, PartialEq, Eq, Hash)]
pub(crate) struct Keywords(pub(crate) u64);

/// A set of promises (pledge(2); the list of keywords is this profile's). Contracts see a number
/// with a bit for each of the 36 keywords, the first at bit 0.
#[derive(Clone, Copy, PartialEq, Eq, Hash)]
pub struct Promises {
    keywords: Keywords,
}

impl Model for Promises {
    ghost use Rattle.std.specs.Prelude.{ℕ, ◌<◌, ◌^◌};

    ghost Value = { ℕ };

    ghost view = { λ a. a.keywords.0 };

    ghost invariant = { λ a. a.keywords.0 < 2 ^ 36 };

    ghost inverse = { λ n. record { keywords = record { 0 = n } } };
}

ghost use Rattle.std.specs.Prelude.{◌<◌, ◌^◌, ⊤, ◌≡◌, ◌≤◌, ◌==◌, IfOk, bit_and, bit_or, map, option_map};
ghost use Rattle.pua_calls.specs.Promises.{holds, lacking, keyword_at, keywords_of};
ghost use Rattle.pua_calls.specs.Promises.{promises_of, promise_of, union_of, keyword_rows};
ghost use Rattle.std.specs.List.{find, slice_split};
ghost use Rattle.pua_tree.specs.Names.{same_bytes};

use pua_path::Errno;
use pua_tree::OutOfMemory;
use std::alloc::{AllocError, Global};

/// The keywords that a call needs, or that decide what a call without its promises gets.
impl Keywords {
    pub(crate) const CHOWN: Keywords = Keywords(1 << 2);

    pub(crate) const CPATH: Keywords = Keywords(1 << 3);

    pub(crate) const DPATH: Keywords = Keywords(1 << 6);

    pub(crate) const ERROR: Keywords = Keywords(1 << 8);

    pub(crate) const EXEC: Keywords = Keywords(1 << 9);

    pub(crate) const FATTR: Keywords = Keywords(1 << 10);

    pub(crate) const ID: Keywords = Keywords(1 << 13);

    pub(crate) const PROC: Keywords = Keywords(1 << 17);

    pub(crate) const RECVFD: Keywords = Keywords(1 << 20);

    pub(crate) const RPATH: Keywords = Keywords(1 << 22);

    pub(crate) const SENDFD: Keywords = Keywords(1 << 23);

    pub(crate) const TMPPATH: Keywords = Keywords(1 << 27);

    pub(crate) const UNIX: Keywords = Keywords(1 << 29);

    pub(crate) const UNVEIL: Keywords = Keywords(1 << 30);

    pub(crate) const WPATH: Keywords = Keywords(1 << 34);

    /// To read, and to write.
    pub(crate) const READ_WRITE: Keywords = Keywords(Keywords::RPATH.0 | Keywords::WPATH.0);

    /// To write, and to create.
    pub(crate) const WRITE_CREATE: Keywords = Keywords(Keywords::WPATH.0 | Keywords::CPATH.0);

    /// To read, to write, and to create.
    pub(crate) const READ_WRITE_CREATE: Keywords = Keywords(
        Keywords::READ_WRITE.0 | Keywords::CPATH.0,
    );

    /// To read, and to change modes.
    pub(crate) const READ_MODES: Keywords = Keywords(Keywords::RPATH.0 | Keywords::FATTR.0);

    /// To read, and to change owners.
    pub(crate) const READ_OWNERS: Keywords = Keywords(Keywords::RPATH.0 | Keywords::CHOWN.0);
}

static KEYWORDS: [Flag<Keywords>; Promises::KEYWORDS] = [
    Flag {
        name: "audio",
        value: Keywords(1 << 0),
    },
    Flag {
        name: "bpf",
        value: Keywords(1 << 1),
    },
    Flag {
        name: "chown",
        value: Keywords::CHOWN,
    },
    Flag {
        name: "cpath",
        value: Keywords::CPATH,
    },
    Flag {
        name: "disklabel",
        value: Keywords(1 << 4),
    },
    Flag {
        name: "dns",
        value: Keywords(1 << 5),
    },
    Flag {
        name: "dpath",
        value: Keywords::DPATH,
    },
    Flag {
        name: "drm",
        value: Keywords(1 << 7),
    },
    Flag {
        name: "error",
        value: Keywords::ERROR,
    },
    Flag {
        name: "exec",
        value: Keywords::EXEC,
    },
    Flag {
        name: "fattr",
        value: Keywords::FATTR,
    },
    Flag {
        name: "flock",
        value: Keywords(1 << 11),
    },
    Flag {
        name: "getpw",
        value: Keywords(1 << 12),
    },
    Flag {
        name: "id",
        value: Keywords::ID,
    },
    Flag {
        name: "inet",
        value: Keywords(1 << 14),
    },
    Flag {
        name: "mcast",
        value: Keywords(1 << 15),
    },
    Flag {
        name: "pf",
        value: Keywords(1 << 16),
    },
    Flag {
        name: "proc",
        value: Keywords::PROC,
    },
    Flag {
        name: "prot_exec",
        value: Keywords(1 << 18),
    },
    Flag {
        name: "ps",
        value: Keywords(1 << 19),
    },
    Flag {
        name: "recvfd",
        value: Keywords::RECVFD,
    },
    Flag {
        name: "route",
        value: Keywords(1 << 21),
    },
    Flag {
        name: "rpath",
        value: Keywords::RPATH,
    },
    Flag {
        name: "sendfd",
        value: Keywords::SENDFD,
    },
    Flag {
        name: "settime",
        value: Keywords(1 << 24),
    },
    Flag {
        name: "stdio",
        value: Keywords(1 << 25),
    },
    Flag {
        name: "tape",
        value: Keywords(1 << 26),
    },
    Flag {
        name: "tmppath",
        value: Keywords::TMPPATH,
    },
    Flag {
        name: "tty",
        value: Keywords(1 << 28),
    },
    Flag {
        name: "unix",
        value: Keywords::UNIX,
    },
    Flag {
        name: "unveil",
        value: Keywords::UNVEIL,
    },
    Flag {
        name: "video",
        value: Keywords(1 << 31),
    },
    Flag {
        name: "vminfo",
        value: Keywords(1 << 32),
    },
    Flag {
        name: "vmm",
        value: Keywords(1 << 33),
    },
    Flag {
        name: "wpath",
        value: Keywords::WPATH,
    },
    Flag {
        name: "wroute",
        value: Keywords(1 << 35),
    },
];

impl Flags for Keywords {
    type Bits = u64;

    ghost exact = { ⊤ };

    ghost table = { keyword_rows };

    ghost set_of = { λ a. a.0 };

    fn flags<'a>() -> &'a [Flag<Keywords>] {
        KEYWORDS.as_slice()
    }

    fn bits(&self) -> u64 {
        self.0
    }

    fn from_bits_retain(bits: u64) -> Keywords {
        Keywords(bits)
    }
}

impl Promises {
    /// No promise.
    pub const NONE: Promises = Promises {
        keywords: Keywords(0),
    };

    /// Every promise but `error`: what a process holds before its first pledge of promises.
    pub const ALL_BUT_ERROR: Promises = Promises {
        keywords: Keywords((1 << 36) - 1 - (1 << 8)),
    };

    /// To change the owners of files.
    pub const CHOWN: Promises = Promises {
        keywords: Keywords::CHOWN,
    };

    /// To create and to remove files.
    pub const CPATH: Promises = Promises {
        keywords: Keywords::CPATH,
    };

    /// To make special files.
    pub const DPATH: Promises = Promises {
        keywords: Keywords::DPATH,
    };

    /// Calls that lack a promise fail with ENOSYS, and the process lives.
    pub const ERROR: Promises = Promises {
        keywords: Keywords::ERROR,
    };

    /// To execute files.
    pub const EXEC: Promises = Promises {
        keywords: Keywords::EXEC,
    };

    /// To change the modes of files.
    pub const FATTR: Promises = Promises {
        keywords: Keywords::FATTR,
    };

    /// To change identities, and the root.
    pub const ID: Promises = Promises {
        keywords: Keywords::ID,
    };

    /// To make processes.
    pub const PROC: Promises = Promises {
        keywords: Keywords::PROC,
    };

    /// To receive descriptors from other processes.
    pub const RECVFD: Promises = Promises {
        keywords: Keywords::RECVFD,
    };

    /// To read files, and to look at them.
    pub const RPATH: Promises = Promises {
        keywords: Keywords::RPATH,
    };

    /// To send descriptors to other processes.
    pub const SENDFD: Promises = Promises {
        keywords: Keywords::SENDFD,
    };

    /// To make and to remove files in `/tmp`.
    pub const TMPPATH: Promises = Promises {
        keywords: Keywords::TMPPATH,
    };

    /// To name sockets by their paths.
    pub const UNIX: Promises = Promises {
        keywords: Keywords::UNIX,
    };

    /// To put veils on places.
    pub const UNVEIL: Promises = Promises {
        keywords: Keywords::UNVEIL,
    };

    /// To write files.
    pub const WPATH: Promises = Promises {
        keywords: Keywords::WPATH,
    };

    /// These keywords.
    pub(crate) fn of(keywords: Keywords) -> Promises
        requires { keywords.0 < 2 ^ 36 }
        ensures { result ≡ keywords.0 }
    {
        Promises { keywords }
    }

    /// The promises that keywords name, with a comma between each two, in any order and with
    /// repeats; no text is the empty set. A word that is no keyword, or is empty, is EINVAL
    /// (pledge(2); the commas and the repeats: this profile).
    pub fn read(text: &[u8]) -> Result<Promises, Errno>
        ensures { result ≡ promises_of text.now }
    {
        if text.is_empty() {
            Ok(Promises::NONE)
        } else {
            named(text)
        }
    }

    /// Whether each of the others is one of these.
    pub fn contains(self, others: Promises) -> bool
        ensures { result ≡ holds self others }
    {
        self.keywords.contains(others.keywords)
    }

    /// These and the others.
    pub fn union(self, others: Promises) -> Promises
        ensures { result ≡ bit_or self others }
    {
        Promises {
            keywords: self.keywords.union(others.keywords),
        }
    }

    /// Those of these that are among the others.
    pub fn intersection(self, others: Promises) -> Promises
        ensures { result ≡ bit_and self others }
    {
        Promises {
            keywords: self.keywords.intersection(others.keywords),
        }
    }

    /// These without those of them that are among the others: what the others lack of these.
    pub fn without(self, others: Promises) -> Promises
        ensures { result ≡ lacking others self }
    {
        let common = self.keywords.intersection(others.keywords);
        Promises {
            keywords: self.keywords.symmetric_difference(common),
        }
    }

    /// These as a number, with a bit for each of the 36 keywords, the first at bit 0.
    pub fn bits(self) -> u64
        ensures { result ≡ self }
    {
        self.keywords.0
    }

    /// How many keywords there are.
    pub const KEYWORDS: usize = 36;

    /// The keyword at this index among all, the first at 0, if it is one of these.
    pub fn keyword(self, index: usize) -> Option<&'static str>
        ensures { option_map (λ name. name.now) result ≡ keyword_at self index }
    {
        let flag = Keywords::flags().get(index)?;
        if self.keywords.contains(flag.value) {
            Some(flag.name)
        } else {
            None
        }
    }

    /// The keywords of these, each once, in the order of all keywords. The only error is that a
    /// growth was refused.
    pub fn names(self, alloc: Global) -> Result<Vec<&'static str>, OutOfMemory>
        ensures { IfOk result (λ names. map (λ name. name.now) names.items ≡ keywords_of self) }
    {
        Ok(lent_names(alloc, self.keywords)?)
    }
}

/// The keywords of a set's members, in their order.
fn lent_names(alloc: Global, set: Keywords) -> Result<Vec<&'static str>, AllocError>
    ensures { IfOk result (λ names. map (λ name. name.now) names.items ≡ keywords_of set.0) }
{
    Keywords::flags()
        .iter()
        .filter(|flag| set.contains(flag.value))
        .map(|flag| flag.name)
        .collect(alloc)
}

/// The promises that keywords with a comma between each two name.
fn named(text: &[u8]) -> Result<Promises, Errno>
    ensures { result ≡ union_of (map promise_of (slice_split (λ b. b == 44) text.now)) }
{
    let mut promises = Promises::NONE;
    for word in text.split(|byte| *byte == b',') {
        promises = promises.union(promise(word).ok_or(Errno::EINVAL)?);
    }
    Ok(promises)
}

/// The promise of one keyword.
fn promise(word: &[u8]) -> Option<Promises>
    ensures { result ≡ promise_of word.now }
{
    let keywords = keyword(word)?;
    Some(Promises { keywords })
}

/// The bit of one keyword. Those from the first with its letter on are looked through before the
/// others.
fn keyword(word: &[u8]) -> Option<Keywords>
    ensures { option_map (λ a. a.0) result ≡ promise_of word.now }
{
    let (before, from) = Keywords::flags().split_at(first_of_letter(word));
    match keyword_among(from, word) {
        Some(keyword) => Some(keyword),
        None => keyword_among(before, word),
    }
}

/// The index of the first keyword that begins with the letter that a word begins with, if there is
/// one.
fn first_of_letter(word: &[u8]) -> usize
    ensures { result ≤ 36 }
{
    match word.first() {
        Some(b'b') => 1,
        Some(b'c') => 2,
        Some(b'd') => 4,
        Some(b'e') => 8,
        Some(b'f') => 10,
        Some(b'g') => 12,
        Some(b'i') => 13,
        Some(b'm') => 15,
        Some(b'p') => 16,
        Some(b'r') => 20,
        Some(b's') => 23,
        Some(b't') => 26,
        Some(b'u') => 29,
        Some(b'v') => 31,
        Some(b'w') => 34,
        _ => 0,
    }
}

/// The bit of a keyword among some of the flags.
fn keyword_among(flags: &[Flag<Keywords>], word: &[u8]) -> Option<Keywords>
    ensures { option_map (λ a. a.0) result ≡ option_map (λ flag. flag.value.0)
        (find (λ flag. same_bytes flag.name.now word.now) flags.now) }
{
    let flag = flags.iter().find(|flag| flag.name.as_bytes() == word)?;
    Some(flag.value)
}
