//! The permissions that a veil leaves.

use bitflags::{Flag, Flags};
use std::marker::Model;

/// A set of letters, a bit for each.
#[derive(Clone, Copy, PartialEq, Eq, Hash)]
pub(crate) struct Letters(pub(crate) u8);

/// A set of the permissions r, w, x and c: to read, to write, to execute, and to create and remove
/// (unveil(2)). Contracts see a number with a bit for each, r at bit 0.
#[derive(Clone, Copy, PartialEq, Eq, Hash)]
pub struct Perms {
    letters: Letters,
}

impl Model for Perms {
    ghost use Rattle.std.specs.Prelude.{ℕ, ◌<◌, ◌^◌};

    ghost Value = { ℕ };

    ghost view = { λ a. a.letters.0 };

    ghost invariant = { λ a. a.letters.0 < 2 ^ 4 };

    ghost inverse = { λ n. record { letters = record { 0 = n } } };
}

ghost use Rattle.std.specs.Prelude.{◌<◌, ⊤, ◌≡◌, [], ◌∷◌, codes, bit_or};
ghost use Rattle.pua_calls.specs.Promises.{holds, lacking, perms_of, letter_of, perm_letters};
ghost use Rattle.pua_calls.specs.Promises.{reading, writing, executing, creating};

use pua_path::Errno;

impl Letters {
    pub(crate) const READ: Letters = Letters(1);

    pub(crate) const WRITE: Letters = Letters(2);

    pub(crate) const EXEC: Letters = Letters(4);

    pub(crate) const CREATE: Letters = Letters(8);

    /// To read, and to write.
    pub(crate) const READ_WRITE: Letters = Letters(Letters::READ.0 | Letters::WRITE.0);

    /// To write, and to create.
    pub(crate) const WRITE_CREATE: Letters = Letters(Letters::WRITE.0 | Letters::CREATE.0);

    /// To read, to write, and to create.
    pub(crate) const READ_WRITE_CREATE: Letters = Letters(
        Letters::READ_WRITE.0 | Letters::CREATE.0,
    );
}

static LETTERS: [Flag<Letters>; 4] = [
    Flag {
        name: "r",
        value: Letters::READ,
    },
    Flag {
        name: "w",
        value: Letters::WRITE,
    },
    Flag {
        name: "x",
        value: Letters::EXEC,
    },
    Flag {
        name: "c",
        value: Letters::CREATE,
    },
];

impl Flags for Letters {
    type Bits = u8;

    ghost exact = { ⊤ };

    ghost table = { (codes "r", reading) ∷ (codes "w", writing)
        ∷ (codes "x", executing) ∷ (codes "c", creating) ∷ [] };

    ghost set_of = { λ a. a.0 };

    fn flags<'a>() -> &'a [Flag<Letters>] {
        LETTERS.as_slice()
    }

    fn bits(&self) -> u8 {
        self.0
    }

    fn from_bits_retain(bits: u8) -> Letters {
        Letters(bits)
    }
}

impl Perms {
    /// No permission.
    pub const NONE: Perms = Perms {
        letters: Letters(0),
    };

    /// To read, and to look at.
    pub const READ: Perms = Perms {
        letters: Letters::READ,
    };

    /// To write, and to change the mode.
    pub const WRITE: Perms = Perms {
        letters: Letters::WRITE,
    };

    /// To execute.
    pub const EXEC: Perms = Perms {
        letters: Letters::EXEC,
    };

    /// To create and to remove.
    pub const CREATE: Perms = Perms {
        letters: Letters::CREATE,
    };

    /// These letters.
    pub(crate) fn of(letters: Letters) -> Perms
        requires { letters.0 < 16 }
        ensures { result ≡ letters.0 }
    {
        Perms { letters }
    }

    /// The permissions that letters name, in any order and with repeats; no letters are the empty
    /// set. Any byte but `r`, `w`, `x` and `c` is EINVAL (unveil(2)).
    pub fn read(text: &[u8]) -> Result<Perms, Errno>
        ensures { result ≡ perms_of text.now }
    {
        let mut perms = Perms::NONE;
        for byte in text {
            perms = perms.union(letter(*byte).ok_or(Errno::EINVAL)?);
        }
        Ok(perms)
    }

    /// The letters of these, in the order r, w, x, c; no letters for none.
    pub fn letters(self) -> &'static str
        ensures { result.now ≡ perm_letters self }
    {
        match (
            self.contains(Perms::READ),
            self.contains(Perms::WRITE),
            self.contains(Perms::EXEC),
            self.contains(Perms::CREATE),
        ) {
            (false, false, false, false) => "",
            (false, false, false, true) => "c",
            (false, false, true, false) => "x",
            (false, false, true, true) => "xc",
            (false, true, false, false) => "w",
            (false, true, false, true) => "wc",
            (false, true, true, false) => "wx",
            (false, true, true, true) => "wxc",
            (true, false, false, false) => "r",
            (true, false, false, true) => "rc",
            (true, false, true, false) => "rx",
            (true, false, true, true) => "rxc",
            (true, true, false, false) => "rw",
            (true, true, false, true) => "rwc",
            (true, true, true, false) => "rwx",
            (true, true, true, true) => "rwxc",
        }
    }

    /// These as a number, with a bit for each letter, r at bit 0, then w, x and c.
    pub fn bits(self) -> u8
        ensures { result ≡ self }
    {
        self.letters.0
    }

    /// Whether each of the others is one of these.
    pub fn contains(self, others: Perms) -> bool
        ensures { result ≡ holds self others }
    {
        self.letters.contains(others.letters)
    }

    /// These without those of them that are among the others: what the others lack of these.
    pub fn without(self, others: Perms) -> Perms
        ensures { result ≡ lacking others self }
    {
        let common = self.letters.intersection(others.letters);
        Perms {
            letters: self.letters.symmetric_difference(common),
        }
    }

    /// These and the others.
    pub fn union(self, others: Perms) -> Perms
        ensures { result ≡ bit_or self others }
    {
        Perms {
            letters: self.letters.union(others.letters),
        }
    }
}

/// The permission of one letter.
fn letter(byte: u8) -> Option<Perms>
    ensures { result ≡ letter_of byte }
{
    match byte {
        b'r' => Some(Perms::READ),
        b'w' => Some(Perms::WRITE),
        b'x' => Some(Perms::EXEC),
        b'c' => Some(Perms::CREATE),
        _ => None,
    }
}
