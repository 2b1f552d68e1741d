//! The calls with one path.

ghost use Rattle.std.specs.Prelude.{◌≡◌, ◌+◌, [], ◌∷◌, ◌++◌, length, take, map};
ghost use Rattle.pua_calls.specs.Calls.{about, calls, call_name};
ghost use Rattle.pua_calls.specs.Facts.{seen_facts};

use crate::effect::Effect;
use crate::fits::{Fits, Misfit};
use crate::perms::{Letters, Perms};
use crate::promises::{Keywords, Promises};
use crate::rules::Rules;
use pua_path::{Ending, Last};
use pua_tree::{FileType, Kind};

/// A call with one path, in the order of the calls' numbers.
#[derive(Clone, Copy, Debug, PartialEq, Eq, PartialOrd, Ord, Hash)]
pub enum Call {
    /// stat(2).
    Stat,
    /// lstat(2).
    Lstat,
    /// readlink(2).
    Readlink,
    /// open(2) with `O_RDONLY`.
    OpenRead,
    /// open(2) with `O_WRONLY`.
    OpenWrite,
    /// open(2) with `O_RDWR`.
    OpenBoth,
    /// open(2) with `O_WRONLY | O_CREAT`.
    Create,
    /// mkdir(2).
    Mkdir,
    /// rmdir(2).
    Rmdir,
    /// unlink(2).
    Unlink,
    /// symlink(2), of which the path is that of the link.
    Symlink,
    /// chmod(2).
    Chmod,
    /// chdir(2).
    Chdir,
    /// execve(2).
    Exec,
    /// connect(2) of a socket to the one of this path, which OpenBSD's rules alone have.
    Connect,
    /// bind(2) of a socket to a path, which OpenBSD's rules alone have.
    Bind,
    /// mknod(2), and mkfifo(2), which OpenBSD's rules alone have.
    Mknod,
    /// chown(2), which OpenBSD's rules alone have.
    Chown,
    /// open(2) with `O_RDWR | O_CREAT`, which OpenBSD's rules alone have.
    CreateBoth,
    /// open(2) with `O_RDONLY`, and fchmod(2) by its descriptor, which OpenBSD's rules alone have.
    Fchmod,
    /// open(2) with `O_RDONLY`, and fchown(2) by its descriptor, which OpenBSD's rules alone have.
    Fchown,
}

/// A blank, the name of any call and LF have at most so many bytes.
pub const MOST_CALL_LINE: usize = 16;

/// What a call needs: all of these promises, all of these permissions, and whether its path's last
/// part is followed if it is a link (this profile).
#[derive(Clone, Copy)]
pub struct Need {
    pub promises: Promises,
    pub perms: Perms,
    pub last: Last,
}

/// What is said of a call, in one place.
#[derive(Clone, Copy)]
struct Facts {
    /// Its number.
    number: u8,
    /// Its name.
    name: &'static str,
    /// A blank, its name and LF, with blanks after them.
    line: &'static [u8],
    /// The promises that it needs by the standard table, if that has it.
    standard: Option<Keywords>,
    /// Those that it needs by OpenBSD's rules.
    openbsd: Keywords,
    /// Those by which it is allowed there too, if there are such.
    other: Option<Keywords>,
    /// The permissions that it needs.
    perms: Letters,
    /// Whether the last part of its path is followed if it is a link.
    last: Last,
    /// What a slash at the end of its path means.
    ending: Ending,
    /// What is wrong with each kind of object for it.
    fits: Fits,
    /// What it does where it is allowed.
    effect: Effect,
    /// Whether a file can come to be a program by this call.
    turns: bool,
}

/// What is said of each call, in the order of their numbers.
static FACTS: [Facts; Call::COUNT] = [
    Facts {
        number: 1,
        name: "stat",
        line: b" stat\n          ",
        standard: Some(Keywords::RPATH),
        openbsd: Keywords::RPATH,
        other: None,
        perms: Letters::READ,
        last: Last::Followed,
        ending: Ending::Dot,
        fits: Fits::STANDING,
        effect: Effect::Looks,
        turns: false,
    },
    Facts {
        number: 2,
        name: "lstat",
        line: b" lstat\n         ",
        standard: Some(Keywords::RPATH),
        openbsd: Keywords::RPATH,
        other: None,
        perms: Letters::READ,
        last: Last::Kept,
        ending: Ending::Dot,
        fits: Fits::STANDING,
        effect: Effect::Looks,
        turns: false,
    },
    Facts {
        number: 3,
        name: "readlink",
        line: b" readlink\n      ",
        standard: Some(Keywords::RPATH),
        openbsd: Keywords::RPATH,
        other: None,
        perms: Letters::READ,
        last: Last::Kept,
        ending: Ending::Dot,
        fits: Fits::LINKS,
        effect: Effect::Looks,
        turns: false,
    },
    Facts {
        number: 4,
        name: "open-r",
        line: b" open-r\n        ",
        standard: Some(Keywords::RPATH),
        openbsd: Keywords::RPATH,
        other: None,
        perms: Letters::READ,
        last: Last::Followed,
        ending: Ending::Dot,
        fits: Fits::OPENABLE,
        effect: Effect::Looks,
        turns: false,
    },
    Facts {
        number: 5,
        name: "open-w",
        line: b" open-w\n        ",
        standard: Some(Keywords::WPATH),
        openbsd: Keywords::WPATH,
        other: None,
        perms: Letters::WRITE,
        last: Last::Followed,
        ending: Ending::Dot,
        fits: Fits::WRITABLE,
        effect: Effect::Looks,
        turns: true,
    },
    Facts {
        number: 6,
        name: "open-rw",
        line: b" open-rw\n       ",
        standard: Some(Keywords::READ_WRITE),
        openbsd: Keywords::READ_WRITE,
        other: None,
        perms: Letters::READ_WRITE,
        last: Last::Followed,
        ending: Ending::Dot,
        fits: Fits::WRITABLE,
        effect: Effect::Looks,
        turns: true,
    },
    Facts {
        number: 7,
        name: "create",
        line: b" create\n        ",
        standard: Some(Keywords::WRITE_CREATE),
        openbsd: Keywords::WRITE_CREATE,
        other: None,
        perms: Letters::WRITE_CREATE,
        last: Last::Followed,
        ending: Ending::Dot,
        fits: Fits::CREATABLE,
        effect: Effect::Makes(Kind::File),
        turns: true,
    },
    Facts {
        number: 8,
        name: "mkdir",
        line: b" mkdir\n         ",
        standard: Some(Keywords::CPATH),
        openbsd: Keywords::CPATH,
        other: None,
        perms: Letters::CREATE,
        last: Last::Kept,
        ending: Ending::Dropped,
        fits: Fits::FREE,
        effect: Effect::Makes(Kind::Dir),
        turns: false,
    },
    Facts {
        number: 9,
        name: "rmdir",
        line: b" rmdir\n         ",
        standard: Some(Keywords::CPATH),
        openbsd: Keywords::CPATH,
        other: None,
        perms: Letters::CREATE,
        last: Last::Kept,
        ending: Ending::Dropped,
        fits: Fits::REMOVABLE,
        effect: Effect::Removes,
        turns: false,
    },
    Facts {
        number: 10,
        name: "unlink",
        line: b" unlink\n        ",
        standard: Some(Keywords::CPATH),
        openbsd: Keywords::CPATH,
        other: None,
        perms: Letters::CREATE,
        last: Last::Kept,
        ending: Ending::Dot,
        fits: Fits::UNLINKABLE,
        effect: Effect::Removes,
        turns: false,
    },
    Facts {
        number: 11,
        name: "symlink",
        line: b" symlink\n       ",
        standard: Some(Keywords::CPATH),
        openbsd: Keywords::CPATH,
        other: None,
        perms: Letters::CREATE,
        last: Last::Kept,
        ending: Ending::Dot,
        fits: Fits::FREE,
        effect: Effect::Makes(Kind::Link),
        turns: false,
    },
    Facts {
        number: 12,
        name: "chmod",
        line: b" chmod\n         ",
        standard: Some(Keywords::FATTR),
        openbsd: Keywords::READ_MODES,
        other: None,
        perms: Letters::WRITE,
        last: Last::Followed,
        ending: Ending::Dot,
        fits: Fits::STANDING,
        effect: Effect::Looks,
        turns: true,
    },
    Facts {
        number: 13,
        name: "chdir",
        line: b" chdir\n         ",
        standard: Some(Keywords::RPATH),
        openbsd: Keywords::RPATH,
        other: None,
        perms: Letters::READ,
        last: Last::Followed,
        ending: Ending::Dot,
        fits: Fits::DIRECTORIES,
        effect: Effect::Enters,
        turns: false,
    },
    Facts {
        number: 14,
        name: "exec",
        line: b" exec\n          ",
        standard: Some(Keywords::EXEC),
        openbsd: Keywords::EXEC,
        other: None,
        perms: Letters::EXEC,
        last: Last::Followed,
        ending: Ending::Dot,
        fits: Fits::PROGRAMS,
        effect: Effect::Starts,
        turns: false,
    },
    Facts {
        number: 15,
        name: "connect",
        line: b" connect\n       ",
        standard: None,
        openbsd: Keywords::UNIX,
        other: None,
        perms: Letters::WRITE,
        last: Last::Followed,
        ending: Ending::Dot,
        fits: Fits::SOCKETS,
        effect: Effect::Looks,
        turns: false,
    },
    Facts {
        number: 16,
        name: "bind",
        line: b" bind\n          ",
        standard: None,
        openbsd: Keywords::UNIX,
        other: None,
        perms: Letters::CREATE,
        last: Last::Kept,
        ending: Ending::Dot,
        fits: Fits::BINDABLE,
        effect: Effect::Makes(Kind::Known(FileType::Sock)),
        turns: false,
    },
    Facts {
        number: 17,
        name: "mknod",
        line: b" mknod\n         ",
        standard: None,
        openbsd: Keywords::DPATH,
        other: None,
        perms: Letters::CREATE,
        last: Last::Kept,
        ending: Ending::Dot,
        fits: Fits::FREE,
        effect: Effect::Makes(Kind::Known(FileType::Fifo)),
        turns: false,
    },
    Facts {
        number: 18,
        name: "chown",
        line: b" chown\n         ",
        standard: None,
        openbsd: Keywords::READ_OWNERS,
        other: Some(Keywords::READ_MODES),
        perms: Letters::WRITE,
        last: Last::Followed,
        ending: Ending::Dot,
        fits: Fits::STANDING,
        effect: Effect::Looks,
        turns: false,
    },
    Facts {
        number: 19,
        name: "create-rw",
        line: b" create-rw\n     ",
        standard: None,
        openbsd: Keywords::READ_WRITE_CREATE,
        other: None,
        perms: Letters::READ_WRITE_CREATE,
        last: Last::Followed,
        ending: Ending::Dot,
        fits: Fits::CREATABLE,
        effect: Effect::Makes(Kind::File),
        turns: true,
    },
    Facts {
        number: 20,
        name: "fchmod",
        line: b" fchmod\n        ",
        standard: None,
        openbsd: Keywords::READ_MODES,
        other: None,
        perms: Letters::READ,
        last: Last::Followed,
        ending: Ending::Dot,
        fits: Fits::OPENABLE,
        effect: Effect::Looks,
        turns: true,
    },
    Facts {
        number: 21,
        name: "fchown",
        line: b" fchown\n        ",
        standard: None,
        openbsd: Keywords::READ_OWNERS,
        other: Some(Keywords::READ_MODES),
        perms: Letters::READ,
        last: Last::Followed,
        ending: Ending::Dot,
        fits: Fits::OPENABLE,
        effect: Effect::Looks,
        turns: false,
    },
];

/// A word, and the call as which it is read, since it asks for what that asks.
#[derive(Clone, Copy)]
pub(crate) struct Neighbour {
    pub(crate) name: &'static str,
    pub(crate) call: Call,
}

/// The words of a request that name calls of a kernel beside those with a number.
pub(crate) static NEIGHBOURS: [Neighbour; 6] = [
    Neighbour {
        name: "access",
        call: Call::Stat,
    },
    Neighbour {
        name: "statfs",
        call: Call::Stat,
    },
    Neighbour {
        name: "truncate",
        call: Call::OpenWrite,
    },
    Neighbour {
        name: "chflags",
        call: Call::Chmod,
    },
    Neighbour {
        name: "utimes",
        call: Call::Chmod,
    },
    Neighbour {
        name: "mkfifo",
        call: Call::Mknod,
    },
];

/// What is said of all calls, in the order of their numbers.
fn all_facts() -> &'static [Facts]
    ensures about { map seen_facts result.now ≡ map about calls }
    ensures line { map (λ row. take (length row.name.now + 2) row.line.now) result.now
        ≡ map (λ call. 32 ∷ call_name call ++ 10 ∷ []) calls }
    ensures width { map (λ row. length row.line.now) result.now ≡ map (λ _. MOST_CALL_LINE) calls }
{
    FACTS.as_slice()
}

impl Call {
    ghost use Rattle.std.specs.Prelude.{◌≡◌, ◌≤◌, ◌<◌, ◌^◌, ◌+◌, [], ◌∷◌, ◌++◌, length, take, option_map, Some};
    ghost use Rattle.pua_calls.specs.Calls.{about, effect_of, listed};
    ghost use Rattle.pua_calls.specs.Calls.{call_number, call_name, call_of_name, call_named};
    ghost use Rattle.pua_calls.specs.Calls.{call_named_by, is_known, last_of, table_by_rules};

    /// How many calls there are.
    pub const COUNT: usize = 21;

    /// Every call, in the order of their numbers.
    pub const ALL: [Call; Call::COUNT] = [
        Call::Stat,
        Call::Lstat,
        Call::Readlink,
        Call::OpenRead,
        Call::OpenWrite,
        Call::OpenBoth,
        Call::Create,
        Call::Mkdir,
        Call::Rmdir,
        Call::Unlink,
        Call::Symlink,
        Call::Chmod,
        Call::Chdir,
        Call::Exec,
        Call::Connect,
        Call::Bind,
        Call::Mknod,
        Call::Chown,
        Call::CreateBoth,
        Call::Fchmod,
        Call::Fchown,
    ];

    /// Its number, from 1 to `COUNT`.
    pub fn number(self) -> u8
        ensures { result ≡ call_number self }
    {
        self as u8 + 1
    }

    /// What is said of it.
    fn facts(self) -> &'static Facts
        ensures name { result.now.name.now ≡ (about self).name }
        ensures line { take (length (about self).name + 2) result.now.line.now
            ≡ 32 ∷ (about self).name ++ 10 ∷ [] }
        ensures width { length result.now.line.now ≡ MOST_CALL_LINE }
        ensures short { length (about self).name + 2 ≤ MOST_CALL_LINE }
        ensures standard { (about self).standard
            ≡ listed (option_map (λ set. set.0) result.now.standard) }
        ensures openbsd { (about self).openbsd
            ≡ result.now.openbsd.0 ∷ listed (option_map (λ set. set.0) result.now.other) }
        ensures perms { result.now.perms.0 ≡ (about self).perms }
        ensures standard_below { (set : Keywords) → result.now.standard ≡ Some set →
            set.0 < 2 ^ 36 }
        ensures openbsd_below { result.now.openbsd.0 < 2 ^ 36 }
        ensures other_below { (set : Keywords) → result.now.other ≡ Some set → set.0 < 2 ^ 36 }
        ensures perms_below { result.now.perms.0 < 16 }
        ensures last { result.now.last ≡ (about self).last }
        ensures ending { result.now.ending ≡ (about self).ending }
        ensures fits { result.now.fits ≡ (about self).fits }
        ensures effect { result.now.effect ≡ (about self).effect }
        ensures turns { result.now.turns ≡ (about self).turns }
    {
        let rows = all_facts();
        &rows[self.number() as usize - 1]
    }

    /// Its name in scripts and in what is printed.
    pub fn name(self) -> &'static str
        ensures { result.now ≡ call_name self }
    {
        self.facts().name
    }

    /// The promises that it needs by the standard table, if that has it.
    pub(crate) fn standard(self) -> Option<Promises>
        ensures { (about self).standard ≡ listed result }
    {
        let set = self.facts().standard?;
        Some(Promises::of(set))
    }

    /// Those that it needs by OpenBSD's rules, and those by which it is allowed there too, if there
    /// are such.
    pub(crate) fn openbsd(self) -> (Promises, Option<Promises>)
        ensures { (about self).openbsd ≡ result.0 ∷ listed result.1 }
    {
        let facts = self.facts();
        let other = match facts.other {
            Some(set) => Some(Promises::of(set)),
            None => None,
        };
        (Promises::of(facts.openbsd), other)
    }

    /// The permissions that it needs.
    pub(crate) fn perms(self) -> Perms
        ensures { result ≡ (about self).perms }
    {
        Perms::of(self.facts().perms)
    }

    /// What a slash at the end of its path means.
    pub(crate) fn ending(self) -> Ending
        ensures { result ≡ (about self).ending }
    {
        self.facts().ending
    }

    /// Whether the last part of its path is followed if it is a link (this profile).
    pub fn last(self) -> Last
        ensures { result ≡ last_of self }
    {
        self.facts().last
    }

    /// A blank, its name and LF, with blanks after them: `MOST_CALL_LINE` bytes.
    pub fn line(self) -> &'static [u8]
        ensures line { take (length (call_name self) + 2) result.now
            ≡ 32 ∷ call_name self ++ 10 ∷ [] }
        ensures width { length result.now ≡ MOST_CALL_LINE }
        ensures short { length (call_name self) + 2 ≤ MOST_CALL_LINE }
    {
        self.facts().line
    }

    /// What is wrong with each kind of object for it (which kind a call is on: this profile).
    pub fn fits(self) -> Fits
        ensures { result ≡ (about self).fits }
    {
        self.facts().fits
    }

    /// What it does where it is allowed.
    pub fn effect(self) -> Effect
        ensures { result ≡ effect_of self }
    {
        self.facts().effect
    }

    /// Whether a file can come to be a program by it: a kernel starts what was written, once its
    /// mode lets it.
    pub fn turns(self) -> bool
        ensures { result ≡ (about self).turns }
    {
        self.facts().turns
    }

    /// The call of this name that there is by rules, if there is one: this project's own have the
    /// first fourteen, OpenBSD's have all.
    pub fn read_by(rules: Rules, word: &[u8]) -> Option<Call>
        ensures { result ≡ call_named_by rules word.now }
    {
        let call = Call::of_name(word)?;
        call.is_by(rules).then_some(call)
    }

    /// Whether there is this call by rules: whether their table has a set of promises for it.
    pub(crate) fn is_by(self, rules: Rules) -> bool
        ensures { result ≡ is_known (table_by_rules rules) self }
    {
        match rules {
            Rules::Standard => self.facts().standard.is_some(),
            Rules::Openbsd => true,
        }
    }

    /// The call of this name that there is by this project's own rules, if there is one.
    pub fn read(word: &[u8]) -> Option<Call>
        ensures { result ≡ call_named word.now }
    {
        Call::read_by(Rules::Standard, word)
    }

    /// The call of this name, if there is one by any rules. A name that a call has is found at once;
    /// only any other word is compared with all names.
    pub(crate) fn of_name(word: &[u8]) -> Option<Call>
        ensures { result ≡ call_of_name word.now }
    {
        if let Some(call) = likely(word) {
            if call.name().as_bytes() == word {
                return Some(call);
            }
        }
        Call::ALL
            .iter()
            .find(|call| call.name().as_bytes() == word)
            .copied()
    }
}

/// The only call of the standard rules whose name may be this word, by some of its bytes. Nothing is
/// promised of it, so that its name is to be compared.
fn likely(word: &[u8]) -> Option<Call> {
    match word {
        [b's', b't', ..] => Some(Call::Stat),
        [b'l', ..] => Some(Call::Lstat),
        [b'r', b'e', ..] => Some(Call::Readlink),
        [b'r', ..] => Some(Call::Rmdir),
        [b'o', _, _, _, _, b'r'] => Some(Call::OpenRead),
        [b'o', _, _, _, _, b'w'] => Some(Call::OpenWrite),
        [b'o', ..] => Some(Call::OpenBoth),
        [b'c', b'r', ..] => Some(Call::Create),
        [b'c', _, b'm', ..] => Some(Call::Chmod),
        [b'c', ..] => Some(Call::Chdir),
        [b'm', ..] => Some(Call::Mkdir),
        [b'u', ..] => Some(Call::Unlink),
        [b'e', ..] => Some(Call::Exec),
        _ => None,
    }
}
