//! Whose rules are asked, and what an exec leaves of execpromises by them.

use pua_tree::{FileType, Kind};

/// Whose rules a command goes by: what calls need, and what an exec leaves of execpromises.
#[derive(Clone, Copy, PartialEq, Eq)]
pub enum Rules {
    /// The standard rules, this project's own profile, which are the default everywhere.
    Standard,
    /// OpenBSD's kernel, as its manual pages and its sources are known. No kernel was tried.
    Openbsd,
}

/// What is said of a set of rules, beside the table of what calls need.
#[derive(Clone, Copy)]
struct AboutRules {
    word: &'static str,
    file: Kind,
    execpromises: ExecPromises,
    is_told: bool,
    has_openings: bool,
}

ghost use Rattle.std.specs.Prelude.{◌≡◌, option_map};
ghost use Rattle.pua_calls.specs.Calls.{about_rules, execpromises_by, file_by_rules, rules_named};

impl Rules {
    /// All rules that a command can name.
    pub const ALL: [Rules; 2] = [Rules::Standard, Rules::Openbsd];

    /// What is said of these rules. Their table is `CallTable::of`.
    fn about(self) -> AboutRules
        ensures word { result.word.now ≡ (about_rules self).word }
        ensures file { result.file ≡ (about_rules self).file }
        ensures left { result.execpromises ≡ (about_rules self).execpromises }
        ensures told { result.is_told ≡ (about_rules self).is_told }
        ensures openings { result.has_openings ≡ (about_rules self).has_openings }
    {
        match self {
            Rules::Standard => AboutRules {
                word: "profile",
                file: Kind::File,
                execpromises: ExecPromises::Unset,
                is_told: false,
                has_openings: false,
            },
            Rules::Openbsd => AboutRules {
                word: "openbsd",
                file: Kind::Known(FileType::Plain),
                execpromises: ExecPromises::Stay,
                is_told: true,
                has_openings: true,
            },
        }
    }

    /// The word that names these rules in commands.
    pub fn word(self) -> &'static str
        ensures { result.now ≡ (about_rules self).word }
    {
        self.about().word
    }

    /// The kind of a file that a call makes: by OpenBSD's rules it is known to be a plain one
    /// (open(2)).
    pub fn file(self) -> Kind
        ensures { result ≡ file_by_rules self }
    {
        self.about().file
    }

    /// What an exec leaves of execpromises that were given.
    pub fn execpromises(self) -> ExecPromises
        ensures { result ≡ execpromises_by self }
    {
        self.about().execpromises
    }

    /// Whether lists say whose rules they are.
    pub fn is_told(self) -> bool
        ensures { result ≡ (about_rules self).is_told }
    {
        self.about().is_told
    }

    /// Whether promises open paths by themselves.
    pub fn has_openings(self) -> bool
        ensures { result ≡ (about_rules self).has_openings }
    {
        self.about().has_openings
    }

    /// The rules of this word, which are the standard ones where there is no word, and where it
    /// names none.
    pub fn named(word: Option<&str>) -> Rules
        ensures { result ≡ rules_named (option_map (λ s. s.now) word.entry) }
    {
        let Some(word) = word else {
            return Rules::Standard;
        };
        Rules::ALL
            .iter()
            .find(|rules| rules.word().as_bytes() == word.as_bytes())
            .copied()
            .unwrap_or(Rules::Standard)
    }
}

/// What an exec leaves of execpromises that were given: they become the promises of the program
/// either way. Where none were given, none are left.
#[derive(Clone, Copy, PartialEq, Eq)]
pub enum ExecPromises {
    /// They are unset, so that the program's own exec drops everything (this profile).
    Unset,
    /// They stay, for the program's own exec too (OpenBSD).
    Stay,
}
