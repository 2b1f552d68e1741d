//! What rename and link need of the names that their two paths have.

use crate::perms::Perms;
use crate::promises::Promises;
use crate::table::RuleRow;
use pua_path::Last;
use std::marker::Model;

/// What a request with two paths needs of what one of them names: one of these sets of promises,
/// and each of these permissions; and whether the path's last part is followed if it is a link.
#[derive(Clone, Copy)]
pub struct NameNeed {
    row: RuleRow,
    last: Last,
}

impl Model for NameNeed {
    ghost use Rattle.pua_calls.specs.Calls.{NameRule};

    ghost Value = { NameRule };

    ghost view = { λ a. record { needs = a.row; last = a.last } };

    ghost inverse = { λ name. record { row = name.needs; last = name.last } };
}

/// What such a request needs of its old name and of its new one.
#[derive(Clone, Copy)]
pub struct PairNeed {
    old_name: NameNeed,
    new_name: NameNeed,
}

impl Model for PairNeed {
    ghost use Rattle.pua_calls.specs.Calls.{PairRule};

    ghost Value = { PairRule };

    ghost view = { λ a. record { old = a.old_name; new = a.new_name } };

    ghost inverse = { λ pair. record { old_name = pair.old; new_name = pair.new } };
}

ghost use Rattle.std.specs.Prelude.{◌≡◌};
ghost use Rattle.pua_calls.specs.Calls.{standard_name, standard_pair, openbsd_rename, openbsd_link};

impl NameNeed {
    /// What a name needs that is made or taken away, by this project's own table.
    fn standard() -> NameNeed
        ensures { result ≡ standard_name }
    {
        NameNeed {
            row: RuleRow::one(Promises::CPATH, Perms::CREATE),
            last: Last::Kept,
        }
    }

    /// The sets of promises of which the name needs one, each promise in it. At most 8.
    pub fn alternatives(&self) -> &[Promises]
        ensures { result.now ≡ self.now.needs.alternatives }
    {
        self.row.alternatives()
    }

    /// The permissions that the name needs, each of them.
    pub fn perms(&self) -> Perms
        ensures { result ≡ self.now.needs.perms }
    {
        self.row.perms
    }

    /// Whether the last part of the path is followed if it is a link.
    pub fn last(&self) -> Last
        ensures { result ≡ self.now.last }
    {
        self.last
    }
}

impl PairNeed {
    /// What both names need by this project's own table.
    pub(super) fn standard() -> PairNeed
        ensures { result ≡ standard_pair }
    {
        PairNeed {
            old_name: NameNeed::standard(),
            new_name: NameNeed::standard(),
        }
    }

    /// What rename needs by OpenBSD's rules: its old name is read too.
    pub(super) fn openbsd_rename() -> PairNeed
        ensures { result ≡ openbsd_rename }
    {
        PairNeed {
            old_name: NameNeed {
                row: RuleRow::one(
                    Promises::RPATH.union(Promises::CPATH),
                    Perms::READ.union(Perms::CREATE),
                ),
                last: Last::Kept,
            },
            new_name: NameNeed::standard(),
        }
    }

    /// What link needs by OpenBSD's rules: its old name is read alone, and followed if it is a
    /// link.
    pub(super) fn openbsd_link() -> PairNeed
        ensures { result ≡ openbsd_link }
    {
        PairNeed {
            old_name: NameNeed {
                row: RuleRow::one(Promises::RPATH, Perms::READ),
                last: Last::Followed,
            },
            new_name: NameNeed::standard(),
        }
    }

    /// What the old name needs.
    pub fn old_name(&self) -> &NameNeed
        ensures { result.now ≡ self.now.old }
    {
        &self.old_name
    }

    /// What the new name needs.
    pub fn new_name(&self) -> &NameNeed
        ensures { result.now ≡ self.now.new }
    {
        &self.new_name
    }
}
