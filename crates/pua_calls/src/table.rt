//! The table of calls: what each of them needs, as a value.

mod pair;
mod read;

use crate::call::Call;
use crate::perms::Perms;
use crate::promises::Promises;
use crate::rules::{ExecPromises, Rules};
pub use pair::{NameNeed, PairNeed};
pub use read::TableFault;
use std::marker::Model;

/// A text names at most so many sets of promises of which a call needs one (this profile).
pub const MOST_ALTERNATIVES: usize = 8;

/// A row has room for one more, which `with_tmppath` adds.
const MOST_KEPT: usize = 9;

/// What one call needs: one of these sets of promises, and each of these permissions. After the
/// sets stand empty ones. Contracts see the sets as a list.
#[derive(Clone, Copy)]
struct RuleRow {
    sets: [Promises; MOST_KEPT],
    count: u8,
    perms: Perms,
}

impl Model for RuleRow {
    ghost use Rattle.std.specs.Prelude.{◌≡◌, ◌≤◌, length, take};
    ghost use Rattle.pua_calls.specs.Calls.{Rule};
    ghost use Rattle.pua_calls.specs.Tables.{HasRoom, most_kept, padded_sets};

    ghost Value = { Rule };

    ghost view = { λ a. record { alternatives = take a.count a.sets; perms = a.perms } };

    ghost invariant = { λ a. (padded_sets (take a.count a.sets) ≡ a.sets)
        × (length (take a.count a.sets) ≡ a.count) × (a.count ≤ most_kept)
        × HasRoom (take a.count a.sets) };

    ghost inverse = { λ r. record {
      sets = padded_sets r.alternatives;
      count = length r.alternatives;
      perms = r.perms;
    } };

    ghost inverse_ok = { λ a h i. record { sets = h.0 i; count = h.1 i; perms = a.perms } };
}

/// What each of the calls needs, what rename and link need, which have two paths, and whose rules
/// answer what no call's row says. A call that has no set of promises is never allowed. It is kept
/// inline, so that a copy takes no memory. Contracts see a list of rules, in the order of the calls'
/// numbers, those of rename and link, and whose rules the table is read over. No alternative names `error`: a
/// process can gain that promise, and no other.
#[derive(Clone, Copy)]
pub struct CallTable {
    rows: [RuleRow; Call::COUNT],
    rename: PairNeed,
    link: PairNeed,
    whose: Rules,
}

impl Model for CallTable {
    ghost use Rattle.pua_calls.specs.Calls.{CallTable as Table};
    ghost use Rattle.pua_calls.specs.Tables.{IsCallTable};

    ghost Value = { Table };

    ghost view = { λ a. record
        { rules = a.rows; rename = a.rename; link = a.link; whose = a.whose } };

    ghost invariant = { λ a. IsCallTable (record {
      rules = a.rows;
      rename = a.rename;
      link = a.link;
      whose = a.whose;
    }) };

    ghost inverse = { λ t. record {
      rows = t.rules;
      rename = t.rename;
      link = t.link;
      whose = t.whose;
    } };
}

ghost use Rattle.std.specs.Prelude.{◌≡◌, ◌<◌, [], ◌∷◌, ◌++◌, length};
ghost use Rattle.pua_calls.specs.Calls.{standard_rule, standard_table, openbsd_rule, openbsd_table};
ghost use Rattle.pua_calls.specs.Calls.{call_count, call_in, execpromises_by, table_by_rules};
ghost use Rattle.pua_calls.specs.Calls.{rule_of};
ghost use Rattle.pua_calls.specs.Tables.{NeedsNoError, NoCallNeedsError, most_alternatives};
ghost use Rattle.pua_calls.specs.TableTexts.{with_rule};
ghost use Rattle.pua_calls.specs.TmpTable.{rule_with_tmppath, tmp_table, tmppath_suffices};
ghost use Rattle.pua_calls.specs.Promises.{tmppath};

impl RuleRow {
    /// A row without alternatives, and without permissions.
    const NONE: RuleRow = RuleRow {
        sets: [Promises::NONE; MOST_KEPT],
        count: 0,
        perms: Perms::NONE,
    };

    /// Adds a set to the alternatives, after the others.
    fn add(&mut self, set: Promises)
        requires { length self.old.alternatives < most_alternatives }
        ensures { self.new ≡ record self.old { alternatives = self.old.alternatives ++ set ∷ [] } }
    {
        self.sets[self.count as usize] = set;
        self.count += 1;
    }

    /// A row with one alternative.
    fn one(promises: Promises, perms: Perms) -> RuleRow
        ensures { result ≡ record { alternatives = promises ∷ []; perms = perms } }
    {
        let mut sets = [Promises::NONE; MOST_KEPT];
        sets[0] = promises;
        RuleRow {
            sets,
            count: 1,
            perms,
        }
    }

    /// The sets of promises of which one is needed.
    fn alternatives(&self) -> &[Promises]
        ensures { result.now ≡ self.now.alternatives }
    {
        &self.sets[..self.count as usize]
    }

    /// Whether who holds tmppath alone holds one of the sets.
    fn tmppath_suffices(&self) -> bool
        ensures { result ≡ tmppath_suffices self.now.alternatives }
    {
        self.alternatives()
            .iter()
            .any(|set| Promises::TMPPATH.contains(*set))
    }

    /// The same row for who holds tmppath too.
    fn with_tmppath(self) -> RuleRow
        ensures { result ≡ rule_with_tmppath self }
    {
        let mut row = self;
        if !row.tmppath_suffices() {
            row.sets[row.count as usize] = Promises::TMPPATH;
            row.count += 1;
        }
        row
    }

    /// What a call needs by this project's own table.
    fn standard(call: Call) -> RuleRow
        ensures { result ≡ standard_rule call }
    {
        match call.standard() {
            Some(promises) => RuleRow::one(promises, call.perms()),
            None => RuleRow {
                perms: call.perms(),
                ..RuleRow::NONE
            },
        }
    }

    /// What a call needs by OpenBSD's rules.
    fn openbsd(call: Call) -> RuleRow
        ensures { result ≡ openbsd_rule call }
    {
        let (promises, other) = call.openbsd();
        let mut row = RuleRow::one(promises, call.perms());
        if let Some(other) = other {
            row.add(other);
        }
        row
    }
}

impl CallTable {
    /// This project's own table: each of the first fourteen calls needs what `needs::need` answers,
    /// the others are never allowed, both names of rename and of link need cpath and `c`, of a link
    /// itself, and an exec unsets execpromises (this profile).
    pub fn standard() -> CallTable
        ensures { result ≡ standard_table }
    {
        CallTable {
            rows: Call::ALL.map(RuleRow::standard),
            rename: PairNeed::standard(),
            link: PairNeed::standard(),
            whose: Rules::Standard,
        }
    }

    /// The rules of OpenBSD's kernel, as its manual pages and its sources are known; no kernel was
    /// tried. They are the standard ones but for these. chmod needs rpath beside fattr. connect
    /// needs unix and `w`, bind unix and `c`, mknod dpath and `c`; chown needs `w`, and rpath with
    /// chown or with fattr. The old name of rename needs rpath and cpath, `r` and `c`; that of link
    /// rpath and `r` alone, of what a link leads to. Execpromises stay after an exec.
    pub fn openbsd() -> CallTable
        ensures { result ≡ openbsd_table }
    {
        CallTable {
            rows: Call::ALL.map(RuleRow::openbsd),
            rename: PairNeed::openbsd_rename(),
            link: PairNeed::openbsd_link(),
            whose: Rules::Openbsd,
        }
    }

    /// The table of these rules.
    pub fn of(rules: Rules) -> CallTable
        ensures { result ≡ table_by_rules rules }
    {
        match rules {
            Rules::Standard => CallTable::standard(),
            Rules::Openbsd => CallTable::openbsd(),
        }
    }

    /// The table by which lists for ever go: the same, but that where promises open paths by
    /// themselves, who holds tmppath may make the calls that it opens, whatever their path.
    pub fn with_tmppath(&self) -> CallTable
        ensures { result ≡ tmp_table self.now }
    {
        let mut table = *self;
        if self.whose.has_openings() {
            table.add_tmppath(Call::Create);
            table.add_tmppath(Call::Unlink);
            table.add_tmppath(Call::CreateBoth);
        }
        table
    }

    /// Adds tmppath to the sets of a call.
    fn add_tmppath(&mut self, call: Call)
        ensures { self.new ≡ with_rule self.old call (rule_with_tmppath (rule_of self.old call)) }
    {
        let row = self.rows[call.number() as usize - 1];
        self.set(call, row.with_tmppath());
    }

    /// Puts a row in the place of a call's.
    fn set(&mut self, call: Call, row: RuleRow)
        requires { NeedsNoError row }
        ensures { self.new ≡ with_rule self.old call row }
    {
        self.rows[call.number() as usize - 1] = row;
    }

    /// The call of this name, if the table has a set of promises for it.
    pub fn call_named(&self, word: &[u8]) -> Option<Call>
        ensures { result ≡ call_in self.now word.now }
    {
        let call = Call::of_name(word)?;
        (!self.alternatives(call).is_empty()).then_some(call)
    }

    /// The sets of promises of which a call needs one, each promise in it. At most 9.
    pub fn alternatives(&self, call: Call) -> &[Promises]
        ensures { result.now ≡ (rule_of self.now call).alternatives }
    {
        self.rows[call.number() as usize - 1].alternatives()
    }

    /// The permissions that a call needs, each of them.
    pub fn perms(&self, call: Call) -> Perms
        ensures { result ≡ (rule_of self.now call).perms }
    {
        let row = &self.rows[call.number() as usize - 1];
        row.perms
    }

    /// What rename needs of its old name and of its new one.
    pub fn rename(&self) -> &PairNeed
        ensures { result.now ≡ self.now.rename }
    {
        &self.rename
    }

    /// What link needs of its old name and of its new one.
    pub fn link(&self) -> &PairNeed
        ensures { result.now ≡ self.now.link }
    {
        &self.link
    }

    /// Whose rules answer what no call's row says, as which fault a request has.
    pub fn rules(&self) -> Rules
        ensures { result ≡ self.now.whose }
    {
        self.whose
    }

    /// What an exec leaves of execpromises that were given.
    pub fn execpromises(&self) -> ExecPromises
        ensures { result ≡ execpromises_by self.now.whose }
    {
        self.whose.execpromises()
    }

    /// Does nothing. A caller learns from it what is true of each table.
    pub fn known(&self)
        ensures each { length self.now.rules ≡ call_count }
        ensures no_error { NoCallNeedsError self.now }
    {
        // The prover knows the invariant of a value that is read.
        let _rows = &self.rows;
    }
}
