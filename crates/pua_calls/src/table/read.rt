//! A table of calls, read from a TOML text.

ghost use Rattle.std.specs.Prelude.{◌≡◌, ◌≢◌, ◌≤◌, ℕ, length, option_map};
ghost use Rattle.std.specs.Prelude.{Ok, Err, Some, None, IfOk, IfErr, IfSome, IsTrue};
ghost use Rattle.toml.specs.Data.{get_member};
ghost use Rattle.toml.specs.Errors.{IsBlank};
ghost use Rattle.toml.specs.View.{view, items_view, table_view};
ghost use Rattle.pua_calls.specs.Promises.{promises_of};
ghost use Rattle.pua_calls.specs.Calls.{Rule, standard_table};
ghost use Rattle.pua_calls.specs.Tables.{HasPairsOf, NamesNoError, NeedsNoError, most_alternatives};
ghost use Rattle.pua_calls.specs.TableTexts.{alternative_of, alternatives_of, are_alternatives};
ghost use Rattle.pua_calls.specs.TableTexts.{are_texts, document_of, keys_ascend, row_of, rule_in};
ghost use Rattle.pua_calls.specs.TableTexts.{rules_with, table_of, table_over, values_of};
ghost use Rattle.pua_calls.specs.FaultTexts.{table_told};

use crate::call::Call;
use crate::perms::Perms;
use crate::promises::Promises;
use crate::table::{CallTable, MOST_ALTERNATIVES, RuleRow};
use std::alloc::Global;
use std::fmt;
use toml::{Table, Value};

/// Why a text gives no table of calls.
#[derive(Clone, Copy, Debug, PartialEq, Eq)]
pub enum TableFault {
    /// The text is no TOML document, or not UTF-8.
    BadToml,
    /// A key of the document is not the name of a call that the table has over which it is read.
    BadKey,
    /// The value of this call is not a table with exactly the keys `promises`, an array of 1 to 8
    /// texts, and `veil`, a text.
    BadRow(Call),
    /// A text of this call's promises is no list of keywords, or names `error`.
    BadPromises(Call),
    /// The veil of this call is no list of permissions.
    BadVeil(Call),
    /// A growth of memory was refused.
    OutOfMemory,
}

impl TableFault {
    /// The call that is to blame, if one is, and what is wrong.
    pub fn told(&self) -> (Option<Call>, &'static str)
        ensures call { result.0 ≡ (table_told self.now).0 }
        ensures wrong { result.1.now ≡ (table_told self.now).1 }
    {
        match self {
            TableFault::BadToml => (None, "bad toml"),
            TableFault::BadKey => (None, "bad key"),
            TableFault::BadRow(call) => (Some(*call), "bad row"),
            TableFault::BadPromises(call) => (Some(*call), "bad promises"),
            TableFault::BadVeil(call) => (Some(*call), "bad veil"),
            TableFault::OutOfMemory => (None, "out of memory"),
        }
    }
}

impl fmt::Display for TableFault {
    fn fmt<W: fmt::Write>(&self, f: &mut fmt::Formatter<W>) -> fmt::Result {
        match self.told() {
            (Some(call), wrong) => write!(f, "{}: {wrong}", call.name()),
            (None, wrong) => f.write_str(wrong),
        }
    }
}

impl std::error::Error for TableFault {}

impl CallTable {
    /// The table that a TOML text gives. Each key of the document is the name of a call, and its
    /// value a table with the keys `promises`, an array of 1 to 8 texts, and `veil`, a text: the
    /// call needs all keywords of one of these texts, and the permissions of the veil. A text may
    /// be empty. Calls that the text does not name need what they need by the standard table, and
    /// so do rename and link, which no text can name. The format is this program's own.
    ///
    /// `BadToml` where the text is no document; else the fault of the first key by the bytes of the
    /// keys, in the order `BadKey`, `BadRow`, `BadPromises`, `BadVeil`. `OutOfMemory` where a
    /// growth was refused, which happens to no text of white space and comments alone.
    pub fn read(alloc: Global, text: &[u8]) -> Result<CallTable, TableFault>
        ensures read { IfOk result (λ table. table_of text.now ≡ Ok table) }
        ensures pairs { IfOk result (HasPairsOf standard_table) }
        ensures refused { IfErr result (λ fault.
            fault ≢ TableFault.OutOfMemory → table_of text.now ≡ Err fault) }
        ensures in_order { result ≢ Err TableFault.OutOfMemory →
            IfSome (document_of text.now) (λ members. IsTrue (keys_ascend members)) }
        ensures memory { result ≡ Err TableFault.OutOfMemory → ¬ IsBlank text.now }
    {
        CallTable::standard().read_over(alloc, text)
    }

    /// The table that a TOML text gives over this one: what `read` answers, but that the keys are
    /// names of calls that this table has; calls which the text does not name, rename and link need
    /// what they need by this table, and whose rules answer the rest stays.
    pub fn read_over(&self, alloc: Global, text: &[u8]) -> Result<CallTable, TableFault>
        ensures read { IfOk result (λ table. table_over self.now text.now ≡ Ok table) }
        ensures pairs { IfOk result (HasPairsOf self.now) }
        ensures refused { IfErr result (λ fault.
            fault ≢ TableFault.OutOfMemory → table_over self.now text.now ≡ Err fault) }
        ensures in_order { result ≢ Err TableFault.OutOfMemory →
            IfSome (document_of text.now) (λ members. IsTrue (keys_ascend members)) }
        ensures memory { result ≡ Err TableFault.OutOfMemory → ¬ IsBlank text.now }
    {
        let document = document(alloc, text)?;
        with_rows(*self, &document)
    }
}

/// The document that a text is. The only other fault is `OutOfMemory`.
fn document(alloc: Global, text: &[u8]) -> Result<Table, TableFault>
    ensures read { IfOk result (λ table. document_of text.now ≡ Some (table_view table)) }
    ensures refused { IfErr result (λ fault. fault ≢ TableFault.OutOfMemory →
        fault ≡ TableFault.BadToml) }
    ensures bad { result ≡ Err TableFault.BadToml → document_of text.now ≡ None }
    ensures memory { result ≡ Err TableFault.OutOfMemory → ¬ IsBlank text.now }
{
    match toml::table_from_slice(alloc, text) {
        Ok(table) => Ok(table),
        Err(error) if error.is_memory() => Err(TableFault::OutOfMemory),
        Err(_) => Err(TableFault::BadToml),
    }
}

/// A table with the rows of a document, in the order of its keys, or the first fault.
fn with_rows(base: CallTable, document: &Table) -> Result<CallTable, TableFault>
    ensures exact { result ≡ rules_with base (table_view document.now) }
    ensures pairs { IfOk result (HasPairsOf base) }
    ensures in_order { IsTrue (keys_ascend (table_view document.now)) }
    ensures no_memory { result ≢ Err TableFault.OutOfMemory }
{
    let mut table = base;
    for (key, value) in document {
        let Some(call) = table.call_named(key.as_bytes()) else {
            return Err(TableFault::BadKey);
        };
        table.set(call, row(call, value)?);
    }
    Ok(table)
}

/// The row that a value gives a call, or its first fault.
fn row(call: Call, value: &Value) -> Result<RuleRow, TableFault>
    ensures exact { result ≡ rule_in call (view value.now) }
    ensures no_error { IfOk result NeedsNoError }
    ensures no_memory { result ≢ Err TableFault.OutOfMemory }
{
    let Some((items, veil)) = parts(value) else {
        return Err(TableFault::BadRow(call));
    };
    let row = alternatives(call, items)?;
    match Perms::read(veil.as_bytes()) {
        Ok(perms) => Ok(RuleRow { perms, ..row }),
        Err(_) => Err(TableFault::BadVeil(call)),
    }
}

/// The texts of the promises and the text of the veil, where the value is a row.
fn parts(value: &Value) -> Option<(&[Value], &str)>
    ensures exact { option_map (λ p. (items_view p.0.now, p.1.now)) result
        ≡ row_of (view value.now) }
    ensures few { IfSome result (λ p. length p.0.now ≤ most_alternatives) }
{
    let (promises, veil) = values(value.as_table()?)?;
    let items = promises.as_array()?.as_slice();
    let veil = veil.as_str()?;
    are_alternatives(items).then_some((items, veil))
}

/// The values of `promises` and of `veil`, where these are the keys of a table.
#[tactic(auto, using(crate::proofs::TableTexts::member_count_of))]
fn values(table: &Table) -> Option<(&Value, &Value)>
    ensures { option_map (λ p. (view p.0.now, view p.1.now)) result
        ≡ values_of (table_view table.now) }
{
    if table.len() != 2 {
        return None;
    }
    Some((at_key(table, "promises")?, at_key(table, "veil")?))
}

/// The value at a key of a table.
fn at_key<'a>(table: &'a Table, key: &str) -> Option<&'a Value>
    ensures { option_map (λ value. view value.now) result
        ≡ get_member key.now (table_view table.now) }
{
    table.get(key)
}

/// Whether the items are 1 to 8 texts.
#[tactic(auto, using(crate::proofs::TableTexts::count_of))]
fn are_alternatives(items: &[Value]) -> bool
    ensures exact { result ≡ are_alternatives (items_view items.now) }
    ensures few { IsTrue result → length items.now ≤ most_alternatives }
{
    !items.is_empty() && items.len() <= MOST_ALTERNATIVES && are_texts(items)
}

/// Whether each item is a text.
fn are_texts(items: &[Value]) -> bool
    ensures { result ≡ are_texts (items_view items.now) }
{
    for item in items {
        if !item.is_str() {
            return false;
        }
    }
    true
}

/// A row without permissions, of which each item is an alternative, or the first fault.
fn alternatives(call: Call, items: &[Value]) -> Result<RuleRow, TableFault>
    requires { length items.now ≤ most_alternatives }
    ensures sets { IfOk result (λ row. alternatives_of call (items_view items.now)
        ≡ Ok row.alternatives) }
    ensures refused { IfErr result (λ fault. alternatives_of call (items_view items.now)
        ≡ Err fault) }
    ensures no_error { IfOk result NeedsNoError }
    ensures no_memory { result ≢ Err TableFault.OutOfMemory }
{
    let mut row = RuleRow::NONE;
    for item in items {
        let Some(text) = item.as_str() else {
            return Err(TableFault::BadRow(call));
        };
        row.add(alternative(call, text)?);
    }
    Ok(row)
}

/// The set of promises that a text names, unless it names `error`.
fn alternative(call: Call, text: &str) -> Result<Promises, TableFault>
    ensures exact { result ≡ alternative_of call (promises_of text.now) }
    ensures no_error { IfOk result NamesNoError }
    ensures no_memory { result ≢ Err TableFault.OutOfMemory }
{
    match Promises::read(text.as_bytes()) {
        Ok(set) if !set.contains(Promises::ERROR) => Ok(set),
        _ => Err(TableFault::BadPromises(call)),
    }
}
