//! The least that steps lead to, in a table of words with a bit for each fact.

ghost use Rattle.std.specs.Prelude.{◌≡◌, ℕ, ◌<◌, ◌≤◌, ◌+◌, ◌*◌, get_or, length, true, false, IfOk};
ghost use Rattle.pua_jointly.specs.Closing.{AreReached, IsClosed, IsClosedAt, room};

use pua_tree::OutOfMemory;
use std::alloc::{AllocError, Global};

/// What follows from the facts of a table, word by word.
pub(crate) trait Steps {
    ghost use Rattle.std.specs.Prelude.{ℕ, List, ◌≡◌, ◌<◌, ◌≤◌, ◌+◌, ◌*◌, get_or};
    ghost use Rattle.std.specs.Int.Bits.{bit_or};
    ghost use Rattle.pua_jointly.specs.Closing.{Reached, has_bit};

    /// That a fact of a word follows from the facts of a table.
    ghost follows: { Self → List ℕ → ℕ → ℕ → Type 0 };

    /// How many words a row has.
    ghost columns: { Self → ℕ };

    /// How many words a row has.
    fn columns(&self) -> usize
        ensures { result ≡ columns self.now };

    /// How many of the first words of a row can ever have a fact: no fact leads to one of the others.
    fn width(&self, row: usize) -> usize
        ensures { (column : ℕ) → result ≤ column → column < columns self.now → (count bit : ℕ) →
            Reached (follows self.now) count (row * columns self.now + column) bit → ⊥ };

    /// Some facts of a word that follow from the others that it has.
    fn at_once(&self, told: &[u32], at: usize) -> u32
        ensures { (bit : ℕ) → has_bit result bit → follows self.now told.now at bit };

    /// The facts of a word that follow, but for some that it has.
    fn next(&self, told: &[u32], at: usize) -> u32
        ensures only { (bit : ℕ) → has_bit result bit → follows self.now told.now at bit }
        ensures all { (bit : ℕ) → follows self.now told.now at bit →
            has_bit (bit_or (get_or told.now at 0) result) bit };
}

/// The least table of so many rows from which nothing more follows. Before all rows are gone over
/// until nothing is added, those up to an end are gone over, then twice those of them from a first
/// one, and then the others: what comes before leads to what comes after. The only error is that a
/// growth was refused, or that the table would have more words than can be numbered.
pub(crate) fn close<S: Steps>(
    alloc: Global,
    steps: &S,
    rows: usize,
    first: usize,
    end: usize,
) -> Result<Vec<u32>, OutOfMemory>
    ensures full { IfOk result (λ told. length told.items ≡ rows * S.columns steps.now) }
    ensures closed { IfOk result (λ told. IsClosed (S.follows steps.now) told.items) }
    ensures reached { IfOk result (λ told. AreReached (S.follows steps.now) told.items) }
{
    let Some(count) = rows.checked_mul(steps.columns()) else {
        return Err(OutOfMemory);
    };
    let Ok(mut told) = no_facts(alloc, count) else {
        return Err(OutOfMemory);
    };
    add_some(steps, &mut told, 0, end);
    add_some(steps, &mut told, first, end);
    add_some(steps, &mut told, first, end);
    add_some(steps, &mut told, end, rows);
    while add_all(steps, &mut told, rows) {}
    Ok(told)
}

/// So many words without a fact. The only error is that a growth was refused.
fn no_facts(alloc: Global, count: usize) -> Result<Vec<u32>, AllocError>
    ensures full { IfOk result (λ told. length told.items ≡ count) }
    ensures none { IfOk result (λ told. (at : ℕ) → get_or told.items at 0 ≡ 0) }
{
    vec![in alloc; 0; count]
}

/// Adds to the words of the rows from a first one to an end what follows.
fn add_some<S: Steps>(steps: &S, told: &mut Vec<u32>, first: usize, end: usize)
    ensures full { length told.new.items ≡ length told.old.items }
    ensures reached { AreReached (S.follows steps.now) told.old.items →
        AreReached (S.follows steps.now) told.new.items }
{
    for row in first..end {
        add_row(steps, told, row);
    }
}

/// Adds to each word what follows, of a table with so many rows; answers whether that was anything.
fn add_all<S: Steps>(steps: &S, told: &mut Vec<u32>, rows: usize) -> bool
    ensures full { length told.new.items ≡ length told.old.items }
    ensures reached { AreReached (S.follows steps.now) told.old.items →
        AreReached (S.follows steps.now) told.new.items }
    ensures closed { AreReached (S.follows steps.now) told.old.items →
        length told.old.items ≡ rows * S.columns steps.now → result ≡ false →
        IsClosed (S.follows steps.now) told.new.items }
    ensures fewer { result ≡ true → room told.new.items < room told.old.items }
{
    let mut is_changed = false;
    for row in 0..rows {
        if add_row(steps, told, row) {
            is_changed = true;
        }
    }
    is_changed
}

/// Adds to each word of a row what follows; answers whether that was anything.
fn add_row<S: Steps>(steps: &S, told: &mut Vec<u32>, row: usize) -> bool
    ensures full { length told.new.items ≡ length told.old.items }
    ensures reached { AreReached (S.follows steps.now) told.old.items →
        AreReached (S.follows steps.now) told.new.items }
    ensures same { result ≡ false → told.new.items ≡ told.old.items }
    ensures closed { AreReached (S.follows steps.now) told.old.items → result ≡ false →
        (column : ℕ) → column < S.columns steps.now →
        row * S.columns steps.now + column < length told.new.items →
        IsClosedAt (S.follows steps.now) told.new.items (row * S.columns steps.now + column) }
    ensures fewer { result ≡ true → room told.new.items < room told.old.items }
{
    let first = row.saturating_mul(steps.columns());
    let mut is_changed = false;
    for column in 0..steps.width(row) {
        if add_word(steps, told, first.saturating_add(column)) {
            is_changed = true;
        }
    }
    is_changed
}

/// Adds to a word what follows, if the table has it; answers whether that was anything.
fn add_word<S: Steps>(steps: &S, told: &mut Vec<u32>, at: usize) -> bool
    ensures full { length told.new.items ≡ length told.old.items }
    ensures reached { AreReached (S.follows steps.now) told.old.items →
        AreReached (S.follows steps.now) told.new.items }
    ensures same { result ≡ false → told.new.items ≡ told.old.items }
    ensures closed { result ≡ false → at < length told.new.items →
        IsClosedAt (S.follows steps.now) told.new.items at }
    ensures fewer { result ≡ true → room told.new.items < room told.old.items }
{
    if at >= told.len() {
        return false;
    }
    let word = told[at] | steps.next(told, at);
    if word == told[at] {
        return false;
    }
    told[at] = word;
    add_at_once(steps, told, at);
    true
}

/// Adds to a word what follows from its own facts, if the table has it.
fn add_at_once<S: Steps>(steps: &S, told: &mut Vec<u32>, at: usize)
    ensures full { length told.new.items ≡ length told.old.items }
    ensures reached { AreReached (S.follows steps.now) told.old.items →
        AreReached (S.follows steps.now) told.new.items }
    ensures no_more { room told.new.items ≤ room told.old.items }
{
    if at >= told.len() {
        return;
    }
    let word = told[at] | steps.at_once(told, at);
    told[at] = word;
}
