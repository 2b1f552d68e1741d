//! The alphabet of an audit: its letters in the order of their bytes.

use crate::component::Component;
use pua_tree::{LentRow, Name, OutOfMemory};
use std::alloc::{AllocError, Global};
use std::collections::BTreeSet;
use std::marker::Model;

/// The letters of an audit, each a name or `..`, in the order of their bytes. Contracts see the
/// bytes of each.
#[derive(Drop)]
pub(crate) struct Alphabet {
    letters: Vec<Component>,
}

impl Model for Alphabet {
    ghost use Rattle.std.specs.Prelude.{ℕ, List, IsTrue};
    ghost use Rattle.std.specs.List.{AllByRecursion};
    ghost use Rattle.pua_tree.specs.Tree.{name_cmp};
    ghost use Rattle.pua_audit.specs.Judge.{is_letter};
    ghost use Rattle.pua_audit.specs.Laws.{Rises};

    ghost Value = { List (List ℕ) };

    ghost view = { λ a. a.letters.items };

    ghost invariant = { λ a. Rises name_cmp a.letters.items ×
        AllByRecursion (λ letter. IsTrue (is_letter letter)) a.letters.items };
}

ghost use Rattle.std.specs.Prelude.{◌≡◌, ◌<◌, ◌≤◌, [], IfOk, IsTrue, true, get_or, length, map};
ghost use Rattle.std.specs.List.{AllByRecursion, list_all};
ghost use Rattle.pua_tree.specs.LentRows.{lent_entry};
ghost use Rattle.pua_tree.specs.Limits.{most_name};
ghost use Rattle.pua_tree.specs.Tree.{Tree, name_cmp, with_name, distinct_names};
ghost use Rattle.pua_audit.specs.Reach.{alphabet_of};
ghost use Rattle.pua_audit.specs.Begin.{longest};
ghost use Rattle.pua_audit.specs.Judge.{is_letter};
ghost use Rattle.pua_audit.specs.Laws.{Rises};
ghost use Rattle.pua_audit.specs.Alphabets.{with_names, IsPlaced};

/// The names of rows: each once, in the order of their bytes.
fn row_names<'t>(alloc: Global, rows: &[LentRow<'t>]) -> Result<Vec<&'t Name>, AllocError>
    ensures { IfOk result (λ names. map (λ name. name.now) names.items
        ≡ distinct_names (map (λ row. (lent_entry row).0.1) rows.now)) }
{
    let names = name_set(alloc, rows)?;
    names.into_iter().collect(alloc)
}

fn name_set<'t>(alloc: Global, rows: &[LentRow<'t>]) -> Result<BTreeSet<&'t Name>, AllocError>
    ensures { IfOk result (λ names. map (λ name. name.now) names.keys
        ≡ distinct_names (map (λ row. (lent_entry row).0.1) rows.now)) }
{
    let mut names = BTreeSet::new(alloc);
    for row in rows.iter().rev() {
        names.insert(row.name)?;
    }
    Ok(names)
}

/// Names as letters.
fn named(alloc: Global, names: &[&Name]) -> Result<Vec<Component>, OutOfMemory>
    ensures names { IfOk result (λ letters. letters.items ≡ map (λ name. name.now) names.now) }
    ensures known { IfOk result (λ letters.
        AllByRecursion (λ letter. IsTrue (is_letter letter)) letters.items) }
{
    let mut letters = Vec::with_capacity(alloc, names.len())?;
    for name in names {
        letters.push(Component::named(alloc, *name)?)?;
    }
    Ok(letters)
}

impl Alphabet {
    /// The names in a tree's rows, `..` and the candidates: distinct, in the order of their bytes.
    /// The only error is that a growth was refused.
    pub(crate) fn of(
        alloc: Global,
        rows: &[LentRow<'_>],
        candidates: &[Name],
    ) -> Result<Alphabet, OutOfMemory>
        ensures { IfOk result (λ letters. (t : Tree) → map lent_entry rows.now ≡ t.rows →
            letters ≡ alphabet_of t candidates.now) }
    {
        let names = row_names(alloc, rows)?;
        let letters = named(alloc, names.as_slice())?;
        let mut alphabet = Alphabet { letters };
        alphabet.add_names(alloc, candidates)?;
        alphabet.add(Component::dots(alloc)?)?;
        Ok(alphabet)
    }

    /// Puts each name at its place, the last one first.
    fn add_names(&mut self, alloc: Global, names: &[Name]) -> Result<(), OutOfMemory>
        ensures { IfOk result (λ _. self.new ≡ with_names names.now self.old) }
    {
        for name in names.iter().rev() {
            self.add(Component::named(alloc, name)?)?;
        }
        Ok(())
    }

    /// Puts a letter at its place, unless it is there.
    fn add(&mut self, letter: Component) -> Result<(), OutOfMemory>
        ensures { IfOk result (λ _. self.new ≡ with_name letter self.old) }
    {
        let Err(place) = self.place_of(letter.bytes()) else {
            return Ok(());
        };
        self.letters.insert(place, letter)?;
        Ok(())
    }

    /// Where a letter of these bytes stands, or else where it would stand.
    pub(crate) fn place_of(&self, bytes: &[u8]) -> Result<usize, usize>
        ensures { IsPlaced self.now bytes.now result }
    {
        let letters = self.as_slice();
        letters.binary_search_by(|letter| letter.bytes().cmp(bytes))
    }

    /// Whether a letter of these bytes stands at a place.
    pub(crate) fn is_at(&self, place: usize, bytes: &[u8]) -> bool
        ensures within { result ≡ true → place < length self.now }
        ensures here { result ≡ true → get_or self.now place [] ≡ bytes.now }
        ensures rises { Rises name_cmp self.now }
    {
        let letters = self.as_slice();
        place < letters.len() && letters[place].bytes() == bytes
    }

    /// The letters, which rise by their bytes.
    pub(crate) fn as_slice(&self) -> &[Component]
        ensures letters { result.now ≡ self.now }
        ensures rises { Rises name_cmp self.now }
    {
        self.letters.as_slice()
    }

    /// Does nothing: its contract says that each letter is a name or `..`, and that they rise by
    /// their bytes.
    pub(crate) fn known(&self)
        ensures letters { IsTrue (list_all is_letter self.now) }
        ensures rises { Rises name_cmp self.now }
    {
        // The prover knows the invariant of a value that is read.
        let _ = &self.letters;
    }

    /// How many letters there are.
    pub(crate) fn len(&self) -> usize
        ensures { result ≡ length self.now }
    {
        self.letters.len()
    }
}

/// The bytes of the longest letter.
pub(crate) fn longest(letters: &[Component]) -> usize
    ensures longest { result ≡ longest letters.now }
    ensures short { result ≤ most_name }
{
    let mut most = 0;
    for letter in letters {
        most = letter.bytes().len().max(most);
    }
    most
}
