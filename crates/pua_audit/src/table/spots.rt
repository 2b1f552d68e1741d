//! The letters that directories tell apart from names that they lack.

ghost use Rattle.std.specs.Prelude.{◌≡◌, ◌≢◌, ◌<◌, ◌≤◌, ◌==◌, ℕ, List, [], length, get_or, map, IfOk};
ghost use Rattle.std.specs.List.{AllByRecursion, list_any};
ghost use Rattle.std.specs.List.Sorted.{IsNonDecreasingBy};
ghost use Rattle.pua_tree.specs.LentRows.{lent_entry};
ghost use Rattle.pua_policy.specs.declared.place.Place.TheVariants.{Slot};
ghost use Rattle.std.proofs.Props.{props};
ghost use Rattle.pua_audit.specs.Spots.{AreApartFrom, AreAtLetters, AreLetterSpots, AreLettersIn};
ghost use Rattle.pua_audit.specs.Spots.{AreUnveiled, IsApart, IsNamed, IsNowhere, IsUnmarked};

use crate::table::placed::Places;
use crate::terms::Terms;
use pua_policy::Place;
use pua_tree::{LentRow, Name, NodeId, OutOfMemory};
use std::alloc::Global;

/// A letter in a directory: something stands at this name, or a veil is kept at it.
#[derive(Clone, Copy)]
pub(crate) struct LetterSpot {
    pub(crate) dir: NodeId,
    pub(crate) letter: usize,
}

/// The letters that directories tell apart from names that they lack, of what was asked of an
/// audit.
#[derive(Drop)]
pub(crate) struct Spots<'l> {
    pub(crate) terms: &'l Terms,
    /// The letters that are no names, which each directory tells apart.
    pub(crate) dots: Vec<usize>,
    /// Those that are names, in the order of the directories that tell them apart.
    pub(crate) names: Vec<LetterSpot>,
    /// The directories in which a veil is kept at a name.
    pub(crate) veiled: Vec<NodeId>,
    pub(crate) ghost told: { AreLetterSpots terms.now.seen.tree terms.now.process
        terms.now.letters dots.items names.items } by { Prim.hlevel props },
    pub(crate) ghost unveiled: { (dir : ℕ) → IsApart dir veiled.items →
        AreUnveiled terms.now.process dir },
}

impl Terms {
    /// The letters that are no names, and the spots of all rows and of all veils at names. A veil's
    /// name that is no letter has none. The only error is that a growth was refused.
    pub(crate) fn spots(
        &self,
        alloc: Global,
        rows: &[LentRow<'_>],
    ) -> Result<Spots<'_>, OutOfMemory>
        requires rows { map lent_entry rows.now ≡ self.now.seen.tree.rows }
        ensures { IfOk result (λ spots. spots.terms.now ≡ self.now) }
    {
        let letters = Places::of(alloc, &self.letters)?;
        let places = self.process.places(alloc)?;
        let places = places.as_slice();
        let mut names = Vec::new(alloc);
        letters.add_rows(&mut names, rows)?;
        letters.add_veils(&mut names, places)?;
        names.sort_unstable_by_key(|spot| spot.dir);
        let dots = self.dots(alloc)?;
        let veiled = veiled_dirs(alloc, places)?;
        Ok(Spots {
            terms: self,
            dots,
            names,
            veiled,
        })
    }

    /// The letters that are no names. The only error is that a growth was refused.
    fn dots(&self, alloc: Global) -> Result<Vec<usize>, OutOfMemory>
        ensures within { IfOk result
            (λ dots. AllByRecursion (λ place. place < length self.now.letters) dots.items) }
        ensures others { IfOk result (λ dots. (letter : ℕ) →
            letter < length self.now.letters → IsApart letter dots.items →
            IsNamed (get_or self.now.letters letter [])) }
    {
        let letters = self.letters.as_slice();
        let mut dots = Vec::new(alloc);
        for place in 0..letters.len() {
            if letters[place].is_name() {
                continue;
            }
            dots.push(place)?;
        }
        Ok(dots)
    }
}

impl Places<'_> {
    /// Puts the spots of rows after others.
    fn add_rows(&self, spots: &mut Vec<LetterSpot>, rows: &[LentRow<'_>]) -> Result<(), OutOfMemory>
        ensures within { IfOk result (λ _. AreAtLetters self.now spots.old.items →
            AreAtLetters self.now spots.new.items) }
        ensures rows { IfOk result (λ _. (dir letter : ℕ) → letter < length self.now →
            IsUnmarked dir letter spots.new.items →
            IsNowhere dir (get_or self.now letter []) (map lent_entry rows.now)) }
        ensures others { IfOk result (λ _. (dir letter : ℕ) →
            IsUnmarked dir letter spots.new.items → IsUnmarked dir letter spots.old.items) }
    {
        for row in rows {
            self.add_spot(spots, row.dir, row.name)?;
        }
        Ok(())
    }

    /// Puts the spots of veils at names after others.
    fn add_veils(&self, spots: &mut Vec<LetterSpot>, places: &[&Place]) -> Result<(), OutOfMemory>
        ensures within { IfOk result (λ _. AreAtLetters self.now spots.old.items →
            AreAtLetters self.now spots.new.items) }
        ensures places { IfOk result (λ _. (dir letter : ℕ) →
            letter < length self.now → IsUnmarked dir letter spots.new.items →
            AreApartFrom (Slot dir (get_or self.now letter []))
            (map (λ place. place.now) places.now)) }
        ensures others { IfOk result (λ _. (dir letter : ℕ) →
            IsUnmarked dir letter spots.new.items → IsUnmarked dir letter spots.old.items) }
    {
        for place in places {
            self.add_veil(spots, *place)?;
        }
        Ok(())
    }

    /// Puts the spot of a veil after others, if it is at a name that is a letter.
    fn add_veil(&self, spots: &mut Vec<LetterSpot>, place: &Place) -> Result<(), OutOfMemory>
        ensures within { IfOk result (λ _. AreAtLetters self.now spots.old.items →
            AreAtLetters self.now spots.new.items) }
        ensures here { IfOk result (λ _. (dir letter : ℕ) → letter < length self.now →
            IsUnmarked dir letter spots.new.items →
            place.now ≢ Slot dir (get_or self.now letter [])) }
        ensures others { IfOk result (λ _. (other letter : ℕ) →
            IsUnmarked other letter spots.new.items → IsUnmarked other letter spots.old.items) }
    {
        let Place::Slot(dir, name) = place else {
            return Ok(());
        };
        self.add_spot(spots, *dir, name)
    }

    /// Puts the spot of a name in a directory after others, if it is a letter. The letter after
    /// that of the last spot is tried first: it is that of the next row, where a directory has them
    /// all.
    fn add_spot(
        &self,
        spots: &mut Vec<LetterSpot>,
        dir: NodeId,
        name: &Name,
    ) -> Result<(), OutOfMemory>
        ensures within { IfOk result (λ _. AreAtLetters self.now spots.old.items →
            AreAtLetters self.now spots.new.items) }
        ensures here { IfOk result (λ _. (letter : ℕ) → letter < length self.now →
            IsUnmarked dir letter spots.new.items →
            get_or self.now letter [] ≢ name.now) }
        ensures others { IfOk result (λ _. (other letter : ℕ) →
            IsUnmarked other letter spots.new.items → IsUnmarked other letter spots.old.items) }
    {
        let next = match spots.last() {
            Some(spot) => spot.letter.saturating_add(1),
            None => 0,
        };
        let Some(letter) = self.place_of(next, name.bytes()) else {
            return Ok(());
        };
        spots.push(LetterSpot { dir, letter })?;
        Ok(())
    }
}

impl Spots<'_> {
    /// Whether a veil is kept at a name in a directory.
    pub(crate) fn has_veil_in(&self, dir: NodeId) -> bool
        ensures { result ≡ list_any (λ other. other == dir) self.now.veiled.items }
    {
        self.veiled.contains(&dir)
    }

    /// The letters that a directory tells apart from names that it lacks, in their order, each
    /// once. The only error is that a growth was refused.
    pub(crate) fn letters_in(&self, alloc: Global, dir: NodeId) -> Result<Vec<usize>, OutOfMemory>
        ensures { IfOk result (λ letters. AreLettersIn dir self.now.dots.items self.now.names.items
            letters.items) }
    {
        let mut letters = letters_at(alloc, spots_in(self.names.as_slice(), dir))?;
        letters.extend_from_slice(self.dots.as_slice())?;
        letters.sort_unstable();
        letters.dedup();
        Ok(letters)
    }
}

/// The spots in a directory, among spots in the order of their directories.
fn spots_in(spots: &[LetterSpot], dir: NodeId) -> &[LetterSpot]
    ensures within { (count : ℕ) → AllByRecursion (λ spot. spot.letter < count) spots.now →
        AllByRecursion (λ spot. spot.letter < count) result.now }
    ensures all { IsNonDecreasingBy (λ spot. spot.dir) spots.now → (letter : ℕ) →
        AllByRecursion (λ spot. spot.letter ≢ letter) result.now → IsUnmarked dir letter spots.now }
{
    let first = spots.partition_point(|spot| spot.dir < dir);
    let rest = &spots[first..];
    &rest[..run_in(rest, dir)]
}

/// How many spots at the front are in no later directory than this.
fn run_in(spots: &[LetterSpot], dir: NodeId) -> usize
    ensures within { result ≤ length spots.now }
    ensures past { (d : LetterSpot) → result < length spots.now →
        dir < (get_or spots.now result d).dir }
{
    let mut count = 0;
    while count < spots.len() && spots[count].dir <= dir {
        count += 1;
    }
    count
}

/// The letters of spots. The only error is that a growth was refused.
fn letters_at(alloc: Global, spots: &[LetterSpot]) -> Result<Vec<usize>, OutOfMemory>
    ensures { IfOk result (λ letters. letters.items ≡ map (λ spot. spot.letter) spots.now) }
{
    let mut letters = Vec::new(alloc);
    for spot in spots {
        letters.push(spot.letter)?;
    }
    Ok(letters)
}

/// The directories in whose names places are. The only error is that a growth was refused.
fn veiled_dirs(alloc: Global, places: &[&Place]) -> Result<Vec<NodeId>, OutOfMemory>
    ensures { IfOk result (λ dirs. (dir : ℕ) (name : List ℕ) → IsApart dir dirs.items →
        AreApartFrom (Slot dir name) (map (λ place. place.now) places.now)) }
{
    let mut dirs = Vec::new(alloc);
    for place in places {
        add_veiled(&mut dirs, *place)?;
    }
    Ok(dirs)
}

/// Puts the directory of a place after others, if the place is a name there.
fn add_veiled(dirs: &mut Vec<NodeId>, place: &Place) -> Result<(), OutOfMemory>
    ensures here { IfOk result (λ _. (dir : ℕ) (name : List ℕ) → IsApart dir dirs.new.items →
        place.now ≢ Slot dir name) }
    ensures others { IfOk result (λ _. (dir : ℕ) → IsApart dir dirs.new.items →
        IsApart dir dirs.old.items) }
{
    let Place::Slot(dir, _) = place else {
        return Ok(());
    };
    dirs.push(*dir)?;
    Ok(())
}
