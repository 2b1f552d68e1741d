//! The columns of veils, after the lines of what they cover.

ghost use Rattle.std.specs.Prelude.{◌≡◌, ◌++◌, ◌∷◌, [], ℕ, Option, None, IfOk, OnOk, decimal, map};
ghost use Rattle.std.specs.Prelude.{slice_index_or, string_bytes, unwrap_or};
ghost use Rattle.pua_why.specs.Texts.{letters_text, place_text};
ghost use Rattle.pua_texts.specs.VeilDates.{veil_dates};
ghost use Rattle.pua_texts.specs.WhyLists.{AreColumnsOf, veil_behind, veils_behind};
ghost use Rattle.pua_texts.specs.WhyLines.{ServedScript, world_left};

use crate::endings::Endings;
use pua_calls::Perms;
use pua_policy::{Place, Process};
use pua_tree::{FileTree, OutOfMemory};
use pua_why::{TreePaths, letters, push_place};
use std::alloc::{AllocError, Global};
use std::fmt::Write;

/// The columns of the veils that a process keeps, in their order, which are so since these lines.
/// The only error is that a growth was refused.
pub(crate) fn veil_columns<T: FileTree>(
    alloc: Global,
    tree: &T,
    process: &Process,
    lines: &[Option<usize>],
) -> Result<Endings, OutOfMemory>
    ensures { IfOk result (λ columns. (p : ServedScript) (number : ℕ) →
        T.content tree.now ≡ (world_left p).tree →
        lines.now ≡ veil_dates p number process.now.veils →
        AreColumnsOf p number process.now.veils columns) }
{
    let veils = process.veils(alloc)?;
    let mut paths = TreePaths::new(alloc, tree)?;
    let texts = veil_texts(alloc, &mut paths, veils.as_slice(), lines)?;
    Ok(Endings::of_veils(alloc, texts))
}

/// The columns of these veils, in their order, which are so since these lines.
fn veil_texts<T: FileTree>(
    alloc: Global,
    paths: &mut TreePaths<'_, T>,
    veils: &[(&Place, &Perms)],
    lines: &[Option<usize>],
) -> Result<Vec<String>, OutOfMemory>
    ensures { IfOk result (λ texts. (p : ServedScript) (number : ℕ) →
        paths.old.tree ≡ (world_left p).tree →
        lines.now ≡ veil_dates p number (map (λ veil. (veil.0.now, veil.1.now)) veils.now) →
        map string_bytes texts.items
        ≡ veils_behind p number (map (λ veil. (veil.0.now, veil.1.now)) veils.now)) }
{
    let mut texts = Vec::new(alloc);
    for veil in veils {
        let (place, perms) = *veil;
        let line = line_at(lines, texts.len());
        let Ok(text) = veil_text(alloc, paths, place, *perms, line) else {
            return Err(OutOfMemory);
        };
        let Ok(()) = texts.push(text) else {
            return Err(OutOfMemory);
        };
    }
    Ok(texts)
}

/// The line at an index; None after the last.
fn line_at(lines: &[Option<usize>], index: usize) -> Option<usize>
    ensures { result ≡ slice_index_or lines.now index None }
{
    if index < lines.len() {
        return lines[index];
    }
    None
}

/// A blank, where a veil is, its letters, since which line it has them, and LF.
fn veil_text<T: FileTree>(
    alloc: Global,
    paths: &mut TreePaths<'_, T>,
    place: &Place,
    perms: Perms,
    line: Option<usize>,
) -> Result<String, AllocError>
    ensures text { IfOk result (λ text.
        string_bytes text ≡ veil_behind paths.old.tree place.now perms line) }
    ensures tree { paths.new.tree ≡ paths.old.tree }
{
    let mut text = String::from_str(alloc, " ")?;
    push_place(&mut text, paths, place)?;
    push_letters(&mut text, perms, line)?;
    Ok(text)
}

/// Adds the letters of a veil, since which line it has them, and LF to a text.
fn push_letters(text: &mut String, perms: Perms, line: Option<usize>) -> Result<(), AllocError>
    ensures { OnOk result (string_bytes text.new ≡ string_bytes text.old ++ 32 ∷ letters_text perms
        ++ 32 ∷ decimal (unwrap_or line 0) ++ 10 ∷ []) }
{
    let letters = letters(perms);
    let line = line.unwrap_or(0);
    writeln!(text, " {letters} {line}")
}
