//! The lines of what a process has open, one for each name that it has now.

ghost use Rattle.std.specs.Prelude.{◌≡◌, ◌++◌, IfOk, OnOk, flat_map, map, string_bytes};
ghost use Rattle.pua_objects.specs.Objects.{with_commas};
ghost use Rattle.pua_tree.specs.LentRows.{lent_entry};
ghost use Rattle.pua_why.specs.Texts.{dir_text};
ghost use Rattle.pua_texts.specs.FileLines.{file_lines, files_lines, has_name, holds_stdio};
ghost use Rattle.pua_texts.specs.FileLines.{line_of, lines_at, named_line, uses_of, uses_text};
ghost use Rattle.pua_texts.specs.FileLines.{with_use};

use pua_calls::{Perms, Promises};
use pua_policy::{OpenFile, Process};
use pua_tree::{FileTree, Kind, LentRow, NodeId, OutOfMemory};
use pua_why::TreePaths;
use std::alloc::{AllocError, Global};
use std::fmt::Write;

/// A descriptor, as its lines have it.
#[derive(Clone, Copy)]
pub(crate) struct Held<'u> {
    /// Its number.
    number: u32,
    /// What it stands for.
    node: NodeId,
    /// The kind of that.
    kind: Kind,
    /// What may be done with it.
    uses: &'u str,
}

/// Adds the lines of what a process has open, if it lives. The only error is that a growth was
/// refused.
pub(crate) fn push_files<T: FileTree>(
    alloc: Global,
    text: &mut String,
    tree: &T,
    process: &Process,
) -> Result<(), OutOfMemory>
    ensures { OnOk result (string_bytes text.new
        ≡ string_bytes text.old ++ files_lines (T.content tree.now) process.now) }
{
    if process.ended() {
        return Ok(());
    }
    let files = process.files(alloc)?;
    if files.is_empty() {
        return Ok(());
    }
    push_all(alloc, text, tree, process.held(), files.as_slice())
}

/// Adds the lines of these descriptors by the promises that are held.
fn push_all<T: FileTree>(
    alloc: Global,
    text: &mut String,
    tree: &T,
    promises: Promises,
    files: &[(&u32, &OpenFile)],
) -> Result<(), OutOfMemory>
    ensures { OnOk result (string_bytes text.new ≡ string_bytes text.old
        ++ flat_map (file_lines (T.content tree.now) promises)
        (map (λ held. (held.0.now, held.1.now)) files.now)) }
{
    let rows = tree.rows(alloc)?;
    let mut paths = TreePaths::new(alloc, tree)?;
    for held in files {
        let (number, file) = *held;
        let uses = uses_text(alloc, promises, file)?;
        let held = Held {
            number: *number,
            node: file.node,
            kind: file.kind,
            uses: uses.as_str(),
        };
        push_lines(alloc, text, tree, rows.as_slice(), &mut paths, &held)?;
    }
    Ok(())
}

/// Adds the lines of a descriptor, by the rows and the paths of the tree.
fn push_lines<T: FileTree>(
    alloc: Global,
    text: &mut String,
    tree: &T,
    rows: &[LentRow<'_>],
    paths: &mut TreePaths<'_, T>,
    held: &Held<'_>,
) -> Result<(), AllocError>
    ensures text { map lent_entry rows.now ≡ (T.content tree.now).rows →
        paths.old.tree ≡ T.content tree.now → OnOk result (string_bytes text.new
        ≡ string_bytes text.old ++ lines_at (line_of held.now) (T.content tree.now) held.now.node) }
    ensures tree { paths.new.tree ≡ paths.old.tree }
{
    if tree.kind(held.node) == Some(Kind::Dir) {
        return push_dir(alloc, text, paths, held);
    }
    if !has_name(rows, held.node) {
        return push_line(text, held, "-");
    }
    push_names(alloc, text, rows, paths, held)
}

/// Adds the line of a descriptor that stands for a directory of the tree.
fn push_dir<T: FileTree>(
    alloc: Global,
    text: &mut String,
    paths: &mut TreePaths<'_, T>,
    held: &Held<'_>,
) -> Result<(), AllocError>
    ensures text { OnOk result (string_bytes text.new ≡ string_bytes text.old
        ++ line_of held.now (dir_text paths.old.tree held.now.node)) }
    ensures tree { paths.new.tree ≡ paths.old.tree }
{
    let mut path = String::new(alloc);
    paths.push_dir(&mut path, held.node)?;
    push_line(text, held, path.as_str())
}

/// Whether one of these rows is of this node.
fn has_name(rows: &[LentRow<'_>], node: NodeId) -> bool
    ensures { result ≡ has_name (map lent_entry rows.now) node }
{
    rows.iter().any(|row| row.node == node)
}

/// Adds a line of a descriptor for each of these rows that is of what it stands for.
fn push_names<T: FileTree>(
    alloc: Global,
    text: &mut String,
    rows: &[LentRow<'_>],
    paths: &mut TreePaths<'_, T>,
    held: &Held<'_>,
) -> Result<(), AllocError>
    ensures text { OnOk result (string_bytes text.new ≡ string_bytes text.old
        ++ flat_map (named_line (line_of held.now) paths.old.tree held.now.node)
        (map lent_entry rows.now)) }
    ensures tree { paths.new.tree ≡ paths.old.tree }
{
    for row in rows {
        push_named(alloc, text, paths, held, row)?;
    }
    Ok(())
}

/// Adds the line of a row, if it is of what a descriptor stands for.
fn push_named<T: FileTree>(
    alloc: Global,
    text: &mut String,
    paths: &mut TreePaths<'_, T>,
    held: &Held<'_>,
    row: &LentRow<'_>,
) -> Result<(), AllocError>
    ensures text { OnOk result (string_bytes text.new ≡ string_bytes text.old
        ++ named_line (line_of held.now) paths.old.tree held.now.node (lent_entry row.now)) }
    ensures tree { paths.new.tree ≡ paths.old.tree }
{
    if row.node != held.node {
        return Ok(());
    }
    let mut path = String::new(alloc);
    paths.push_spot(&mut path, row.dir, row.name)?;
    push_line(text, held, path.as_str())
}

/// Adds the line of a descriptor with a path.
fn push_line(text: &mut String, held: &Held<'_>, path: &str) -> Result<(), AllocError>
    ensures { OnOk result
        (string_bytes text.new ≡ string_bytes text.old ++ line_of held.now path.now) }
{
    let (number, kind, uses) = (held.number, held.kind.word(), held.uses);
    writeln!(text, "held {number} {kind} {path} {uses}")
}

/// What may be done with an open file by these promises: words with commas between them, or `=`.
fn uses_text(alloc: Global, promises: Promises, file: &OpenFile) -> Result<String, AllocError>
    ensures { IfOk result (λ text. string_bytes text ≡ uses_text promises file.now) }
{
    let text = all_uses(alloc, promises, file)?;
    if text.is_empty() {
        return String::from_str(alloc, "=");
    }
    Ok(text)
}

/// What may be done with an open file by these promises: words with commas between them.
fn all_uses(alloc: Global, promises: Promises, file: &OpenFile) -> Result<String, AllocError>
    ensures { IfOk result (λ text. string_bytes text ≡ with_commas (uses_of promises file.now)) }
{
    let stdio = holds_stdio(promises);
    let fattr = promises.contains(Promises::FATTR);
    let mut text = String::new(alloc);
    push_use(
        &mut text,
        stdio && file.letters.contains(Perms::READ),
        "read",
    )?;
    push_use(
        &mut text,
        stdio && file.letters.contains(Perms::WRITE),
        "write",
    )?;
    push_use(&mut text, stdio && file.is_directory(), "chdir")?;
    push_use(&mut text, fattr, "chmod")?;
    push_use(
        &mut text,
        promises.contains(Promises::CHOWN) || fattr,
        "chown",
    )?;
    Ok(text)
}

/// Adds a word if it is so, with a comma before it unless it is the first.
fn push_use(text: &mut String, is: bool, word: &str) -> Result<(), AllocError>
    ensures { OnOk result
        (string_bytes text.new ≡ with_use (string_bytes text.old) is word.now) }
{
    if !is {
        return Ok(());
    }
    if !text.is_empty() {
        text.push_str(",")?;
    }
    text.push_str(word)
}

/// Whether the promise `stdio` is among these, which lets a process use what it has open.
fn holds_stdio(promises: Promises) -> bool
    ensures { result ≡ holds_stdio promises }
{
    match Promises::read(b"stdio") {
        Ok(stdio) => promises.contains(stdio),
        Err(_) => false,
    }
}
