//! The rows of a list for ever at or below a path.

ghost use Rattle.std.specs.Prelude.{◌≡◌, ◌≢◌, [], Some, Ok, Err, IfOk, IfErr, OnOk};
ghost use Rattle.pua_tool.specs.EverHowTexts.{below_asked, is_known};
ghost use Rattle.pua_tool.specs.RowsBelow.{IsKeptBelow, is_row_below, row_below, rows_below};
ghost use Rattle.pua_tool.specs.Texts.{given_bytes};
ghost use Rattle.pua_ever.specs.EverList.{word_of_row};

use crate::fault::ToolFault;
use pua_calls::Calls;
use pua_ever::{EverLine, EverRow, EverThing, LastingList};
use pua_how::{PathQuestion, Target, find_meant};
use pua_policy::Process;
use pua_tree::{FileTree, Name};
use std::alloc::{AllocError, Global};

/// The list of a process, without calls on what is not at or below a path, if one is given.
/// `BelowPath` where that is none as a list prints it, and `BelowThing` where nothing stands there
/// and the name has no veil of its own; `OutOfMemory` where a growth was refused.
pub(crate) fn keep_below<'t, T: FileTree>(
    alloc: Global,
    tree: &T,
    process: &Process,
    path: Option<&[u8]>,
    list: LastingList<'t>,
) -> Result<LastingList<'t>, ToolFault>
    ensures rows { IfOk result (λ kept. IsKeptBelow (T.content tree.now) process.now
        (given_bytes path.entry) list.entry.rows.items kept.rows.items) }
    ensures execs { IfOk result (λ kept. kept.execs ≡ list.entry.execs) }
    ensures refused { IfErr result (λ fault. fault ≢ ToolFault.OutOfMemory →
        below_asked (T.content tree.now) process.now (given_bytes path.entry) ≡ Err fault) }
{
    let Some(path) = path else {
        return Ok(list);
    };
    let names = names_of(alloc, tree, process, path)?;
    let rows = rows_below(alloc, names.as_slice(), list.rows.as_slice())?;
    Ok(LastingList {
        rows,
        execs: list.execs,
    })
}

/// The names of a path at or below which lines are asked for.
fn names_of<T: FileTree>(
    alloc: Global,
    tree: &T,
    process: &Process,
    path: &[u8],
) -> Result<Vec<Name>, ToolFault>
    ensures names { IfOk result (λ names.
        below_asked (T.content tree.now) process.now (Some path.now) ≡ Ok (Some names.items)) }
    ensures refused { IfErr result (λ fault. fault ≢ ToolFault.OutOfMemory →
        below_asked (T.content tree.now) process.now (Some path.now) ≡ Err fault) }
{
    let Some(asking) = PathQuestion::read(alloc, path)? else {
        return Err(ToolFault::BelowPath);
    };
    let meant = find_meant(alloc, tree, process, &asking, None)?;
    match asking {
        PathQuestion::Making => Err(ToolFault::BelowPath),
        PathQuestion::Standing(names) => {
            if !is_known(meant.targets.as_slice()) {
                return Err(ToolFault::BelowThing);
            }
            Ok(names)
        }
    }
}

/// Whether more is meant than one of the further names of a directory.
fn is_known(targets: &[Target]) -> bool
    ensures { result ≡ is_known targets.now }
{
    match targets.first() {
        None | Some(Target::Others(_)) => false,
        Some(_) => true,
    }
}

/// The rows, without calls where what they are about is not at or below the path of these names.
/// The only error is that a growth was refused.
fn rows_below<'t>(
    alloc: Global,
    path: &[Name],
    rows: &[EverRow<'t>],
) -> Result<Vec<EverRow<'t>>, AllocError>
    ensures { IfOk result (λ kept. kept.items ≡ rows_below path.now [] rows.now) }
{
    let mut word = Vec::new(alloc);
    let mut kept = Vec::with_capacity(alloc, rows.len())?;
    for row in rows {
        go_on(&mut word, row)?;
        let Ok(()) = kept.push(row_below(path, word.as_slice(), row)) else {
            return Err(AllocError);
        };
    }
    Ok(kept)
}

/// Makes the names that lead to the row before those that lead to this one. The only error is that
/// a growth was refused.
fn go_on(word: &mut Vec<Name>, row: &EverRow<'_>) -> Result<(), AllocError>
    ensures { OnOk result (word.new.items ≡ word_of_row word.old.items row.now) }
{
    word.truncate(row.depth);
    if let Some(name) = row.name {
        word.push(*name)?;
    }
    Ok(())
}

/// The row to which these names lead, without calls where it is not at or below the path.
fn row_below<'t>(path: &[Name], word: &[Name], row: &EverRow<'t>) -> EverRow<'t>
    ensures { result ≡ row_below path.now word.now row.now }
{
    let calls = if is_row_below(path, word, row) {
        row.line.calls
    } else {
        Calls::NONE
    };
    EverRow {
        depth: row.depth,
        name: row.name,
        about: row.about,
        line: EverLine {
            thing: row.line.thing,
            calls,
        },
        inside: row.inside,
    }
}

/// Whether what stands or could stand now where these names lead is at or below the path.
fn is_row_below(path: &[Name], word: &[Name], row: &EverRow<'_>) -> bool
    ensures { result ≡ is_row_below path.now word.now row.now }
{
    match row.line.thing {
        EverThing::Stands(_) => word.starts_with(path),
        EverThing::Comes(_) => false,
    }
}
