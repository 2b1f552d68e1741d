//! The listing of a tree.

ghost use Rattle.std.specs.Prelude.{◌≡◌, ◌≢◌, ◌++◌, Ok, Err, IfOk, IfErr, OnOk};
ghost use Rattle.std.specs.Prelude.{IsTrue, map};
ghost use Rattle.std.specs.List.{list_all};
ghost use Rattle.pua_tree.specs.Grammar.{entry_text};
ghost use Rattle.pua_listing.specs.Entries.{entries, entries_from, leads_to_bytes};
ghost use Rattle.pua_listing.specs.Lent.{rows_held};
ghost use Rattle.pua_listing.specs.Listed.{listed, listing_text, text_of_lines};
ghost use Rattle.pua_listing.specs.Numbers.{number_in};
ghost use Rattle.pua_listing.specs.Same.{ReadsBack};

use crate::fault::ListFault;
use crate::form::{form_for, has_types, head};
use crate::line::add_line;
use crate::numbers::Numbers;
use crate::order::{TreeRow, in_order};
use pua_tree::{FileTree, Form, MOST_WIDE, OutOfMemory};
use std::alloc::Global;

/// The listing of a tree: a text that is read as the same tree, but for the numbers of nodes and
/// for how many names it may have, which are those of the listing's form.
///
/// Each name has a line, which is followed by the lines beneath it; lines are numbered from 1 on,
/// and names come in the order of their bytes. The form is the first where no node has two names,
/// else the second, but the third where the type of some file is known, a file system is mounted at
/// a directory, or the tree may have more than 65,535 names, or has 4,096 or more beside the root.
/// `ListFault::TooManyNames` comes where it has 1,000,000 or more beside the root, and is judged
/// first; `ListFault::OutOfMemory` only where a growth was refused.
#[tactic(auto, using(crate::proofs::ReadBack::listed_few, crate::proofs::ReadBack::listed_many, crate::proofs::ReadBack::text_reads_back))]
pub fn list_tree<T: FileTree>(alloc: Global, tree: &T) -> Result<Vec<u8>, ListFault>
    ensures text { IfOk result (λ text. listed (T.content tree.now) ≡ Ok text.items) }
    ensures same { IfOk result (λ text. ReadsBack (T.content tree.now) text.items) }
    ensures fault { IfErr result (λ fault. fault ≢ ListFault.OutOfMemory →
        listed (T.content tree.now) ≡ Err fault) }
{
    if tree.row_count() >= MOST_WIDE as usize {
        return Err(ListFault::TooManyNames);
    }
    tree.known();
    Ok(text_of(alloc, tree)?)
}

/// The text of a tree's listing. The only error is that a growth was refused.
fn text_of<T: FileTree>(alloc: Global, tree: &T) -> Result<Vec<u8>, OutOfMemory>
    ensures text { IfOk result (λ text. text.items ≡ listing_text (T.content tree.now)) }
    ensures bytes { OnOk result (IsTrue
        (list_all (λ e. leads_to_bytes e.made) (entries (T.content tree.now)))) }
{
    tree.known();
    let rows = tree.rows(alloc)?;
    let order = in_order(alloc, &rows)?;
    let numbers = Numbers::of(alloc, &order)?;
    let form = form_for(tree, has_types(tree, &rows), numbers.second_lines);
    let mut text = Vec::from_slice(alloc, head(form))?;
    add_lines(&mut text, tree, form, &numbers, &order)?;
    Ok(text)
}

/// Adds the lines of rows in their order, in a form. The only error is that a growth was refused.
fn add_lines<T: FileTree>(
    text: &mut Vec<u8>,
    tree: &T,
    form: Form,
    numbers: &Numbers,
    order: &[TreeRow<'_>],
) -> Result<(), OutOfMemory>
    ensures text { OnOk result (text.new.items ≡ text.old.items ++ text_of_lines (map (entry_text form)
        (entries_from (T.content tree.now) (number_in numbers.now) 1 (rows_held order.now)))) }
    ensures bytes { OnOk result (IsTrue (list_all (λ e. leads_to_bytes e.made)
        (entries_from (T.content tree.now) (number_in numbers.now) 1 (rows_held order.now)))) }
{
    for (place, row) in order.iter().enumerate() {
        add_line(text, tree, form, numbers, place + 1, row)?;
    }
    Ok(())
}
