//! The reader of listings: one pass over the lines, each judged against those before it. It fills
//! whatever tree takes its entries.

ghost use Rattle.std.specs.Prelude.{ℕ, List, ◌≡◌, ◌≢◌, ◌≤◌, ◌+◌, ◌++◌, ◌∷◌, [], Some, Ok, Err};
ghost use Rattle.std.specs.Prelude.{MatchResult, MatchOption, OnOk, OnErr, IfOk, IfErr, nat_lt};
ghost use Rattle.std.specs.Prelude.{length, option_map, IsTrue, not, ◌&&◌, min, ◌/◌, true};
ghost use Rattle.std.specs.Prelude.{if◌then◌else◌};
ghost use Rattle.std.specs.Bool.{OnTrue, OnFalse};
ghost use Rattle.pua_tree.specs.Limits.{highest_listed};
ghost use Rattle.pua_tree.specs.Spelling.{number_within};
ghost use Rattle.pua_tree.specs.Tree.{is_dir, is_dir_kind, is_living, target_fits};
ghost use Rattle.pua_tree.specs.Lines.{line_read};
ghost use Rattle.pua_tree.specs.Listing.{listing, listing_of_lines, after_header, entry_of};
ghost use Rattle.pua_tree.specs.Listing.{entries_of, entry_or_fault, only_if, node_of};
ghost use Rattle.pua_tree.specs.Listing.{most_lines_of};
ghost use Rattle.pua_tree.specs.Listing.{Entry as Said};
ghost use Rattle.pua_tree.specs.Reading.{Gathers, entry_said, said_node};

use crate::fault::ListingFault;
use crate::field::number_within;
use crate::form::Form;
use crate::gathered::{Gathered, LineEntry, LineNode, MadeNode};
use crate::line::{ListingLine, read_line};
use crate::link_target::is_target;
use crate::list::ListTree;
use crate::name::{LentName, Name};
use crate::node::{Kind, NodeId};
use crate::slab_tree::SlabTree;
use crate::spelling::unspelled;
use crate::spot::Spot;
use crate::tree::FileTree;
use bstr::{ByteSlice, Lines};
use std::alloc::Global;

/// The greatest number that a listing has (this program's format).
pub const HIGHEST_LISTED: u32 = 999_999;

/// The tree of which the bytes are a listing, under the numbers of the listing. The format is this
/// program's own. The fault is that of the first line that has one; `ListingFault::OutOfMemory`
/// comes only where a growth was refused.
pub fn read_listing(alloc: Global, bytes: &[u8]) -> Result<ListTree, ListingFault>
    ensures ok { IfOk result (λ tree. listing bytes.now ≡ Ok tree) }
    ensures err { IfErr result (λ fault. fault ≢ ListingFault.OutOfMemory →
        listing bytes.now ≡ Err fault) }
{
    read_tree(alloc, bytes)
}

/// The same tree by the same rules, with the same faults, kept in slots that are used again.
pub fn read_listing_slab(alloc: Global, bytes: &[u8]) -> Result<SlabTree, ListingFault>
    ensures ok { IfOk result (λ tree. listing bytes.now ≡ Ok tree) }
    ensures err { IfErr result (λ fault. fault ≢ ListingFault.OutOfMemory →
        listing bytes.now ≡ Err fault) }
{
    read_tree(alloc, bytes)
}

/// The tree of which the bytes are a listing, kept in any way.
fn read_tree<T: Gathered>(alloc: Global, bytes: &[u8]) -> Result<T, ListingFault>
    ensures ok { IfOk result (λ tree. listing bytes.now ≡ Ok (T.content tree)) }
    ensures err { IfErr result (λ fault. fault ≢ ListingFault.OutOfMemory
        → listing bytes.now ≡ Err fault) }
{
    let mut lines = bytes.lines();
    let Some(form) = take_header(&mut lines) else {
        return Err(ListingFault::BadHeader);
    };
    if !take_line(&mut lines, b"0 dir") {
        return Err(ListingFault::BadLine(2));
    }
    let Reading { tree, .. } = read_entries(alloc, form, most_rows(form, bytes), lines)?;
    Ok(tree)
}

/// As many rows as a listing of this form and of so many bytes may have, for which memory is taken
/// at once: a line of a row has ten bytes or more with its end.
fn most_rows(form: Form, bytes: &[u8]) -> usize
    ensures { result ≡ min (length bytes.now / 10) (most_lines_of form) }
{
    (bytes.len() / 10).min(form.most_lines() as usize)
}

/// Takes the first line. Answers the form that it says, and None where it is not there or is no
/// listing's.
fn take_header(lines: &mut Lines<'_>) -> Option<Form>
    ensures { MatchOption result (listing_of_lines lines.old ≡ Err ListingFault.BadHeader)
        (λ form. listing_of_lines lines.old ≡ after_header form lines.new) }
{
    let line = lines.next()?;
    if line == b"tree 1".as_slice() {
        Some(Form::First)
    } else if line == b"tree 2".as_slice() {
        Some(Form::Second)
    } else if line == b"tree 3".as_slice() {
        Some(Form::Third)
    } else {
        None
    }
}

/// Takes the next line. Answers whether there is one, and it is this.
fn take_line(lines: &mut Lines<'_>, text: &[u8]) -> bool
    ensures this { OnTrue result (lines.old ≡ text.now ∷ lines.new) }
    ensures other { OnFalse result ((rest : List (List ℕ)) → lines.old ≢ text.now ∷ rest) }
{
    match lines.next() {
        Some(line) => line == text,
        None => false,
    }
}

/// The tree of the lines so far, the greatest number among them, and the listing's form.
/// The spot of each line is written over the one before.
#[derive(Drop)]
struct Reading<T> {
    form: Form,
    tree: T,
    greatest: u32,
    spot: Spot,
}

/// Reads the lines after the first two, with room for so many rows.
fn read_entries<T: Gathered>(
    alloc: Global,
    form: Form,
    rows: usize,
    lines: Lines<'_>,
) -> Result<Reading<T>, ListingFault>
    ensures ok { IfOk result (λ reading. (es : List Said)
        × Gathers form (T.content reading.tree) reading.greatest es
        × (entries_of form [] 3 lines.entry ≡ Ok es)) }
    ensures err { IfErr result (λ fault. fault ≢ ListingFault.OutOfMemory
        → entries_of form [] 3 lines.entry ≡ Err fault) }
{
    let mut reading = Reading::new(alloc, form, rows)?;
    let mut room = [0; Name::MOST];
    let mut n = 2;
    for text in lines {
        n += 1;
        reading.read(alloc, n, text, &mut room)?;
    }
    Ok(reading)
}

impl<T: Gathered> Reading<T> {
    /// The root alone, with room for so many rows.
    fn new(alloc: Global, form: Form, rows: usize) -> Result<Reading<T>, ListingFault>
        ensures ok { IfOk result (λ reading. Gathers form (T.content reading.tree) reading.greatest
            []) }
        ensures form { IfOk result (λ reading. reading.form ≡ form) }
        ensures err { OnErr result (result ≡ Err ListingFault.OutOfMemory) }
    {
        let tree = T::root_alone(alloc, rows, form.most_names())?;
        let spot = Spot {
            dir: NodeId::ROOT,
            name: Name::any(),
        };
        Ok(Reading {
            form,
            tree,
            greatest: 0,
            spot,
        })
    }

    /// Reads line `n`, which comes after those read so far. There is room for a name with escapes.
    fn read(
        &mut self,
        alloc: Global,
        n: u32,
        text: &[u8],
        room: &mut [u8; Name::MOST],
    ) -> Result<(), ListingFault>
        ensures room { OnOk result (n ≤ most_lines_of self.old.form) }
        ensures form { self.new.form ≡ self.old.form }
        ensures exact { (es : List Said)
            → Gathers self.old.form (T.content self.old.tree) self.old.greatest es
            → n ≡ length es + 3 → MatchResult result
            (λ _. (e : Said) × (entry_of self.old.form es n text.now ≡ Ok e)
            × Gathers self.old.form (T.content self.new.tree) self.new.greatest (es ++ e ∷ []))
            (λ fault. fault ≢ ListingFault.OutOfMemory
            → entry_of self.old.form es n text.now ≡ Err fault) }
    {
        let entry = self.entry(alloc, n, text, room)?;
        self.spot.dir = entry.parent;
        self.spot.name.overwrite(entry.name);
        let most = self.form.most_lines();
        if n > most {
            return Err(match self.tree.row_at(&self.spot) {
                Some(_) => ListingFault::Taken(n),
                None => ListingFault::TooMany(n),
            });
        }
        self.greatest = entry.stands.number;
        if !self.tree.put(&self.spot, entry.stands)? {
            return Err(ListingFault::Taken(n));
        }
        Ok(())
    }

    /// What line `n` says, whether or not its name is free and there is room for it.
    fn entry<'a>(
        &self,
        alloc: Global,
        n: u32,
        text: &'a [u8],
        room: &'a mut [u8; Name::MOST],
    ) -> Result<LineEntry<'a>, ListingFault>
        ensures { (es : List Said)
            → Gathers self.now.form (T.content self.now.tree) self.now.greatest es
            → MatchResult result
            (λ e. entry_of self.now.form es n text.now ≡ entry_or_fault self.now.form es n (entry_said e))
            (λ fault. fault ≢ ListingFault.OutOfMemory
            → entry_of self.now.form es n text.now ≡ Err fault) }
    {
        let Some(line) = read_line(self.form, text) else {
            return Err(ListingFault::BadLine(n));
        };
        let Some(number) = number_after(self.greatest, line.number) else {
            return Err(ListingFault::BadNumber(n));
        };
        let Some(parent) = dir_in(&self.tree, line.parent) else {
            return Err(ListingFault::BadParent(n));
        };
        let Ok(name) = LentName::read(line.name, room) else {
            return Err(ListingFault::BadName(n));
        };
        let (node, made) = self.node_of(alloc, n, number, &line)?;
        let stands = LineNode { number, node, made };
        Ok(LineEntry {
            parent,
            name,
            stands,
        })
    }

    /// The node of the row that line `n` says, and what the line makes under its number.
    fn node_of(
        &self,
        alloc: Global,
        n: u32,
        number: u32,
        line: &ListingLine<'_>,
    ) -> Result<(NodeId, Option<MadeNode>), ListingFault>
        ensures { (es : List Said)
            → Gathers self.now.form (T.content self.now.tree) self.now.greatest es
            → MatchResult result
            (λ found. node_of es n number (line_read line.now) line.now.kind
            ≡ Ok (found.0, option_map said_node found.1))
            (λ fault. fault ≢ ListingFault.OutOfMemory
            → node_of es n number (line_read line.now) line.now.kind ≡ Err fault) }
    {
        match line.kind {
            None => match other_in(&self.tree, line.last) {
                Some(node) => Ok((node, None)),
                None => Err(ListingFault::BadNode(n)),
            },
            Some(kind) => {
                let target = target_of(alloc, n, kind, line)?;
                let mount = is_mounted(line, kind);
                let made = MadeNode {
                    kind,
                    target,
                    mount,
                };
                Ok((NodeId::new(number), Some(made)))
            }
        }
    }
}

/// Whether a line that makes a node of this kind makes a directory at which another file system is
/// mounted.
fn is_mounted(line: &ListingLine<'_>, kind: Kind) -> bool
    ensures mount { result ≡ (is_dir_kind (Some kind) && line.now.mount) }
    ensures dir { IsTrue (if result then is_dir_kind (Some kind) else true) }
{
    match kind {
        Kind::Dir => line.mount,
        _ => false,
    }
}

/// The number that a text writes, if it is one of a listing and above the last.
fn number_after(last: u32, text: &[u8]) -> Option<u32>
    ensures { result ≡ only_if (λ n. nat_lt last n) (number_within 1 highest_listed text.now) }
{
    number_within(1, HIGHEST_LISTED, text).filter(|number| *number > last)
}

/// The directory of the tree whose number a text writes.
fn dir_in<T: FileTree>(tree: &T, text: &[u8]) -> Option<NodeId>
    ensures { result
        ≡ only_if (is_dir (T.content tree.now)) (number_within 0 highest_listed text.now) }
{
    let id = NodeId::new(number_within(0, HIGHEST_LISTED, text)?);
    (tree.kind(id) == Some(Kind::Dir)).then_some(id)
}

/// The node of the tree, and no directory, whose number a text writes.
fn other_in<T: FileTree>(tree: &T, text: &[u8]) -> Option<NodeId>
    ensures { result
        ≡ only_if (λ x. is_living (T.content tree.now) x && not (is_dir (T.content tree.now) x))
        (number_within 1 highest_listed text.now) }
{
    let id = NodeId::new(number_within(1, HIGHEST_LISTED, text)?);
    match tree.kind(id) {
        None | Some(Kind::Dir) => None,
        Some(_) => Some(id),
    }
}

/// The target of line `n`, which makes a node of this kind: a link has one, and nothing else.
fn target_of(
    alloc: Global,
    n: u32,
    kind: Kind,
    line: &ListingLine<'_>,
) -> Result<Option<Vec<u8>>, ListingFault>
    ensures ok { IfOk result (λ target. (es : List Said) (number : ℕ)
        → node_of es n number (line_read line.now) (Some kind)
        ≡ Ok (
          number,
          Some (record {
            kind = kind;
            target = option_map (λ t. t.items) target;
            mount = is_dir_kind (Some kind) && line.now.mount;
          }),
        )) }
    ensures fits { IfOk result (λ target.
        IsTrue (target_fits kind (option_map (λ t. t.items) target))) }
    ensures err { IfErr result (λ fault. fault ≢ ListingFault.OutOfMemory
        → (es : List Said) (number : ℕ)
        → node_of es n number (line_read line.now) (Some kind) ≡ Err fault) }
{
    if kind != Kind::Link {
        return Ok(None);
    }
    match unspelled(alloc, line.last)? {
        Some(target) if is_target(target.as_slice()) => Ok(Some(target)),
        _ => Err(ListingFault::BadTarget(n)),
    }
}
