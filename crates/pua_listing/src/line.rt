//! The lines of a listing.

ghost use Rattle.std.specs.Prelude.{◌≡◌, ◌++◌, ◌∷◌, [], OnOk, IsTrue, decimal, option_map};
ghost use Rattle.std.specs.List.{list_all};
ghost use Rattle.pua_tree.specs.Grammar.{entry_text, is_mount_made, last_field, line_word};
ghost use Rattle.pua_tree.specs.Spelling.{spelling};
ghost use Rattle.pua_tree.specs.Tree.{node_at};
ghost use Rattle.pua_listing.specs.Entries.{entry_for, is_byte, leads_to_bytes, made_under};
ghost use Rattle.pua_listing.specs.Lent.{row_held};
ghost use Rattle.pua_listing.specs.Numbers.{number_in, node_made, kind_made};

use crate::form::kind_word;
use crate::numbers::Numbers;
use crate::order::TreeRow;
use itoa::Buffer;
use pua_tree::{FileTree, Form, Kind, NodeId, OutOfMemory, byte_spelling};

/// What a line makes: a node of this kind, where it leads if it is a link, and whether another file
/// system is mounted there.
#[derive(Clone, Copy)]
pub(crate) struct MadeNode<'t> {
    pub(crate) kind: Kind,
    pub(crate) target: Option<&'t [u8]>,
    pub(crate) mount: bool,
}

/// Adds the line of a row under its number, in a form. The only error is that a growth was refused.
pub(crate) fn add_line<T: FileTree>(
    text: &mut Vec<u8>,
    tree: &T,
    form: Form,
    numbers: &Numbers,
    number: usize,
    row: &TreeRow<'_>,
) -> Result<(), OutOfMemory>
    ensures line { OnOk result (text.new.items ≡ text.old.items ++ (entry_text form
        (entry_for (T.content tree.now) (number_in numbers.now) number (row_held row.now))
        ++ 10 ∷ [])) }
    ensures bytes { OnOk result (IsTrue (leads_to_bytes
        (made_under (T.content tree.now) (number_in numbers.now) number row.now.node))) }
{
    let node = numbers.number(row.node);
    let made = if node == number {
        node_of(tree, row.node)
    } else {
        None
    };
    add_front(text, form, number, made, numbers.number(row.dir))?;
    add_spelled(text, row.name.bytes())?;
    add_last(text, node, made)?;
    text.push(b'\n')?;
    Ok(())
}

/// What the first line of a node makes.
fn node_of<T: FileTree>(tree: &T, node: NodeId) -> Option<MadeNode<'_>>
    ensures { option_map node_made result ≡ node_at (T.content tree.now) node }
{
    let kind = tree.kind(node)?;
    let target = tree.target(node);
    let mount = tree.is_mount(node);
    Some(MadeNode {
        kind,
        target,
        mount,
    })
}

/// Adds the fields before the name: the line's number, its word and the number of the directory.
fn add_front(
    text: &mut Vec<u8>,
    form: Form,
    number: usize,
    made: Option<MadeNode<'_>>,
    parent: usize,
) -> Result<(), OutOfMemory>
    ensures { OnOk result (text.new.items ≡ text.old.items ++ (decimal number
        ++ 32 ∷ line_word form (is_mount_made (option_map node_made made.entry))
        (kind_made made.entry) ++ 32 ∷ decimal parent)) }
{
    let mut digits = Buffer::new();
    text.extend_from_slice(digits.format(number).as_bytes())?;
    add_field(text, word(form, made).as_bytes())?;
    add_number(text, parent)
}

/// The word of a line: that of the kind of what it makes, if it makes something, or that of a mount.
fn word(form: Form, made: Option<MadeNode<'_>>) -> &'static str
    ensures { result.now ≡ line_word form (is_mount_made (option_map node_made made.entry))
        (kind_made made.entry) }
{
    match made {
        Some(made) => kind_word(form, made.mount, made.kind),
        None => "hard",
    }
}

/// Adds what a line has after the name: the target of a link, and the number of the node where the
/// line makes none.
fn add_last(text: &mut Vec<u8>, node: usize, made: Option<MadeNode<'_>>) -> Result<(), OutOfMemory>
    ensures last { OnOk result (text.new.items
        ≡ text.old.items ++ last_field node (option_map node_made made.entry)) }
    ensures bytes { OnOk result (IsTrue (leads_to_bytes (option_map node_made made.entry))) }
{
    let Some(made) = made else {
        return add_number(text, node);
    };
    match made.target {
        Some(target) => add_spelled(text, target),
        None => Ok(()),
    }
}

/// Adds a field that is a number.
fn add_number(text: &mut Vec<u8>, number: usize) -> Result<(), OutOfMemory>
    ensures { OnOk result (text.new.items ≡ text.old.items ++ (32 ∷ decimal number)) }
{
    let mut digits = Buffer::new();
    add_field(text, digits.format(number).as_bytes())
}

/// Adds a field: a blank before it, and its bytes.
fn add_field(text: &mut Vec<u8>, field: &[u8]) -> Result<(), OutOfMemory>
    ensures { OnOk result (text.new.items ≡ text.old.items ++ (32 ∷ field.now)) }
{
    text.push(b' ')?;
    text.extend_from_slice(field)?;
    Ok(())
}

/// Adds a field that spells some bytes.
fn add_spelled(text: &mut Vec<u8>, bytes: &[u8]) -> Result<(), OutOfMemory>
    ensures field { OnOk result (text.new.items ≡ text.old.items ++ (32 ∷ spelling bytes.now)) }
    ensures bytes { IsTrue (list_all is_byte bytes.now) }
{
    text.push(b' ')?;
    for byte in bytes {
        text.extend_from_slice(byte_spelling(*byte).as_bytes())?;
    }
    Ok(())
}
