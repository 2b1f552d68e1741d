//! The form of a tree's listing, the lines before those of its names, and the words of kinds.

ghost use Rattle.std.specs.Prelude.{◌≡◌};
ghost use Rattle.std.specs.List.{list_any};
ghost use Rattle.pua_tree.specs.Grammar.{listing_kind_word};
ghost use Rattle.pua_tree.specs.Tree.{node_at};
ghost use Rattle.pua_listing.specs.Listed.{form_for, head_text, is_typed};

use pua_tree::{FileTree, Form, Kind, LentRow, MOST_LISTED, MOST_NAMES, NodeId};

/// Whether something that the third form alone knows has a name in a tree, whose rows are all given:
/// a file of a known type, or a directory at which another file system is mounted.
pub(crate) fn has_types<T: FileTree>(tree: &T, rows: &[LentRow<'_>]) -> bool
    ensures { result ≡ list_any (λ row. is_typed (node_at (T.content tree.now) row.node)) rows.now }
{
    rows.iter().any(|row| is_typed(tree, row.node))
}

/// Whether a node is a file of a known type, or a directory at which another file system is mounted.
fn is_typed<T: FileTree>(tree: &T, node: NodeId) -> bool
    ensures { result ≡ is_typed (node_at (T.content tree.now) node) }
{
    tree.is_mount(node) || matches!(tree.kind(node), Some(Kind::Known(_)))
}

/// The form of the listing of a tree, in which the third form alone knows something or nothing, and
/// a node has two names or none has.
pub(crate) fn form_for<T: FileTree>(tree: &T, types: bool, second_names: bool) -> Form
    ensures { result ≡ form_for (T.content tree.now) types second_names }
{
    let wide = tree.most_names() > MOST_NAMES || tree.row_count() >= MOST_LISTED as usize;
    match (types || wide, second_names) {
        (true, _) => Form::Third,
        (false, true) => Form::Second,
        (false, false) => Form::First,
    }
}

/// The first line of a listing, and that of the root.
pub(crate) fn head(form: Form) -> &'static [u8]
    ensures { result.now ≡ head_text form }
{
    match form {
        Form::First => b"tree 1\n0 dir\n",
        Form::Second => b"tree 2\n0 dir\n",
        Form::Third => b"tree 3\n0 dir\n",
    }
}

/// The word of a kind in lines of this form: a file of which no more is known has one of its own
/// where types are known, and so has a directory at which another file system is mounted.
pub(crate) fn kind_word(form: Form, mount: bool, kind: Kind) -> &'static str
    ensures { result.now ≡ listing_kind_word form mount kind }
{
    match (form, kind) {
        (_, Kind::Dir) if mount => "mount",
        (Form::Third, Kind::File) => "any",
        (_, kind) => kind.word(),
    }
}
