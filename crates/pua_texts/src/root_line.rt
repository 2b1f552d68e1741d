//! What a list says of the root of a process.

ghost use Rattle.std.specs.Prelude.{◌≡◌, IfOk, string_bytes};
ghost use Rattle.pua_texts.specs.RootLines.{root_line, root_path, word_of};

use pua_objects::Shown;
use pua_policy::Process;
use pua_tree::{FileTree, Kind, NodeId, OutOfMemory};
use pua_why::TreePaths;
use std::alloc::Global;
use std::fmt::Write;

/// The line of the root of a process, unless that is the root of the tree. The only error is that a
/// growth was refused.
pub(crate) fn root_text<T: FileTree>(
    alloc: Global,
    tree: &T,
    process: &Process,
) -> Result<String, OutOfMemory>
    ensures { IfOk result (λ text.
        string_bytes text ≡ root_line (T.content tree.now) process.now) }
{
    let root = process.start().root;
    let mut text = String::new(alloc);
    if root == NodeId::ROOT {
        return Ok(text);
    }
    let path = root_path(alloc, tree, root)?;
    let word = root_word(Shown::of(alloc, tree, process)?);
    writeln!(text, "root {path} {word}")?;
    Ok(text)
}

/// Where a directory stands; `-` where it was removed. The only error is that a growth was refused.
fn root_path<T: FileTree>(alloc: Global, tree: &T, root: NodeId) -> Result<String, OutOfMemory>
    ensures { IfOk result (λ path. string_bytes path ≡ root_path (T.content tree.now) root) }
{
    let mut path = String::new(alloc);
    if tree.kind(root) == Some(Kind::Dir) {
        let mut paths = TreePaths::new(alloc, tree)?;
        paths.push_dir(&mut path, root)?;
    } else {
        path.push_str("-")?;
    }
    Ok(path)
}

/// Whether all paths stay in a root that is not that of the tree.
fn root_word(shown: Shown) -> &'static str
    ensures { result.now ≡ word_of shown }
{
    match shown {
        Shown::All => "open",
        Shown::Below(_) => "closed",
    }
}
